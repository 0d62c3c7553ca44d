use ratfun_text::ExprError;
use std::alloc::AllocError;
use thiserror::Error;

/// What is wrong with a line, in the order in which faults of one line are told.
#[derive(Clone, Copy, PartialEq, Eq, Debug, Error)]
pub enum FileKind {
    /// The line may not stand there, fits no pattern, has a byte that isn't allowed, or has another number of
    /// entries or degrees than there are variables.
    #[error("syntax")]
    Syntax,
    /// The file has another version than 1.
    #[error("version")]
    Version,
    /// The name of a graph, of a node of the graph or of a variable of the line, bounds for the same outputs or bounds for
    /// coefficients are given again.
    #[error("repeated")]
    Repeated,
    /// No earlier graph has the name.
    #[error("unknown graph")]
    UnknownGraph,
    /// No earlier node of the graph has the name, which isn't `input` either.
    #[error("unknown node")]
    UnknownNode,
    /// An entry of a point is 2^61 - 1 or more.
    #[error("residue")]
    Residue,
    /// A number is out of its range, a name too long, or there are too many of something.
    #[error("limit")]
    Limit,
    /// The expression with this number, counted from 1, is refused.
    #[error("expression {expression} {error}")]
    Expr { expression: u32, error: ExprError },
    /// The file ends before the output of its last graph, or where it is read for functions, without bounds for every output.
    #[error("missing")]
    Missing,
    /// There was no memory left.
    #[error("no memory")]
    NoMemory,
}

impl From<AllocError> for FileKind {
    ghost use Rattle.std.specs.Prelude.{◌≡◌};
    ghost use Rattle.graph_file.specs.declared.error.FileKind.TheVariants.{NoMemory};

    ghost from_gives = { λ _ kind. kind ≡ NoMemory };

    fn from(_error: AllocError) -> FileKind {
        FileKind::NoMemory
    }
}

/// Why a file was refused, and at which line, counted from 1. Line 0 stands for want of memory.
#[derive(Clone, Copy, PartialEq, Eq, Debug, Error)]
#[error("line {line}: {kind}")]
pub struct FileError {
    pub line: usize,
    pub kind: FileKind,
}
