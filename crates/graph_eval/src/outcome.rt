//! What a graph gives at a point.

ghost use Rattle.std.specs.Prelude.{◌≡◌};
ghost use Rattle.graph_eval.specs.Evaluated.{cause_told};

use thiserror::Error;

/// Why a node has no value.
#[derive(Clone, Copy, Debug, PartialEq, Eq, Error)]
pub enum Cause {
    /// A divisor is no unit.
    #[error("a divisor is no unit")]
    Division,
    /// A system of equations doesn't tell its unknowns by those that were learned.
    #[error("a system doesn't tell its unknowns by those that were learned")]
    System,
    /// An output of an expanded graph isn't a quotient within the degrees of the node.
    #[error("an output is no quotient of polynomials within the degrees")]
    Degree,
    /// The expansion of an output of a graph begins below the lowest order of the node.
    #[error("an expansion begins below the lowest order")]
    Pole,
}

/// The first node of a graph, by its place counted from 0, that has no value at a point.
#[derive(Clone, Copy, Debug, PartialEq, Eq)]
pub struct Singular {
    pub node: u32,
    pub cause: Cause,
}

/// The cause alone.
pub(crate) fn cause_told(answer: Result<(), Singular>) -> Result<(), Cause>
    ensures { result ≡ cause_told answer }
{
    match answer {
        Ok(()) => Ok(()),
        Err(singular) => Err(singular.cause),
    }
}

/// What a graph gives at a point: the list of its output, or a node without a value.
#[derive(Clone, Copy, Debug, PartialEq, Eq)]
pub enum Outcome {
    /// The output has a list, which was written where the call was told to.
    Defined,
    Singular(Singular),
}
