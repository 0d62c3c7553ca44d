//! From a text to an expression.
ghost use Rattle.std.specs.Prelude.{◌≡◌, ◌≢◌, ◌<◌, ◌≤◌, ◌^◌, ℕ, List, IfErr, IfOk, length};
ghost use Rattle.ratfun_text.specs.Faults.{IsFaultless, IsFirst, error_at};
ghost use Rattle.ratfun_text.specs.Grammar.{ExprText, IsTreeOf, Spells};
ghost use Rattle.ratfun_text.specs.Names.{last_argument, names_of};
ghost use Rattle.ratfun_text.specs.Value.{greatest};
ghost use Rattle.ratfun_text.specs.declared.names.Names.{Names};
ghost use Rattle.ratfun_text.specs.declared.parse.ExprKind.{ExprKind};

use crate::builder::Builder;
use crate::bytes::is_blank;
use crate::expr::Expr;
use crate::names::Names;
use crate::tokens::run;
use std::alloc::{AllocError, Global};
use thiserror::Error;

/// Why a text gave no expression.
#[derive(Clone, Copy, Debug, PartialEq, Eq, Error)]
pub enum ExprKind {
    /// No expression begins with the text up to and with this byte, or the text ends before an expression does.
    #[error("unexpected")]
    Unexpected,
    /// A number is 2^128 or more, or an exponent is more than 65535.
    #[error("wide number")]
    WideNumber,
    /// A name is not among the names.
    #[error("unknown name")]
    UnknownName,
    /// More than 64 parentheses and signs in front of a factor are open.
    #[error("too deep")]
    TooDeep,
    /// There was no memory for the tree.
    #[error("out of memory")]
    NoMemory,
}

impl From<AllocError> for ExprKind {
    ghost use Rattle.std.specs.Prelude.{◌≡◌};
    ghost use Rattle.ratfun_text.specs.declared.parse.ExprKind.TheVariants.{NoMemory};

    ghost from_gives = { λ _ kind. kind ≡ NoMemory };

    fn from(_error: AllocError) -> ExprKind {
        ExprKind::NoMemory
    }
}

/// A refusal of a text, with its place in bytes, counted from 0.
#[derive(Clone, Copy, Debug, PartialEq, Eq, Error)]
#[error("{kind} at byte {place}")]
pub struct ExprError {
    /// Where the text goes wrong; 0 where memory ran out.
    pub place: usize,
    /// What is wrong.
    pub kind: ExprKind,
}

impl ExprError {
    fn at(place: usize, kind: ExprKind) -> ExprError
        ensures { result ≡ error_at place kind }
    {
        match kind {
            ExprKind::NoMemory => ExprError { place: 0, kind },
            _ => ExprError { place, kind },
        }
    }
}

/// Reads the expression that the text writes in these names.
///
///     expr   = term { ("+" | "-") term }
///     term   = factor { ("*" | "/") factor }
///     factor = "-" factor | power
///     power  = atom [ "^" number ]
///     atom   = number | name | "(" expr ")"
///
/// Spaces, tabs and carriage returns may stand before, between and after the tokens. A number is as many digits as
/// stand together, and a name a letter with as many letters, digits and underscores as follow it. The tree has no
/// node for parentheses, nor for a sum or a product of one part.
///
/// An error tells the fault with the least place, and of several there the first in the order of `ExprKind`. The place
/// of a number or a name is its first byte, that of `TooDeep` the parenthesis or the sign that is one too many, and
/// that of `Unexpected` the length of the text where the text ends too soon. Time grows with the length of the text
/// and with the number of names, and no call is nested: what is open lies on the heap.
pub fn parse_expr(alloc: Global, text: &[u8], names: &Names) -> Result<Expr, ExprError>
    requires few { length (names_of names.now) < 2 ^ 32 }
    ensures tree { IfOk result (λ tree. IsTreeOf names.now text.now tree) }
    ensures faultless { IfOk result (λ tree. IsFaultless names.now text.now) }
    ensures arguments { IfOk result (λ tree. greatest tree ≤ last_argument names.now) }
    ensures first { IfErr result (λ error. error.kind ≢ ExprKind.NoMemory → IsFirst names.now text.now error.place error.kind) }
    ensures memory { IfErr result (λ error. error.kind ≡ ExprKind.NoMemory → error.place ≡ 0) }
    ensures read { IsFaultless names.now text.now → IfErr result (λ error. error.kind ≡ ExprKind.NoMemory) }
{
    let mut builder = Builder::new(alloc);
    let mut at = 0;
    while at < text.len() {
        let first = text[at];
        if is_blank(first) {
            at += 1;
        } else {
            let end = at + 1 + run(first, &text[at + 1..]);
            match builder.read(names, &text[at..end]) {
                Ok(()) => at = end,
                Err(kind) => return Err(ExprError::at(at, kind)),
            }
        }
    }
    match builder.finish() {
        Ok(tree) => Ok(tree),
        Err(kind) => Err(ExprError::at(at, kind)),
    }
}

/// A text has at most one parse tree.
pub fn one_tree()
    ensures { (text : List ℕ) (a b : ExprText) → Spells a text → Spells b text → a ≡ b }
{}

/// At most one fault of a text is told.
pub fn one_fault()
    ensures { (names : Names) (text : List ℕ) (p q : ℕ) (k l : ExprKind) → IsFirst names text p k → IsFirst names text q l → (p ≡ q) × (k ≡ l) }
{}
