//! One row of a table.

ghost use Rattle.std.specs.Prelude.{◌≡◌, ℕ, List, IfNone, IfSome, IsSome};
ghost use Rattle.graph_eval.specs.GraphValue.{Value, SingularAt};
ghost use Rattle.graph_eval.specs.declared.outcome.Cause.{Cause};
ghost use Rattle.parallel_sampler.specs.Filled.{HasRoom, kept_row, taken, told_in};

use graph_eval::{Outcome, Singular};
use std::mem;

/// What a graph has at one point. The row is empty while no outcome is kept.
#[derive(Debug, Drop)]
pub(crate) struct Row {
    pub(crate) outcome: Option<Outcome>,
    pub(crate) words: Vec<u64>,
}

impl Row {
    /// The values of a row that is not empty, where it has values.
    pub(crate) fn values(&self) -> Option<&[u64]>
        requires { IsSome self.now.outcome }
        ensures some { IfSome result (λ values. told_in self.now ≡ Value values.now) }
        ensures none { IfNone result ((node : ℕ) × (cause : Cause) × (told_in self.now ≡ SingularAt node cause)) }
    {
        match self.outcome {
            Some(Outcome::Singular(_)) => None,
            _ => Some(self.words.as_slice()),
        }
    }

    /// The node without a value that a row which is not empty tells, where it tells one.
    pub(crate) fn singular(&self) -> Option<Singular>
        requires { IsSome self.now.outcome }
        ensures some { IfSome result (λ singular. told_in self.now ≡ SingularAt singular.node singular.cause) }
        ensures none { IfNone result ((values : List ℕ) × (told_in self.now ≡ Value values)) }
    {
        match self.outcome {
            Some(Outcome::Singular(singular)) => Some(singular),
            _ => None,
        }
    }

    /// Takes over the other row, if that one is not empty. Where both have the same room, it stays so.
    pub(crate) fn take_from(&mut self, other: &mut Row)
        ensures row { kept_row self.new ≡ taken (kept_row self.old) (kept_row other.old) }
        ensures room { (room : ℕ) → HasRoom room self.old → HasRoom room other.old → HasRoom room self.new }
    {
        if other.outcome.is_some() {
            mem::swap(self, other);
        }
    }
}
