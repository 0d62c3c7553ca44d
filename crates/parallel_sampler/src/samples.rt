//! Rows of samples.

ghost use Rattle.std.specs.Prelude.{◌≡◌, ℕ, ◌<◌, All, IsSome, List, Some, IfNone, IfSome, length, map, slice_get};
ghost use Rattle.graph_eval.specs.GraphValue.{Value, SingularAt};
ghost use Rattle.graph_eval.specs.declared.outcome.Cause.{Cause};
ghost use Rattle.parallel_sampler.specs.Filled.{told_in};
ghost use Rattle.parallel_sampler.specs.declared.row.Row.{Row as RowOf};

use crate::row::Row;
use graph_eval::{Outcome, Singular};
use std::marker::Model;

/// A row for each of some points, which contracts see as the list of what a graph has at them: the values of its outputs,
/// or the first node without a value.
#[derive(Debug, Drop)]
pub struct Samples {
    rows: Vec<Row>,
}

impl Model for Samples {
    ghost use Rattle.std.specs.Prelude.{All, IsSome, List, map};
    ghost use Rattle.graph_eval.specs.GraphValue.{Outcome};
    ghost use Rattle.parallel_sampler.specs.Filled.{told_in};
    ghost use Rattle.parallel_sampler.specs.declared.row.Row.{Row};

    ghost Value = { List Outcome };

    ghost view = { λ s. map told_in s.rows.items };

    ghost invariant = { λ s. All (λ (row : Row). IsSome row.outcome) s.rows.items };
}

impl Samples {
    /// The rows of a table, none of them empty.
    pub(crate) fn of(rows: Vec<Row>) -> Samples
        requires { All (λ (row : RowOf). IsSome row.outcome) rows.items }
        ensures { result ≡ map told_in rows.items }
    {
        Samples { rows }
    }

    /// How many rows there are.
    pub fn len(&self) -> usize
        ensures { result ≡ length self.now }
    {
        self.rows.len()
    }

    /// The values of row `i`, where it has values.
    pub fn values(&self, i: usize) -> Option<&[u64]>
        requires { i < length self.now }
        ensures some { IfSome result (λ values. slice_get self.now i ≡ Some (Value values.now)) }
        ensures none { IfNone result ((node : ℕ) × (cause : Cause) × (slice_get self.now i ≡ Some (SingularAt node cause))) }
    {
        self.rows[i].values()
    }

    /// The node that has no value at point `i`, where there is one.
    pub fn singular(&self, i: usize) -> Option<Singular>
        requires { i < length self.now }
        ensures some { IfSome result (λ singular. slice_get self.now i ≡ Some (SingularAt singular.node singular.cause)) }
        ensures none { IfNone result ((values : List ℕ) × (slice_get self.now i ≡ Some (Value values))) }
    {
        self.rows[i].singular()
    }
}
