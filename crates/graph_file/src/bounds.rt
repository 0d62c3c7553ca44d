//! The bounds of a job's outputs, and the grid of degrees for them.
ghost use Rattle.std.specs.Prelude.{◌≡◌, ◌≢◌, ◌≤◌, ℕ, [], None, Some, slice_get};
ghost use Rattle.poly_maps.specs.declared.bound.Bounds.{Bounds as BoundsOf};
ghost use Rattle.ray_grid.specs.Grid.{IsGrid, bound_of, point_count};
ghost use Rattle.ray_grid.specs.Covering.{Covers};
ghost use Rattle.graph_file.specs.declared.job.Special.{Special as SpecialOf};
ghost use Rattle.graph_file.specs.Asked.{AreLow};
ghost use Rattle.graph_file.specs.Bounded.{AreBounds, main_variables};
ghost use Rattle.graph_file.specs.Bounding as spec;
ghost use Rattle.graph_file.specs.Says.{bounds_at, form, grid_of};

use crate::asked::{NO_BOUND, widened};
use crate::graph::Graph;
use crate::job::{Job, Special};
use poly_maps::{Bound, Bounds};
use ray_grid::Grid;

/// The bounds of the output with this number, or else those for every output.
fn bounds_among(special: &[Special], every: &Bounds, output: u32) -> Bounds
    ensures { result ≡ spec.bounds_among special.now every.now output }
{
    for own in special {
        if own.output == output {
            return own.bounds;
        }
    }
    *every
}

fn first_degrees(all: &Option<Bounds>) -> Bound
    requires { (bounds : BoundsOf) → all.now ≡ Some bounds → AreLow bounds }
    ensures { result ≡ spec.widest (spec.bounds_given all.now []) }
{
    match all {
        Some(bounds) => widened(&NO_BOUND, bounds),
        None => NO_BOUND,
    }
}

/// The greatest degrees of all bounds, numerator and denominator together.
fn widest(all: &Option<Bounds>, special: &[Special]) -> Bound
    requires every { (bounds : BoundsOf) → all.now ≡ Some bounds → AreLow bounds }
    requires own { (k : ℕ) (own : SpecialOf) → slice_get special.now k ≡ Some own → AreLow own.bounds }
    ensures { result ≡ spec.widest (spec.bounds_given all.now special.now) }
{
    let mut widest = first_degrees(all);
    for own in special {
        widest = widened(&widest, &own.bounds);
    }
    widest
}

fn variables(graphs: &[Graph]) -> u32
    requires { main_variables graphs.now ≤ 8 }
    ensures { result ≡ main_variables graphs.now }
{
    match graphs {
        [] => 0,
        [.., graph] => graph.inputs.len() as u32,
    }
}

impl Job {
    /// The bounds of the output with this number, counted from 1: its own, or else those of every output.
    pub fn bounds_of(&self, output: u32) -> Bounds
        requires { self.now.all ≢ None }
        ensures value { result ≡ bounds_at (form self.now) output }
        ensures bounds { AreBounds (main_variables self.now.graphs) result }
        ensures covered { Covers (bound_of (grid_of (form self.now))) result }
    {
        let Some(every) = self.all else {
            unreachable!()
        };
        bounds_among(self.special.as_slice(), &every, output)
    }

    /// The grid of degrees for all outputs: in each variable, and in all together, the greatest degree of a numerator and
    /// its denominator together. An attempt over it has at most 65536 points.
    pub fn grid(&self) -> Grid
        requires { self.now.all ≢ None }
        ensures value { result ≡ grid_of (form self.now) }
        ensures grid { IsGrid result }
        ensures few { point_count result ≤ 65536 }
    {
        let widest = widest(&self.all, self.special.as_slice());
        let each = widest.each;
        Grid {
            variables: variables(self.graphs.as_slice()),
            total: widest.total,
            each,
        }
    }
}
