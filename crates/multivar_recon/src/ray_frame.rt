//! Where the rays of an attempt begin, and the axes of their directions.

ghost use Rattle.std.specs.Prelude.{◌≡◌, ℕ, ◌+◌, ◌-◌, ◌^◌, ◌<◌, ◌≤◌, IfOk, length, slice_index};
ghost use Rattle.ray_grid.specs.Attempt.{shift, slopes};
ghost use Rattle.ray_grid.specs.Grid.{IsGrid, later_degrees};
ghost use Rattle.multivar_recon.specs.Frame.{AreSteps, AreDirectionAxes};

use crate::NoMemory;
use newton_interp::Axis;
use poly_maps::Point;
use ray_grid::{Grid, attempt};
use std::alloc::Global;

/// Where the rays of an attempt begin, and for each later variable the slopes of their directions. In the first variable
/// each direction is 1.
#[derive(Drop)]
pub(crate) struct RayFrame {
    pub(crate) start: Point,
    pub(crate) axes: Vec<Axis>,
}

/// The frame of the rays of attempt `r` over the grid.
pub(crate) fn ray_frame(alloc: Global, grid: &Grid, r: u32) -> Result<RayFrame, NoMemory>
    requires grid { IsGrid grid.now }
    requires known { r < 8 }
    ensures start { IfOk result (λ frame. frame.start ≡ shift r grid.now.variables) }
    ensures axes { IfOk result (λ frame. AreDirectionAxes 2 (slopes r grid.now.variables) (later_degrees grid.now) frame.axes.items) }
{
    let variables = grid.variables as usize;
    let one_ray = Grid {
        variables: grid.variables,
        total: 0,
        each: [0; 8],
    };
    let points = attempt(alloc, &one_ray, r)?;
    let first = points[0].entries();
    let direction = difference(points[1].entries(), first);
    let start = difference(first, &direction[..variables]);
    let axes = direction_axes(alloc, &direction[1..variables], &grid.each[1..variables])?;
    Ok(RayFrame {
        start: Point::of(&start[..variables]),
        axes,
    })
}

/// The differences of two points' entries, in the first places.
fn difference(upper: &[u64], lower: &[u64]) -> [u64; 8]
    requires lengths { length lower.now ≡ length upper.now }
    requires few { length upper.now ≤ 8 }
    requires order { (k : ℕ) → slice_index lower.now k ≤ slice_index upper.now k }
    ensures { (k : ℕ) → slice_index result k ≡ slice_index upper.now k - slice_index lower.now k }
{
    let mut all = [0; 8];
    for k in 0..upper.len() {
        all[k] = upper[k] - lower[k];
    }
    all
}

/// An axis for each variable past the first: from its least slope on as many steps as its degree.
fn direction_axes(alloc: Global, slopes: &[u64], each: &[u32]) -> Result<Vec<Axis>, NoMemory>
    requires lengths { length slopes.now ≡ length each.now }
    requires few { length each.now ≤ 7 }
    requires slopes { (k : ℕ) → slice_index slopes.now k < 2 ^ 32 }
    requires each { (k : ℕ) → slice_index each.now k ≤ 128 }
    ensures { IfOk result (λ axes. AreDirectionAxes 2 slopes.now each.now axes.items) }
{
    let mut axes = Vec::new(alloc);
    for k in 0..each.len() {
        let values = steps_from(alloc, slopes[k], each[k] + 1)?;
        axes.push(Axis {
            variable: k as u32 + 2,
            values,
        })?;
    }
    Ok(axes)
}

/// The numbers from `first` on, `count` of them.
pub(crate) fn steps_from(alloc: Global, first: u64, count: u32) -> Result<Vec<u64>, NoMemory>
    requires { first + count < 2 ^ 40 }
    ensures { IfOk result (λ steps. AreSteps first count steps.items) }
{
    let mut steps = Vec::new(alloc);
    for k in 0..count {
        steps.push(first + k as u64)?;
    }
    Ok(steps)
}
