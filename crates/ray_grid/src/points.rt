//! The points of an attempt.

ghost use Rattle.std.specs.Prelude.{◌≡◌, ℕ, ◌+◌, ◌-◌, ◌*◌, ◌^◌, ◌<◌, ◌≤◌, List, [], ◌∷◌, ◌++◌, length, take, drop, slice_index, vec_len, All, IfOk, OnOk};
ghost use Rattle.std.specs.List.{flat_map};
ghost use Rattle.prime_field.specs.declared.Modulus.{Modulus};
ghost use Rattle.prime_field.specs.Modulus.{value_of};
ghost use Rattle.poly_maps.specs.Enumeration.{prefixed};
ghost use Rattle.poly_maps.specs.Forcing.{IsForcing};
ghost use Rattle.poly_maps.specs.Moved.{point_sum, scaled};
ghost use Rattle.ray_grid.specs.Attempt.{shift, slopes, lists_below, ray, attempt_points};
ghost use Rattle.ray_grid.specs.Grid.{IsGrid, bound_of, point_count};
ghost use Rattle.ray_grid.specs.Start.{AreSmall};

use crate::{Grid, NoMemory, size};
use poly_maps::Point;
use prime_field::sequence;
use std::alloc::Global;

/// The sample points of attempt `r` over the grid: rays from one place, the attempt's shift, along a grid of
/// directions. A direction is 1 in the first variable; in each later one it goes from a number of the attempt up by at
/// most the grid's degree there. Directions stand in lexicographic order, and on each ray the points stand at t = 1, 2
/// and so on up to three more than the total degree.
///
/// Entries are plain sums, which are residues of both moduli, so that the points are the same at both.
pub fn attempt(alloc: Global, grid: &Grid, r: u32) -> Result<Vec<Point>, NoMemory>
    requires grid { IsGrid grid.now }
    requires known { r < 8 }
    requires few { point_count grid.now ≤ 65536 }
    ensures points { IfOk result (λ points. points.items ≡ attempt_points grid.now r) }

    // What follows from the points: how many there are and of how many entries, and that they pin a polynomial within
    // the grid.
    ensures count { IfOk result (λ points. vec_len points ≡ point_count grid.now) }
    ensures entries { IfOk result (λ points. All (λ x. length x ≡ grid.now.variables) points.items) }
    ensures forcing { IfOk result (λ points. (m : Modulus) → IsForcing (value_of m) (bound_of grid.now) points.items) }
{
    let variables = grid.variables as usize;
    let start = start_of(r, variables);
    let direction = first_direction(r, variables);
    let room = size(grid).unwrap();
    let mut points = Vec::with_capacity(alloc, room as usize)?;
    push_rays(
        &mut points,
        &start[..variables],
        &direction[..variables],
        &grid.each[..variables],
        grid.total + 3,
        [0; 8],
        1,
    )?;
    Ok(points)
}

/// Where the rays of attempt `r` start, in the first places.
fn start_of(r: u32, variables: usize) -> [u64; 8]
    requires known { r < 8 }
    requires few { variables ≤ 8 }
    ensures { take variables result ≡ shift r variables }
{
    let mut start = [0; 8];
    for i in 0..variables {
        start[i] = sequence(64 + 16 * r + i as u32 + 1) / 16;
    }
    start
}

/// The first direction of attempt `r`, in the first places.
fn first_direction(r: u32, variables: usize) -> [u64; 8]
    requires known { r < 8 }
    requires some { 1 ≤ variables }
    requires few { variables ≤ 8 }
    ensures { take variables result ≡ 1 ∷ slopes r variables }
{
    let mut direction = [1; 8];
    for i in 1..variables {
        direction[i] = sequence(64 + 16 * r + 8 + i as u32 + 1) >> 32;
    }
    direction
}

/// Appends the rays along all directions that are above the first one by at most `each`, from the place `i` on, and by
/// the given steps before it.
fn push_rays(
    points: &mut Vec<Point>,
    start: &[u64],
    first: &[u64],
    each: &[u32],
    count: u32,
    steps: [u32; 8],
    i: usize,
) -> Result<(), NoMemory>
    requires small { AreSmall start.now first.now each.now }
    requires steps { (k : ℕ) → slice_index steps k ≤ 128 }
    requires count { count ≤ 131 }
    requires place { i ≤ length each.now }
    ensures { OnOk result (points.new.items ≡ points.old.items ++
        flat_map (λ j. ray count start.now (point_sum first.now j)) (prefixed (take i steps) (lists_below (drop i each.now)))) }
{
    if i == each.len() {
        let direction = direction_at(first, &steps[..i]);
        return push_ray(points, start, &direction[..i], count);
    }
    for j in 0..each[i] + 1 {
        let mut next = steps;
        next[i] = j;
        push_rays(points, start, first, each, count, next, i + 1)?;
    }
    Ok(())
}

/// The direction that is above the first one by the given steps, in the first places.
fn direction_at(first: &[u64], steps: &[u32]) -> [u64; 8]
    requires places { length first.now ≤ 8 }
    requires steps_count { length steps.now ≡ length first.now }
    requires first { (k : ℕ) → slice_index first.now k < 2 ^ 32 }
    ensures { take (length first.now) result ≡ point_sum first.now steps.now }
{
    let mut direction = [0; 8];
    for i in 0..first.len() {
        direction[i] = first[i] + steps[i] as u64;
    }
    direction
}

/// Appends the points `start + t*direction`, t from 1 to `count`.
fn push_ray(
    points: &mut Vec<Point>,
    start: &[u64],
    direction: &[u64],
    count: u32,
) -> Result<(), NoMemory>
    requires some { 1 ≤ length start.now }
    requires few { length start.now ≤ 8 }
    requires direction_count { length direction.now ≡ length start.now }
    requires start { (k : ℕ) → slice_index start.now k < 2 ^ 60 }
    requires direction { (k : ℕ) → slice_index direction.now k < 2 ^ 33 }
    requires count { count ≤ 131 }
    ensures { OnOk result (points.new.items ≡ points.old.items ++ ray count start.now direction.now) }
{
    for t in 1..count + 1 {
        points.push(point_at(start, direction, t))?;
    }
    Ok(())
}

/// The point `start + t*direction`.
fn point_at(start: &[u64], direction: &[u64], t: u32) -> Point
    requires some { 1 ≤ length start.now }
    requires few { length start.now ≤ 8 }
    requires direction_count { length direction.now ≡ length start.now }
    requires start { (k : ℕ) → slice_index start.now k < 2 ^ 60 }
    requires direction { (k : ℕ) → slice_index direction.now k < 2 ^ 33 }
    requires t { t ≤ 131 }
    ensures { result ≡ point_sum start.now (scaled t direction.now) }
{
    let mut entries = [0; 8];
    for i in 0..start.len() {
        entries[i] = start[i] + t as u64 * direction[i];
    }
    Point::of(&entries[..start.len()])
}
