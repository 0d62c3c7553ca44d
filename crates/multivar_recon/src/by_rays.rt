//! The least pair by least pairs in one variable along rays, and by a fit where these don't tell it.

ghost use Rattle.std.specs.Prelude.{◌≡◌, ℕ, suc, ◌*◌, ◌<◌, ◌≤◌, ◌↔◌, All, IfNone, IfOk, IfSome, IsTrue, length, slice_index};
ghost use Rattle.prime_field.specs.Modulus.{value_of};
ghost use Rattle.prime_field.specs.Residue.{IsPrime};
ghost use Rattle.univariate.specs.Coefficients.{AreResidues as AreResidueWords};
ghost use Rattle.poly_maps.specs.declared.pair.Pair.{Pair};
ghost use Rattle.ray_grid.specs.Attempt.{attempt_points};
ghost use Rattle.ray_grid.specs.Covering.{Covers, HasFew};
ghost use Rattle.ray_grid.specs.Grid.{IsGrid, bound_of, point_count};
ghost use Rattle.newton_interp.specs.Grid.{AreAxes, points_of, grid_size};
ghost use Rattle.newton_interp.specs.GridPoints.{AreNamed, IsAbsent};
ghost use Rattle.multivar_recon.specs.Least.{IsAgreeing, IsLeastPair};
ghost use Rattle.multivar_recon.specs.Rays.{RegularRays};
ghost use Rattle.multivar_recon.specs.Tables.{IsAccepted, IsHighTable, IsTablePart};

use crate::NoMemory;
use crate::assembly::assemble;
use crate::monic::monic;
use crate::pairs::fit;
use crate::ray_frame::{RayFrame, ray_frame};
use crate::ray_tables::{RayTables, scaled_pairs};
use newton_interp::{grid_work, interpolate_grid};
use poly_maps::{Bounds, Pair, Poly};
use prime_field::Modulus;
use ray_grid::Grid;
use std::alloc::Global;

/// How a least pair was found.
#[derive(Debug, Clone, Copy, PartialEq, Eq)]
pub enum Method {
    /// Along rays.
    Rays,
    /// By a linear fit of all coefficients.
    Fit,
}

/// The least pair, as `fit` gives it, by its least pairs along the rays of the attempt. None where the rays aren't regular.
pub fn rays(
    alloc: Global,
    bounds: &Bounds,
    grid: &Grid,
    r: u32,
    m: Modulus,
    values: &[u64],
) -> Result<Option<Pair>, NoMemory>
    requires grid { IsGrid grid.now }
    requires known { r < 8 }
    requires points { point_count grid.now ≤ 65536 }
    requires covers { Covers (bound_of grid.now) bounds.now }
    requires few { HasFew bounds.now grid.now.variables }
    requires samples { length values.now ≡ point_count grid.now }
    requires residues { All (λ v. v < value_of m) values.now }
    ensures regular { IfOk result (λ found. IfSome found (λ f. RegularRays (value_of m) bounds.now grid.now r values.now)) }
    ensures least { IfOk result (λ found. IfSome found (λ f. IsLeastPair (value_of m) bounds.now (attempt_points grid.now r) values.now f)) }
    ensures none { IsPrime (value_of m) → IfOk result (λ found. IfNone found (RegularRays (value_of m) bounds.now grid.now r values.now → ⊥)) }
{
    let frame = ray_frame(alloc, grid, r)?;
    let a = bounds.num.total as usize;
    let b = bounds.den.total as usize;
    let count = grid.total + 3;
    let width = values.len() / count as usize;
    let Some(tables) = scaled_pairs(alloc, m, a, b, width, count, values)? else {
        return Ok(None);
    };
    let RayTables {
        nums,
        dens,
        degrees,
    } = tables;
    let Some(num) = table_part(alloc, m, &frame, a, nums)? else {
        return Ok(None);
    };
    let Some(den) = table_part(alloc, m, &frame, b, dens)? else {
        return Ok(None);
    };
    let pair = Pair { num, den };
    if !is_accepted(bounds, &degrees, &pair) {
        return Ok(None);
    }
    monic(alloc, m, &pair)
}

/// Whether the pair is within the bounds and its denominator's total degree is its degree on each ray.
fn is_accepted(bounds: &Bounds, degrees: &[usize], pair: &Pair) -> bool
    ensures { IsTrue result ↔ IsAccepted bounds.now degrees.now pair.now }
{
    pair.within(bounds) && have_degree(degrees, pair.den.total_degree())
}

/// The polynomial of degree at most `highest` that is assembled from the rows of a table, once they are interpolated over
/// the directions. None where a row has a degree above its number then.
fn table_part(
    alloc: Global,
    m: Modulus,
    frame: &RayFrame,
    highest: usize,
    mut table: Vec<u64>,
) -> Result<Option<Poly>, NoMemory>
    requires named { AreNamed frame.now.axes.items }
    requires axes { AreAxes (value_of m) (points_of frame.now.axes.items) }
    requires first { IsAbsent 1 frame.now.axes.items }
    requires few { highest ≤ 256 }
    requires rows { length table.items ≡ suc highest * grid_size (points_of frame.now.axes.items) }
    requires residues { AreResidueWords (value_of m) table.items }
    ensures part { IfOk result (λ found. IfSome found (IsTablePart (value_of m) highest frame.now.axes.items frame.now.start table.items)) }
    ensures none { IfOk result (λ found. IfNone found (IsHighTable (value_of m) highest frame.now.axes.items table.items)) }
{
    let mut work = vec![in alloc; 0; grid_work(&frame.axes)]?;
    interpolate_grid(m, &frame.axes, &mut table, &mut work);
    let part = assemble(alloc, m, &frame.axes, &frame.start, highest + 1, &table)?;
    Ok(part)
}

/// Whether each of the degrees is the given one.
fn have_degree(degrees: &[usize], degree: u32) -> bool
    ensures { IsTrue result ↔ ((d : ℕ) → d < length degrees.now → slice_index degrees.now d ≡ degree) }
{
    for d in degrees {
        if *d != degree as usize {
            return false;
        }
    }
    true
}

/// The least pair, as `fit` gives it, and how it was found: along rays where these are regular, else by a fit. None exactly
/// where no pair agrees.
pub fn least(
    alloc: Global,
    bounds: &Bounds,
    grid: &Grid,
    r: u32,
    m: Modulus,
    values: &[u64],
) -> Result<Option<(Pair, Method)>, NoMemory>
    requires grid { IsGrid grid.now }
    requires known { r < 8 }
    requires points { point_count grid.now ≤ 65536 }
    requires covers { Covers (bound_of grid.now) bounds.now }
    requires few { HasFew bounds.now grid.now.variables }
    requires samples { length values.now ≡ point_count grid.now }
    requires residues { All (λ v. v < value_of m) values.now }
    ensures least { IfOk result (λ found. IfSome found (λ p. IsLeastPair (value_of m) bounds.now (attempt_points grid.now r) values.now p.0)) }
    ensures along { IfOk result (λ found. IfSome found (λ p. p.1 ≡ Method.Rays → RegularRays (value_of m) bounds.now grid.now r values.now)) }
    ensures fitted { IsPrime (value_of m) →
        IfOk result (λ found. IfSome found (λ p. p.1 ≡ Method.Fit → RegularRays (value_of m) bounds.now grid.now r values.now → ⊥)) }
    ensures none { IsPrime (value_of m) →
        IfOk result (λ found. IfNone found ((f : Pair) → IsAgreeing (value_of m) bounds.now (attempt_points grid.now r) values.now f → ⊥)) }
{
    if let Some(pair) = rays(alloc, bounds, grid, r, m, values)? {
        return Ok(Some((pair, Method::Rays)));
    }
    match fit(alloc, bounds, grid, r, m, values)? {
        Some(pair) => Ok(Some((pair, Method::Fit))),
        None => Ok(None),
    }
}
