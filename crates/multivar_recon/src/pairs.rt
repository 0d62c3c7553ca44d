//! The least pair that agrees with samples, by its coefficients.

ghost use Rattle.std.specs.Prelude.{◌≡◌, ◌+◌, ℕ, ◌%◌, ◌<◌, ◌≤◌, ◌↔◌, All, IfNone, IfOk, IfSome, IsTrue, List, length, min, slice_index};
ghost use Rattle.prime_field.specs.Modulus.{value_of};
ghost use Rattle.prime_field.specs.Residue.{IsPrime};
ghost use Rattle.poly_maps.specs.declared.bound.Bound.{Bound};
ghost use Rattle.poly_maps.specs.declared.pair.Pair.{Pair};
ghost use Rattle.poly_maps.specs.Forcing.{IsForcing};
ghost use Rattle.poly_maps.specs.Polynomial.{coefficient, AreResidues, IsPolynomial};
ghost use Rattle.ray_grid.specs.Attempt.{attempt_points};
ghost use Rattle.ray_grid.specs.Grid.{IsGrid, bound_of, point_count};
ghost use Rattle.ray_grid.specs.Covering.{Covers, HasFew, exponent_count};
ghost use Rattle.multivar_recon.specs.Least.{IsAgreeing, IsLeastPair, IsPairModulo};
ghost use Rattle.multivar_recon.specs.Vectors.{with_numbers, num_of, den_of};

use crate::NoMemory;
use crate::vectors::null_vector;
use poly_maps::{Bounds, Mono, MonomialPlan, Pair, Point, Poly, monomials};
use prime_field::Modulus;
use ray_grid::{Grid, attempt};
use std::alloc::Global;

/// The polynomial with these coefficients at these monomials.
fn gather(alloc: Global, m: Modulus, monos: &[Mono], numbers: &[u64]) -> Result<Poly, NoMemory>
    requires room { length numbers.now ≡ length monos.now }
    requires residues { (k : ℕ) → k < length numbers.now → slice_index numbers.now k < value_of m }
    ensures coefficients { IfOk result (λ p. (e : List ℕ) → coefficient e p ≡ coefficient e (with_numbers monos.now (slice_index numbers.now)) % value_of m) }
    ensures residues { IfOk result (AreResidues (value_of m)) }
    ensures polynomial { IfOk result IsPolynomial }
{
    let mut terms = Vec::new(alloc);
    for (k, mono) in monos.iter().enumerate() {
        terms.push((*mono, numbers[k]))?;
    }
    Poly::from_terms(m, terms)
}

/// The pair whose coefficients are these, first the numerator's and then the denominator's.
fn pair_of(
    alloc: Global,
    m: Modulus,
    nums: &[Mono],
    dens: &[Mono],
    numbers: &[u64],
) -> Result<Pair, NoMemory>
    requires room { length numbers.now ≡ length nums.now + length dens.now }
    requires residues { (k : ℕ) → k < length numbers.now → slice_index numbers.now k < value_of m }
    ensures num { IfOk result (λ f. (e : List ℕ) → coefficient e f.num ≡ coefficient e (num_of nums.now numbers.now) % value_of m) }
    ensures den { IfOk result (λ f. (e : List ℕ) → coefficient e f.den ≡ coefficient e (den_of nums.now dens.now numbers.now) % value_of m) }
    ensures modulo { IfOk result (IsPairModulo (value_of m)) }
{
    let (front, back) = numbers.split_at(nums.len());
    let num = gather(alloc, m, nums, front)?;
    let den = gather(alloc, m, dens, back)?;
    Ok(Pair { num, den })
}

/// The least pair within the bounds that agrees with the samples at the points, of which each is one residue.
///
/// There is no pair where none agrees. Where the points are not forcing for a grid that covers the bounds, there may be
/// none although some agree.
pub fn fit_points(
    alloc: Global,
    bounds: &Bounds,
    variables: u32,
    points: &[Point],
    m: Modulus,
    values: &[u64],
) -> Result<Option<Pair>, NoMemory>
    requires some { 1 ≤ variables }
    requires eight { variables ≤ 8 }
    requires num_total { bounds.now.num.total ≤ 256 }
    requires den_total { bounds.now.den.total ≤ 256 }
    requires num_past { (k : ℕ) → variables ≤ k → slice_index bounds.now.num.each k ≡ 0 }
    requires den_past { (k : ℕ) → variables ≤ k → slice_index bounds.now.den.each k ≡ 0 }
    requires few { HasFew bounds.now variables }
    requires samples { length values.now ≡ length points.now }
    requires residues { All (λ v. v < value_of m) values.now }
    ensures least { IfOk result (λ found. IfSome found (λ f. IsLeastPair (value_of m) bounds.now points.now values.now f)) }
    ensures none { (grid : Bound) → Covers grid bounds.now → IsForcing (value_of m) grid points.now → IsPrime (value_of m) →
        IfOk result (λ found. IfNone found ((f : Pair) → IsAgreeing (value_of m) bounds.now points.now values.now f → ⊥)) }
{
    let nums = monomials(alloc, &bounds.num, variables)?;
    let dens = monomials(alloc, &bounds.den, variables)?;
    let mut monos = Vec::from_slice(alloc, &nums)?;
    monos.extend_from_slice(&dens)?;
    let plan = MonomialPlan::of(alloc, monos)?;
    match null_vector(alloc, m, &plan, nums.len(), points, values)? {
        Some(numbers) => Ok(Some(pair_of(alloc, m, &nums, &dens, &numbers)?)),
        None => Ok(None),
    }
}

/// The least pair within the bounds that agrees with the samples at the points of attempt `r` over the grid, of which
/// each is one residue. None exactly where no pair agrees.
pub fn fit(
    alloc: Global,
    bounds: &Bounds,
    grid: &Grid,
    r: u32,
    m: Modulus,
    values: &[u64],
) -> Result<Option<Pair>, NoMemory>
    requires grid { IsGrid grid.now }
    requires known { r < 8 }
    requires points { point_count grid.now ≤ 65536 }
    requires covers { Covers (bound_of grid.now) bounds.now }
    requires few { HasFew bounds.now grid.now.variables }
    requires samples { length values.now ≡ point_count grid.now }
    requires residues { All (λ v. v < value_of m) values.now }
    ensures least { IfOk result (λ found. IfSome found (λ f. IsLeastPair (value_of m) bounds.now (attempt_points grid.now r) values.now f)) }
    ensures none { IsPrime (value_of m) →
        IfOk result (λ found. IfNone found ((f : Pair) → IsAgreeing (value_of m) bounds.now (attempt_points grid.now r) values.now f → ⊥)) }
{
    let points = attempt(alloc, grid, r)?;
    fit_points(alloc, bounds, grid.variables, &points, m, values)
}
