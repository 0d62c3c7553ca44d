//! Agreeing pairs as lists of coefficients: the solutions of one homogeneous equation per sample.

ghost use Rattle.std.specs.Prelude.{◌≡◌, ◌≢◌, ℕ, ◌+◌, ◌*◌, ◌%◌, ◌<◌, ◌≤◌, All, IfNone, IfOk, IfSome, drop, length, slice_index, take};
ghost use Rattle.std.specs.Bool.{OnFalse, OnTrue};
ghost use Rattle.prime_field.specs.Modulus.{value_of};
ghost use Rattle.prime_field.specs.Residue.{IsPrime};
ghost use Rattle.elim_core.specs.Kept.{Belongs, HasSolution, kept_rows, modulus_of, unknowns_of};
ghost use Rattle.multivar_recon.specs.Vectors.{IsForced, IsLeastVector, IsSampled, IsSampleRow, IsSettled, NoneAgrees};

use crate::NoMemory;
use elim_core::{Elim, Rank};
use poly_maps::{MonomialPlan, Point};
use prime_field::Modulus;
use std::alloc::Global;

/// Multiplies each entry by the factor.
fn multiply(m: Modulus, factor: u64, row: &mut [u64])
    requires factor { factor < value_of m }
    requires residues { (k : ℕ) → k < length row.old → slice_index row.old k < value_of m }
    ensures products { (k : ℕ) → k < length row.old → slice_index row.new k ≡ (slice_index row.old k * factor) % value_of m }
{
    for entry in row.iter_mut() {
        *entry = m.mul(*entry, factor);
    }
}

/// Writes the equation that a sample gives for the coefficients of an agreeing pair. The first `count` monomials are the
/// numerator's.
fn write_row(
    m: Modulus,
    plan: &MonomialPlan,
    count: usize,
    point: &Point,
    value: u64,
    row: &mut [u64],
)
    requires count { count ≤ length plan.now }
    requires few { length plan.now ≤ 1024 }
    requires residue { value < value_of m }
    requires room { length row.old ≡ length plan.now + 1 }
    ensures { IsSampleRow (value_of m) (take count plan.now) (drop count plan.now) point.now value row.new }
{
    let unknowns = plan.len();
    plan.write_values(m, point, &mut row[..unknowns]);
    multiply(m, m.neg(value), &mut row[count..unknowns]);
    row[unknowns] = 0;
}

/// Whether zeros alone are left as a solution, after a row of this rank was absorbed. The set is room to work in.
fn is_settled(kept: &Elim, words: &[u64], rank: Rank, set: &mut [u32]) -> bool
    requires belongs { Belongs kept.now words.now }
    requires solvable { rank ≢ Rank.Contradiction → HasSolution (modulus_of kept.now) (unknowns_of kept.now) (kept_rows kept.now words.now) }
    requires room { length set.old ≡ unknowns_of kept.now }
    ensures open { OnFalse result (rank ≢ Rank.Contradiction) }
    ensures settled { OnTrue result (rank ≢ Rank.Contradiction → IsSettled (modulus_of kept.now) (unknowns_of kept.now) (kept_rows kept.now words.now)) }
{
    match rank {
        Rank::New => kept.independents(words, set) == 0,
        Rank::Same => false,
        Rank::Contradiction => true,
    }
}

/// Keeps the equations of the samples, or answers nothing as soon as zeros alone agree.
fn absorb_samples(
    alloc: Global,
    m: Modulus,
    plan: &MonomialPlan,
    count: usize,
    points: &[Point],
    values: &[u64],
    words: &mut [u64],
) -> Result<Option<Elim>, NoMemory>
    requires count { count ≤ length plan.now }
    requires few { length plan.now ≤ 1024 }
    requires samples { length values.now ≡ length points.now }
    requires residues { All (λ v. v < value_of m) values.now }
    requires room { (length plan.now + 4) * (length plan.now + 2) ≤ length words.old }
    ensures sampled { IfOk result (λ found. IfSome found (λ kept. IsSampled (value_of m) (take count plan.now) (drop count plan.now)
        points.now values.now (length points.now) kept words.new)) }
    ensures none { IfOk result (λ found. IfNone found (IsPrime (value_of m) →
        NoneAgrees (value_of m) (take count plan.now) (drop count plan.now) points.now values.now)) }
{
    let mut row = vec![in alloc; 0; plan.len() + 1]?;
    let row = row.as_mut_slice();
    let mut set = vec![in alloc; 0; plan.len()]?;
    let set = set.as_mut_slice();
    let mut elim = Elim::start(m, plan.len(), words);
    for (i, point) in points.iter().enumerate() {
        write_row(m, plan, count, point, values[i], row);
        let rank = elim.absorb(words, row);
        if is_settled(&elim, words, rank, set) {
            return Ok(None);
        }
    }
    Ok(Some(elim))
}

/// The coefficients of the agreeing pair whose last coefficient other than 0 comes earliest, with 1 there. The first `count`
/// monomials are the numerator's, and the others the denominator's.
///
/// None where zeros alone agree, or where the last coefficient is one of the numerator's.
pub(crate) fn null_vector(
    alloc: Global,
    m: Modulus,
    plan: &MonomialPlan,
    count: usize,
    points: &[Point],
    values: &[u64],
) -> Result<Option<Vec<u64>>, NoMemory>
    requires count { count ≤ length plan.now }
    requires few { length plan.now ≤ 1024 }
    requires samples { length values.now ≡ length points.now }
    requires residues { All (λ v. v < value_of m) values.now }
    ensures least { IfOk result (λ found. IfSome found (λ numbers. IsLeastVector (value_of m) (take count plan.now) (drop count plan.now)
        points.now values.now numbers.items)) }
    ensures none { IfOk result (λ found. IfNone found (IsPrime (value_of m) →
        IsForced (value_of m) (take count plan.now) (drop count plan.now) points.now values.now →
        NoneAgrees (value_of m) (take count plan.now) (drop count plan.now) points.now values.now)) }
{
    let mut words = vec![in alloc; 0; Elim::words(plan.len())]?;
    let words = words.as_mut_slice();
    let kept = absorb_samples(alloc, m, plan, count, points, values, words)?;
    let Some(elim) = kept else {
        return Ok(None);
    };
    let mut set = vec![in alloc; 0; plan.len()]?;
    let set = set.as_mut_slice();
    let free = elim.independents(words, set);
    if free == 0 {
        return Ok(None);
    }
    let least = set[0];
    let mut numbers = vec![in alloc; 0; plan.len()]?;
    elim.solution(words, least, numbers.as_mut_slice());
    if least as usize <= count {
        return Ok(None);
    }
    Ok(Some(numbers))
}
