//! The least pairs on the rays of an attempt, one ray after the other.

ghost use Rattle.std.specs.Prelude.{◌≡◌, ℕ, suc, ◌+◌, ◌-◌, ◌*◌, ◌<◌, ◌≤◌, IfNone, IfOk, IfSome, drop, length, slice_index, take};
ghost use Rattle.prime_field.specs.Modulus.{value_of};
ghost use Rattle.univariate.specs.Coefficients.{multiple, Alike, AreResidues};
ghost use Rattle.multivar_recon.specs.Frame.{AreSteps};
ghost use Rattle.multivar_recon.specs.Tables.{AreRayTables, HasStart, IsColumnWritten, IsScaledPair};
ghost use Rattle.prime_field.specs.Residue.{IsPrime};

use crate::NoMemory;
use crate::ray_frame::steps_from;
use prime_field::Modulus;
use std::alloc::Global;
use thiele_interp::least_pair_over;
use univariate::scale;

/// The least pair on each ray, with 1 as the denominator at t = 0. Row `k` of a table has the coefficients at `t^k`, one
/// for each ray.
#[derive(Drop)]
pub(crate) struct RayTables {
    pub(crate) nums: Vec<u64>,
    pub(crate) dens: Vec<u64>,
    /// The denominator's degree on each ray.
    pub(crate) degrees: Vec<usize>,
}

/// The least pair of degrees `a` and `b` at most on each of `width` rays, which have `count` points each: t = 1, 2 and so
/// on. None where some ray has none, or one whose denominator is no unit at t = 0.
pub(crate) fn scaled_pairs(
    alloc: Global,
    m: Modulus,
    a: usize,
    b: usize,
    width: usize,
    count: u32,
    values: &[u64],
) -> Result<Option<RayTables>, NoMemory>
    requires few { a + b + 2 ≤ count }
    requires small { count ≤ 131 }
    requires samples { length values.now ≡ width * count }
    requires some { 0 < width }
    requires low { width ≤ 65536 }
    requires residues { AreResidues (value_of m) values.now }
    ensures tables { IfOk result (λ found. IfSome found (λ t.
        AreRayTables (value_of m) a b width width count values.now t.nums.items t.dens.items t.degrees.items)) }
    ensures none { IfOk result (λ found. IfNone found (IsPrime (value_of m) →
        ((d : ℕ) → d < width → HasStart (value_of m) count (λ i. slice_index values.now (d * count + i)) a b) → ⊥)) }
{
    let points = steps_from(alloc, 1, count)?;
    let per_ray = count as usize;
    let mut work = vec![in alloc; 0; 12 * (per_ray + 2)]?;
    let mut nums = vec![in alloc; 0; (a + 1) * width]?;
    let mut dens = vec![in alloc; 0; (b + 1) * width]?;
    let mut degrees = Vec::new(alloc);
    for d in 0..width {
        let samples = &values[d * per_ray..d * per_ray + per_ray];
        let Some((num, den)) = scaled_pair(m, &points, samples, a, b, &mut work) else {
            return Ok(None);
        };
        write_column(&work[..num], d, width, &mut nums);
        write_column(&work[num..num + den], d, width, &mut dens);
        degrees.push(den - 1)?;
    }
    Ok(Some(RayTables {
        nums,
        dens,
        degrees,
    }))
}

/// The least pair on one ray, with 1 as the denominator at t = 0. As with `least_pair_over` it stands in the first words
/// of `work`, and the answer is how many coefficients numerator and denominator have.
fn scaled_pair(
    m: Modulus,
    points: &[u64],
    samples: &[u64],
    a: usize,
    b: usize,
    work: &mut [u64],
) -> Option<(usize, usize)>
    requires lengths { length samples.now ≡ length points.now }
    requires few { a + b < length points.now }
    requires small { length points.now ≤ 131 }
    requires room { 12 * (length points.now + 2) ≤ length work.old }
    requires points { AreSteps 1 (length points.now) points.now }
    requires samples { AreResidues (value_of m) samples.now }
    ensures room { IfSome result (λ r. r.0 + r.1 ≤ length work.new) }
    ensures scaled { IfSome result (λ r.
        IsScaledPair (value_of m) (length points.now) (slice_index samples.now) a b (take r.0 work.new) (take r.1 (drop r.0 work.new))) }
    ensures none { IfNone result (IsPrime (value_of m) → HasStart (value_of m) (length points.now) (slice_index samples.now) a b → ⊥) }
{
    let (num, den) = least_pair_over(m, points, samples, a, b, work)?;
    let inverse = m.inv(work[num])?;
    scale_front(m, num + den, inverse, work);
    Some((num, den))
}

/// Multiplies the first `count` words by a residue.
fn scale_front(m: Modulus, count: usize, factor: u64, work: &mut [u64])
    requires count { count ≤ length work.old }
    requires residues { AreResidues (value_of m) (take count work.old) }
    requires factor { factor < value_of m }
    ensures multiple { Alike (value_of m) (take count work.new) (multiple factor (take count work.old)) }
    ensures residues { AreResidues (value_of m) (take count work.new) }
{
    let (front, _) = work.split_at_mut(count);
    scale(m, front, factor);
}

/// Writes the numbers to one column of a table with rows of `width` words.
fn write_column(numbers: &[u64], column: usize, width: usize, table: &mut [u64])
    requires column { column < width }
    requires room { length numbers.now * width ≤ length table.old }
    ensures written { IsColumnWritten numbers.now column width table.old table.new }
    ensures residues { (m : ℕ) → AreResidues m numbers.now → AreResidues m table.old → AreResidues m table.new }
{
    for (k, number) in numbers.iter().enumerate() {
        table[k * width + column] = *number;
    }
}
