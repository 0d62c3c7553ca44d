//! The least pair, from its samples.

ghost use Rattle.std.specs.Prelude.{◌≡◌, ℕ, List, ◌+◌, ◌-◌, ◌*◌, ◌%◌, ◌<◌, ◌≤◌, IfOk, IfSome, IfNone, length, take, drop, slice_index};
ghost use Rattle.prime_field.specs.Modulus.{value_of};
ghost use Rattle.prime_field.specs.Residue.{IsPrime};
ghost use Rattle.univariate.specs.Univariate.{AreApart};
ghost use Rattle.univariate.specs.Coefficients.{multiple, IsBelow, Alike, AreResidues};
ghost use Rattle.newton_interp.specs.Interpolation.{IsInterpolant, IsProductOf};
ghost use Rattle.thiele_interp.specs.Pairs.{IsAgreeing, IsLeastPair, IsReducedPair};

use crate::NoMemory;
use crate::euclid::descend;
use crate::thiele::thiele_up_to;
use newton_interp::interpolate;
use prime_field::Modulus;
use std::alloc::Global;
use univariate::{scale, trimmed_length};

/// A quotient of two polynomials in one variable: their coefficients, the lowest first, without zeros at the end. The
/// last of the denominator's is 1.
#[derive(Debug, Drop)]
pub struct UniPair {
    /// The numerator; none for zero.
    pub num: Vec<u64>,
    /// The denominator, which isn't zero.
    pub den: Vec<u64>,
}

/// Among the pairs that agree with the samples, of degree `a` at most above and `b` at most below, the one whose
/// denominator has the least degree. Any two points differ by a unit.
///
/// None where no pair agrees.
pub fn least_pair(
    alloc: Global,
    m: Modulus,
    points: &[u64],
    values: &[u64],
    a: usize,
    b: usize,
) -> Result<Option<UniPair>, NoMemory>
    requires lengths { length values.now ≡ length points.now }
    requires few { a + b < length points.now }
    requires points { AreResidues (value_of m) points.now }
    requires values { AreResidues (value_of m) values.now }
    requires apart { AreApart (value_of m) (length points.now) (slice_index points.now) }
    ensures reduced { IfOk result (λ o. IfSome o (λ p. IsReducedPair (value_of m) p.num.items p.den.items)) }
    ensures least { IfOk result (λ o. IfSome o (λ p.
        IsLeastPair (value_of m) (length points.now) (slice_index points.now) (slice_index values.now) a b p.num.items p.den.items)) }
    ensures none { IfOk result (λ o. IfNone o (IsPrime (value_of m) → (num den : List ℕ) →
        IsAgreeing (value_of m) (length points.now) (slice_index points.now) (slice_index values.now) a b num den → ⊥)) }
{
    let mut work = vec![in alloc; 0; 12 * (points.len() + 2)]?;
    match least_pair_over(m, points, values, a, b, &mut work) {
        None => Ok(None),
        Some((num_length, den_length)) => {
            let (num, rest) = work.split_at(num_length);
            let (den, _) = rest.split_at(den_length);
            Ok(Some(UniPair {
                num: Vec::from_slice(alloc, num)?,
                den: Vec::from_slice(alloc, den)?,
            }))
        }
    }
}

/// The same with nothing allocated. The coefficients of the numerator stand first in `work`, those of the denominator
/// directly after; the answer is their numbers. What `work` holds doesn't matter, and all of it may be overwritten.
///
/// Thiele's form is tried first, as long as it costs little beside Euclid's remainders.
pub fn least_pair_over(
    m: Modulus,
    points: &[u64],
    values: &[u64],
    a: usize,
    b: usize,
    work: &mut [u64],
) -> Option<(usize, usize)>
    requires lengths { length values.now ≡ length points.now }
    requires few { a + b < length points.now }
    requires room { 12 * (length points.now + 2) ≤ length work.old }
    requires points { AreResidues (value_of m) points.now }
    requires values { AreResidues (value_of m) values.now }
    requires apart { AreApart (value_of m) (length points.now) (slice_index points.now) }
    ensures room { IfSome result (λ r. r.0 + r.1 ≤ length work.new) }
    ensures reduced { IfSome result (λ r. IsReducedPair (value_of m) (take r.0 work.new) (take r.1 (drop r.0 work.new))) }
    ensures least { IfSome result (λ r. IsLeastPair (value_of m) (length points.now) (slice_index points.now) (slice_index values.now) a b
        (take r.0 work.new) (take r.1 (drop r.0 work.new))) }
    ensures none { IfNone result (IsPrime (value_of m) → (num den : List ℕ) →
        IsAgreeing (value_of m) (length points.now) (slice_index points.now) (slice_index values.now) a b num den → ⊥) }
{
    let levels = points.len() / 13;
    let found = least_pair_up_to(m, points, values, a, b, levels, work);
    found
}

/// The same with a bound on the levels of Thiele's form that are tried before Euclid's remainders. With 0 levels the
/// remainders alone are used. The answer doesn't depend on it.
pub fn least_pair_up_to(
    m: Modulus,
    points: &[u64],
    values: &[u64],
    a: usize,
    b: usize,
    levels: usize,
    work: &mut [u64],
) -> Option<(usize, usize)>
    requires lengths { length values.now ≡ length points.now }
    requires few { a + b < length points.now }
    requires room { 12 * (length points.now + 2) ≤ length work.old }
    requires points { AreResidues (value_of m) points.now }
    requires values { AreResidues (value_of m) values.now }
    requires apart { AreApart (value_of m) (length points.now) (slice_index points.now) }
    ensures room { IfSome result (λ r. r.0 + r.1 ≤ length work.new) }
    ensures reduced { IfSome result (λ r. IsReducedPair (value_of m) (take r.0 work.new) (take r.1 (drop r.0 work.new))) }
    ensures least { IfSome result (λ r. IsLeastPair (value_of m) (length points.now) (slice_index points.now) (slice_index values.now) a b
        (take r.0 work.new) (take r.1 (drop r.0 work.new))) }
    ensures none { IfNone result (IsPrime (value_of m) → (num den : List ℕ) →
        IsAgreeing (value_of m) (length points.now) (slice_index points.now) (slice_index values.now) a b num den → ⊥) }
{
    match thiele_up_to(m, points, values, a, b, levels, work) {
        Some(lengths) => Some(lengths),
        None => least_by_remainders(m, points, values, a, b, work),
    }
}

/// The same by Euclid's remainders alone.
fn least_by_remainders(
    m: Modulus,
    points: &[u64],
    values: &[u64],
    a: usize,
    b: usize,
    work: &mut [u64],
) -> Option<(usize, usize)>
    requires lengths { length values.now ≡ length points.now }
    requires few { a + b < length points.now }
    requires room { 12 * (length points.now + 2) ≤ length work.old }
    requires points { AreResidues (value_of m) points.now }
    requires values { AreResidues (value_of m) values.now }
    requires apart { AreApart (value_of m) (length points.now) (slice_index points.now) }
    ensures room { IfSome result (λ r. r.0 + r.1 ≤ length work.new) }
    ensures reduced { IfSome result (λ r. IsReducedPair (value_of m) (take r.0 work.new) (take r.1 (drop r.0 work.new))) }
    ensures least { IfSome result (λ r. IsLeastPair (value_of m) (length points.now) (slice_index points.now) (slice_index values.now) a b
        (take r.0 work.new) (take r.1 (drop r.0 work.new))) }
    ensures none { IfNone result (IsPrime (value_of m) → (num den : List ℕ) →
        IsAgreeing (value_of m) (length points.now) (slice_index points.now) (slice_index values.now) a b num den → ⊥) }
{
    let count = points.len();
    let (rest, others) = work.split_at_mut(count + 1);
    let (above, others) = others.split_at_mut(count + 1);
    let (earlier, others) = others.split_at_mut(count + 1);
    let (factor, others) = others.split_at_mut(count + 1);
    let (spread, others) = others.split_at_mut(count);
    let (missing, _) = others.split_at_mut(count);
    interpolate(m, points, values, spread, missing, above, rest);
    let found = pair_of(m, points, values, a, b, above, rest, earlier, factor);
    found
}

/// Divides down from the product over the points and the polynomial of the samples, and writes the pair to `rest`.
fn pair_of(
    m: Modulus,
    points: &[u64],
    values: &[u64],
    a: usize,
    b: usize,
    above: &mut [u64],
    rest: &mut [u64],
    earlier: &mut [u64],
    factor: &mut [u64],
) -> Option<(usize, usize)>
    requires few { a + b < length points.now }
    requires above_length { length above.old ≡ length points.now + 1 }
    requires rest_length { length rest.old ≡ length points.now + 1 }
    requires earlier_length { length earlier.old ≡ length points.now + 1 }
    requires factor_length { length factor.old ≡ length points.now + 1 }
    requires apart { AreApart (value_of m) (length points.now) (slice_index points.now) }
    requires points { AreResidues (value_of m) points.now }
    requires above { IsProductOf (value_of m) (length points.now) (slice_index points.now) above.old }
    requires rest { IsInterpolant (value_of m) (length points.now) (slice_index points.now) (slice_index values.now) rest.old }
    ensures room { IfSome result (λ r. r.0 + r.1 ≤ length rest.new) }
    ensures reduced { IfSome result (λ r. IsReducedPair (value_of m) (take r.0 rest.new) (take r.1 (drop r.0 rest.new))) }
    ensures least { IfSome result (λ r. IsLeastPair (value_of m) (length points.now) (slice_index points.now) (slice_index values.now) a b
        (take r.0 rest.new) (take r.1 (drop r.0 rest.new))) }
    ensures none { IfNone result (IsPrime (value_of m) → (num den : List ℕ) →
        IsAgreeing (value_of m) (length points.now) (slice_index points.now) (slice_index values.now) a b num den → ⊥) }
{
    let count = points.len();
    earlier.fill(0);
    factor.fill(0);
    factor[0] = 1;
    let degree = descend(m, a, count, above, rest, earlier, factor)?;
    let terms = count + 1 - degree;
    if terms > b + 1 {
        return None;
    }
    let inverse = m.inv(factor[terms - 1])?;
    let length = write_pair(m, rest, factor, terms, inverse);
    Some((length, terms))
}

/// Scales a numerator and a denominator of `terms` coefficients by `inverse`, that of the denominator's last, and writes
/// the denominator to the places after the numerator. Answers the number of the numerator's coefficients.
pub(crate) fn write_pair(
    m: Modulus,
    rest: &mut [u64],
    factor: &mut [u64],
    terms: usize,
    inverse: u64,
) -> usize
    requires some { 0 < terms }
    requires rest_room { terms ≤ length rest.old }
    requires factor_room { terms ≤ length factor.old }
    requires rest_below { IsBelow (value_of m) (length rest.old - terms) rest.old }
    requires factor_below { IsBelow (value_of m) terms factor.old }
    requires rest_residues { AreResidues (value_of m) rest.old }
    requires factor_residues { AreResidues (value_of m) factor.old }
    requires residue { inverse < value_of m }
    requires inverse { (slice_index factor.old (terms - 1) * inverse) % value_of m ≡ 1 }
    ensures room { result + terms ≤ length rest.new }
    ensures reduced { IsReducedPair (value_of m) (take result rest.new) (take terms (drop result rest.new)) }
    ensures num { Alike (value_of m) (take result rest.new) (multiple inverse rest.old) }
    ensures den { Alike (value_of m) (take terms (drop result rest.new)) (multiple inverse factor.old) }
{
    scale(m, rest, inverse);
    scale(m, factor, inverse);
    let length = trimmed_length(rest);
    let (_, after) = rest.split_at_mut(length);
    let (den, _) = after.split_at_mut(terms);
    den.copy_from_slice(&factor[..terms]);
    length
}
