//! Euclid's remainders of two polynomials, with their factors, down to a degree.
//!
//! A remainder and its factor agree with the samples as a numerator and a denominator do.

ghost use Rattle.std.specs.Prelude.{◌≡◌, ℕ, suc, ◌+◌, ◌-◌, ◌*◌, ◌%◌, ◌<◌, ◌≤◌, IfSome, IfNone, length, slice_index};
ghost use Rattle.prime_field.specs.Modulus.{value_of};
ghost use Rattle.prime_field.specs.Residue.{IsUnit, IsPrime};
ghost use Rattle.univariate.specs.Coefficients.{sum_of, multiple, raised, IsBelow, Alike, AreResidues};
ghost use Rattle.thiele_interp.specs.Pairs.{AgreesAt};
ghost use Rattle.thiele_interp.specs.Remainders.{AreRemainders, BothAgree, IsDividedBy};

use newton_interp::fused_two;
use prime_field::Modulus;
use univariate::{add_multiple, fused, trimmed_length};

/// Divides down to the first remainder of degree `least` at most, which is left in `rest` with its factor in `factor`,
/// and answers the degree of the remainder before it, which is left in `above` with its factor in `earlier`.
///
/// None where the leading coefficient of a remainder has no inverse, which doesn't happen at a prime modulus.
pub(crate) fn descend(
    m: Modulus,
    least: usize,
    count: usize,
    above: &mut [u64],
    rest: &mut [u64],
    earlier: &mut [u64],
    factor: &mut [u64],
) -> Option<usize>
    requires least { least < count }
    requires above_length { length above.old ≡ count + 1 }
    requires rest_length { length rest.old ≡ count + 1 }
    requires earlier_length { length earlier.old ≡ count + 1 }
    requires factor_length { length factor.old ≡ count + 1 }
    requires remainders { AreRemainders (value_of m) count count 0 above.old rest.old earlier.old factor.old }
    ensures high { IfSome result (λ e. least < e) }
    ensures low { IfSome result (λ e. IsBelow (value_of m) (suc least) rest.new) }
    ensures remainders { IfSome result (λ e. AreRemainders (value_of m) count e (count - e) above.new rest.new earlier.new factor.new) }
    ensures agree { IfSome result (λ e. (n : ℕ) (t v : ℕ → ℕ) → BothAgree (value_of m) n t v above.old rest.old earlier.old factor.old →
        BothAgree (value_of m) n t v above.new rest.new earlier.new factor.new) }
    ensures none { IfNone result (IsPrime (value_of m) → ⊥) }
{
    let mut degree = count;
    let mut length = trimmed_length(rest);
    while length > least + 1 {
        let inverse = m.inv(rest[length - 1])?;
        divide(
            m,
            above,
            &rest[..length],
            earlier,
            &factor[..count + 1 - degree],
            degree + 1 - length,
            inverse,
        );
        above.swap_with_slice(rest);
        earlier.swap_with_slice(factor);
        degree = length - 1;
        length = trimmed_length(rest);
    }
    Some(degree)
}

/// Takes multiples of `rest` away from `above` until its degree is below that of `rest`, and the same multiples of
/// `factor` away from `earlier`. The degree of `above` exceeds that of `rest` by `gap`.
fn divide(
    m: Modulus,
    above: &mut [u64],
    rest: &[u64],
    earlier: &mut [u64],
    factor: &[u64],
    gap: usize,
    inverse: u64,
)
    requires above_room { length rest.now + gap ≤ length above.old }
    requires earlier_room { length factor.now + gap ≤ length earlier.old }
    requires rest_some { 1 < length rest.now }
    requires factor_some { 0 < length factor.now }
    requires above_residues { AreResidues (value_of m) above.old }
    requires rest_residues { AreResidues (value_of m) rest.now }
    requires earlier_residues { AreResidues (value_of m) earlier.old }
    requires factor_residues { AreResidues (value_of m) factor.now }
    requires residue { inverse < value_of m }
    requires inverse { (slice_index rest.now (length rest.now - 1) * inverse) % value_of m ≡ 1 }
    requires above_below { IsBelow (value_of m) (length rest.now + gap) above.old }
    requires above_unit { IsUnit (value_of m) (slice_index above.old (length rest.now - 1 + gap)) }
    requires earlier_below { IsBelow (value_of m) (length factor.now - 1 + gap) earlier.old }
    requires factor_unit { IsUnit (value_of m) (slice_index factor.now (length factor.now - 1)) }
    ensures { IsDividedBy (value_of m) gap above.old rest.now earlier.old factor.now above.new earlier.new }
{
    if gap == 1 {
        divide_near(m, above, rest, earlier, factor, inverse)
    } else {
        divide_far(m, above, rest, earlier, factor, gap, inverse)
    }
}

/// The same where the degree of `above` exceeds that of `rest` by 1, with both multiples in one pass.
fn divide_near(
    m: Modulus,
    above: &mut [u64],
    rest: &[u64],
    earlier: &mut [u64],
    factor: &[u64],
    inverse: u64,
)
    requires above_room { length rest.now < length above.old }
    requires earlier_room { length factor.now < length earlier.old }
    requires rest_some { 1 < length rest.now }
    requires factor_some { 0 < length factor.now }
    requires above_residues { AreResidues (value_of m) above.old }
    requires rest_residues { AreResidues (value_of m) rest.now }
    requires earlier_residues { AreResidues (value_of m) earlier.old }
    requires factor_residues { AreResidues (value_of m) factor.now }
    requires residue { inverse < value_of m }
    requires inverse { (slice_index rest.now (length rest.now - 1) * inverse) % value_of m ≡ 1 }
    requires above_below { IsBelow (value_of m) (length rest.now + 1) above.old }
    requires above_unit { IsUnit (value_of m) (slice_index above.old (length rest.now - 1 + 1)) }
    requires earlier_below { IsBelow (value_of m) (length factor.now - 1 + 1) earlier.old }
    requires factor_unit { IsUnit (value_of m) (slice_index factor.now (length factor.now - 1)) }
    ensures { IsDividedBy (value_of m) 1 above.old rest.now earlier.old factor.now above.new earlier.new }
{
    let last = rest.len() - 1;
    let high = opposite_quotient(m, above[last + 1], inverse);
    let next = fused(m, above[last], high, rest[last - 1]);
    let low = opposite_quotient(m, next, inverse);
    add_two_multiples(m, above, rest, low, high);
    add_two_multiples(m, earlier, factor, low, high);
}

/// The same whatever the difference of the degrees, multiple by multiple.
fn divide_far(
    m: Modulus,
    above: &mut [u64],
    rest: &[u64],
    earlier: &mut [u64],
    factor: &[u64],
    gap: usize,
    inverse: u64,
)
    requires above_room { length rest.now + gap ≤ length above.old }
    requires earlier_room { length factor.now + gap ≤ length earlier.old }
    requires rest_some { 0 < length rest.now }
    requires factor_some { 0 < length factor.now }
    requires above_residues { AreResidues (value_of m) above.old }
    requires rest_residues { AreResidues (value_of m) rest.now }
    requires earlier_residues { AreResidues (value_of m) earlier.old }
    requires factor_residues { AreResidues (value_of m) factor.now }
    requires residue { inverse < value_of m }
    requires inverse { (slice_index rest.now (length rest.now - 1) * inverse) % value_of m ≡ 1 }
    requires above_below { IsBelow (value_of m) (length rest.now + gap) above.old }
    requires above_unit { IsUnit (value_of m) (slice_index above.old (length rest.now - 1 + gap)) }
    requires earlier_below { IsBelow (value_of m) (length factor.now - 1 + gap) earlier.old }
    requires factor_unit { IsUnit (value_of m) (slice_index factor.now (length factor.now - 1)) }
    ensures { IsDividedBy (value_of m) gap above.old rest.now earlier.old factor.now above.new earlier.new }
{
    take_multiple(m, above, rest, earlier, factor, gap, inverse);
    for shift in (0..gap).rev() {
        take_multiple(m, above, rest, earlier, factor, shift, inverse);
    }
}

/// Takes the multiple of `rest`, moved up by `shift`, away from `above` that makes its coefficient at the leading place
/// 0, and the same multiple of `factor` away from `earlier`. Answers the factor by which they were added.
fn take_multiple(
    m: Modulus,
    above: &mut [u64],
    rest: &[u64],
    earlier: &mut [u64],
    factor: &[u64],
    shift: usize,
    inverse: u64,
) -> u64
    requires above_room { length rest.now + shift ≤ length above.old }
    requires earlier_room { length factor.now + shift ≤ length earlier.old }
    requires rest_some { 0 < length rest.now }
    requires above_residues { AreResidues (value_of m) above.old }
    requires rest_residues { AreResidues (value_of m) rest.now }
    requires earlier_residues { AreResidues (value_of m) earlier.old }
    requires factor_residues { AreResidues (value_of m) factor.now }
    requires residue { inverse < value_of m }
    ensures above_residues { AreResidues (value_of m) above.new }
    ensures earlier_residues { AreResidues (value_of m) earlier.new }
    ensures factor { (result + slice_index above.old (length rest.now - 1 + shift) * inverse) % value_of m ≡ 0 }
    ensures above { Alike (value_of m) above.new (sum_of above.old (multiple result (raised shift rest.now))) }
    ensures earlier { Alike (value_of m) earlier.new (sum_of earlier.old (multiple result (raised shift factor.now))) }
{
    let opposite = opposite_quotient(m, above[rest.len() - 1 + shift], inverse);
    add_multiple(m, above, rest, opposite, shift);
    add_multiple(m, earlier, factor, opposite, shift);
    opposite
}

/// The factor of a multiple that makes an entry 0, given the inverse of the entry of which it is a multiple.
fn opposite_quotient(m: Modulus, entry: u64, inverse: u64) -> u64
    requires entry { entry < value_of m }
    requires inverse { inverse < value_of m }
    ensures opposite { (result + entry * inverse) % value_of m ≡ 0 }
    ensures residue { result < value_of m }
{
    m.neg(m.mul(entry, inverse))
}

/// Adds `high` times the source, moved up by a place, and `low` times the source to the target.
fn add_two_multiples(m: Modulus, target: &mut [u64], source: &[u64], low: u64, high: u64)
    requires room { length source.now < length target.old }
    requires target_residues { AreResidues (value_of m) target.old }
    requires source_residues { AreResidues (value_of m) source.now }
    requires low { low < value_of m }
    requires high { high < value_of m }
    ensures sum { Alike (value_of m) target.new
        (sum_of (sum_of target.old (multiple high (raised 1 source.now))) (multiple low (raised 0 source.now))) }
    ensures residues { AreResidues (value_of m) target.new }
{
    let mut below = 0;
    for (k, coefficient) in source.iter().enumerate() {
        target[k] = fused_two(m, target[k], high, below, low, *coefficient);
        below = *coefficient;
    }
    let end = source.len();
    target[end] = fused(m, target[end], high, below);
}
