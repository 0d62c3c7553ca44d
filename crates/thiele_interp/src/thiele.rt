//! The least pair by Thiele's continued fraction, where it closes early.

ghost use Rattle.std.specs.Prelude.{◌≡◌, ◌≢◌, ℕ, suc, [], ◌∷◌, ◌+◌, ◌-◌, ◌*◌, ◌%◌, ◌<◌, ◌≤◌, ◌↔◌, EachIndex, IfSome, IfNone, IsTrue, length, take, drop, slice_index};
ghost use Rattle.prime_field.specs.Modulus.{value_of};
ghost use Rattle.prime_field.specs.Residue.{IsPrime};
ghost use Rattle.univariate.specs.Univariate.{univariate_value, AreApart};
ghost use Rattle.univariate.specs.Coefficients.{sum_of, multiple, product_of, IsBelow, Alike, AreResidues};
ghost use Rattle.thiele_interp.specs.Pairs.{IsLeastPair, IsReducedPair};
ghost use Rattle.thiele_interp.specs.Thiele.{thiele_num, thiele_den, FitsPoints, AnswersAt, IsScaled};

use crate::least::write_pair;
use crate::levels::closing_level;
use prime_field::Modulus;
use univariate::{add_multiple, multiply_by_root, trimmed_length, value};

/// The least pair, of degree `a` at most above and `b` at most below, where Thiele's form of the samples gives it. Any two
/// points differ by a unit. Nothing is allocated, and the pair stands in `work` as `least_pair_over` leaves it.
///
/// None where a divisor is no unit before the form closes, and where the pair at which it closes passes the degrees or has
/// a denominator that is 0 at some point.
pub fn thiele_over(
    m: Modulus,
    points: &[u64],
    values: &[u64],
    a: usize,
    b: usize,
    work: &mut [u64],
) -> Option<(usize, usize)>
    requires lengths { length values.now ≡ length points.now }
    requires few { a + b < length points.now }
    requires room { 12 * (length points.now + 2) ≤ length work.old }
    requires points { AreResidues (value_of m) points.now }
    requires values { AreResidues (value_of m) values.now }
    requires apart { AreApart (value_of m) (length points.now) (slice_index points.now) }
    ensures room { IfSome result (λ r. r.0 + r.1 ≤ length work.new) }
    ensures reduced { IfSome result (λ r. IsReducedPair (value_of m) (take r.0 work.new) (take r.1 (drop r.0 work.new))) }
    ensures least { IfSome result (λ r. IsLeastPair (value_of m) (length points.now) (slice_index points.now) (slice_index values.now) a b
        (take r.0 work.new) (take r.1 (drop r.0 work.new))) }
    ensures closes { IfSome result (λ r. (e : ℕ) × AnswersAt (value_of m) (length points.now) (slice_index points.now) (slice_index values.now) a b e) }
    ensures none { IfNone result (IsPrime (value_of m) → (e : ℕ) →
        AnswersAt (value_of m) (length points.now) (slice_index points.now) (slice_index values.now) a b e → ⊥) }
{
    thiele_up_to(m, points, values, a, b, points.len(), work)
}

/// The same with at most `levels` levels: None too where the form closes at none of them.
pub fn thiele_up_to(
    m: Modulus,
    points: &[u64],
    values: &[u64],
    a: usize,
    b: usize,
    levels: usize,
    work: &mut [u64],
) -> Option<(usize, usize)>
    requires lengths { length values.now ≡ length points.now }
    requires few { a + b < length points.now }
    requires room { 12 * (length points.now + 2) ≤ length work.old }
    requires points { AreResidues (value_of m) points.now }
    requires values { AreResidues (value_of m) values.now }
    requires apart { AreApart (value_of m) (length points.now) (slice_index points.now) }
    ensures room { IfSome result (λ r. r.0 + r.1 ≤ length work.new) }
    ensures reduced { IfSome result (λ r. IsReducedPair (value_of m) (take r.0 work.new) (take r.1 (drop r.0 work.new))) }
    ensures least { IfSome result (λ r. IsLeastPair (value_of m) (length points.now) (slice_index points.now) (slice_index values.now) a b
        (take r.0 work.new) (take r.1 (drop r.0 work.new))) }
    ensures closes { IfSome result (λ r. (e : ℕ) × (e < levels) ×
        AnswersAt (value_of m) (length points.now) (slice_index points.now) (slice_index values.now) a b e) }
    ensures none { IfNone result (IsPrime (value_of m) → (e : ℕ) → e < levels →
        AnswersAt (value_of m) (length points.now) (slice_index points.now) (slice_index values.now) a b e → ⊥) }
{
    let count = points.len();
    let (num, others) = work.split_at_mut(count + 1);
    let (earlier_num, others) = others.split_at_mut(count + 1);
    let (den, others) = others.split_at_mut(count + 1);
    let (earlier_den, others) = others.split_at_mut(count + 1);
    let (differences, others) = others.split_at_mut(count);
    let (divisors, others) = others.split_at_mut(count);
    let (scratch, _) = others.split_at_mut(count);
    let level = closing_level(m, points, values, levels, differences, divisors, scratch)?;
    write_form(
        m,
        points,
        level,
        differences,
        num,
        earlier_num,
        den,
        earlier_den,
    );
    let found = scaled_pair(m, points, a, b, num, den);
    found
}

/// Writes the numerator and the denominator of a level, given the coefficients up to it. The other two slices are room for
/// those of the level before.
fn write_form(
    m: Modulus,
    points: &[u64],
    level: usize,
    coefficients: &[u64],
    num: &mut [u64],
    earlier_num: &mut [u64],
    den: &mut [u64],
    earlier_den: &mut [u64],
)
    requires level { level < length points.now }
    requires coefficients_length { length coefficients.now ≡ length points.now }
    requires num_length { length num.old ≡ length points.now + 1 }
    requires earlier_num_length { length earlier_num.old ≡ length points.now + 1 }
    requires den_length { length den.old ≡ length points.now + 1 }
    requires earlier_den_length { length earlier_den.old ≡ length points.now + 1 }
    requires points { AreResidues (value_of m) points.now }
    requires coefficients { AreResidues (value_of m) coefficients.now }
    ensures num_residues { AreResidues (value_of m) num.new }
    ensures den_residues { AreResidues (value_of m) den.new }
    ensures num { Alike (value_of m) num.new (thiele_num (value_of m) (slice_index points.now) (slice_index coefficients.now) level) }
    ensures den { Alike (value_of m) den.new (thiele_den (value_of m) (slice_index points.now) (slice_index coefficients.now) level) }
{
    write_constant(earlier_num, 1);
    write_constant(num, coefficients[0]);
    write_constant(earlier_den, 0);
    write_constant(den, 1);
    for k in 0..level {
        advance(m, k / 2, points[k], coefficients[k + 1], num, earlier_num);
        advance(m, k / 2, points[k], coefficients[k + 1], den, earlier_den);
    }
}

/// Writes a constant and zeros after it.
fn write_constant(polynomial: &mut [u64], constant: u64)
    requires some { 0 < length polynomial.old }
    ensures { (k : ℕ) → slice_index polynomial.new k ≡ slice_index (constant ∷ []) k }
{
    polynomial.fill(0);
    polynomial[0] = constant;
}

/// Replaces the last polynomial by the variable less `root` times the one before plus `coefficient` times it, and the one
/// before by it. The one before has the given degree or less, the last a degree more at most.
fn advance(
    m: Modulus,
    degree: usize,
    root: u64,
    coefficient: u64,
    last: &mut [u64],
    before: &mut [u64],
)
    requires room { degree + 2 ≤ length before.old }
    requires lengths { length last.old ≡ length before.old }
    requires before_degree { IsBelow (value_of m) (degree + 1) before.old }
    requires last_degree { IsBelow (value_of m) (degree + 2) last.old }
    requires before_residues { AreResidues (value_of m) before.old }
    requires last_residues { AreResidues (value_of m) last.old }
    requires root { root < value_of m }
    requires coefficient { coefficient < value_of m }
    ensures last { Alike (value_of m) last.new
        (sum_of (product_of ((value_of m - root) ∷ 1 ∷ []) before.old) (multiple coefficient last.old)) }
    ensures residues { AreResidues (value_of m) last.new }
    ensures before { before.new ≡ last.old }
{
    multiply_by_root(m, before, degree, root);
    add_multiple(m, before, &last[..degree + 2], coefficient, 0);
    last.swap_with_slice(before);
}

/// Scales a pair that fits by the inverse of its denominator's leading coefficient, and writes the denominator after the
/// numerator. None where it doesn't fit.
fn scaled_pair(
    m: Modulus,
    points: &[u64],
    a: usize,
    b: usize,
    num: &mut [u64],
    den: &mut [u64],
) -> Option<(usize, usize)>
    requires few { a + b < length points.now }
    requires num_length { length num.old ≡ length points.now + 1 }
    requires den_length { length den.old ≡ length points.now + 1 }
    requires points { AreResidues (value_of m) points.now }
    requires num_residues { AreResidues (value_of m) num.old }
    requires den_residues { AreResidues (value_of m) den.old }
    ensures room { IfSome result (λ r. r.0 + r.1 ≤ length num.new) }
    ensures reduced { IfSome result (λ r. IsReducedPair (value_of m) (take r.0 num.new) (take r.1 (drop r.0 num.new))) }
    ensures scaled { IfSome result (λ r. IsScaled (value_of m) num.old den.old (take r.0 num.new) (take r.1 (drop r.0 num.new))) }
    ensures fits { IfSome result (λ r. FitsPoints (value_of m) (length points.now) (slice_index points.now) a b num.old den.old) }
    ensures none { IfNone result (IsPrime (value_of m) → FitsPoints (value_of m) (length points.now) (slice_index points.now) a b num.old den.old → ⊥) }
{
    let terms = trimmed_length(den);
    if trimmed_length(num) > a + 1 || terms > b + 1 {
        return None;
    }
    if !is_nowhere_zero(m, points, &den[..terms]) {
        return None;
    }
    let inverse = m.inv(den[terms - 1])?;
    let length = write_pair(m, num, den, terms, inverse);
    Some((length, terms))
}

/// Whether a polynomial is 0 at none of the points.
fn is_nowhere_zero(m: Modulus, points: &[u64], coefficients: &[u64]) -> bool
    requires points { AreResidues (value_of m) points.now }
    requires coefficients { AreResidues (value_of m) coefficients.now }
    ensures { IsTrue result ↔ EachIndex points.now (λ i. univariate_value coefficients.now (slice_index points.now i) % value_of m ≢ 0) }
{
    for point in points {
        if value(m, coefficients, *point) == 0 {
            return false;
        }
    }
    true
}
