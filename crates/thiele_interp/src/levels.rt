//! Inverse differences of samples, level by level, until they are the same at each later point.

ghost use Rattle.std.specs.Prelude.{◌≡◌, ◌≢◌, ℕ, suc, ◌+◌, ◌-◌, ◌*◌, ◌%◌, ◌<◌, ◌≤◌, ◌↔◌, All, EachIndex, IfSome, IfNone, IsTrue, length, slice_index};
ghost use Rattle.std.specs.Bool.{OnTrue};
ghost use Rattle.prime_field.specs.Inverses.{AreInverses};
ghost use Rattle.prime_field.specs.Modulus.{value_of};
ghost use Rattle.prime_field.specs.Residue.{IsUnit};
ghost use Rattle.univariate.specs.Coefficients.{AreResidues};
ghost use Rattle.thiele_interp.specs.Thiele.{quotient, coefficient_at, ClosesAt};

use prime_field::Modulus;

/// The level below `levels` at which the form closes, with the coefficients up to this level in `differences`.
///
/// None where it closes at no such level, or a divisor is no unit before. `divisors` and `scratch` are room to work in.
pub(crate) fn closing_level(
    m: Modulus,
    points: &[u64],
    values: &[u64],
    levels: usize,
    differences: &mut [u64],
    divisors: &mut [u64],
    scratch: &mut [u64],
) -> Option<usize>
    requires values_length { length values.now ≡ length points.now }
    requires differences_length { length differences.old ≡ length points.now }
    requires divisors_length { length divisors.old ≡ length points.now }
    requires scratch_length { length scratch.old ≡ length points.now }
    requires points { AreResidues (value_of m) points.now }
    requires values { AreResidues (value_of m) values.now }
    ensures residues { AreResidues (value_of m) differences.new }
    ensures low { IfSome result (λ e. e < levels) }
    ensures closes { IfSome result (λ e. ClosesAt (value_of m) (length points.now) (slice_index points.now) (slice_index values.now) e) }
    ensures coefficients { IfSome result (λ e. (i : ℕ) → i ≤ e →
        slice_index differences.new i ≡ coefficient_at (value_of m) (slice_index points.now) (slice_index values.now) i) }
    ensures none { IfNone result ((e : ℕ) → e < levels →
        ClosesAt (value_of m) (length points.now) (slice_index points.now) (slice_index values.now) e → ⊥) }
{
    differences.copy_from_slice(values);
    let mut level = 0;
    while level < levels && level < points.len() {
        if is_constant(&differences[level..]) {
            return Some(level);
        }
        if !next_level(m, points, level, differences, divisors, scratch) {
            return None;
        }
        level += 1;
    }
    None
}

/// Whether all entries are the same.
fn is_constant(entries: &[u64]) -> bool
    ensures { IsTrue result ↔ EachIndex entries.now (λ j. slice_index entries.now j ≡ slice_index entries.now 0) }
{
    for entry in entries {
        if *entry != entries[0] {
            return false;
        }
    }
    true
}

/// Replaces the inverse differences of level `k` at the later points by those of the next level and answers true, or
/// answers false where a divisor is no unit.
fn next_level(
    m: Modulus,
    points: &[u64],
    k: usize,
    differences: &mut [u64],
    divisors: &mut [u64],
    scratch: &mut [u64],
) -> bool
    requires place { k < length points.now }
    requires differences_length { length differences.old ≡ length points.now }
    requires divisors_length { length divisors.old ≡ length points.now }
    requires scratch_length { length scratch.old ≡ length points.now }
    requires points { AreResidues (value_of m) points.now }
    requires differences { AreResidues (value_of m) differences.old }
    ensures units { IsTrue result ↔ ((j : ℕ) → k < j → j < length points.now →
        IsUnit (value_of m) (slice_index differences.old j + (value_of m - slice_index differences.old k))) }
    ensures residues { AreResidues (value_of m) differences.new }
    ensures earlier { (j : ℕ) → j ≤ k → slice_index differences.new j ≡ slice_index differences.old j }
    ensures later { OnTrue result ((j : ℕ) → k < j → j < length points.now → slice_index differences.new j ≡
        quotient (value_of m) (slice_index points.now j + (value_of m - slice_index points.now k))
        (slice_index differences.old j + (value_of m - slice_index differences.old k))) }
{
    let (divisors, _) = divisors.split_at_mut(points.len() - k - 1);
    let (scratch, _) = scratch.split_at_mut(points.len() - k - 1);
    write_divisors(m, k, differences, divisors);
    let are_units = m.inv_all(divisors, scratch);
    if are_units {
        write_quotients(m, points, k, divisors, differences);
    }
    are_units
}

/// Writes what each later entry is, less entry `k`.
fn write_divisors(m: Modulus, k: usize, differences: &[u64], divisors: &mut [u64])
    requires lengths { suc k + length divisors.old ≡ length differences.now }
    requires differences { AreResidues (value_of m) differences.now }
    ensures residues { All (λ x. x < value_of m) divisors.new }
    ensures divisors { EachIndex divisors.new (λ i. slice_index divisors.new i ≡
        (slice_index differences.now (suc k + i) + (value_of m - slice_index differences.now k)) % value_of m) }
{
    let own = differences[k];
    for i in 0..divisors.len() {
        divisors[i] = m.sub(differences[k + 1 + i], own);
    }
}

/// Writes for each later place its point less point `k`, times the inverse.
fn write_quotients(m: Modulus, points: &[u64], k: usize, inverses: &[u64], differences: &mut [u64])
    requires lengths { length differences.old ≡ length points.now }
    requires inverses_length { suc k + length inverses.now ≡ length points.now }
    requires points { AreResidues (value_of m) points.now }
    requires differences { AreResidues (value_of m) differences.old }
    requires inverses { EachIndex inverses.now (λ i. slice_index inverses.now i < value_of m) }
    ensures residues { AreResidues (value_of m) differences.new }
    ensures earlier { (j : ℕ) → j ≤ k → slice_index differences.new j ≡ slice_index differences.old j }
    ensures later { EachIndex inverses.now (λ i. slice_index differences.new (suc k + i) ≡
        ((slice_index points.now (suc k + i) + (value_of m - slice_index points.now k)) * slice_index inverses.now i) % value_of m) }
{
    let here = points[k];
    for i in 0..inverses.len() {
        let place = k + 1 + i;
        differences[place] = m.mul(m.sub(points[place], here), inverses[i]);
    }
}
