//! What two more points change, each array in one pass.

ghost use Rattle.std.specs.Prelude.{◌≡◌, ℕ, suc, ◌+◌, ◌-◌, ◌*◌, ◌%◌, ◌<◌, ◌≤◌, EachIndex, ◌∷◌, length, slice_index};
ghost use Rattle.prime_field.specs.Modulus.{value_of};
ghost use Rattle.univariate.specs.Coefficients.{IsBelow, AreResidues};

use crate::sums::{fused_three, fused_two};
use prime_field::Modulus;

/// Writes each entry less the first.
pub(crate) fn take_first(m: Modulus, entries: &[u64], out: &mut [u64])
    requires some { 0 < length entries.now }
    requires lengths { length out.old ≡ length entries.now }
    requires entries { AreResidues (value_of m) entries.now }
    ensures residues { AreResidues (value_of m) out.new }
    ensures differences { EachIndex entries.now (λ j. slice_index out.new j ≡
        (slice_index entries.now j + (value_of m - slice_index entries.now 0)) % value_of m) }
{
    let first = entries[0];
    for j in 0..entries.len() {
        out[j] = m.sub(entries[j], first);
    }
}

/// For each place past `k + 1`, multiplies the entry of `spread` by its point less point `k` and less point `k + 1`,
/// and adds up multiples: `both` times the entry of `missing`, `first` times that of `spread` before, `second` times it
/// between.
pub(crate) fn add_to_later(
    m: Modulus,
    points: &[u64],
    k: usize,
    both: u64,
    first: u64,
    second: u64,
    spread: &mut [u64],
    missing: &mut [u64],
)
    requires place { suc k < length points.now }
    requires spread_length { length spread.old ≡ length points.now }
    requires missing_length { length missing.old ≡ length points.now }
    requires points { AreResidues (value_of m) points.now }
    requires spread { AreResidues (value_of m) spread.old }
    requires missing { AreResidues (value_of m) missing.old }
    requires both { both < value_of m }
    requires first { first < value_of m }
    requires second { second < value_of m }
    ensures spread_residues { AreResidues (value_of m) spread.new }
    ensures missing_residues { AreResidues (value_of m) missing.new }
    ensures spread { (j : ℕ) → suc k < j → j < length points.now → slice_index spread.new j % value_of m ≡
        (slice_index spread.old j * (slice_index points.now j + (value_of m - slice_index points.now k)) *
        (slice_index points.now j + (value_of m - slice_index points.now (suc k)))) % value_of m }
    ensures missing { (j : ℕ) → suc k < j → j < length points.now → slice_index missing.new j % value_of m ≡
        (both * slice_index missing.old j + first * slice_index spread.old j +
        second * (slice_index spread.old j * (slice_index points.now j + (value_of m - slice_index points.now k)))) % value_of m }
{
    let here = points[k];
    let next = points[k + 1];
    for j in k + 2..points.len() {
        let between = m.mul(spread[j], m.sub(points[j], here));
        missing[j] = fused_three(m, both, missing[j], first, spread[j], second, between);
        spread[j] = m.mul(between, m.sub(points[j], next));
    }
}

/// Multiplies `product`, which has the given degree, by the square of the variable plus `linear` times it plus
/// `constant`. Adds to `both` times `out` the product of `low + high` times the variable with `product` as it was.
pub(crate) fn raise_both(
    m: Modulus,
    degree: usize,
    linear: u64,
    constant: u64,
    both: u64,
    low: u64,
    high: u64,
    product: &mut [u64],
    out: &mut [u64],
)
    requires product_length { degree + 2 < length product.old }
    requires out_length { degree + 2 ≤ length out.old }
    requires degree { IsBelow (value_of m) (suc degree) product.old }
    requires out_degree { IsBelow (value_of m) degree out.old }
    requires product { AreResidues (value_of m) product.old }
    requires out { AreResidues (value_of m) out.old }
    requires linear { linear < value_of m }
    requires constant { constant < value_of m }
    requires both { both < value_of m }
    requires low { low < value_of m }
    requires high { high < value_of m }
    ensures product_residues { AreResidues (value_of m) product.new }
    ensures out_residues { AreResidues (value_of m) out.new }
    ensures product { (i : ℕ) → slice_index product.new i % value_of m ≡
        (slice_index (0 ∷ 0 ∷ product.old) i + linear * slice_index (0 ∷ product.old) i + constant * slice_index product.old i) % value_of m }
    ensures out { (i : ℕ) → slice_index out.new i % value_of m ≡
        (both * slice_index out.old i + low * slice_index product.old i + high * slice_index (0 ∷ product.old) i) % value_of m }
{
    let mut below = 0;
    let mut lower = 0;
    for i in 0..degree + 2 {
        let own = product[i];
        out[i] = fused_three(m, both, out[i], low, own, high, below);
        product[i] = fused_two(m, lower, linear, below, constant, own);
        lower = below;
        below = own;
    }
    product[degree + 2] = lower;
}
