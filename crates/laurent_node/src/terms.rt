//! What an expansion is made of, term by term.

ghost use Rattle.std.specs.Prelude.{◌≡◌, ℕ, ℤ, pos, negsuc, ◌+◌, ◌-◌, ◌*◌, ◌%◌, ◌^◌, ◌<◌, ◌≤ℤ◌, ◌↔◌, List, ◌∷◌, IsTrue, length, slice_index, take};
ghost use Rattle.prime_field.specs.Modulus.{value_of};
ghost use Rattle.univariate.specs.Coefficients.{product_of, AreResidues};
ghost use Rattle.laurent_node.specs.Expansion.{place, numerator_at, IsLeastExponent};

use prime_field::Modulus;
use univariate::fused;

/// How far an order from -64 on is above -64.
pub(crate) fn place_of(order: i32) -> usize
    requires low { negsuc 63 ≤ℤ order }
    requires high { order ≤ℤ pos 64 }
    ensures { result ≡ place order }
{
    (order + 64) as usize
}

/// The least exponent with a coefficient other than 0.
pub(crate) fn least_exponent(coefficients: &[u64]) -> usize
    requires { ((k : ℕ) → slice_index coefficients.now k ≡ 0) → ⊥ }
    ensures { IsLeastExponent result coefficients.now }
{
    let mut exponent = 0;
    while coefficients[exponent] == 0 {
        exponent += 1;
    }
    exponent
}

/// Whether the numerator has no coefficient other than 0 at the places below `first`.
pub(crate) fn vanishes_before(num: &[u64], first: usize) -> bool
    ensures { IsTrue result ↔ ((k : ℕ) → k + 64 < first → slice_index num.now k ≡ 0) }
{
    for (k, coefficient) in num.iter().enumerate() {
        if k + 64 < first && *coefficient != 0 {
            return false;
        }
    }
    true
}

/// The numerator's coefficient at a place.
fn numerator(num: &[u64], place: usize) -> u64
    ensures { result ≡ numerator_at num.now place }
{
    if place < 64 {
        0
    } else if place - 64 < num.len() {
        num[place - 64]
    } else {
        0
    }
}

/// What the terms that are done give at the next place, `tail` being the denominator's coefficients above its least.
fn earlier(m: Modulus, tail: &[u64], done: &[u64]) -> u64
    requires tail { AreResidues (value_of m) tail.now }
    requires done { AreResidues (value_of m) done.now }
    ensures sum { result ≡ slice_index (0 ∷ product_of tail.now done.now) (length done.now) % value_of m }
    ensures residue { result < value_of m }
{
    let count = if tail.len() < done.len() {
        tail.len()
    } else {
        done.len()
    };
    let mut sum = 0;
    for h in 0..count {
        sum = fused(m, sum, tail[h], done[done.len() - 1 - h]);
    }
    sum
}

/// Writes `count` terms one after the other, `first` being the place of the numerator's coefficient for the first of them
/// and `inverse` that of the denominator's least coefficient.
pub(crate) fn write_expansion(
    m: Modulus,
    num: &[u64],
    tail: &[u64],
    first: usize,
    inverse: u64,
    count: usize,
    out: &mut [u64],
)
    requires count { count ≡ length out.old }
    requires num { AreResidues (value_of m) num.now }
    requires tail { AreResidues (value_of m) tail.now }
    requires inverse { inverse < value_of m }
    requires room { first + length out.old < 2 ^ 64 }
    ensures residues { AreResidues (value_of m) out.new }
    ensures terms { (i : ℕ) → i < length out.new → slice_index out.new i ≡
        ((numerator_at num.now (first + i) + (value_of m - slice_index (0 ∷ product_of tail.now (take i out.new)) i % value_of m)) * inverse) % value_of m }
{
    for i in 0..count {
        let known = earlier(m, tail, &out[..i]);
        out[i] = m.mul(m.sub(numerator(num, first + i), known), inverse);
    }
}
