//! Sums of products of residues, four products to a fold.

ghost use Rattle.std.specs.Prelude.{◌≡◌, ℕ, ◌+◌, ◌*◌, ◌%◌, ◌<◌, ◌≤◌, length, slice_index};
ghost use Rattle.prime_field.specs.Modulus.{value_of};
ghost use Rattle.prime_field.specs.Sum.{sum_to};
ghost use Rattle.elim_core.specs.Multiples.{product_at};

use prime_field::{ByFirst, BySecond, Field, Modulus};

/// A residue with the next `N` products of words and values from a place on: one fold for all.
#[inline(always)]
fn with_products<F: Field, const N: usize>(
    field: F,
    words: &[u64],
    values: &[u64],
    place: usize,
    start: u64,
) -> u64
    requires few { N ≤ 4 }
    requires lengths { length words.now ≡ length values.now }
    requires within { place + N ≤ length words.now }
    requires words { (k : ℕ) → k < length words.now → slice_index words.now k < F.modulus }
    requires values { (k : ℕ) → k < length values.now → slice_index values.now k < F.modulus }
    requires start { start < F.modulus }
    ensures sum { result ≡ (start + sum_to N (λ t. product_at words.now values.now (place + t))) % F.modulus }
    ensures residue { result < F.modulus }
{
    let mut sum = start as u128;
    for t in 0..N {
        let k = place + t;
        sum += words[k] as u128 * values[k] as u128;
    }
    field.fold(sum)
}

/// The sum of the products of words and values in a field.
fn dot_in<F: Field>(field: F, words: &[u64], values: &[u64]) -> u64
    requires lengths { length words.now ≡ length values.now }
    requires words { (k : ℕ) → k < length words.now → slice_index words.now k < F.modulus }
    requires values { (k : ℕ) → k < length values.now → slice_index values.now k < F.modulus }
    ensures sum { result ≡ sum_to (length words.now) (product_at words.now values.now) % F.modulus }
    ensures residue { result < F.modulus }
{
    let mut sum = 0;
    let mut place = 0;
    while place < words.len() {
        if words.len() - place < 4 {
            sum = with_products::<F, 1>(field, words, values, place, sum);
            place += 1;
        } else {
            sum = with_products::<F, 4>(field, words, values, place, sum);
            place += 4;
        }
    }
    sum
}

/// The sum of the products of words and values.
pub fn dot(modulus: Modulus, words: &[u64], values: &[u64]) -> u64
    requires lengths { length words.now ≡ length values.now }
    requires words { (k : ℕ) → k < length words.now → slice_index words.now k < value_of modulus }
    requires values { (k : ℕ) → k < length values.now → slice_index values.now k < value_of modulus }
    ensures sum { result ≡ sum_to (length words.now) (product_at words.now values.now) % value_of modulus }
    ensures residue { result < value_of modulus }
{
    match modulus {
        Modulus::First => dot_in(ByFirst, words, values),
        Modulus::Second => dot_in(BySecond, words, values),
    }
}
