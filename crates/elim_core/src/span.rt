//! Multiples of kept rows, added to a row between two places.

ghost use Rattle.std.specs.Prelude.{◌≡◌, ◌≢◌, ℕ, ◌+◌, ◌*◌, ◌%◌, ◌<◌, ◌≤◌, length, slice_index};
ghost use Rattle.elim_core.specs.Layout.{IsRow};
ghost use Rattle.elim_core.specs.Multiples.{AreSlots, entry_in, IsStored, multiples, IsAdded};

use crate::slots::Slots;
use prime_field::Field;

/// The earlier of two places.
pub fn earlier(place: usize, other: usize) -> usize
    ensures first { result ≤ place }
    ensures second { result ≤ other }
    ensures either { (result ≢ place) → (result ≡ other) }
{
    if place < other { place } else { other }
}

/// The later of two places.
pub fn later(place: usize, other: usize) -> usize
    ensures first { place ≤ result }
    ensures second { other ≤ result }
    ensures limit { (u : ℕ) → place ≤ u → other ≤ u → result ≤ u }
{
    if place < other { other } else { place }
}

/// An entry with the entries at its place of the rows in the slots from `slot` on, each times its factor: one fold for all.
#[inline(always)]
fn with_multiples<F: Field, const N: usize>(
    field: F,
    slots: Slots,
    slot: usize,
    factors: &[u64; N],
    place: usize,
    value: u64,
) -> u64
    requires slots { AreSlots F.modulus slots }
    requires few { N ≤ 4 }
    requires within { slot + N ≤ slots.unknowns }
    requires place { place < slots.unknowns }
    requires factors { (t : ℕ) → t < N → slice_index factors.now t < F.modulus }
    requires stored { (t : ℕ) → t < N → IsStored slots (slot + t) place }
    requires value { value < F.modulus }
    ensures sum { result ≡ (value + multiples slots.entry slot factors.now N place) % F.modulus }
    ensures residue { result < F.modulus }
{
    let mut sum = value as u128;
    for (index, factor) in factors.iter().enumerate() {
        let word = slots.rows[(slot + index) * (slots.unknowns + 1) + place];
        sum += *factor as u128 * word as u128;
    }
    field.fold(sum)
}

/// Adds multiples of the rows in the slots from `slot` on to the row, between two places.
pub fn add_rows<F: Field, const N: usize>(
    field: F,
    slots: Slots,
    slot: usize,
    factors: &[u64; N],
    row: &mut [u64],
    from: usize,
    to: usize,
)
    requires slots { AreSlots F.modulus slots }
    requires few { N ≤ 4 }
    requires within { slot + N ≤ slots.unknowns }
    requires factors { (t : ℕ) → t < N → slice_index factors.now t < F.modulus }
    requires row { IsRow F.modulus slots.unknowns row.old }
    requires order { from ≤ to }
    requires to { to ≤ slots.unknowns }
    requires stored { (t k : ℕ) → t < N → from < k + 1 → k < to → IsStored slots (slot + t) k }
    ensures row { IsRow F.modulus slots.entry.unknowns row.new }
    ensures added { IsAdded F.modulus row.old row.new from to (multiples slots.entry slot factors.now N) }
{
    for place in from..to {
        row[place] = with_multiples(field, slots, slot, factors, place, row[place]);
    }
}

/// Adds `factor` times the row in a slot to the row, between two places after the slot's own.
pub fn add_row<F: Field>(
    field: F,
    slots: Slots,
    slot: usize,
    factor: u64,
    row: &mut [u64],
    from: usize,
    to: usize,
)
    requires slots { AreSlots F.modulus slots }
    requires slot { slot < from }
    requires used { slice_index slots.ends.now slot ≢ 0 }
    requires factor { factor < F.modulus }
    requires row { IsRow F.modulus slots.unknowns row.old }
    requires to { to ≤ slots.unknowns }
    ensures row { IsRow F.modulus slots.entry.unknowns row.new }
    ensures added { IsAdded F.modulus row.old row.new from to (λ k. factor * entry_in slots.entry slot k) }
{
    let end = earlier(to, slots.ends[slot] as usize);
    if from < end {
        add_rows::<F, 1>(field, slots, slot, &[factor], row, from, end);
    }
}

/// Writes `factor` times the row to the words from `start` on, between two places.
pub fn write_multiple<F: Field>(
    field: F,
    words: &mut [u64],
    start: usize,
    row: &[u64],
    from: usize,
    to: usize,
    factor: u64,
)
    requires order { from ≤ to }
    requires within { to ≤ length row.now }
    requires target { start + to ≤ length words.old }
    requires factor_residue { factor < F.modulus }
    requires row_residues { (k : ℕ) → k < length row.now → slice_index row.now k < F.modulus }
    ensures room { length words.new ≡ length words.old }
    ensures inside { (k : ℕ) → from < k + 1 → k < to →
        slice_index words.new (start + k) ≡ (factor * slice_index row.now k) % F.modulus }
    ensures before { (i : ℕ) → i < start + from → slice_index words.new i ≡ slice_index words.old i }
    ensures after { (i : ℕ) → start + to ≤ i → slice_index words.new i ≡ slice_index words.old i }
{
    for i in from..to {
        words[start + i] = field.mul(factor, row[i]);
    }
}
