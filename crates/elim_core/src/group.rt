//! Kept rows in slots next to each other, as many as four, taken from a row at once.

ghost use Rattle.std.specs.Prelude.{◌≡◌, ◌≢◌, ℕ, ◌+◌, ◌*◌, ◌%◌, ◌<◌, ◌≤◌, length, slice_index};
ghost use Rattle.elim_core.specs.Layout.{IsRow};
ghost use Rattle.elim_core.specs.Multiples.{AreSlots, entry_in, multiples, IsAdded, IsGroup};

use crate::slots::Slots;
use crate::span::{add_row, add_rows, earlier, later};
use prime_field::Field;

/// The rows that are taken at once.
#[derive(Clone, Copy)]
pub struct Group {
    /// How many there are.
    pub count: usize,
    /// What each of them is multiplied by.
    pub factors: [u64; 4],
    /// No row of them ends before this place.
    pub shared: usize,
    /// No row of them ends after this place.
    pub end: usize,
}

/// Makes the entry at the place of a slot 0, and adds the multiple of the slot's row that does so to the entries after it,
/// before another place. Answers the factor.
fn clear_entry<F: Field>(field: F, slots: Slots, slot: usize, row: &mut [u64], to: usize) -> u64
    requires slots { AreSlots F.modulus slots }
    requires slot { slot < to }
    requires to { to ≤ slots.unknowns }
    requires used { slice_index slots.ends.now slot ≢ 0 }
    requires row { IsRow F.modulus slots.unknowns row.old }
    requires some { slice_index row.old slot ≢ 0 }
    ensures factor { result < F.modulus }
    ensures row { IsRow F.modulus slots.entry.unknowns row.new }
    ensures cleared { slice_index row.new slot ≡ 0 }
    ensures added { IsAdded F.modulus row.old row.new slot to (λ k. result * entry_in slots.entry slot k) }
{
    let factor = field.value() - row[slot];
    row[slot] = 0;
    add_row(field, slots, slot, factor, row, slot + 1, to);
    factor
}

/// Where the used slots from `place` on end, at most four places on.
pub fn end_of_run(slots: Slots, place: usize) -> usize
    requires few { slots.unknowns ≤ 4096 }
    requires room { length slots.ends.now ≡ slots.unknowns }
    requires place { place < slots.unknowns }
    requires used { slice_index slots.ends.now place ≢ 0 }
    ensures some { place < result }
    ensures few { result ≤ place + 4 }
    ensures end { result ≤ slots.entry.unknowns }
    ensures used { (j : ℕ) → place < j + 1 → j < result → slice_index slots.entry.ends.now j ≢ 0 }
{
    let limit = earlier(place + 4, slots.unknowns);
    for slot in place + 1..limit {
        if slots.ends[slot] == 0 {
            return slot;
        }
    }
    limit
}

/// Takes rows from the entries of the row before `to`: those in the slots from `place` on, up to the first whose entry is 0
/// already.
pub fn begin_group<F: Field>(
    field: F,
    slots: Slots,
    row: &mut [u64],
    place: usize,
    to: usize,
    end: usize,
) -> Group
    requires slots { AreSlots F.modulus slots }
    requires place { place < to }
    requires few { to ≤ place + 4 }
    requires to { to ≤ slots.unknowns }
    requires end { end ≤ slots.unknowns }
    requires used { (j : ℕ) → place < j + 1 → j < to → slice_index slots.ends.now j ≢ 0 }
    requires row { IsRow F.modulus slots.unknowns row.old }
    ensures row { IsRow F.modulus slots.entry.unknowns row.new }
    ensures cleared { slice_index row.new place ≡ 0 }
    ensures added { IsAdded F.modulus row.old row.new place to (multiples slots.entry place result.factors result.count) }
    ensures group { IsGroup F.modulus slots.entry place result to }
    ensures end { end ≤ result.end }
{
    let mut group = Group {
        count: 0,
        factors: [0; 4],
        shared: slots.unknowns,
        end,
    };
    for slot in place..to {
        if row[slot] == 0 {
            return group;
        }
        group.factors[group.count] = clear_entry(field, slots, slot, row, to);
        group.count += 1;
        group.shared = earlier(group.shared, slots.ends[slot] as usize);
        group.end = later(group.end, slots.ends[slot] as usize);
    }
    group
}

/// A right side with those of the rows in the slots from `slot` on, each times its factor: one fold for all. That in slot
/// j is at place j of the slot, which is word j * (unknowns + 2).
#[inline(always)]
fn with_right_sides<F: Field, const N: usize>(
    field: F,
    slots: Slots,
    slot: usize,
    factors: &[u64; N],
    right: u64,
) -> u64
    requires slots { AreSlots F.modulus slots }
    requires few { N ≤ 4 }
    requires within { slot + N ≤ slots.unknowns }
    requires factors { (t : ℕ) → t < N → slice_index factors.now t < F.modulus }
    requires used { (t : ℕ) → t < N → slice_index slots.ends.now (slot + t) ≢ 0 }
    requires right { right < F.modulus }
    ensures sum { result ≡ (right + multiples slots.entry slot factors.now N slots.entry.unknowns) % F.modulus }
    ensures residue { result < F.modulus }
{
    let mut sum = right as u128;
    for (index, factor) in factors.iter().enumerate() {
        let word = slots.rows[(slot + index) * (slots.unknowns + 2)];
        sum += *factor as u128 * word as u128;
    }
    field.fold(sum)
}

/// Adds multiples of rows to the entries from a place on, and to the right side: all at once as far as they share, then each
/// to its end.
fn add_group<F: Field, const N: usize>(
    field: F,
    slots: Slots,
    slot: usize,
    factors: &[u64; N],
    row: &mut [u64],
    from: usize,
    shared: usize,
)
    requires slots { AreSlots F.modulus slots }
    requires few { N ≤ 4 }
    requires within { slot + N ≤ from }
    requires from { from ≤ shared }
    requires shared { shared ≤ slots.unknowns }
    requires factors { (t : ℕ) → t < N → slice_index factors.now t < F.modulus }
    requires used { (t : ℕ) → t < N → slice_index slots.ends.now (slot + t) ≢ 0 }
    requires share { (t : ℕ) → t < N → from < shared → shared ≤ slice_index slots.ends.now (slot + t) }
    requires row { IsRow F.modulus slots.unknowns row.old }
    ensures row { IsRow F.modulus slots.entry.unknowns row.new }
    ensures added { IsAdded F.modulus row.old row.new from (slots.entry.unknowns + 1)
        (multiples slots.entry slot factors.now N) }
{
    add_rows(field, slots, slot, factors, row, from, shared);
    for (index, factor) in factors.iter().enumerate() {
        add_row(
            field,
            slots,
            slot + index,
            *factor,
            row,
            shared,
            slots.unknowns,
        );
    }
    let right = row[slots.unknowns];
    row[slots.unknowns] = with_right_sides(field, slots, slot, factors, right);
}

/// Takes the group's rows from the entries of the row from `from` on.
pub fn finish_group<F: Field>(
    field: F,
    slots: Slots,
    slot: usize,
    group: &Group,
    row: &mut [u64],
    from: usize,
)
    requires slots { AreSlots F.modulus slots }
    requires from { from ≤ slots.unknowns }
    requires group { IsGroup F.modulus slots slot group.now from }
    requires row { IsRow F.modulus slots.unknowns row.old }
    ensures row { IsRow F.modulus slots.entry.unknowns row.new }
    ensures added { IsAdded F.modulus row.old row.new from (slots.entry.unknowns + 1)
        (multiples slots.entry slot group.now.factors group.now.count) }
{
    let shared = later(from, group.shared);
    let [first, second, third, _] = group.factors;
    match group.count {
        1 => add_group(field, slots, slot, &[first], row, from, shared),
        2 => add_group(field, slots, slot, &[first, second], row, from, shared),
        3 => add_group(
            field,
            slots,
            slot,
            &[first, second, third],
            row,
            from,
            shared,
        ),
        4 => add_group(field, slots, slot, &group.factors, row, from, shared),
        _ => {}
    }
}
