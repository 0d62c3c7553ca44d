//! Values that are given to unknowns: where no row is kept, and by a further row for each unknown of a set.

ghost use Rattle.std.specs.Prelude.{◌≡◌, ◌≢◌, ℕ, ◌+◌, ◌-◌, ◌<◌, ◌≤◌, ◌↔◌, length, slice_index, IsTrue};
ghost use Rattle.std.specs.Bool.{OnTrue, OnFalse};
ghost use Rattle.prime_field.specs.Modulus.{value_of};
ghost use Rattle.prime_field.specs.Residue.{IsPrime};
ghost use Rattle.elim_core.specs.Rows.{IsUntold, chosen_value, Fixes, IsDecided};
ghost use Rattle.elim_core.specs.Layout.{entry, IsLaidOut, IsCleared, KeepsUsed, HasZeros, IsLayered};
ghost use Rattle.elim_core.specs.Solver.{has_number, IsAscending, AreUnknowns};

use crate::Rank;
use crate::elimination::{Lead, absorb_row};
use crate::layers::mark_empty;
use prime_field::Modulus;

/// Writes a zero to each word.
pub fn zero_all(words: &mut [u64])
    ensures room { length words.new ≡ length words.old }
    ensures zeros { (k : ℕ) → k < length words.old → slice_index words.new k ≡ 0 }
{
    for word in words.iter_mut() {
        *word = 0;
    }
}

/// 1 for the chosen number, and 0 for each other one.
fn value_for(number: u32, chosen: u32) -> u64
    ensures { result ≡ chosen_value chosen number }
{
    if number == chosen { 1 } else { 0 }
}

/// Writes 1 at the place of the chosen unknown, and 0 at the others.
pub fn write_choice(values: &mut [u64], chosen: u32)
    requires few { length values.old ≤ 4096 }
    ensures room { length values.new ≡ length values.old }
    ensures chosen { (k : ℕ) → k < length values.old → slice_index values.new k ≡ chosen_value chosen (k + 1) }
{
    for (k, value) in values.iter_mut().enumerate() {
        *value = value_for(k as u32 + 1, chosen);
    }
}

/// Keeps a row that gives the unknown at `place` the value, or answers false where that cuts no solutions or leaves none.
pub fn fix(
    modulus: Modulus,
    unknowns: usize,
    rows: &mut [u64],
    ends: &mut [u64],
    row: &mut [u64],
    place: usize,
    value: u64,
) -> bool
    requires few { unknowns ≤ 4096 }
    requires laid_out { IsLaidOut (value_of modulus) unknowns rows.old ends.old }
    requires cleared { IsCleared unknowns row.old }
    requires place { place < unknowns }
    requires value { value < 2 }
    ensures laid_out { IsLaidOut (value_of modulus) unknowns rows.new ends.new }
    ensures keeps_used { KeepsUsed unknowns rows.old ends.old rows.new ends.new }
    ensures cleared { IsCleared unknowns row.new }
    ensures fixed { OnTrue result (Fixes (value_of modulus) unknowns (entry unknowns rows.old ends.old)
        (entry unknowns rows.new ends.new) place value) }
    ensures refused { OnFalse result (IsPrime (value_of modulus)
        → IsDecided (value_of modulus) unknowns (entry unknowns rows.old ends.old) place value) }
{
    row[place] = 1;
    row[unknowns] = value;
    let span = Lead {
        place,
        end: place + 1,
    };
    match absorb_row(modulus, unknowns, rows, ends, row, span) {
        Rank::New => true,
        Rank::Same => false,
        Rank::Contradiction => false,
    }
}

/// Whether each slot is used.
fn are_used(ends: &[u64]) -> bool
    ensures { IsTrue result ↔ ((k : ℕ) → k < length ends.now → slice_index ends.now k ≢ 0) }
{
    ends.iter().all(|end| *end != 0)
}

/// Keeps a row for each unknown of the set, which gives it 0, and notes the layer in which each slot is filled: 0 before the
/// first of these rows, and then one for each of them. Answers whether each cut solutions and just one is left.
pub fn choose(
    modulus: Modulus,
    unknowns: usize,
    rows: &mut [u64],
    ends: &mut [u64],
    row: &mut [u64],
    layers: &mut [u64],
    set: &[u32],
) -> bool
    requires few { unknowns ≤ 4096 }
    requires laid_out { IsLaidOut (value_of modulus) unknowns rows.old ends.old }
    requires cleared { IsCleared unknowns row.old }
    requires layers_room { length layers.old ≡ unknowns }
    requires ascending { IsAscending set.now }
    requires unknowns { AreUnknowns unknowns set.now }
    ensures laid_out { IsLaidOut (value_of modulus) unknowns rows.new ends.new }
    ensures keeps_used { KeepsUsed unknowns rows.old ends.old rows.new ends.new }
    ensures cleared { IsCleared unknowns row.new }
    ensures layers_room { length layers.new ≡ unknowns }
    ensures zeros { OnTrue result (HasZeros (value_of modulus) unknowns rows.old ends.old rows.new ends.new
        set.now (length set.now)) }
    ensures layered { OnTrue result (IsLayered (value_of modulus) unknowns rows.old ends.old rows.new ends.new
        layers.new set.now (length set.now)) }
    ensures used { OnTrue result ((k : ℕ) → k < unknowns → slice_index ends.new k ≢ 0) }
    ensures undefined { OnFalse result (IsPrime (value_of modulus)
        → IsUntold (value_of modulus) unknowns (entry unknowns rows.old ends.old) (λ k. has_number set.now (k + 1))) }
{
    zero_all(layers);
    for (i, number) in set.iter().enumerate() {
        mark_empty(ends, layers, i as u64 + 1);
        if !fix(modulus, unknowns, rows, ends, row, *number as usize - 1, 0) {
            return false;
        }
    }
    are_used(ends)
}
