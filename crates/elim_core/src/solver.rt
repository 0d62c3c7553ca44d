//! Solver lists, column by column from the last unknown of the set to the first; the places of empty slots.

ghost use Rattle.std.specs.Prelude.{◌≡◌, ◌≢◌, ℕ, ◌+◌, ◌-◌, ◌*◌, ◌%◌, ◌<◌, ◌≤◌, true, length, slice_index, take};
ghost use Rattle.std.specs.Bool.{OnTrue, OnFalse};
ghost use Rattle.prime_field.specs.Modulus.{value_of};
ghost use Rattle.prime_field.specs.Residue.{IsPrime};
ghost use Rattle.elim_core.specs.Rows.{AllMet, AreResidues, IsUntold, chosen_value, told_in, IsSolvedList};
ghost use Rattle.elim_core.specs.Layout.{entry, IsLaidOut, IsCleared, KeepsUsed};
ghost use Rattle.elim_core.specs.Solver.{has_number, IsAscending, AreUnknowns};

use crate::choice::{choose, fix, write_choice, zero_all};
use crate::layers::cut_back;
use crate::substitution::back_substitute;
use prime_field::Modulus;

/// Writes the numbers of the unknowns whose slots are empty, and answers how many there are.
pub fn list_empty(unknowns: usize, ends: &[u64], out: &mut [u32]) -> usize
    requires few { unknowns ≤ 4096 }
    requires ends_room { length ends.now ≡ unknowns }
    requires room { length out.old ≡ unknowns }
    ensures count { result ≤ unknowns }
    ensures numbers { AreUnknowns unknowns (take result out.new) }
    ensures ascending { IsAscending (take result out.new) }
    ensures all { (k : ℕ) → k < unknowns → slice_index ends.now k ≡ 0 → has_number (take result out.new) (k + 1) ≡ true }
    ensures only { (k : ℕ) → k < unknowns → has_number (take result out.new) (k + 1) ≡ true → slice_index ends.now k ≡ 0 }
{
    let mut count = 0;
    for place in 0..unknowns {
        if ends[place] == 0 {
            out[count] = place as u32 + 1;
            count += 1;
        }
    }
    count
}

/// The value at `place` in the solution with 1 for the chosen one of the unknowns whose slots are empty, and 0 for the others.
fn value_by(
    modulus: Modulus,
    unknowns: usize,
    rows: &[u64],
    ends: &[u64],
    values: &mut [u64],
    chosen: u32,
    place: usize,
) -> u64
    requires few { unknowns ≤ 4096 }
    requires laid_out { IsLaidOut (value_of modulus) unknowns rows.now ends.now }
    requires room { length values.old ≡ unknowns }
    requires place { place < unknowns }
    ensures residue { result < value_of modulus }
    ensures value { (z : ℕ → ℕ) → AreResidues (value_of modulus) unknowns z →
        AllMet (value_of modulus) unknowns (entry unknowns rows.now ends.now) z →
        ((k : ℕ) → k < unknowns → slice_index ends.now k ≡ 0 → z k ≡ chosen_value chosen (k + 1)) → result ≡ z place }
{
    write_choice(values, chosen);
    back_substitute(modulus, unknowns, rows, ends, values);
    values[place]
}

/// The same, in words of its own.
pub fn free_value(
    modulus: Modulus,
    unknowns: usize,
    rows: &[u64],
    ends: &[u64],
    chosen: u32,
    place: usize,
) -> u64
    requires few { unknowns ≤ 4096 }
    requires laid_out { IsLaidOut (value_of modulus) unknowns rows.now ends.now }
    requires place { place < unknowns }
    ensures residue { result < value_of modulus }
    ensures value { (z : ℕ → ℕ) → AreResidues (value_of modulus) unknowns z →
        AllMet (value_of modulus) unknowns (entry unknowns rows.now ends.now) z →
        ((k : ℕ) → k < unknowns → slice_index ends.now k ≡ 0 → z k ≡ chosen_value chosen (k + 1)) → result ≡ z place }
{
    let mut values = [0; 4096];
    value_by(
        modulus,
        unknowns,
        rows,
        ends,
        &mut values[..unknowns],
        chosen,
        place,
    )
}

/// Writes the constants to the last column of the list.
fn write_constants(values: &[u64], want: &[u32], count: usize, out: &mut [u64])
    requires want { AreUnknowns (length values.now) want.now }
    requires room { length out.old ≡ length want.now * (count + 1) }
    ensures room { length out.new ≡ length out.old }
    ensures written { (t : ℕ) → t < length want.now →
        slice_index out.new (t * (count + 1) + count) ≡ slice_index values.now (slice_index want.now t - 1) }
{
    for (t, number) in want.iter().enumerate() {
        out[t * (count + 1) + count] = values[*number as usize - 1];
    }
}

/// What an unknown's constant and its numbers in the columns from `first` on give at the values.
fn told_by_later(
    modulus: Modulus,
    values: &[u64],
    set: &[u32],
    out: &[u64],
    start: usize,
    first: usize,
) -> u64
    requires set { AreUnknowns (length values.now) set.now }
    requires room { start + length set.now < length out.now }
    requires first { first ≤ length set.now }
    requires residues { (k : ℕ) → k < length values.now → slice_index values.now k < value_of modulus }
    requires numbers { (k : ℕ) → first < k + 1 → k < length set.now + 1 → slice_index out.now (start + k) < value_of modulus }
    ensures residue { result < value_of modulus }
    ensures told { result ≡ told_in (value_of modulus) (slice_index values.now) set.now out.now start first }
{
    let mut sum = 0;
    for r in 0..set.len() - first {
        let value = values[set[first + r] as usize - 1];
        sum = modulus.add(sum, modulus.mul(out[start + (first + r)], value));
    }
    modulus.add(sum, out[start + set.len()])
}

/// The first place of the set from `first` on at whose unknown the value isn't 0, or how many unknowns it has.
fn first_given(values: &[u64], set: &[u32], first: usize) -> usize
    requires set { AreUnknowns (length values.now) set.now }
    requires first { first ≤ length set.now }
    ensures from { first ≤ result }
    ensures within { result ≤ length set.now }
    ensures zeros { (k : ℕ) → first < k + 1 → k < result → slice_index values.now (slice_index set.now k - 1) ≡ 0 }
{
    let mut place = first;
    while place < set.len() && values[set[place] as usize - 1] == 0 {
        place += 1;
    }
    place
}

/// Writes a column of the list, given a solution with 1 for the column's unknown and 0 for the unknowns before it in the set: its
/// values less what the constants and the later columns give there.
fn write_column(
    modulus: Modulus,
    values: &[u64],
    set: &[u32],
    want: &[u32],
    column: usize,
    out: &mut [u64],
)
    requires set { AreUnknowns (length values.now) set.now }
    requires want { AreUnknowns (length values.now) want.now }
    requires room { length out.old ≡ length want.now * (length set.now + 1) }
    requires column { column < length set.now }
    requires residues { (k : ℕ) → k < length values.now → slice_index values.now k < value_of modulus }
    requires numbers { (t k : ℕ) → t < length want.now → column < k → k < length set.now + 1 →
        slice_index out.old (t * (length set.now + 1) + k) < value_of modulus }
    ensures room { length out.new ≡ length out.old }
    ensures written { (t : ℕ) → t < length want.now → slice_index out.new (t * (length set.now + 1) + column)
        ≡ (slice_index values.now (slice_index want.now t - 1)
        + (value_of modulus - told_in (value_of modulus) (slice_index values.now) set.now out.old
        (t * (length set.now + 1)) (column + 1))) % value_of modulus }
    ensures others { (t k : ℕ) → k < length set.now + 1 → k ≢ column →
        slice_index out.new (t * (length set.now + 1) + k) ≡ slice_index out.old (t * (length set.now + 1) + k) }
{
    let first = first_given(values, set, column + 1);
    for (t, number) in want.iter().enumerate() {
        let start = t * (set.len() + 1);
        let told = told_by_later(modulus, values, set, out, start, first);
        out[start + column] = modulus.sub(values[*number as usize - 1], told);
    }
}

/// Writes the solver list over the set, or answers false where the set doesn't tell the solutions. Further rows are kept, for
/// the unknowns of the set.
fn write_list(
    modulus: Modulus,
    unknowns: usize,
    rows: &mut [u64],
    ends: &mut [u64],
    row: &mut [u64],
    layers: &mut [u64],
    values: &mut [u64],
    set: &[u32],
    want: &[u32],
    out: &mut [u64],
) -> bool
    requires few { unknowns ≤ 4096 }
    requires laid_out { IsLaidOut (value_of modulus) unknowns rows.old ends.old }
    requires cleared { IsCleared unknowns row.old }
    requires layers_room { length layers.old ≡ unknowns }
    requires values_room { length values.old ≡ unknowns }
    requires ascending { IsAscending set.now }
    requires unknowns { AreUnknowns unknowns set.now }
    requires want { AreUnknowns unknowns want.now }
    requires room { length out.old ≡ length want.now * (length set.now + 1) }
    ensures laid_out { IsLaidOut (value_of modulus) unknowns rows.new ends.new }
    ensures keeps_used { KeepsUsed unknowns rows.old ends.old rows.new ends.new }
    ensures cleared { IsCleared unknowns row.new }
    ensures solved { OnTrue result (IsSolvedList (value_of modulus) unknowns (entry unknowns rows.old ends.old)
        set.now want.now out.new) }
    ensures undefined { OnFalse result (IsPrime (value_of modulus)
        → IsUntold (value_of modulus) unknowns (entry unknowns rows.old ends.old) (λ k. has_number set.now (k + 1))) }
{
    if !choose(modulus, unknowns, rows, ends, row, layers, set) {
        return false;
    }
    zero_all(values);
    back_substitute(modulus, unknowns, rows, ends, values);
    write_constants(values, want, set.len(), out);
    for i in (0..set.len()).rev() {
        cut_back(ends, layers, i as u64);
        if !fix(modulus, unknowns, rows, ends, row, set[i] as usize - 1, 1) {
            return false;
        }
        zero_all(values);
        back_substitute(modulus, unknowns, rows, ends, values);
        write_column(modulus, values, set, want, i, out);
    }
    true
}

/// Writes the solver list over the set, or answers false where the set doesn't tell the solutions. The kept rows stay what they
/// are.
pub fn solve_parts(
    modulus: Modulus,
    unknowns: usize,
    rows: &mut [u64],
    ends: &mut [u64],
    row: &mut [u64],
    saved: &mut [u64],
    layers: &mut [u64],
    values: &mut [u64],
    set: &[u32],
    want: &[u32],
    out: &mut [u64],
) -> bool
    requires few { unknowns ≤ 4096 }
    requires laid_out { IsLaidOut (value_of modulus) unknowns rows.old ends.old }
    requires cleared { IsCleared unknowns row.old }
    requires saved_room { length saved.old ≡ unknowns }
    requires layers_room { length layers.old ≡ unknowns }
    requires values_room { length values.old ≡ unknowns }
    requires ascending { IsAscending set.now }
    requires unknowns { AreUnknowns unknowns set.now }
    requires want { AreUnknowns unknowns want.now }
    requires room { length out.old ≡ length want.now * (length set.now + 1) }
    ensures laid_out { IsLaidOut (value_of modulus) unknowns rows.new ends.new }
    ensures cleared { IsCleared unknowns row.new }
    ensures same { (j k : ℕ) → j < unknowns → k < unknowns + 1 →
        entry unknowns rows.new ends.new j k ≡ entry unknowns rows.old ends.old j k }
    ensures solved { OnTrue result (IsSolvedList (value_of modulus) unknowns (entry unknowns rows.old ends.old)
        set.now want.now out.new) }
    ensures undefined { OnFalse result (IsPrime (value_of modulus)
        → IsUntold (value_of modulus) unknowns (entry unknowns rows.old ends.old) (λ k. has_number set.now (k + 1))) }
{
    saved.copy_from_slice(ends);
    let told = write_list(
        modulus, unknowns, rows, ends, row, layers, values, set, want, out,
    );
    ends.copy_from_slice(saved);
    told
}
