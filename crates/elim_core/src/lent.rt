//! The words that are lent: slots of U + 1 words for each of U unknowns, their U ends, and U + 1 words for the row at hand.

ghost use Rattle.std.specs.Prelude.{◌≡◌, ◌≢◌, ℕ, ◌+◌, ◌-◌, ◌*◌, ◌<◌, ◌≤◌, length, slice_index};
ghost use Rattle.prime_field.specs.Modulus.{value_of};
ghost use Rattle.elim_core.specs.Kept.{rows_of, ends_of, work_of, row_with, place_in, HasEntries};
ghost use Rattle.elim_core.specs.Layout.{entry, IsLaidOut, IsRow, IsSpan, IsCleared, RowSays};
ghost use Rattle.elim_core.specs.Solver.{has_number, IsAscending, AreUnknowns};
ghost use Rattle.elim_core.specs.Rows.{IsUntold, IsSolvedList};
ghost use Rattle.prime_field.specs.Residue.{IsPrime};
ghost use Rattle.std.specs.Bool.{OnTrue, OnFalse};

use crate::Rank;
use crate::choice::zero_all;
use crate::elimination::{Lead, absorb_row};
use crate::solver::solve_parts;
use prime_field::Modulus;

/// Empties all slots, and clears the row at hand.
pub fn empty(unknowns: usize, words: &mut [u64])
    requires few { unknowns ≤ 4096 }
    requires room { (unknowns + 4) * (unknowns + 2) ≤ length words.old }
    ensures room { length words.new ≡ length words.old }
    ensures laid_out { (m : ℕ) → 0 < m → IsLaidOut m unknowns (rows_of unknowns words.new) (ends_of unknowns words.new) }
    ensures cleared { IsCleared unknowns (work_of unknowns words.new) }
    ensures none { (j : ℕ) → j < unknowns → slice_index (ends_of unknowns words.new) j ≡ 0 }
{
    let (_, rest) = words.split_at_mut(unknowns * (unknowns + 1));
    let (ends, rest) = rest.split_at_mut(unknowns);
    let (work, _) = rest.split_at_mut(unknowns + 1);
    zero_all(ends);
    zero_all(work);
}

/// Where the last entry of the row stands that isn't 0, plus 1.
fn end_of(unknowns: usize, row: &[u64]) -> usize
    requires room { length row.now ≡ unknowns + 1 }
    ensures end { result ≤ unknowns }
    ensures beyond { (k : ℕ) → result < k + 1 → k < unknowns → slice_index row.now k ≡ 0 }
{
    let mut end = unknowns;
    while end > 0 && row[end - 1] == 0 {
        end -= 1;
    }
    end
}

/// Takes the row at hand from `row`.
pub fn load_row(unknowns: usize, words: &mut [u64], row: &[u64]) -> Lead
    requires few { unknowns ≤ 4096 }
    requires room { (unknowns + 4) * (unknowns + 2) ≤ length words.old }
    requires row_room { length row.now ≡ unknowns + 1 }
    ensures room { length words.new ≡ length words.old }
    ensures rows { rows_of unknowns words.new ≡ rows_of unknowns words.old }
    ensures ends { ends_of unknowns words.new ≡ ends_of unknowns words.old }
    ensures work { work_of unknowns words.new ≡ row.now }
    ensures end { result.end ≤ unknowns }
    ensures span { IsSpan unknowns row.now result.place result.end }
{
    let (_, rest) = words.split_at_mut(unknowns * (unknowns + 1));
    let (_, rest) = rest.split_at_mut(unknowns);
    let (work, _) = rest.split_at_mut(unknowns + 1);
    work.copy_from_slice(row);
    Lead {
        place: 0,
        end: end_of(unknowns, row),
    }
}

/// The place of the entry in a column: column 0 is the right side.
fn place_of(unknowns: usize, column: u32) -> usize
    ensures { result ≡ place_in unknowns column }
{
    if column == 0 {
        unknowns
    } else {
        column as usize - 1
    }
}

/// Writes the values to the places of their columns.
fn write_entries(unknowns: usize, work: &mut [u64], columns: &[u32], values: &[u64])
    requires few { unknowns ≤ 4096 }
    requires cleared { IsCleared unknowns work.old }
    requires lengths { length columns.now ≡ length values.now }
    requires ascending { IsAscending columns.now }
    requires columns { (i : ℕ) → i < length columns.now → slice_index columns.now i ≤ unknowns }
    ensures { HasEntries unknowns work.new columns.now values.now (length columns.now) }
{
    for (i, column) in columns.iter().enumerate() {
        work[place_of(unknowns, *column)] = values[i];
    }
}

/// The first place of an unknown that has a column.
fn first_place(columns: &[u32]) -> usize
    requires ascending { IsAscending columns.now }
    ensures first { (i : ℕ) → i < length columns.now → slice_index columns.now i ≢ 0 → result < slice_index columns.now i }
    ensures within { (u : ℕ) → ((i : ℕ) → i < length columns.now → slice_index columns.now i ≤ u) → result ≤ u }
{
    for column in columns {
        if *column != 0 {
            return *column as usize - 1;
        }
    }
    0
}

/// The last column, or 0 where there is none.
fn last_column(columns: &[u32]) -> usize
    requires ascending { IsAscending columns.now }
    ensures last { (i : ℕ) → i < length columns.now → slice_index columns.now i ≤ result }
    ensures found { length columns.now ≢ 0 → result ≡ slice_index columns.now (length columns.now - 1) }
    ensures none { length columns.now ≡ 0 → result ≡ 0 }
{
    if columns.is_empty() {
        return 0;
    }
    columns[columns.len() - 1] as usize
}

/// Makes the row at hand that of the entries.
pub fn load_entries(
    modulus: Modulus,
    unknowns: usize,
    words: &mut [u64],
    columns: &[u32],
    values: &[u64],
) -> Lead
    requires few { unknowns ≤ 4096 }
    requires room { (unknowns + 4) * (unknowns + 2) ≤ length words.old }
    requires cleared { IsCleared unknowns (work_of unknowns words.old) }
    requires lengths { length columns.now ≡ length values.now }
    requires ascending { IsAscending columns.now }
    requires columns { (i : ℕ) → i < length columns.now → slice_index columns.now i ≤ unknowns }
    requires residues { (i : ℕ) → i < length values.now → slice_index values.now i < value_of modulus }
    ensures room { length words.new ≡ length words.old }
    ensures rows { rows_of unknowns words.new ≡ rows_of unknowns words.old }
    ensures ends { ends_of unknowns words.new ≡ ends_of unknowns words.old }
    ensures work { work_of unknowns words.new ≡ row_with unknowns columns.now values.now }
    ensures residues { IsRow (value_of modulus) unknowns (row_with unknowns columns.now values.now) }
    ensures end { result.end ≤ unknowns }
    ensures span { IsSpan unknowns (row_with unknowns columns.now values.now) result.place result.end }
{
    let (_, rest) = words.split_at_mut(unknowns * (unknowns + 1));
    let (_, rest) = rest.split_at_mut(unknowns);
    let (work, _) = rest.split_at_mut(unknowns + 1);
    write_entries(unknowns, work, columns, values);
    Lead {
        place: first_place(columns),
        end: last_column(columns),
    }
}

/// Absorbs the row at hand.
pub fn absorb_loaded(modulus: Modulus, unknowns: usize, words: &mut [u64], span: Lead) -> Rank
    requires few { unknowns ≤ 4096 }
    requires room { (unknowns + 4) * (unknowns + 2) ≤ length words.old }
    requires laid_out { IsLaidOut (value_of modulus) unknowns (rows_of unknowns words.old) (ends_of unknowns words.old) }
    requires residues { IsRow (value_of modulus) unknowns (work_of unknowns words.old) }
    requires end { span.end ≤ unknowns }
    requires span { IsSpan unknowns (work_of unknowns words.old) span.place span.end }
    ensures room { length words.new ≡ length words.old }
    ensures laid_out { IsLaidOut (value_of modulus) unknowns (rows_of unknowns words.new) (ends_of unknowns words.new) }
    ensures cleared { IsCleared unknowns (work_of unknowns words.new) }
    ensures says { RowSays result (value_of modulus) unknowns
        (entry unknowns (rows_of unknowns words.old) (ends_of unknowns words.old))
        (entry unknowns (rows_of unknowns words.new) (ends_of unknowns words.new))
        (slice_index (work_of unknowns words.old)) }
{
    let (rows, rest) = words.split_at_mut(unknowns * (unknowns + 1));
    let (ends, rest) = rest.split_at_mut(unknowns);
    let (work, _) = rest.split_at_mut(unknowns + 1);
    absorb_row(modulus, unknowns, rows, ends, work, span)
}

/// The slots.
pub fn rows_in(unknowns: usize, words: &[u64]) -> &[u64]
    requires few { unknowns ≤ 4096 }
    requires room { (unknowns + 4) * (unknowns + 2) ≤ length words.now }
    ensures { result.now ≡ rows_of unknowns words.now }
{
    words.split_at(unknowns * (unknowns + 1)).0
}

/// The ends of the slots.
pub fn ends_in(unknowns: usize, words: &[u64]) -> &[u64]
    requires few { unknowns ≤ 4096 }
    requires room { (unknowns + 4) * (unknowns + 2) ≤ length words.now }
    ensures { result.now ≡ ends_of unknowns words.now }
{
    words
        .split_at(unknowns * (unknowns + 1))
        .1
        .split_at(unknowns)
        .0
}

/// Writes the solver list over the set, or answers false where the set doesn't tell the solutions.
pub fn solve_loaned(
    modulus: Modulus,
    unknowns: usize,
    words: &mut [u64],
    set: &[u32],
    want: &[u32],
    out: &mut [u64],
) -> bool
    requires few { unknowns ≤ 4096 }
    requires room { (unknowns + 4) * (unknowns + 2) ≤ length words.old }
    requires laid_out { IsLaidOut (value_of modulus) unknowns (rows_of unknowns words.old) (ends_of unknowns words.old) }
    requires cleared { IsCleared unknowns (work_of unknowns words.old) }
    requires ascending { IsAscending set.now }
    requires unknowns { AreUnknowns unknowns set.now }
    requires want { AreUnknowns unknowns want.now }
    requires list_room { length out.old ≡ length want.now * (length set.now + 1) }
    ensures room { length words.new ≡ length words.old }
    ensures laid_out { IsLaidOut (value_of modulus) unknowns (rows_of unknowns words.new) (ends_of unknowns words.new) }
    ensures cleared { IsCleared unknowns (work_of unknowns words.new) }
    ensures same { (j k : ℕ) → j < unknowns → k < unknowns + 1 →
        entry unknowns (rows_of unknowns words.new) (ends_of unknowns words.new) j k
        ≡ entry unknowns (rows_of unknowns words.old) (ends_of unknowns words.old) j k }
    ensures solved { OnTrue result (IsSolvedList (value_of modulus) unknowns
        (entry unknowns (rows_of unknowns words.old) (ends_of unknowns words.old)) set.now want.now out.new) }
    ensures undefined { OnFalse result (IsPrime (value_of modulus) → IsUntold (value_of modulus) unknowns
        (entry unknowns (rows_of unknowns words.old) (ends_of unknowns words.old)) (λ k. has_number set.now (k + 1))) }
{
    let (rows, rest) = words.split_at_mut(unknowns * (unknowns + 1));
    let (ends, rest) = rest.split_at_mut(unknowns);
    let (work, rest) = rest.split_at_mut(unknowns + 1);
    let (saved, rest) = rest.split_at_mut(unknowns);
    let (layers, rest) = rest.split_at_mut(unknowns);
    let (values, _) = rest.split_at_mut(unknowns);
    solve_parts(
        modulus, unknowns, rows, ends, work, saved, layers, values, set, want, out,
    )
}
