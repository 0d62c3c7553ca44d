//! The test that learned steps can be taken, whatever the values: no value is looked at.

ghost use Rattle.std.specs.Prelude.{◌≡◌, ◌≢◌, ℕ, ◌+◌, ◌-◌, ◌*◌, ◌<◌, ◌≤◌, false, length, true, slice_get, slice_index, Some};
ghost use Rattle.std.specs.Bool.{OnFalse, OnTrue};
ghost use Rattle.elim_core.specs.Solver.{has_number};
ghost use Rattle.elim_core.specs.Sparse.{AreSparseRows};
ghost use Rattle.sparse_solver.specs.Packed.{AreColumns, IsOutside};
ghost use Rattle.sparse_solver.specs.Steps.{AreRoomy, AreShaped, AreSteps, AreTurns, AreTurnsOf, IsFirst, IsLed, IsOutsideTurn, IsPlaced, IsTurn, kept_in, part_of};

use crate::steps::{Steps, head_columns, kept_columns};
use elim_core::SparseRow;

/// Whether the lists have a place for each turn.
fn are_roomy(unknowns: usize, steps: &Steps) -> bool
    requires few { unknowns ≤ 4096 }
    ensures { OnTrue result (AreRoomy unknowns steps.now) }
{
    let turns = steps.leads.len();
    turns <= unknowns
        && steps.columns.len() <= unknowns * (unknowns + 1)
        && steps.numbers.len() == turns
        && steps.starts.len() == turns + 1
        && steps.firsts.len() == turns + 1
        && steps.is_used.len() == turns
        && steps.turn_of.len() == unknowns + 1
}

/// Whether each column is below the width.
fn are_columns(width: usize, columns: &[u32]) -> bool
    ensures { OnTrue result (AreColumns width columns.now) }
{
    for column in columns {
        if *column as usize >= width {
            return false;
        }
    }
    true
}

/// Whether the numbers between two places are all below the bound.
fn are_below(numbers: &[usize], from: usize, to: usize, bound: usize) -> bool
    requires order { from ≤ to }
    requires end { to ≤ length numbers.now }
    ensures { OnTrue result ((q : ℕ) → from ≤ q → q < to → slice_index numbers.now q < bound) }
{
    for place in from..to {
        if numbers[place] >= bound {
            return false;
        }
    }
    true
}

/// Whether the columns of a turn, and its earlier turns, stand where they can.
fn is_placed(unknowns: usize, steps: &Steps, turn: usize) -> bool
    requires roomy { AreRoomy unknowns steps.now }
    requires turn { turn < kept_in steps.now }
    ensures { OnTrue result (IsPlaced steps.now turn) }
{
    let (start, lead, end) = (
        steps.starts[turn],
        steps.leads[turn],
        steps.starts[turn + 1],
    );
    let (first, last) = (steps.firsts[turn], steps.firsts[turn + 1]);
    if start > lead || lead >= end || end > steps.columns.len() {
        return false;
    }
    if first > last || last > steps.earlier.len() {
        return false;
    }
    are_below(&steps.earlier, first, last, turn)
}

/// Whether all turns stand where they can.
fn are_placed(unknowns: usize, steps: &Steps) -> bool
    requires roomy { AreRoomy unknowns steps.now }
    ensures { OnTrue result ((t : ℕ) → t < kept_in steps.now → IsPlaced steps.now t) }
{
    for turn in 0..steps.leads.len() {
        if !is_placed(unknowns, steps, turn) {
            return false;
        }
    }
    true
}

/// Whether the lists can be used as those of steps.
fn are_shaped(unknowns: usize, steps: &Steps) -> bool
    requires few { unknowns ≤ 4096 }
    ensures { OnTrue result (AreShaped unknowns steps.now) }
{
    are_roomy(unknowns, steps)
        && are_columns(unknowns + 1, &steps.columns)
        && are_placed(unknowns, steps)
}

/// Marks the columns.
fn mark_columns(columns: &[u32], marks: &mut [usize], mark: usize)
    requires within { AreColumns (length marks.old) columns.now }
    ensures room { length marks.new ≡ length marks.old }
    ensures others { (k : ℕ) → IsOutside columns.now k → slice_index marks.new k ≡ slice_index marks.old k }
    ensures below { ((k : ℕ) → slice_index marks.old k ≤ mark) → (k : ℕ) → slice_index marks.new k ≤ mark }
{
    for column in columns {
        marks[*column as usize] = mark;
    }
}

/// Whether each of the columns has the mark.
fn are_marked(columns: &[u32], marks: &[usize], mark: usize) -> bool
    requires within { AreColumns (length marks.now) columns.now }
    ensures { OnTrue result ((i : ℕ) → i < length columns.now → slice_index marks.now (slice_index columns.now i) ≡ mark) }
{
    for column in columns {
        if marks[*column as usize] != mark {
            return false;
        }
    }
    true
}

/// Whether the columns of the earlier turns of a turn all have the mark.
fn are_steps_marked(
    unknowns: usize,
    steps: &Steps,
    turn: usize,
    marks: &[usize],
    mark: usize,
) -> bool
    requires shaped { AreShaped unknowns steps.now }
    requires turn { turn < kept_in steps.now }
    requires room { length marks.now ≡ unknowns + 1 }
    ensures { OnTrue result ((q : ℕ) → slice_index steps.now.firsts.items turn ≤ q → q < slice_index steps.now.firsts.items (turn + 1) →
        (i : ℕ) → i < length (part_of steps.now (slice_index steps.now.earlier.items q) steps.now.columns.items) →
        slice_index marks.now (slice_index (part_of steps.now (slice_index steps.now.earlier.items q) steps.now.columns.items) i) ≡ mark) }
{
    for place in steps.firsts[turn]..steps.firsts[turn + 1] {
        let earlier = steps.earlier[place];
        if !are_marked(kept_columns(unknowns, steps, earlier), marks, mark) {
            return false;
        }
    }
    true
}

/// Whether a turn keeps a row, and has all columns that it meets.
fn is_turn(
    unknowns: usize,
    rows: &[SparseRow],
    steps: &Steps,
    turn: usize,
    marks: &mut [usize],
) -> bool
    requires sparse { AreSparseRows unknowns rows.now }
    requires shaped { AreShaped unknowns steps.now }
    requires turn { turn < kept_in steps.now }
    requires room { length marks.old ≡ unknowns + 1 }
    requires below { (k : ℕ) → slice_index marks.old k ≤ turn }
    ensures room { length marks.new ≡ length marks.old }
    ensures below { (k : ℕ) → slice_index marks.new k ≤ turn + 1 }
    ensures turn { OnTrue result (IsTurn rows.now steps.now turn) }
{
    mark_columns(head_columns(unknowns, steps, turn), marks, turn + 1);
    mark_columns(kept_columns(unknowns, steps, turn), marks, turn + 1);
    let number = steps.numbers[turn];
    if number >= rows.len() {
        return false;
    }
    let columns = rows[number].columns.as_slice();
    if !are_marked(columns, marks, turn + 1) {
        return false;
    }
    are_steps_marked(unknowns, steps, turn, marks, turn + 1)
}

/// Whether all turns keep rows, and have all columns that they meet.
fn are_turns(unknowns: usize, rows: &[SparseRow], steps: &Steps, marks: &mut [usize]) -> bool
    requires sparse { AreSparseRows unknowns rows.now }
    requires shaped { AreShaped unknowns steps.now }
    requires room { length marks.old ≡ unknowns + 1 }
    requires none { (k : ℕ) → slice_index marks.old k ≡ 0 }
    ensures { OnTrue result (AreTurns rows.now steps.now (kept_in steps.now)) }
{
    for turn in 0..steps.leads.len() {
        if !is_turn(unknowns, rows, steps, turn, marks) {
            return false;
        }
    }
    true
}

/// Whether a row with these columns begins at the unknown, and later ones alone follow, but for the right side.
fn is_first(columns: &[u32], number: usize) -> bool
    requires some { 0 < length columns.now }
    ensures { OnTrue result (IsFirst columns.now number) }
{
    if columns[0] as usize != number {
        return false;
    }
    for place in 1..columns.len() {
        let column = columns[place] as usize;
        if column != 0 && column <= number {
            return false;
        }
    }
    true
}

/// Whether the number stands in the list.
fn is_in(set: &[u32], number: usize) -> bool
    ensures chosen { OnTrue result (has_number set.now number ≡ true) }
    ensures other { OnFalse result (has_number set.now number ≡ false) }
{
    for other in set {
        if *other as usize == number {
            return true;
        }
    }
    false
}

/// Whether the unknown is in the set, or else a kept row begins at it.
fn is_led(unknowns: usize, steps: &Steps, set: &[u32], number: usize) -> bool
    requires shaped { AreShaped unknowns steps.now }
    requires turns { AreTurnsOf steps.now }
    requires number { number < unknowns + 1 }
    ensures { OnTrue result (IsLed steps.now set.now number) }
{
    let turn = steps.turn_of[number];
    if turn == 0 {
        return is_in(set, number);
    }
    !is_in(set, number) && is_first(kept_columns(unknowns, steps, turn - 1), number)
}

/// Whether each unknown is in the set, or else a kept row begins at it.
fn are_led(unknowns: usize, steps: &Steps, set: &[u32]) -> bool
    requires shaped { AreShaped unknowns steps.now }
    requires turns { AreTurnsOf steps.now }
    ensures { OnTrue result ((j : ℕ) → 0 < j → j < unknowns + 1 → IsLed steps.now set.now j) }
{
    for number in 1..unknowns + 1 {
        if !is_led(unknowns, steps, set, number) {
            return false;
        }
    }
    true
}

/// Whether no row begins at the right side, and each of the others that begins somewhere is that of a turn.
fn are_turns_of(unknowns: usize, steps: &Steps) -> bool
    requires roomy { AreRoomy unknowns steps.now }
    ensures { OnTrue result (AreTurnsOf steps.now) }
{
    if steps.turn_of[0] != 0 {
        return false;
    }
    are_below(
        &steps.turn_of,
        0,
        steps.turn_of.len(),
        steps.leads.len() + 1,
    )
}

/// Whether the steps can be taken, and lead to values of all unknowns. `marks` has a zero for each column.
pub fn are_steps(
    unknowns: usize,
    rows: &[SparseRow],
    set: &[u32],
    steps: &Steps,
    marks: &mut [usize],
) -> bool
    requires few { unknowns ≤ 4096 }
    requires sparse { AreSparseRows unknowns rows.now }
    requires room { length marks.old ≡ unknowns + 1 }
    requires none { (k : ℕ) → slice_index marks.old k ≡ 0 }
    ensures { OnTrue result (AreSteps unknowns rows.now set.now steps.now) }
{
    if !are_shaped(unknowns, steps) {
        return false;
    }
    if !are_turns_of(unknowns, steps) {
        return false;
    }
    if !are_led(unknowns, steps, set) {
        return false;
    }
    are_turns(unknowns, rows, steps, marks)
}
