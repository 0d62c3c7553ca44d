//! The values of all unknowns for one choice after the other, by the kept rows, and the test that each row of the system holds
//! at them.

ghost use Rattle.std.specs.Prelude.{◌≡◌, ◌≢◌, ℕ, ◌+◌, ◌-◌, ◌*◌, ◌%◌, ◌<◌, ◌≤◌, All, length, slice_index};
ghost use Rattle.std.specs.Bool.{OnTrue};
ghost use Rattle.elim_core.specs.Solver.{AreUnknowns};
ghost use Rattle.elim_core.specs.Sparse.{AreSparseRows, entries_of};
ghost use Rattle.sparse_solver.specs.Order.{AreStarts};
ghost use Rattle.sparse_solver.specs.Packed.{RowsVanish};
ghost use Rattle.sparse_solver.specs.Steps.{AreShaped, AreTurnsOf, IsFirst, kept_in};
ghost use Rattle.sparse_solver.specs.Told.{HasColumns, IsVector};

use crate::packed::{product, row_at, sum_packed};
use crate::steps::{Steps, kept_columns, kept_values};
use elim_core::SparseRow;
use prime_field::Field;

/// Writes the value at the place, and zeros elsewhere.
fn start_vector(vector: &mut [u64], place: usize, value: u64)
    requires place { place < length vector.old }
    ensures room { length vector.new ≡ length vector.old }
    ensures there { slice_index vector.new place ≡ value }
    ensures others { (k : ℕ) → k ≢ place → slice_index vector.new k ≡ 0 }
{
    vector.fill(0);
    vector[place] = value;
}

/// The value that the row of a turn leaves for the unknown at which it begins, given those of the later ones.
fn led_value<F: Field>(
    field: F,
    unknowns: usize,
    steps: &Steps,
    kept: &[u64],
    inverses: &[u64],
    vector: &[u64],
    turn: usize,
) -> u64
    requires shaped { AreShaped unknowns steps.now }
    requires turn { turn < kept_in steps.now }
    requires kept_room { length kept.now ≡ length steps.now.columns.items }
    requires kept_residues { All (λ x. x < F.modulus) kept.now }
    requires inverses_room { length inverses.now ≡ kept_in steps.now }
    requires room { length vector.now ≡ unknowns + 1 }
    requires residues { (k : ℕ) → k < unknowns + 1 → slice_index vector.now k < F.modulus }
    ensures residue { result < F.modulus }
{
    let columns = kept_columns(unknowns, steps, turn);
    let values = kept_values(unknowns, steps, kept, turn);
    let sum = sum_packed(field, &columns[1..], &values[1..], vector);
    product(field, field.value() - sum, inverses[turn])
}

/// Completes the vector at the unknowns at which kept rows begin, from the last one to the first.
fn back_substitute<F: Field>(
    field: F,
    unknowns: usize,
    steps: &Steps,
    kept: &[u64],
    inverses: &[u64],
    vector: &mut [u64],
)
    requires shaped { AreShaped unknowns steps.now }
    requires turns { AreTurnsOf steps.now }
    requires kept_room { length kept.now ≡ length steps.now.columns.items }
    requires kept_residues { All (λ x. x < F.modulus) kept.now }
    requires inverses_room { length inverses.now ≡ kept_in steps.now }
    requires room { length vector.old ≡ unknowns + 1 }
    requires residues { (k : ℕ) → k < unknowns + 1 → slice_index vector.old k < F.modulus }
    ensures room { length vector.new ≡ unknowns + 1 }
    ensures residues { (k : ℕ) → k < unknowns + 1 → slice_index vector.new k < F.modulus }
    ensures stay { (k : ℕ) → slice_index steps.now.turn_of.items k ≡ 0 → slice_index vector.new k ≡ slice_index vector.old k }
{
    for number in (0..unknowns + 1).rev() {
        let turn = steps.turn_of[number];
        if turn != 0 {
            vector[number] = led_value(field, unknowns, steps, kept, inverses, vector, turn - 1);
        }
    }
}

/// Whether the sum of each row of the system leaves 0 at the vector.
fn test_rows<F: Field>(
    field: F,
    unknowns: usize,
    rows: &[SparseRow],
    starts: &[usize],
    values: &[u64],
    vector: &[u64],
) -> bool
    requires few { unknowns ≤ 4096 }
    requires sparse { AreSparseRows unknowns rows.now }
    requires starts { AreStarts rows.now starts.now }
    requires entries { length values.now ≡ entries_of rows.now }
    requires values { All (λ x. x < F.modulus) values.now }
    requires room { length vector.now ≡ unknowns + 1 }
    requires residues { (k : ℕ) → k < unknowns + 1 → slice_index vector.now k < F.modulus }
    ensures { OnTrue result (RowsVanish F.modulus rows.now starts.now values.now (slice_index vector.now)) }
{
    for number in 0..rows.len() {
        let (columns, part) = row_at(unknowns, rows, starts, values, number);
        if sum_packed(field, columns, part, vector) != 0 {
            return false;
        }
    }
    true
}

/// Finds the vector that has the value at the place and zeros at the other columns at which no kept row begins, and answers
/// whether each row of the system holds at it.
fn solve_vector<F: Field>(
    field: F,
    unknowns: usize,
    rows: &[SparseRow],
    starts: &[usize],
    values: &[u64],
    steps: &Steps,
    kept: &[u64],
    inverses: &[u64],
    vector: &mut [u64],
    place: usize,
    value: u64,
) -> bool
    requires few { unknowns ≤ 4096 }
    requires sparse { AreSparseRows unknowns rows.now }
    requires starts { AreStarts rows.now starts.now }
    requires entries { length values.now ≡ entries_of rows.now }
    requires values { All (λ x. x < F.modulus) values.now }
    requires shaped { AreShaped unknowns steps.now }
    requires turns { AreTurnsOf steps.now }
    requires kept_room { length kept.now ≡ length steps.now.columns.items }
    requires kept_residues { All (λ x. x < F.modulus) kept.now }
    requires inverses_room { length inverses.now ≡ kept_in steps.now }
    requires room { length vector.old ≡ unknowns + 1 }
    requires place { place < unknowns + 1 }
    requires value { value < F.modulus }
    ensures room { length vector.new ≡ unknowns + 1 }
    ensures solved { OnTrue result (IsVector F.modulus unknowns steps.now rows.now starts.now values.now place value (slice_index vector.new)) }
{
    start_vector(vector, place, value);
    back_substitute(field, unknowns, steps, kept, inverses, vector);
    test_rows(field, unknowns, rows, starts, values, vector)
}

/// Writes the values of the wanted unknowns to a column of the list.
fn write_column(vector: &[u64], want: &[u32], count: usize, column: usize, out: &mut [u64])
    requires want { AreUnknowns (length vector.now - 1) want.now }
    requires room { length out.old ≡ length want.now * (count + 1) }
    requires column { column < count + 1 }
    ensures room { length out.new ≡ length out.old }
    ensures written { (t : ℕ) → t < length want.now →
        slice_index out.new (t * (count + 1) + column) ≡ slice_index vector.now (slice_index want.now t) }
    ensures others { (t k : ℕ) → k < count + 1 → k ≢ column →
        slice_index out.new (t * (count + 1) + k) ≡ slice_index out.old (t * (count + 1) + k) }
{
    for (t, number) in want.iter().enumerate() {
        out[t * (count + 1) + column] = vector[*number as usize];
    }
}

/// Writes the list by one vector for the constants and one for each unknown of the set, or answers false where some row does
/// not hold at one of them.
pub fn solve_vectors<F: Field>(
    field: F,
    unknowns: usize,
    rows: &[SparseRow],
    starts: &[usize],
    values: &[u64],
    steps: &Steps,
    kept: &[u64],
    inverses: &[u64],
    vector: &mut [u64],
    set: &[u32],
    want: &[u32],
    out: &mut [u64],
) -> bool
    requires few { unknowns ≤ 4096 }
    requires sparse { AreSparseRows unknowns rows.now }
    requires starts { AreStarts rows.now starts.now }
    requires entries { length values.now ≡ entries_of rows.now }
    requires values { All (λ x. x < F.modulus) values.now }
    requires shaped { AreShaped unknowns steps.now }
    requires turns { AreTurnsOf steps.now }
    requires kept_room { length kept.now ≡ length steps.now.columns.items }
    requires kept_residues { All (λ x. x < F.modulus) kept.now }
    requires inverses_room { length inverses.now ≡ kept_in steps.now }
    requires vector_room { length vector.old ≡ unknowns + 1 }
    requires set { AreUnknowns unknowns set.now }
    requires want { AreUnknowns unknowns want.now }
    requires room { length out.old ≡ length want.now * (length set.now + 1) }
    ensures room { length out.new ≡ length out.old }
    ensures told { OnTrue result (HasColumns F.modulus unknowns steps.now rows.now starts.now values.now
        set.now want.now (length set.now) out.new) }
{
    let constant = field.value() - 1;
    if !solve_vector(
        field, unknowns, rows, starts, values, steps, kept, inverses, vector, 0, constant,
    ) {
        return false;
    }
    write_column(vector, want, set.len(), set.len(), out);
    for (i, number) in set.iter().enumerate() {
        let place = *number as usize;
        if !solve_vector(
            field, unknowns, rows, starts, values, steps, kept, inverses, vector, place, 1,
        ) {
            return false;
        }
        write_column(vector, want, set.len(), i, out);
    }
    true
}
