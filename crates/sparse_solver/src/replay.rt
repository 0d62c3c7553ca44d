//! Learned steps at another point: the rows that are kept, one turn after the other.

ghost use Rattle.std.specs.Prelude.{◌≡◌, ◌≢◌, ℕ, ◌+◌, ◌-◌, ◌*◌, ◌%◌, ◌<◌, ◌≤◌, All, length, slice_get, slice_index, Some};
ghost use Rattle.std.specs.Bool.{OnTrue};
ghost use Rattle.prime_field.specs.Modulus.{value_of};
ghost use Rattle.elim_core.specs.Solved.{IsSolved};
ghost use Rattle.elim_core.specs.Solver.{AreUnknowns, IsAscending};
ghost use Rattle.elim_core.specs.Sparse.{AreSparseRows, entries_of, rows_with};
ghost use Rattle.sparse_solver.specs.Order.{AreStarts};
ghost use Rattle.sparse_solver.specs.Packed.{IsOutside, RowsVanish, packed_sum, row_sum, values_of};
ghost use Rattle.sparse_solver.specs.Steps.{AreShaped, AreSteps, AreTurns, IsOutsideTurn, KeptVanish, kept_in, part_of};

use crate::packed::{add_packed, is_zero_in, product, row_at, take_packed};
use crate::steps::{Steps, head_columns, kept_columns, kept_values};
use crate::vectors::solve_vectors;
use elim_core::SparseRow;
use prime_field::{ByFirst, BySecond, Field, Modulus};

/// Adds so much of the row kept in an earlier turn to the row at hand that nothing is left where the kept row begins.
fn add_step<F: Field>(
    field: F,
    unknowns: usize,
    steps: &Steps,
    row: &mut [u64],
    kept: &[u64],
    factors: &[u64],
    turn: usize,
)
    requires shaped { AreShaped unknowns steps.now }
    requires turn { turn < kept_in steps.now }
    requires room { length row.old ≡ unknowns + 1 }
    requires kept_room { length kept.now ≡ length steps.now.columns.items }
    requires row_residues { All (λ x. x < F.modulus) row.old }
    requires kept_residues { All (λ x. x < F.modulus) kept.now }
    requires factors_room { length factors.now ≡ kept_in steps.now }
    ensures room { length row.new ≡ length row.old }
    ensures row_residues { All (λ x. x < F.modulus) row.new }
    ensures same { (w : ℕ → ℕ) →
        packed_sum (part_of steps.now turn steps.now.columns.items) (part_of steps.now turn kept.now) w % F.modulus ≡ 0 →
        row_sum row.new w % F.modulus ≡ row_sum row.old w % F.modulus }
    ensures others { (k : ℕ) → IsOutside (part_of steps.now turn steps.now.columns.items) k →
        slice_index row.new k ≡ slice_index row.old k }
{
    let columns = kept_columns(unknowns, steps, turn);
    let word = row[columns[0] as usize];
    if word != 0 {
        let values = kept_values(unknowns, steps, kept, turn);
        let factor = product(field, word, factors[turn]);
        add_packed(field, row, columns, values, factor);
    }
}

/// Adds the rows of the earlier turns that a turn has learned to need.
fn add_steps<F: Field>(
    field: F,
    unknowns: usize,
    rows: &[SparseRow],
    steps: &Steps,
    row: &mut [u64],
    kept: &[u64],
    factors: &[u64],
    turn: usize,
)
    requires shaped { AreShaped unknowns steps.now }
    requires turns { AreTurns rows.now steps.now (kept_in steps.now) }
    requires turn { turn < kept_in steps.now }
    requires room { length row.old ≡ unknowns + 1 }
    requires kept_room { length kept.now ≡ length steps.now.columns.items }
    requires row_residues { All (λ x. x < F.modulus) row.old }
    requires kept_residues { All (λ x. x < F.modulus) kept.now }
    requires factors_room { length factors.now ≡ kept_in steps.now }
    ensures room { length row.new ≡ length row.old }
    ensures row_residues { All (λ x. x < F.modulus) row.new }
    ensures same { (w : ℕ → ℕ) → KeptVanish F.modulus steps.now kept.now turn w →
        row_sum row.new w % F.modulus ≡ row_sum row.old w % F.modulus }
    ensures others { (k : ℕ) → IsOutsideTurn steps.now turn k → slice_index row.new k ≡ slice_index row.old k }
{
    for place in steps.firsts[turn]..steps.firsts[turn + 1] {
        let earlier = steps.earlier[place];
        add_step(field, unknowns, steps, row, kept, factors, earlier);
    }
}

/// Adds the row with this number to the row at hand.
fn add_row<F: Field>(
    field: F,
    unknowns: usize,
    rows: &[SparseRow],
    starts: &[usize],
    values: &[u64],
    row: &mut [u64],
    number: usize,
)
    requires few { unknowns ≤ 4096 }
    requires sparse { AreSparseRows unknowns rows.now }
    requires starts { AreStarts rows.now starts.now }
    requires entries { length values.now ≡ entries_of rows.now }
    requires values { All (λ x. x < F.modulus) values.now }
    requires number { number < length rows.now }
    requires room { length row.old ≡ unknowns + 1 }
    requires row_residues { All (λ x. x < F.modulus) row.old }
    ensures room { length row.new ≡ length row.old }
    ensures row_residues { All (λ x. x < F.modulus) row.new }
    ensures added { (w : ℕ → ℕ) → RowsVanish F.modulus rows.now starts.now values.now w →
        row_sum row.new w % F.modulus ≡ row_sum row.old w % F.modulus }
    ensures others { (k : ℕ) → ((now : SparseRow) → slice_get rows.now number ≡ Some now → IsOutside now.columns k) →
        slice_index row.new k ≡ slice_index row.old k }
{
    let (columns, part) = row_at(unknowns, rows, starts, values, number);
    add_packed(field, row, columns, part, 1);
}

/// Moves the row at hand to the values of a turn.
fn take_row(unknowns: usize, steps: &Steps, row: &mut [u64], kept: &mut [u64], turn: usize)
    requires shaped { AreShaped unknowns steps.now }
    requires turn { turn < kept_in steps.now }
    requires room { length row.old ≡ unknowns + 1 }
    requires kept_room { length kept.old ≡ length steps.now.columns.items }
    ensures room { length row.new ≡ length row.old }
    ensures moved { (w : ℕ → ℕ) → row_sum row.new w
        + packed_sum (part_of steps.now turn steps.now.columns.items) (part_of steps.now turn kept.new) w ≡ row_sum row.old w }
    ensures cleared { (i : ℕ) → i < length (part_of steps.now turn steps.now.columns.items) →
        slice_index row.new (slice_index (part_of steps.now turn steps.now.columns.items) i) ≡ 0 }
    ensures others { (k : ℕ) → IsOutside (part_of steps.now turn steps.now.columns.items) k →
        slice_index row.new k ≡ slice_index row.old k }
    ensures below { (m : ℕ) → 0 < m → All (λ x. x < m) row.old → All (λ x. x < m) kept.old → All (λ x. x < m) kept.new }
    ensures before { (e : ℕ) → e < turn → part_of steps.now e kept.new ≡ part_of steps.now e kept.old }
{
    let columns = kept_columns(unknowns, steps, turn);
    let (_, rest) = kept.split_at_mut(steps.leads[turn]);
    let (place, _) = rest.split_at_mut(columns.len());
    take_packed(row, columns, place);
}

/// Keeps the row of a turn and leaves zeros in the row at hand, or answers false where something is left before the unknown
/// at which it is to begin.
fn keep_row<F: Field>(
    field: F,
    unknowns: usize,
    rows: &[SparseRow],
    starts: &[usize],
    values: &[u64],
    steps: &Steps,
    row: &mut [u64],
    kept: &mut [u64],
    factors: &[u64],
    turn: usize,
) -> bool
    requires few { unknowns ≤ 4096 }
    requires sparse { AreSparseRows unknowns rows.now }
    requires starts { AreStarts rows.now starts.now }
    requires entries { length values.now ≡ entries_of rows.now }
    requires values { All (λ x. x < F.modulus) values.now }
    requires shaped { AreShaped unknowns steps.now }
    requires turns { AreTurns rows.now steps.now (kept_in steps.now) }
    requires turn { turn < kept_in steps.now }
    requires room { length row.old ≡ unknowns + 1 }
    requires zeros { (k : ℕ) → slice_index row.old k ≡ 0 }
    requires kept_room { length kept.old ≡ length steps.now.columns.items }
    requires kept_residues { All (λ x. x < F.modulus) kept.old }
    requires factors_room { length factors.now ≡ kept_in steps.now }
    ensures room { length row.new ≡ length row.old }
    ensures kept_residues { OnTrue result (All (λ x. x < F.modulus) kept.new) }
    ensures zeros { OnTrue result ((k : ℕ) → slice_index row.new k ≡ 0) }
    ensures vanishes { OnTrue result ((w : ℕ → ℕ) → RowsVanish F.modulus rows.now starts.now values.now w →
        KeptVanish F.modulus steps.now kept.old turn w → KeptVanish F.modulus steps.now kept.new (turn + 1) w) }
{
    add_row(
        field,
        unknowns,
        rows,
        starts,
        values,
        row,
        steps.numbers[turn],
    );
    add_steps(field, unknowns, rows, steps, row, kept, factors, turn);
    if !is_zero_in(row, head_columns(unknowns, steps, turn)) {
        return false;
    }
    take_row(unknowns, steps, row, kept, turn);
    true
}

/// The factor by which the row of a turn is added to later ones, per word that is left where it begins.
pub fn factor_of(m: Modulus, first: u64) -> Option<u64> {
    let inverse = m.inv(m.reduce_u128(first as u128))?;
    Some(m.neg(inverse))
}

/// Keeps the rows of all turns, or answers false where the learned steps don't keep them here.
pub fn keep_all<F: Field>(
    field: F,
    m: Modulus,
    unknowns: usize,
    rows: &[SparseRow],
    starts: &[usize],
    values: &[u64],
    steps: &Steps,
    row: &mut [u64],
    kept: &mut [u64],
    factors: &mut [u64],
) -> bool
    requires few { unknowns ≤ 4096 }
    requires sparse { AreSparseRows unknowns rows.now }
    requires starts { AreStarts rows.now starts.now }
    requires entries { length values.now ≡ entries_of rows.now }
    requires values { All (λ x. x < F.modulus) values.now }
    requires shaped { AreShaped unknowns steps.now }
    requires turns { AreTurns rows.now steps.now (kept_in steps.now) }
    requires room { length row.old ≡ unknowns + 1 }
    requires zeros { (k : ℕ) → slice_index row.old k ≡ 0 }
    requires kept_room { length kept.old ≡ length steps.now.columns.items }
    requires kept_residues { All (λ x. x < F.modulus) kept.old }
    requires factors_room { length factors.old ≡ kept_in steps.now }
    ensures kept_residues { OnTrue result (All (λ x. x < F.modulus) kept.new) }
    ensures vanish { OnTrue result ((w : ℕ → ℕ) → RowsVanish F.modulus rows.now starts.now values.now w →
        KeptVanish F.modulus steps.now kept.new (kept_in steps.now) w) }
{
    for turn in 0..steps.leads.len() {
        if !keep_row(
            field, unknowns, rows, starts, values, steps, row, kept, factors, turn,
        ) {
            return false;
        }
        if steps.is_used[turn] {
            let Some(factor) = factor_of(m, kept[steps.leads[turn]]) else {
                return false;
            };
            factors[turn] = factor;
        }
    }
    true
}

/// Copies the first values of the kept rows.
fn copy_leads(unknowns: usize, steps: &Steps, kept: &[u64], leads: &mut [u64])
    requires shaped { AreShaped unknowns steps.now }
    requires kept_room { length kept.now ≡ length steps.now.columns.items }
    requires room { length leads.old ≡ kept_in steps.now }
    ensures room { length leads.new ≡ length leads.old }
    ensures below { (m : ℕ) → All (λ x. x < m) kept.now → All (λ x. x < m) leads.new }
    ensures copied { (t : ℕ) → t < kept_in steps.now →
        slice_index leads.new t ≡ slice_index kept.now (slice_index steps.now.leads.items t) }
{
    for (turn, lead) in leads.iter_mut().enumerate() {
        *lead = kept[steps.leads[turn]];
    }
}

/// Writes the inverses of the first values of the kept rows, or answers false where one has none.
pub fn invert_leads(
    m: Modulus,
    unknowns: usize,
    steps: &Steps,
    kept: &[u64],
    inverses: &mut [u64],
    scratch: &mut [u64],
) -> bool
    requires shaped { AreShaped unknowns steps.now }
    requires kept_room { length kept.now ≡ length steps.now.columns.items }
    requires kept_residues { All (λ x. x < value_of m) kept.now }
    requires room { length inverses.old ≡ kept_in steps.now }
    requires scratch_room { length scratch.old ≡ kept_in steps.now }
    ensures room { length inverses.new ≡ length inverses.old }
    ensures units { OnTrue result ((t : ℕ) → t < kept_in steps.now →
        (slice_index kept.now (slice_index steps.now.leads.items t) * slice_index inverses.new t) % value_of m ≡ 1) }
{
    copy_leads(unknowns, steps, kept, inverses);
    m.inv_all(inverses, scratch)
}

/// Finds the list over the set by the learned steps in the field of the modulus, or answers false where they don't lead to it.
fn replay_by<F: Field>(
    field: F,
    m: Modulus,
    unknowns: usize,
    rows: &[SparseRow],
    starts: &[usize],
    values: &[u64],
    steps: &Steps,
    set: &[u32],
    want: &[u32],
    work: &mut [u64],
    out: &mut [u64],
) -> bool
    requires modulus { value_of m ≡ F.modulus }
    requires few { unknowns ≤ 4096 }
    requires sparse { AreSparseRows unknowns rows.now }
    requires starts { AreStarts rows.now starts.now }
    requires entries { length values.now ≡ entries_of rows.now }
    requires residues { All (λ x. x < F.modulus) values.now }
    requires steps { AreSteps unknowns rows.now set.now steps.now }
    requires ascending { IsAscending set.now }
    requires set { AreUnknowns unknowns set.now }
    requires want { AreUnknowns unknowns want.now }
    requires words { (unknowns + 4) * (unknowns + 2) ≤ length work.old }
    requires room { length out.old ≡ length want.now * (length set.now + 1) }
    ensures room { length out.new ≡ length out.old }
    ensures solved { OnTrue result (IsSolved F.modulus unknowns (rows_with unknowns rows.now values.now) set.now want.now out.new) }
    ensures residues { OnTrue result (All (λ x. x < F.modulus) out.new) }
{
    let turns = steps.leads.len();
    let (row, rest) = work.split_at_mut(unknowns + 1);
    let (vector, rest) = rest.split_at_mut(unknowns + 1);
    let (inverses, rest) = rest.split_at_mut(turns);
    let (scratch, rest) = rest.split_at_mut(turns);
    let (kept, _) = rest.split_at_mut(steps.columns.len());
    row.fill(0);
    kept.fill(0);
    if !keep_all(
        field, m, unknowns, rows, starts, values, steps, row, kept, inverses,
    ) {
        return false;
    }
    if !invert_leads(m, unknowns, steps, kept, inverses, scratch) {
        return false;
    }
    solve_vectors(
        field, unknowns, rows, starts, values, steps, kept, inverses, vector, set, want, out,
    )
}

/// Finds the list over the set by the learned steps, or answers false where they don't lead to it.
pub fn replay(
    m: Modulus,
    unknowns: usize,
    rows: &[SparseRow],
    starts: &[usize],
    values: &[u64],
    steps: &Steps,
    set: &[u32],
    want: &[u32],
    work: &mut [u64],
    out: &mut [u64],
) -> bool
    requires few { unknowns ≤ 4096 }
    requires sparse { AreSparseRows unknowns rows.now }
    requires starts { AreStarts rows.now starts.now }
    requires entries { length values.now ≡ entries_of rows.now }
    requires residues { All (λ x. x < value_of m) values.now }
    requires steps { AreSteps unknowns rows.now set.now steps.now }
    requires ascending { IsAscending set.now }
    requires set { AreUnknowns unknowns set.now }
    requires want { AreUnknowns unknowns want.now }
    requires words { (unknowns + 4) * (unknowns + 2) ≤ length work.old }
    requires room { length out.old ≡ length want.now * (length set.now + 1) }
    ensures room { length out.new ≡ length out.old }
    ensures solved { OnTrue result (IsSolved (value_of m) unknowns (rows_with unknowns rows.now values.now) set.now want.now out.new) }
    ensures residues { OnTrue result (All (λ x. x < value_of m) out.new) }
{
    match m {
        Modulus::First => replay_by(
            ByFirst, m, unknowns, rows, starts, values, steps, set, want, work, out,
        ),
        Modulus::Second => replay_by(
            BySecond, m, unknowns, rows, starts, values, steps, set, want, work, out,
        ),
    }
}
