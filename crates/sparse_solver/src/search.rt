//! The search for steps at the point where a plan learns. What it finds is tested before it is kept, so nothing is proved of it.

ghost use Rattle.std.specs.Prelude.{◌≡◌, ℕ, ◌+◌, ◌<◌, ◌≤◌, All, IfOk, IfSome, length};
ghost use Rattle.elim_core.specs.Sparse.{AreSparseRows, entries_of};
ghost use Rattle.sparse_solver.specs.Order.{AreStarts, TakesEach};
ghost use Rattle.sparse_solver.specs.Steps.{AreSteps};

use crate::learned::are_steps;
use crate::packed::row_at;
use crate::replay::factor_of;
use crate::steps::Steps;
use elim_core::SparseRow;
use prime_field::Modulus;
use std::alloc::{AllocError, Global};

/// A kept row with its values at the learning point.
#[derive(Drop)]
struct KeptRow {
    /// The columns, that of the unknown at which it begins first, and their values.
    entries: Vec<(u32, u64)>,
    /// By what it is added to a row, per word that is left where it begins.
    factor: u64,
}

/// Adds the value times the factor to the word in a column, which has been met from then on.
fn meet(m: Modulus, row: &mut [Option<u64>], column: u32, value: u64, factor: u64) {
    if let Some(word) = row.get_mut(column as usize) {
        *word = Some(m.reduce_u128(word.unwrap_or(0) as u128 + factor as u128 * value as u128));
    }
}

/// Adds the values to the words in these columns.
fn meet_all(m: Modulus, row: &mut [Option<u64>], columns: &[u32], values: &[u64]) {
    for (column, value) in columns.iter().zip(values) {
        meet(m, row, *column, *value, 1);
    }
}

/// Adds so much of a kept row that nothing of the word is left where it begins.
fn meet_kept(m: Modulus, row: &mut [Option<u64>], kept: &KeptRow, word: u64) {
    let factor = m.reduce_u128(word as u128 * kept.factor as u128);
    for (column, value) in &kept.entries {
        meet(m, row, *column, *value, factor);
    }
}

/// Adds kept rows to the row at hand until it begins where none of them does, and answers where that is and with which word.
/// It answers nothing where nothing is left. `met` takes the turns of the rows that were added.
fn reduce(
    m: Modulus,
    row: &mut [Option<u64>],
    kept: &[KeptRow],
    turn_of: &[usize],
    met: &mut Vec<usize>,
) -> Result<Option<(usize, u64)>, AllocError>
    ensures { IfOk result (λ found. IfSome found (λ lead. lead.0 < length row.new)) }
{
    for place in 1..row.len() {
        let word = row[place].unwrap_or(0);
        if word == 0 {
            continue;
        }
        let turn = turn_of.get(place).copied().unwrap_or(0);
        if turn == 0 {
            return Ok(Some((place, word)));
        }
        if let Some(earlier) = kept.get(turn - 1) {
            met.push(turn - 1)?;
            meet_kept(m, row, earlier, word);
        }
    }
    Ok(None)
}

/// Appends those of the columns between two that were met.
fn push_columns(
    columns: &mut Vec<u32>,
    row: &[Option<u64>],
    from: usize,
    to: usize,
) -> Result<(), AllocError>
    requires end { to ≤ length row.now }
    requires few { length row.now ≤ 4097 }
{
    for place in from..to {
        if row[place].is_some() {
            columns.push(place as u32)?;
        }
    }
    Ok(())
}

/// The columns from one on that were met, with their words, and then the right side.
fn entries_from(
    alloc: Global,
    row: &[Option<u64>],
    lead: usize,
) -> Result<Vec<(u32, u64)>, AllocError>
    requires few { length row.now ≤ 4097 }
{
    let mut entries = Vec::new(alloc);
    for place in lead..row.len() {
        if let Some(word) = row[place] {
            entries.push((place as u32, word))?;
        }
    }
    if let Some(Some(word)) = row.first() {
        entries.push((0, *word))?;
    }
    Ok(entries)
}

/// Appends the turns that were met, which are used from now on.
fn push_earlier(steps: &mut Steps, met: &[usize]) -> Result<(), AllocError> {
    for turn in met {
        steps.earlier.push(*turn)?;
        if let Some(is_used) = steps.is_used.get_mut(*turn) {
            *is_used = true;
        }
    }
    steps.firsts.push(steps.earlier.len())?;
    Ok(())
}

/// Appends a turn that keeps the row with this number, which begins at `lead`.
fn push_turn(
    steps: &mut Steps,
    row: &[Option<u64>],
    number: usize,
    lead: usize,
    met: &[usize],
) -> Result<(), AllocError>
    requires few { length row.now ≤ 4097 }
    requires lead { lead < length row.now }
{
    push_columns(&mut steps.columns, row, 1, lead)?;
    steps.leads.push(steps.columns.len())?;
    push_columns(&mut steps.columns, row, lead, row.len())?;
    if let Some(Some(_)) = row.first() {
        steps.columns.push(0)?;
    }
    steps.starts.push(steps.columns.len())?;
    steps.numbers.push(number)?;
    push_earlier(steps, met)?;
    steps.is_used.push(false)?;
    if let Some(turn) = steps.turn_of.get_mut(lead) {
        *turn = steps.leads.len();
    }
    Ok(())
}

/// Takes the row at hand: keeps it in a turn of its own if something is left of it.
fn take_turn(
    alloc: Global,
    m: Modulus,
    steps: &mut Steps,
    kept: &mut Vec<KeptRow>,
    row: &mut [Option<u64>],
    number: usize,
) -> Result<(), AllocError>
    requires few { length row.old ≤ 4097 }
{
    let mut met = Vec::new(alloc);
    let Some((lead, word)) = reduce(m, row, kept, &steps.turn_of, &mut met)? else {
        return Ok(());
    };
    push_turn(steps, row, number, lead, &met)?;
    kept.push(KeptRow {
        entries: entries_from(alloc, row, lead)?,
        factor: factor_of(m, word).unwrap_or(0),
    })?;
    Ok(())
}

/// No steps yet, for so many unknowns.
fn no_steps(alloc: Global, unknowns: usize) -> Result<Steps, AllocError>
    requires { unknowns ≤ 4096 }
{
    Ok(Steps {
        numbers: Vec::new(alloc),
        starts: vec![in alloc; 0; 1]?,
        leads: Vec::new(alloc),
        columns: Vec::new(alloc),
        firsts: vec![in alloc; 0; 1]?,
        earlier: Vec::new(alloc),
        is_used: Vec::new(alloc),
        turn_of: vec![in alloc; 0; unknowns + 1]?,
    })
}

/// Whether there are more columns than 16 times the entries and 2^20.
fn are_too_many(columns: usize, entries: usize) -> bool {
    (columns / 16).saturating_sub(65536) > entries
}

/// The turns that the rows take in this order, or nothing where they have too many columns.
fn find_steps(
    alloc: Global,
    m: Modulus,
    unknowns: usize,
    rows: &[SparseRow],
    starts: &[usize],
    order: &[usize],
    values: &[u64],
) -> Result<Option<Steps>, AllocError>
    requires few { unknowns ≤ 4096 }
    requires sparse { AreSparseRows unknowns rows.now }
    requires starts { AreStarts rows.now starts.now }
    requires order { TakesEach (length rows.now) order.now }
    requires entries { length values.now ≡ entries_of rows.now }
{
    let mut steps = no_steps(alloc, unknowns)?;
    let mut kept = Vec::new(alloc);
    for number in order {
        let (columns, part) = row_at(unknowns, rows, starts, values, *number);
        let mut row = vec![in alloc; None; unknowns + 1]?;
        meet_all(m, row.as_mut_slice(), columns, part);
        take_turn(alloc, m, &mut steps, &mut kept, row.as_mut_slice(), *number)?;
        if are_too_many(steps.columns.len(), values.len()) {
            return Ok(None);
        }
    }
    Ok(Some(steps))
}

/// Steps that lead from the values of the set to those of all unknowns, or nothing where none are found.
pub fn learn_steps(
    alloc: Global,
    m: Modulus,
    unknowns: usize,
    rows: &[SparseRow],
    starts: &[usize],
    order: &[usize],
    values: &[u64],
    set: &[u32],
) -> Result<Option<Steps>, AllocError>
    requires few { unknowns ≤ 4096 }
    requires sparse { AreSparseRows unknowns rows.now }
    requires starts { AreStarts rows.now starts.now }
    requires order { TakesEach (length rows.now) order.now }
    requires entries { length values.now ≡ entries_of rows.now }
    ensures { IfOk result (λ found. IfSome found (λ steps. AreSteps unknowns rows.now set.now steps)) }
{
    let Some(steps) = find_steps(alloc, m, unknowns, rows, starts, order, values)? else {
        return Ok(None);
    };
    let mut marks = vec![in alloc; 0; unknowns + 1]?;
    if are_steps(unknowns, rows, set, &steps, marks.as_mut_slice()) {
        Ok(Some(steps))
    } else {
        Ok(None)
    }
}
