//! The rows of a system, absorbed one after the other.

ghost use Rattle.std.specs.Prelude.{◌≡◌, ℕ, ◌+◌, ◌*◌, ◌<◌, ◌≤◌, [], All, IfNone, IfOk, IfSome, length, slice_index_or};
ghost use Rattle.prime_field.specs.Modulus.{value_of};
ghost use Rattle.prime_field.specs.Residue.{IsPrime};
ghost use Rattle.elim_core.specs.Kept.{Belongs, HasSolution, IsAbsorbed, kept_rows, modulus_of, unknowns_of};
ghost use Rattle.elim_core.specs.Solved.{IsKept, IsOwnSet};
ghost use Rattle.elim_core.specs.Sparse.{AreSparseRows, entries_of, rows_with};
ghost use Rattle.sparse_solver.specs.Order.{AreStarts, TakesEach};

use elim_core::{Elim, Rank, SparseRow};
use prime_field::Modulus;
use sqlite_items::Items;
use std::alloc::{AllocError, Global};

/// Absorbs the row with this number, counted from 0, with its values.
fn absorb_row(
    elimination: &mut Elim,
    words: &mut [u64],
    rows: &[SparseRow],
    starts: &[usize],
    values: &[u64],
    number: usize,
) -> Rank
    requires belongs { Belongs elimination.old words.old }
    requires sparse { AreSparseRows (unknowns_of elimination.old) rows.now }
    requires starts { AreStarts rows.now starts.now }
    requires entries { length values.now ≡ entries_of rows.now }
    requires residues { All (λ x. x < modulus_of elimination.old) values.now }
    requires number { number < length rows.now }
    ensures belongs { Belongs elimination.new words.new }
    ensures kind { (unknowns_of elimination.new ≡ unknowns_of elimination.old) × (modulus_of elimination.new ≡ modulus_of elimination.old) }
    ensures absorbed { IsAbsorbed elimination.old words.old elimination.new words.new
        (slice_index_or (rows_with (unknowns_of elimination.old) rows.now values.now) number []) result }
{
    let columns = rows[number].columns.as_slice();
    let start = starts[number];
    elimination.absorb_entries(words, columns, &values[start..start + columns.len()])
}

/// Absorbs each row once, in words of which there are enough, or answers nothing where the system has no solution.
pub fn absorb_rows(
    m: Modulus,
    unknowns: usize,
    rows: &[SparseRow],
    starts: &[usize],
    order: &[usize],
    values: &[u64],
    words: &mut [u64],
) -> Option<Elim>
    requires few { unknowns ≤ 4096 }
    requires sparse { AreSparseRows unknowns rows.now }
    requires starts { AreStarts rows.now starts.now }
    requires order { TakesEach (length rows.now) order.now }
    requires entries { length values.now ≡ entries_of rows.now }
    requires residues { All (λ x. x < value_of m) values.now }
    requires room { (unknowns + 4) * (unknowns + 2) ≤ length words.old }
    ensures kept { IfSome result (λ kept. IsKept kept words.new (value_of m) unknowns (rows_with unknowns rows.now values.now)) }
    ensures unsolvable { IfNone result (IsPrime (value_of m) → HasSolution (value_of m) unknowns (rows_with unknowns rows.now values.now) → ⊥) }
{
    let mut elimination = Elim::start(m, unknowns, words);
    for number in order {
        let rank = absorb_row(&mut elimination, words, rows, starts, values, *number);
        if let Rank::Contradiction = rank {
            return None;
        }
    }
    Some(elimination)
}

/// Absorbs each row once, and answers what was kept with the order in which the rows that cut solutions come first.
/// It answers nothing where the system has no solution.
pub fn learn_rows(
    alloc: Global,
    m: Modulus,
    unknowns: usize,
    rows: &[SparseRow],
    starts: &[usize],
    order: &[usize],
    values: &[u64],
    words: &mut [u64],
) -> Result<Option<(Elim, Vec<usize>)>, AllocError>
    requires few { unknowns ≤ 4096 }
    requires sparse { AreSparseRows unknowns rows.now }
    requires starts { AreStarts rows.now starts.now }
    requires order { TakesEach (length rows.now) order.now }
    requires entries { length values.now ≡ entries_of rows.now }
    requires residues { All (λ x. x < value_of m) values.now }
    requires room { (unknowns + 4) * (unknowns + 2) ≤ length words.old }
    ensures kept { IfOk result (λ found. IfSome found (λ kept. IsKept kept.0 words.new (value_of m) unknowns (rows_with unknowns rows.now values.now))) }
    ensures order { IfOk result (λ found. IfSome found (λ kept. TakesEach (length rows.now) kept.1.items)) }
    ensures unsolvable { IfOk result (λ found. IfNone found (IsPrime (value_of m)
        → HasSolution (value_of m) unknowns (rows_with unknowns rows.now values.now) → ⊥)) }
{
    let mut elimination = Elim::start(m, unknowns, words);
    let mut cutting = Vec::new(alloc);
    let mut following = Vec::new(alloc);
    for number in order {
        match absorb_row(&mut elimination, words, rows, starts, values, *number) {
            Rank::New => cutting.push(*number)?,
            Rank::Same => following.push(*number)?,
            Rank::Contradiction => return Ok(None),
        }
    }
    cutting.append(&mut following)?;
    Ok(Some((elimination, cutting)))
}

/// The independent unknowns of the kept rows, ascending.
pub fn own_set(
    alloc: Global,
    unknowns: usize,
    elimination: &Elim,
    words: &[u64],
) -> Result<Items<u32>, AllocError>
    requires belongs { Belongs elimination.now words.now }
    requires unknowns { unknowns ≡ unknowns_of elimination.now }
    requires solvable { HasSolution (modulus_of elimination.now) (unknowns_of elimination.now) (kept_rows elimination.now words.now) }
    ensures { IfOk result (IsOwnSet (modulus_of elimination.now) (unknowns_of elimination.now) (kept_rows elimination.now words.now)) }
{
    let mut set = vec![in alloc; 0; unknowns]?;
    let count = elimination.independents(words, set.as_mut_slice());
    set.truncate(count);
    Ok(Items::from_vec(set))
}
