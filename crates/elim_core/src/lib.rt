//! Exact solution sets of linear equations modulo a prime, over lent words.
//!
//! An [`Elim`] keeps equations in words that each of its calls is lent, and allocates nothing. What it says of the equations it
//! says of their solutions alone. Unknowns are numbered from 1. A row over U unknowns has U + 1 entries, the last of which is
//! its right side.
#![tactic(auto)]

ghost use Rattle.std.specs.Prelude.{false, ◌≡◌, ◌≢◌, ℕ, ◌+◌, ◌*◌, ◌<◌, ◌≤◌, ◌-◌, ◌↔◌, List, length, slice_index, take};
ghost use Rattle.std.specs.Bool.{OnTrue, OnFalse};
ghost use Rattle.prime_field.specs.Modulus.{value_of};
ghost use Rattle.elim_core.specs.Kept.{unknowns_of, modulus_of, kept_rows, rows_of, ends_of, work_of, Belongs, IsAbsorbed, HasSolution, row_with, IsFree};
ghost use Rattle.elim_core.specs.Layout.{IsLaidOut, IsRow, IsSpan};
ghost use Rattle.elim_core.specs.Rows.{chosen_value};
ghost use Rattle.elim_core.specs.Solution.{IsSolution, IsIndependent};
ghost use Rattle.elim_core.specs.Solver.{IsAscending, AreUnknowns, ListsIndependent, IsCoefficient, IsSolverList, HasSolverValue};
ghost use Rattle.prime_field.specs.Residue.{IsPrime};

use prime_field::Modulus;
use sqlite_items::Items;

mod choice;
mod dot;
mod elimination;
mod group;
pub mod laws;
mod layers;
mod lent;
mod slots;
mod solver;
mod span;
mod substitution;

use choice::write_choice;
use elimination::Lead;
use solver::{free_value, list_empty};
use substitution::back_substitute;

#[cfg(test)]
mod tests;

/// What absorbing a row did to the solutions.
#[derive(Clone, Copy, PartialEq, Eq, Debug)]
pub enum Rank {
    /// Fewer are left, but one at least.
    New,
    /// Each of them satisfies the row, and there is one at least.
    Same,
    /// None is left.
    Contradiction,
}

/// A row of a system in which most entries are 0: the columns of the others, ascending. Column 0 is the right side.
#[derive(Drop, Debug)]
pub struct SparseRow {
    /// The columns, which are to ascend and be distinct.
    pub columns: Items<u32>,
}

/// Equations over words that its calls are lent.
#[derive(Drop, Debug)]
pub struct Elim {
    modulus: Modulus,
    unknowns: usize,
    failed: bool,
}

impl Elim {
    /// How many words equations over so many unknowns want.
    pub fn words(unknowns: usize) -> usize
        requires few { unknowns ≤ 4096 }
        ensures { result ≡ (unknowns + 4) * (unknowns + 2) }
    {
        (unknowns + 4) * (unknowns + 2)
    }

    /// Starts with no equations: each list of residues is a solution. What the words hold does not matter.
    pub fn start(modulus: Modulus, unknowns: usize, words: &mut [u64]) -> Elim
        requires few { unknowns ≤ 4096 }
        requires room { (unknowns + 4) * (unknowns + 2) ≤ length words.old }
        ensures belongs { Belongs result words.new }
        ensures kind { (unknowns_of result ≡ unknowns) × (modulus_of result ≡ value_of modulus) }
        ensures free { IsFree (value_of modulus) unknowns (kept_rows result words.new) }
        ensures solvable { HasSolution (value_of modulus) unknowns (kept_rows result words.new) }
    {
        lent::empty(unknowns, words);
        Elim {
            modulus,
            unknowns,
            failed: false,
        }
    }

    /// Drops all equations.
    pub fn reset(&mut self, words: &mut [u64])
        requires belongs { Belongs self.old words.old }
        ensures belongs { Belongs self.new words.new }
        ensures kind { (unknowns_of self.new ≡ unknowns_of self.old) × (modulus_of self.new ≡ modulus_of self.old) }
        ensures free { IsFree (modulus_of self.old) (unknowns_of self.old) (kept_rows self.new words.new) }
        ensures solvable { HasSolution (modulus_of self.old) (unknowns_of self.old) (kept_rows self.new words.new) }
    {
        lent::empty(self.unknowns, words);
        self.failed = false;
    }

    /// Adds an equation, and says what it did to the solutions. Once there is none, each later equation is answered
    /// `Contradiction`, until [`Elim::reset`].
    pub fn absorb(&mut self, words: &mut [u64], row: &[u64]) -> Rank
        requires belongs { Belongs self.old words.old }
        requires room { length row.now ≡ unknowns_of self.old + 1 }
        requires residues { (k : ℕ) → k < unknowns_of self.old + 1 → slice_index row.now k < modulus_of self.old }
        ensures belongs { Belongs self.new words.new }
        ensures kind { (unknowns_of self.new ≡ unknowns_of self.old) × (modulus_of self.new ≡ modulus_of self.old) }
        ensures absorbed { IsAbsorbed self.old words.old self.new words.new row.now result }
        ensures stays { (HasSolution (modulus_of self.old) (unknowns_of self.old) (kept_rows self.old words.old) → ⊥)
            → result ≡ Rank.Contradiction }
    {
        if self.failed {
            return Rank::Contradiction;
        }
        let span = lent::load_row(self.unknowns, words, row);
        self.absorb_at_hand(words, span)
    }

    /// Absorbs the row at hand where there is a solution, and keeps that none is left where it answers `Contradiction`.
    fn absorb_at_hand(&mut self, words: &mut [u64], span: Lead) -> Rank
        requires few { unknowns_of self.old ≤ 4096 }
        requires room { (unknowns_of self.old + 4) * (unknowns_of self.old + 2) ≤ length words.old }
        requires solvable { self.old.failed ≡ false }
        requires laid_out { IsLaidOut (modulus_of self.old) (unknowns_of self.old) (rows_of (unknowns_of self.old) words.old)
            (ends_of (unknowns_of self.old) words.old) }
        requires residues { IsRow (modulus_of self.old) (unknowns_of self.old) (work_of (unknowns_of self.old) words.old) }
        requires end { span.end ≤ unknowns_of self.old }
        requires span { IsSpan (unknowns_of self.old) (work_of (unknowns_of self.old) words.old) span.place span.end }
        ensures belongs { Belongs self.new words.new }
        ensures kind { (unknowns_of self.new ≡ unknowns_of self.old) × (modulus_of self.new ≡ modulus_of self.old) }
        ensures absorbed { IsAbsorbed self.old words.old self.new words.new (work_of (unknowns_of self.old) words.old) result }
    {
        match lent::absorb_loaded(self.modulus, self.unknowns, words, span) {
            Rank::New => Rank::New,
            Rank::Same => Rank::Same,
            Rank::Contradiction => {
                self.failed = true;
                Rank::Contradiction
            }
        }
    }

    /// Adds the equation that has these values in these columns and zeros elsewhere, column 0 being the right side.
    ///
    /// What lies outside the span of its columns and of the rows that are taken from it is not read, so it costs no more for the
    /// unknowns there.
    pub fn absorb_entries(&mut self, words: &mut [u64], columns: &[u32], values: &[u64]) -> Rank
        requires belongs { Belongs self.old words.old }
        requires lengths { length columns.now ≡ length values.now }
        requires ascending { IsAscending columns.now }
        requires columns { (i : ℕ) → i < length columns.now → slice_index columns.now i ≤ unknowns_of self.old }
        requires residues { (i : ℕ) → i < length values.now → slice_index values.now i < modulus_of self.old }
        ensures belongs { Belongs self.new words.new }
        ensures kind { (unknowns_of self.new ≡ unknowns_of self.old) × (modulus_of self.new ≡ modulus_of self.old) }
        ensures absorbed { IsAbsorbed self.old words.old self.new words.new
            (row_with (unknowns_of self.old) columns.now values.now) result }
        ensures stays { (HasSolution (modulus_of self.old) (unknowns_of self.old) (kept_rows self.old words.old) → ⊥)
            → result ≡ Rank.Contradiction }
    {
        if self.failed {
            return Rank::Contradiction;
        }
        let span = lent::load_entries(self.modulus, self.unknowns, words, columns, values);
        self.absorb_at_hand(words, span)
    }

    /// Writes the independent unknowns, ascending, and answers how many there are: those for which two solutions agree on all
    /// later unknowns and differ there.
    pub fn independents(&self, words: &[u64], out: &mut [u32]) -> usize
        requires belongs { Belongs self.now words.now }
        requires solvable { HasSolution (modulus_of self.now) (unknowns_of self.now) (kept_rows self.now words.now) }
        requires room { length out.old ≡ unknowns_of self.now }
        ensures count { result ≤ unknowns_of self.now }
        ensures numbers { AreUnknowns (unknowns_of self.now) (take result out.new) }
        ensures ascending { IsAscending (take result out.new) }
        ensures listed { ListsIndependent (modulus_of self.now) (unknowns_of self.now) (kept_rows self.now words.now)
            (take result out.new) }
    {
        list_empty(self.unknowns, lent::ends_in(self.unknowns, words), out)
    }

    /// The number for the unknown `k`, or the constant where `k` is 0, in what tells the unknown `j` by the independent ones.
    pub fn coefficient(&self, words: &[u64], j: u32, k: u32) -> u64
        requires belongs { Belongs self.now words.now }
        requires solvable { HasSolution (modulus_of self.now) (unknowns_of self.now) (kept_rows self.now words.now) }
        requires unknown { (0 < j) × (j ≤ unknowns_of self.now) }
        requires within { k ≤ unknowns_of self.now }
        requires independent { k ≢ 0 → IsIndependent (modulus_of self.now) (unknowns_of self.now) (kept_rows self.now words.now) (k - 1) }
        ensures { (set : List ℕ) →
            ListsIndependent (modulus_of self.now) (unknowns_of self.now) (kept_rows self.now words.now) set →
            IsCoefficient (modulus_of self.now) (unknowns_of self.now) (kept_rows self.now words.now) set j k result }
    {
        let rows = lent::rows_in(self.unknowns, words);
        let ends = lent::ends_in(self.unknowns, words);
        let constant = free_value(self.modulus, self.unknowns, rows, ends, 0, j as usize - 1);
        if k == 0 {
            return constant;
        }
        let sum = free_value(self.modulus, self.unknowns, rows, ends, k, j as usize - 1);
        self.modulus.sub(sum, constant)
    }

    /// Writes the solution at which the independent unknown `chosen` is 1 and the other independent ones are 0; all of them
    /// are 0 where `chosen` is 0.
    pub fn solution(&self, words: &[u64], chosen: u32, out: &mut [u64])
        requires belongs { Belongs self.now words.now }
        requires solvable { HasSolution (modulus_of self.now) (unknowns_of self.now) (kept_rows self.now words.now) }
        requires room { length out.old ≡ unknowns_of self.now }
        ensures solves { IsSolution (modulus_of self.now) (unknowns_of self.now) (kept_rows self.now words.now) out.new }
        ensures chosen { (k : ℕ) → k < unknowns_of self.now →
            IsIndependent (modulus_of self.now) (unknowns_of self.now) (kept_rows self.now words.now) k →
            slice_index out.new k ≡ chosen_value chosen (k + 1) }
    {
        let rows = lent::rows_in(self.unknowns, words);
        let ends = lent::ends_in(self.unknowns, words);
        write_choice(out, chosen);
        back_substitute(self.modulus, self.unknowns, rows, ends, out);
    }

    /// Writes the solver list over the set, for each wanted unknown the numbers for those of the set and then the constant, or
    /// answers false where the set doesn't tell the solutions. The solutions stay.
    pub fn solve_over(
        &mut self,
        words: &mut [u64],
        set: &[u32],
        want: &[u32],
        out: &mut [u64],
    ) -> bool
        requires belongs { Belongs self.old words.old }
        requires ascending { IsAscending set.now }
        requires set { AreUnknowns (unknowns_of self.old) set.now }
        requires want { AreUnknowns (unknowns_of self.old) want.now }
        requires room { length out.old ≡ length want.now * (length set.now + 1) }
        ensures belongs { Belongs self.new words.new }
        ensures kind { (unknowns_of self.new ≡ unknowns_of self.old) × (modulus_of self.new ≡ modulus_of self.old) }
        ensures solutions { (zs : List ℕ) →
            (IsSolution (modulus_of self.old) (unknowns_of self.old) (kept_rows self.new words.new) zs
            ↔ IsSolution (modulus_of self.old) (unknowns_of self.old) (kept_rows self.old words.old) zs) }
        ensures solved { OnTrue result (IsSolverList (modulus_of self.old) (unknowns_of self.old)
            (kept_rows self.old words.old) set.now want.now out.new) }
        ensures undefined { OnFalse result (IsPrime (modulus_of self.old) →
            HasSolverValue (modulus_of self.old) (unknowns_of self.old) (kept_rows self.old words.old) set.now → ⊥) }
    {
        if self.failed {
            return false;
        }
        lent::solve_loaned(self.modulus, self.unknowns, words, set, want, out)
    }
}
