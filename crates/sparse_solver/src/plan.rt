//! A plan for a system of sparse rows.

ghost use Rattle.std.specs.Prelude.{◌≡◌, ℕ, ◌+◌, ◌*◌, ◌<◌, ◌≤◌, All, IfNone, IfOk, IfSome, OnErr, length};
ghost use Rattle.std.specs.Bool.{OnFalse, OnTrue};
ghost use Rattle.prime_field.specs.Modulus.{value_of};
ghost use Rattle.prime_field.specs.Residue.{IsPrime};
ghost use Rattle.elim_core.specs.Kept.{HasSolution};
ghost use Rattle.elim_core.specs.Solved.{IsOwnSet, IsSolved};
ghost use Rattle.elim_core.specs.Solver.{AreUnknowns, HasSolverValue};
ghost use Rattle.elim_core.specs.Sparse.{AreSparseRows, entries_of, rows_with};
ghost use Rattle.sparse_solver.specs.Plan.{IsLearned, set_in, set_of};

use crate::absorption::{absorb_rows, learn_rows, own_set};
use crate::order::{first_order, starts_of};
use crate::replay::replay;
use crate::search::learn_steps;
use crate::steps::Steps;
use elim_core::{Elim, SparseRow};
use prime_field::Modulus;
use sqlite_items::Items;
use std::alloc::{AllocError, Global};
use std::marker::Model;

/// The one refusal of a call that needs memory and nothing else.
pub type NoMemory = AllocError;

/// A system of sparse rows whose values come with each point, which contracts see as its unknowns, its rows and the
/// independent unknowns that it has learned. The order in which it takes the rows is its own affair.
#[derive(Drop, Debug)]
pub struct SparsePlan {
    alloc: Global,
    unknowns: u32,
    rows: Items<SparseRow>,
    starts: Vec<usize>,
    order: Vec<usize>,
    learned: Option<Items<u32>>,
    steps: Option<Steps>,
}

impl Model for SparsePlan {
    ghost use Rattle.sparse_solver.specs.Plan.{Plan};
    ghost use Rattle.sparse_solver.specs.Order.{IsPlanned};

    ghost Value = { Plan };

    ghost view = { λ plan. record { unknowns = plan.unknowns; rows = plan.rows; learned = plan.learned } };

    ghost invariant = { λ plan. IsPlanned plan.unknowns plan.rows plan.starts.items plan.order.items plan.learned plan.steps };
}

/// The set that was learned, or else the empty one.
fn learned_set(learned: &Option<Items<u32>>) -> &[u32]
    ensures { result.now ≡ set_in learned.now }
{
    match learned {
        Some(set) => set.as_slice(),
        None => &[],
    }
}

impl SparsePlan {
    /// A plan for 1 to 4096 unknowns that has learned nothing. The columns of each row ascend; column 0 is the right side, and
    /// the others are the numbers of unknowns, counted from 1.
    ///
    /// # Errors
    ///
    /// [`NoMemory`].
    pub fn new(alloc: Global, unknowns: u32, rows: Items<SparseRow>) -> Result<SparsePlan, NoMemory>
        requires some { 1 ≤ unknowns }
        requires few { unknowns ≤ 4096 }
        requires rows { AreSparseRows unknowns rows }
        ensures { IfOk result (λ plan. plan ≡ record { unknowns = unknowns; rows = rows; learned = None }) }
    {
        let starts = starts_of(alloc, rows.as_slice())?;
        let order = first_order(alloc, rows.as_slice())?;
        Ok(SparsePlan {
            alloc,
            unknowns,
            rows,
            starts,
            order,
            learned: None,
            steps: None,
        })
    }

    /// Learns at a point, where each row has a residue for each of its columns, those of the first row first. It answers the
    /// independent unknowns, ascending, and keeps them, or answers nothing and keeps nothing where the system has no solution.
    ///
    /// # Errors
    ///
    /// [`NoMemory`]; then the plan is unchanged.
    pub fn learn(&mut self, m: Modulus, values: &[u64]) -> Result<Option<Items<u32>>, NoMemory>
        requires entries { length values.now ≡ entries_of self.old.rows }
        requires residues { All (λ x. x < value_of m) values.now }
        ensures same { (self.new.unknowns ≡ self.old.unknowns) × (self.new.rows ≡ self.old.rows) }
        ensures err { OnErr result (self.new ≡ self.old) }
        ensures learned { IfOk result (λ found. self.new.learned ≡ found) }
        ensures own { IfOk result (λ found. IfSome found (λ set.
            IsOwnSet (value_of m) self.old.unknowns (rows_with self.old.unknowns self.old.rows values.now) set)) }
        ensures solvable { IfOk result (λ found. IfSome found (λ set.
            HasSolution (value_of m) self.old.unknowns (rows_with self.old.unknowns self.old.rows values.now))) }
        ensures none { IfOk result (λ found. IfNone found (IsPrime (value_of m)
            → HasSolution (value_of m) self.old.unknowns (rows_with self.old.unknowns self.old.rows values.now) → ⊥)) }
    {
        let unknowns = self.unknowns as usize;
        let mut lent = vec![in self.alloc; 0; Elim::words(unknowns)]?;
        let words = lent.as_mut_slice();
        let kept = learn_rows(
            self.alloc,
            m,
            unknowns,
            self.rows.as_slice(),
            self.starts.as_slice(),
            self.order.as_slice(),
            values,
            words,
        )?;
        let Some((elimination, order)) = kept else {
            self.steps = None;
            self.learned = None;
            return Ok(None);
        };
        let set = own_set(self.alloc, unknowns, &elimination, words)?;
        let learned = Items::from_slice(self.alloc, set.as_slice())?;
        let first = first_order(self.alloc, self.rows.as_slice())?;
        let steps = learn_steps(
            self.alloc,
            m,
            unknowns,
            self.rows.as_slice(),
            self.starts.as_slice(),
            first.as_slice(),
            values,
            learned.as_slice(),
        )?;
        self.order = order;
        self.learned = Some(learned);
        self.steps = steps;
        Ok(Some(set))
    }

    /// Writes the values that tell the wanted unknowns by the learned ones: for each wanted one, in their order, the numbers for
    /// the learned ones and then the constant. It answers false where the learned unknowns don't tell the others.
    ///
    /// Each row counts, also one that followed from others where the plan learned.
    ///
    /// It replays what was learned, and eliminates all rows anew where that does not lead to an answer.
    pub fn solve(
        &self,
        m: Modulus,
        values: &[u64],
        want: &[u32],
        work: &mut [u64],
        out: &mut [u64],
    ) -> bool
        requires learned { IsLearned self.now }
        requires entries { length values.now ≡ entries_of self.now.rows }
        requires residues { All (λ x. x < value_of m) values.now }
        requires want { AreUnknowns self.now.unknowns want.now }
        requires words { (self.now.unknowns + 4) * (self.now.unknowns + 2) ≤ length work.old }
        requires room { length out.old ≡ length want.now * (length (set_of self.now) + 1) }
        ensures solved { OnTrue result (IsSolved (value_of m) self.now.unknowns
            (rows_with self.now.unknowns self.now.rows values.now) (set_of self.now) want.now out.new) }
        ensures undefined { OnFalse result (IsPrime (value_of m) → HasSolverValue (value_of m) self.now.unknowns
            (rows_with self.now.unknowns self.now.rows values.now) (set_of self.now) → ⊥) }
        ensures residues { OnTrue result (All (λ x. x < value_of m) out.new) }
    {
        if let Some(steps) = &self.steps {
            let unknowns = self.unknowns as usize;
            let rows = self.rows.as_slice();
            if replay(
                m,
                unknowns,
                rows,
                &self.starts,
                values,
                steps,
                learned_set(&self.learned),
                want,
                work,
                out,
            ) {
                return true;
            }
        }
        self.solve_anew(m, values, want, work, out)
    }

    /// The same as [`SparsePlan::solve`], by eliminating all rows anew.
    pub(crate) fn solve_anew(
        &self,
        m: Modulus,
        values: &[u64],
        want: &[u32],
        work: &mut [u64],
        out: &mut [u64],
    ) -> bool
        requires learned { IsLearned self.now }
        requires entries { length values.now ≡ entries_of self.now.rows }
        requires residues { All (λ x. x < value_of m) values.now }
        requires want { AreUnknowns self.now.unknowns want.now }
        requires words { (self.now.unknowns + 4) * (self.now.unknowns + 2) ≤ length work.old }
        requires room { length out.old ≡ length want.now * (length (set_of self.now) + 1) }
        ensures solved { OnTrue result (IsSolved (value_of m) self.now.unknowns
            (rows_with self.now.unknowns self.now.rows values.now) (set_of self.now) want.now out.new) }
        ensures undefined { OnFalse result (IsPrime (value_of m) → HasSolverValue (value_of m) self.now.unknowns
            (rows_with self.now.unknowns self.now.rows values.now) (set_of self.now) → ⊥) }
        ensures residues { OnTrue result (All (λ x. x < value_of m) out.new) }
    {
        let unknowns = self.unknowns as usize;
        let rows = self.rows.as_slice();
        let set = learned_set(&self.learned);
        match absorb_rows(m, unknowns, rows, &self.starts, &self.order, values, work) {
            Some(mut elimination) => elimination.solve_over(work, set, want, out),
            None => false,
        }
    }
}
