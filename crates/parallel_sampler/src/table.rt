//! A table with a row for each of some points, which is filled block by block.

ghost use Rattle.std.specs.Prelude.{◌≡◌, ℕ, ◌+◌, ◌*◌, ◌<◌, ◌≤◌, All, IsSome, None, Some, IfOk, is_some, length, map, min, replicate, slice_get};
ghost use Rattle.prime_field.specs.Modulus.{value_of};
ghost use Rattle.graph_eval.specs.Evaluated.{HasInputs};
ghost use Rattle.graph_eval.specs.GraphValue.{main_number};
ghost use Rattle.graph_eval.specs.Learned.{Fits, outputs_of};
ghost use Rattle.graph_eval.specs.Made.{IsMadeFor};
ghost use Rattle.parallel_sampler.specs.Filled.{FillsRows, HasRoom, PutsRow, TakesRows, blocks_of, kept_row, row_at};

use crate::NoMemory;
use crate::row::Row;
use crate::samples::Samples;
use graph_eval::{Learned, Worker};
use graph_file::Job;
use poly_maps::Point;
use prime_field::Modulus;
use std::alloc::Global;
use std::marker::Model;

/// How many points a block has, the last one of a list perhaps fewer.
pub(crate) const BLOCK: usize = 32;

/// A row for each of some points. Contracts see the list of the rows, each empty or what a graph has at the row's point, and
/// the room of each row in residues.
#[derive(Drop)]
pub struct Table {
    rows: Vec<Row>,
    room: usize,
}

impl Model for Table {
    ghost use Rattle.std.specs.Prelude.{All, map};
    ghost use Rattle.parallel_sampler.specs.Filled.{Filling, HasRoom, kept_row};

    ghost Value = { Filling };

    ghost view = { λ t. record { rows = map kept_row t.rows.items; room = t.room } };

    ghost invariant = { λ t. All (HasRoom t.room) t.rows.items };
}

impl Table {
    /// As many empty rows as points, with room for `outputs` residues each.
    pub fn new(alloc: Global, points: usize, outputs: usize) -> Result<Table, NoMemory>
        requires few { points ≤ 65536 }
        requires room { points * outputs ≤ 1048576 }
        ensures { IfOk result (λ table. table ≡ record { rows = replicate points None; room = outputs }) }
    {
        let mut rows = Vec::with_capacity(alloc, points)?;
        for _ in 0..points {
            let words = vec![in alloc; 0; outputs]?;
            rows.push(Row {
                outcome: None,
                words,
            })?;
        }
        Ok(Table {
            rows,
            room: outputs,
        })
    }

    /// Whether row `i` is not empty.
    pub fn filled(&self, i: usize) -> bool
        requires { i < length self.now.rows }
        ensures { result ≡ is_some (row_at self.now.rows i) }
    {
        self.rows[i].outcome.is_some()
    }

    // Row `i` gets what the main graph has at the point.
    fn put(
        &mut self,
        i: usize,
        worker: &mut Worker,
        job: &Job,
        learned: &Learned,
        m: Modulus,
        point: &Point,
    )
        requires row { i < length self.old.rows }
        requires room { self.old.room ≡ outputs_of learned.now }
        requires made { IsMadeFor job.now.graphs learned.now worker.old }
        requires fits { Fits job.now.graphs learned.now }
        requires entries { HasInputs (slice_get job.now.graphs (main_number job.now.graphs)) point.now }
        ensures made { IsMadeFor job.now.graphs learned.now worker.new }
        ensures row { PutsRow (value_of m) job.now.graphs learned.now point.now i self.old self.new }
    {
        let row = &mut self.rows[i];
        let outcome = worker.eval_point(job, learned, m, point, row.words.as_mut_slice());
        row.outcome = Some(outcome);
    }

    /// The rows of one block get what the main graph has at their points.
    pub(crate) fn fill(
        &mut self,
        block: usize,
        worker: &mut Worker,
        job: &Job,
        learned: &Learned,
        m: Modulus,
        points: &[Point],
    )
        requires block { block < blocks_of (length points.now) }
        requires few { length points.now ≤ 65536 }
        requires rows { length self.old.rows ≡ length points.now }
        requires room { self.old.room ≡ outputs_of learned.now }
        requires made { IsMadeFor job.now.graphs learned.now worker.old }
        requires fits { Fits job.now.graphs learned.now }
        requires entries { All (HasInputs (slice_get job.now.graphs (main_number job.now.graphs))) points.now }
        ensures made { IsMadeFor job.now.graphs learned.now worker.new }
        ensures room { self.new.room ≡ self.old.room }
        ensures rows { FillsRows (value_of m) job.now.graphs learned.now points.now (block * 32) (min (block * 32 + 32) (length points.now)) self.old.rows self.new.rows }
    {
        let first = block * BLOCK;
        let end = (first + BLOCK).min(points.len());
        for i in first..end {
            self.put(i, worker, job, learned, m, &points[i]);
        }
    }

    /// Takes over each row of the other table that is not empty.
    pub(crate) fn take_from(&mut self, other: Table)
        requires rows { length other.rows ≡ length self.old.rows }
        requires room { other.room ≡ self.old.room }
        ensures rows { TakesRows other.rows self.old.rows self.new.rows }
        ensures room { self.new.room ≡ self.old.room }
    {
        let Table { mut rows, room: _ } = other;
        take_rows(self.rows.as_mut_slice(), rows.as_mut_slice());
    }

    /// The rows as samples, where none of them is empty.
    pub(crate) fn into_samples(self) -> Samples
        requires { All (λ row. IsSome row) self.rows }
        ensures { map Some result ≡ self.rows }
    {
        let Table { rows, room: _ } = self;
        Samples::of(rows)
    }
}

/// Takes over each of the other rows that is not empty. Where all rows have the same room, it stays so.
fn take_rows(rows: &mut [Row], others: &mut [Row])
    requires { length others.old ≡ length rows.old }
    ensures rows { TakesRows (map kept_row others.old) (map kept_row rows.old) (map kept_row rows.new) }
    ensures room { (room : ℕ) → All (HasRoom room) rows.old → All (HasRoom room) others.old → All (HasRoom room) rows.new }
{
    for i in 0..rows.len() {
        rows[i].take_from(&mut others[i]);
    }
}
