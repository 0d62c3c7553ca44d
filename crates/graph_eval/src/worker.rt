//! A worker, which evaluates a job's main graph at one point after another.

ghost use Rattle.std.specs.Prelude.{◌≡◌, ◌-◌, None, Some, IfOk, length, replicate, slice_get};
ghost use Rattle.prime_field.specs.Modulus.{value_of};
ghost use Rattle.prime_field.specs.Residue.{IsPrime};
ghost use Rattle.graph_eval.specs.Evaluated.{FitsOutcome, HasInputs, outcome_of};
ghost use Rattle.graph_eval.specs.GraphValue.{GraphValue, main_number};
ghost use Rattle.graph_eval.specs.Learned.{Fits, outputs_of, sets_of};
ghost use Rattle.graph_eval.specs.Made.{IsMadeFor};

use crate::evaluation::evaluate;
use crate::frames::{frames_of, kept_words};
use crate::learned::Learned;
use crate::memos::MemoFrame;
use crate::needs::{tables_of, words_needed};
use crate::outcome::Outcome;
use crate::systems::work_for;
use graph_file::{Graph, Job};
use poly_maps::Point;
use prime_field::Modulus;
use ratfun_text::NoMemory;
use sqlite_items::Items;
use std::alloc::Global;
use word_region::Stack;

/// Evaluates a job's main graph at points. What it has changes no answer: one block of words for the lists of nodes, one
/// for their systems, and where each graph's lists stand. All of it is taken once.
#[derive(Drop)]
pub struct Worker {
    stack: Stack,
    work: Vec<u64>,
    tables: Items<Items<usize>>,
    slots: Items<Items<usize>>,
    frames: Vec<MemoFrame>,
    moduli: Vec<Option<Modulus>>,
    counts: Vec<u64>,
}

/// The main graph of a job, which is the last of its graphs.
pub fn main_graph(job: &Job) -> &Graph
    ensures { slice_get job.now.graphs (main_number job.now.graphs) ≡ Some result.now }
{
    let graphs = job.graphs.as_slice();
    &graphs[graphs.len() - 1]
}

/// No modulus for any of so many memos.
fn nothing_kept(alloc: Global, count: usize) -> Result<Vec<Option<Modulus>>, NoMemory>
    ensures { IfOk result (λ moduli. moduli.items ≡ replicate count None) }
{
    let mut moduli = Vec::new(alloc);
    for _memo in 0..count {
        moduli.push(None)?;
    }
    Ok(moduli)
}

impl Worker {
    /// A worker for a job and what was learned of its graphs, in a block of [`words_needed`] words.
    pub fn new(alloc: Global, job: &Job, learned: &Learned) -> Result<Worker, NoMemory>
        requires { Fits job.now.graphs learned.now }
        ensures { IfOk result (IsMadeFor job.now.graphs learned.now) }
    {
        let graphs = job.graphs.as_slice();
        let known = learned.all();
        let words = words_needed(job, learned);
        let (slots, frames) = frames_of(alloc, graphs, known)?;
        let moduli = nothing_kept(alloc, frames.len())?;
        Ok(Worker {
            stack: Stack::new(alloc, words, kept_words(graphs, known))?,
            work: work_for(alloc, graphs)?,
            tables: tables_of(alloc, graphs, known)?,
            slots,
            frames,
            moduli,
            counts: vec![in alloc; 0; graphs.len()]?,
        })
    }

    /// How often the graph with this number, counted from 0, was evaluated for a node that calls it. It stays once it is
    /// 2^64 - 1, and is 0 where the job has no such graph.
    pub fn evaluations(&self, graph: u32) -> u64 {
        let counts = self.counts.as_slice();
        let graph = graph as usize;
        if graph >= counts.len() {
            return 0;
        }
        counts[graph]
    }

    /// The number of free words of the block for lists.
    pub fn free_words(&self) -> usize
        ensures { result ≡ self.now.stack.size - length self.now.stack.words }
    {
        self.stack.free()
    }

    /// Writes what the main graph gives at a point to `out`, which has a place for each entry of the output, or tells
    /// the first node that has no value there. A system is solved over the unknowns that were learned for its node. It
    /// takes no memory, and all words of the block are free again behind it.
    pub fn eval_point(
        &mut self,
        job: &Job,
        learned: &Learned,
        m: Modulus,
        point: &Point,
        out: &mut [u64],
    ) -> Outcome
        requires made { IsMadeFor job.now.graphs learned.now self.old }
        requires fits { Fits job.now.graphs learned.now }
        requires entries { HasInputs (slice_get job.now.graphs (main_number job.now.graphs)) point.now }
        requires room { length out.old ≡ outputs_of learned.now }
        ensures made { IsMadeFor job.now.graphs learned.now self.new }
        ensures value { IsPrime (value_of m)
            → GraphValue (value_of m) job.now.graphs (sets_of learned.now) (main_number job.now.graphs) point.now (outcome_of out.new result) }
        ensures fits { FitsOutcome (value_of m) (slice_get job.now.graphs (main_number job.now.graphs)) out.new result }
    {
        let graphs = job.graphs.as_slice();
        let main = graphs.len() - 1;
        self.stack.push(point.entries());
        match evaluate(
            m,
            graphs,
            learned.all(),
            self.tables.as_slice(),
            self.slots.as_slice(),
            self.frames.as_slice(),
            main,
            0,
            self.moduli.as_mut_slice(),
            self.counts.as_mut_slice(),
            &mut self.stack,
            self.work.as_mut_slice(),
        ) {
            Ok(()) => {
                out.copy_from_slice(self.stack.words());
                self.stack.cut(0);
                Outcome::Defined
            }
            Err(singular) => {
                self.stack.cut(0);
                Outcome::Singular(singular)
            }
        }
    }
}
