//! Evaluating a job's main graph at points.

ghost use Rattle.std.specs.Prelude.{◌≡◌, ℕ, ◌*◌, ◌≤◌, All, List, IfOk, length, slice_get};
ghost use Rattle.prime_field.specs.Modulus.{value_of};
ghost use Rattle.prime_field.specs.Residue.{IsPrime};
ghost use Rattle.graph_eval.specs.Evaluated.{HasInputs};
ghost use Rattle.graph_eval.specs.GraphValue.{GraphValue, main_number};
ghost use Rattle.graph_eval.specs.Learned.{Fits, outputs_of, sets_of};
ghost use Rattle.graph_eval.specs.Made.{IsMadeFor};
ghost use Rattle.parallel_sampler.specs.Hands.{workers_of};
ghost use Rattle.parallel_sampler.specs.Rows.{AreOutcomes, FitsRow};

use crate::NoMemory;
use crate::board::Board;
use crate::crew::{Crew, Hand, deal, draws};
use crate::gate::Gate;
use crate::running::run;
use crate::samples::Samples;
use crate::table::Table;
use graph_eval::Learned;
use graph_file::Job;
use poly_maps::Point;
use prime_field::Modulus;
use std::alloc::Global;
use std::thread::Threads;

/// The rows that these workers give.
fn sample_by<G: Gate, R: Threads + Sync>(
    rt: &R,
    alloc: Global,
    hands: &mut [Hand],
    job: &Job,
    learned: &Learned,
    m: Modulus,
    points: &[Point],
    gate: &G,
) -> Result<Samples, NoMemory>
    requires some { 1 ≤ length hands.old }
    requires few_workers { length hands.old ≤ 16 }
    requires made { All (IsMadeFor job.now.graphs learned.now) (workers_of hands.old) }
    requires fits { Fits job.now.graphs learned.now }
    requires few { length points.now ≤ 65536 }
    requires room { length points.now * outputs_of learned.now ≤ 1048576 }
    requires entries { All (HasInputs (slice_get job.now.graphs (main_number job.now.graphs))) points.now }
    ensures made { All (IsMadeFor job.now.graphs learned.now) (workers_of hands.new) }
    ensures rows { IfOk result (λ rows. IsPrime (value_of m)
        → AreOutcomes (GraphValue (value_of m) job.now.graphs (sets_of learned.now) (main_number job.now.graphs)) points.now rows) }
    ensures count { IfOk result (λ rows. length rows ≡ length points.now) }
    ensures fits { IfOk result (All (FitsRow (value_of m) (slice_get job.now.graphs (main_number job.now.graphs)) (outputs_of learned.now))) }
{
    let outputs = learned.outputs();
    let mut whole = Table::new(alloc, points.len(), outputs)?;
    let (board, mut rest) = Board::new(alloc, hands.len() as u64 * draws(points.len()))?;
    deal(alloc, &board, &mut rest, points.len(), outputs, hands)?;
    run(rt, &board, job, learned, m, points, gate, hands);
    for i in 0..hands.len() {
        hands[i].settle(&board, &mut rest, &mut whole);
    }
    board.close(rest);
    Ok(whole.into_samples())
}

/// A row for each point, in order: what the main graph has there, modulo `m`, however many workers the crew has. They draw the
/// blocks of 32 points from one board, each in a thread of its own where threads can be made. All memory is taken before the
/// first block is drawn. The crew is made for the job both after an answer and where memory runs out.
pub fn sample<G: Gate, R: Threads + Sync>(
    rt: &R,
    alloc: Global,
    crew: &mut Crew,
    job: &Job,
    learned: &Learned,
    m: Modulus,
    points: &[Point],
    gate: &G,
) -> Result<Samples, NoMemory>
    requires made { All (IsMadeFor job.now.graphs learned.now) crew.old }
    requires fits { Fits job.now.graphs learned.now }
    requires few { length points.now ≤ 65536 }
    requires room { length points.now * outputs_of learned.now ≤ 1048576 }
    requires entries { All (HasInputs (slice_get job.now.graphs (main_number job.now.graphs))) points.now }
    ensures made { All (IsMadeFor job.now.graphs learned.now) crew.new }
    ensures rows { IfOk result (λ rows. IsPrime (value_of m)
        → AreOutcomes (GraphValue (value_of m) job.now.graphs (sets_of learned.now) (main_number job.now.graphs)) points.now rows) }
    ensures count { IfOk result (λ rows. length rows ≡ length points.now) }
    ensures fits { IfOk result (All (FitsRow (value_of m) (slice_get job.now.graphs (main_number job.now.graphs)) (outputs_of learned.now))) }
{
    sample_by(
        rt,
        alloc,
        crew.hands.as_mut_slice(),
        job,
        learned,
        m,
        points,
        gate,
    )
}
