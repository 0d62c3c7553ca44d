//! Trying attempts in turn.

ghost use Rattle.std.specs.Prelude.{◌≡◌, ◌*◌, ◌≤◌, All, IfNone, IfOk, IfSome, length, slice_get};
ghost use Rattle.prime_field.specs.Modulus.{value_of};
ghost use Rattle.prime_field.specs.Residue.{IsPrime};
ghost use Rattle.graph_eval.specs.Evaluated.{HasInputs};
ghost use Rattle.graph_eval.specs.GraphValue.{GraphValue, main_number};
ghost use Rattle.graph_eval.specs.Learned.{Fits, outputs_of, sets_of};
ghost use Rattle.graph_eval.specs.Made.{IsMadeFor};
ghost use Rattle.ray_grid.specs.Attempt.{attempt_points};
ghost use Rattle.ray_grid.specs.Grid.{IsGrid, point_count};
ghost use Rattle.good_attempt.specs.Attempts.{IsSampling};
ghost use Rattle.good_attempt.specs.Kept.{IsDefined, IsGapIn};
ghost use Rattle.good_attempt.specs.Tried.{FitsSampling, HasVariables, sampling_of};

use crate::NoMemory;
use crate::gap::Gap;
use crate::good::GoodAttempt;
use graph_eval::Learned;
use graph_file::Job;
use parallel_sampler::{Crew, Gate, Samples, sample};
use prime_field::Modulus;
use ray_grid::{Grid, attempt};
use std::alloc::Global;
use std::thread::Threads;

/// How many attempts there are.
pub const ATTEMPTS: u32 = 8;

/// What trying the attempts in turn gives.
#[derive(Debug, Drop)]
pub enum Attempts {
    /// The first attempt at each of whose points the graph has values.
    Good(GoodAttempt),
    /// There is none: the first gap of each attempt, in order.
    Exhausted(Vec<Gap>),
}

/// The first gap in some rows, where one has no values.
fn first_gap(samples: &Samples) -> Option<Gap>
    requires { length samples.now ≤ 65536 }
    ensures some { IfSome result (IsGapIn samples.now) }
    ensures none { IfNone result (All IsDefined samples.now) }
{
    for i in 0..samples.len() {
        if let Some(singular) = samples.singular(i) {
            return Some(Gap {
                point: i as u32,
                node: singular.node,
                cause: singular.cause,
            });
        }
    }
    None
}

/// The first attempt over the grid at each of whose points the job's main graph has values modulo `m`, with these values.
/// The attempts are tried in turn from number 0 on, and none behind the first good one. The crew samples each, and the gate is
/// told of each block of its points. The crew is made for the job both after an answer and where memory runs out.
pub fn first_good<G: Gate, R: Threads + Sync>(
    rt: &R,
    alloc: Global,
    crew: &mut Crew,
    job: &Job,
    learned: &Learned,
    m: Modulus,
    grid: &Grid,
    gate: &G,
) -> Result<Attempts, NoMemory>
    requires made { All (IsMadeFor job.now.graphs learned.now) crew.old }
    requires fits { Fits job.now.graphs learned.now }
    requires grid { IsGrid grid.now }
    requires variables { HasVariables (slice_get job.now.graphs (main_number job.now.graphs)) grid.now.variables }
    requires few { point_count grid.now ≤ 65536 }
    requires room { point_count grid.now * outputs_of learned.now ≤ 1048576 }
    ensures made { All (IsMadeFor job.now.graphs learned.now) crew.new }
    ensures sampling { IfOk result (λ tried. IsPrime (value_of m)
        → IsSampling (GraphValue (value_of m) job.now.graphs (sets_of learned.now) (main_number job.now.graphs)) (attempt_points grid.now) (sampling_of tried)) }
    ensures fits { IfOk result (λ tried.
        FitsSampling (value_of m) (slice_get job.now.graphs (main_number job.now.graphs)) (point_count grid.now) (outputs_of learned.now) (sampling_of tried)) }
{
    let mut gaps = Vec::with_capacity(alloc, ATTEMPTS as usize)?;
    for r in 0..ATTEMPTS {
        let points = attempt(alloc, grid, r)?;
        let samples = sample(rt, alloc, crew, job, learned, m, &points, gate)?;
        match first_gap(&samples) {
            None => return Ok(Attempts::Good(GoodAttempt::of(r, samples))),
            Some(gap) => gaps.push(gap)?,
        }
    }
    Ok(Attempts::Exhausted(gaps))
}
