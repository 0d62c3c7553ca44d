//! Learning all graphs of a job.

ghost use Rattle.std.specs.Prelude.{◌≡◌, ◌≢◌, ◌*◌, ◌<◌, ◌≤◌, ◌↔◌, IsTrue, None, length};
ghost use Rattle.prime_field.specs.Residue.{IsPrime};
ghost use Rattle.learn_phase.specs.LearnedSets as spec;
ghost use Rattle.graph_file.specs.Says.{form, grid_of};
ghost use Rattle.ray_grid.specs.Grid.{point_count};
ghost use Rattle.learn_phase.specs.LearnedSets.{AreThere, MeetsNeed, learning_modulus};
ghost use Rattle.learn_phase.specs.Answers.{FitsJob, Tells};

use crate::RESIDUE_LIMIT;
use crate::error::LearnError;
use crate::graphs::learn_graph;
use graph_eval::{Learned, main_graph};
use graph_file::{Job, Need, Source, Special};
use ray_grid::size;
use std::alloc::Global;

/// Whether so many points and outputs have at most [`RESIDUE_LIMIT`] residues together.
fn are_few(points: usize, outputs: usize) -> bool
    ensures { IsTrue result ↔ (points * outputs ≤ 1048576) }
{
    match points.checked_mul(outputs) {
        Some(residues) => residues <= RESIDUE_LIMIT,
        None => false,
    }
}

/// Whether each output that has bounds of its own is there.
fn are_there(outputs: usize, special: &[Special]) -> bool
    ensures { IsTrue result ↔ AreThere outputs special.now }
{
    special.iter().all(|own| own.output as usize <= outputs)
}

/// How many points an attempt over the job's grid has.
fn attempt_points(job: &Job) -> usize
    requires { job.now.all ≢ None }
    ensures { result ≡ point_count (grid_of (form job.now)) }
{
    let Some(count) = size(&job.grid()) else {
        unreachable!()
    };
    count as usize
}

/// Whether the job's own rule on its output holds.
fn meets_need(job: &Job, outputs: usize) -> bool
    ensures { IsTrue result ↔ MeetsNeed job.now.need (form job.now) outputs }
{
    match job.need {
        Need::Points => are_few(job.points.len(), outputs),
        Need::Learning => true,
        Need::Functions => {
            are_few(attempt_points(job), outputs) && are_there(outputs, job.special.as_slice())
        }
    }
}

/// The node of a graph's output, 0 where the output is the input.
fn output_node(output: Source) -> u32
    ensures { result ≡ spec.output_node output }
{
    match output {
        Source::Input => 0,
        Source::Node(node) => node,
    }
}

/// Learns the graphs of a job in the order of the file, modulo 2^61 - 1, and tests the job's own rule on the output of the
/// main graph.
///
/// # Errors
///
/// [`LearnError::Length`] at the first graph that has a node whose length breaks a rule, at the first of its learning
/// points where it isn't without a value; or, where all graphs are learned, with the output of the main graph where there
/// would be more than [`RESIDUE_LIMIT`] residues at all points together, which for functions are the points of an attempt, or
/// where an output has bounds that isn't there. [`LearnError::NoLearningPoint`] at the first graph without a value at each of
/// its learning points.
pub fn learn(alloc: Global, job: &Job) -> Result<Learned, LearnError>
    ensures told { IsPrime learning_modulus → Tells job.now.need (form job.now) result }
    ensures fits { FitsJob job.now.need (form job.now) result }
{
    let count = job.graphs.len() as u32;
    let mut learned = Learned::new(alloc);
    for graph in 0..count {
        let entry = learn_graph(alloc, job, &learned, graph)?;
        learned.add(entry)?;
    }
    if !meets_need(job, learned.outputs()) {
        return Err(LearnError::Length {
            graph: count - 1,
            node: output_node(main_graph(job).output),
        });
    }
    Ok(learned)
}
