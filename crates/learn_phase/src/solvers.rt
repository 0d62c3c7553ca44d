//! Learning a graph whose value needs a solver, at its learning points.

ghost use Rattle.std.specs.Prelude.{◌≡◌, ◌<◌, ◌≤◌, length, slice_get, Some, true};
ghost use Rattle.prime_field.specs.Residue.{IsPrime};
ghost use Rattle.graph_file.specs.declared.graph.Graph.{Graph as GraphOf};
ghost use Rattle.graph_eval.specs.Learned.{FitsFirst, has_solver};
ghost use Rattle.learn_phase.specs.LearnedSets.{learning_modulus};
ghost use Rattle.learn_phase.specs.Answers.{FitsAnswer, FitsPoint, TellsGraph, TellsPoint};

use crate::LEARNING_POINTS;
use crate::error::LearnError;
use crate::points::learning_point;
use graph_eval::{Cause, Fresh, GraphLearned, Learned, Singular, fresh_point};
use graph_file::Job;
use prime_field::Modulus;
use std::alloc::Global;

/// How many variables the graph with this number has.
fn variables_of(job: &Job, graph: u32) -> u32
    requires { graph < length job.now.graphs }
    ensures counted { (this : GraphOf) → slice_get job.now.graphs graph ≡ Some this → result ≡ length this.inputs }
    ensures some { 1 ≤ result }
    ensures few { result ≤ 8 }
{
    job.graphs.as_slice()[graph as usize].inputs.len() as u32
}

/// What a graph gives at its learning point `q`: what is learned of it there, or the first node that fails, which has no
/// value.
fn learn_at(
    alloc: Global,
    job: &Job,
    learned: &Learned,
    graph: u32,
    q: u32,
) -> Result<Result<GraphLearned, Singular>, LearnError>
    requires there { graph < length job.now.graphs }
    requires before { FitsFirst job.now.graphs learned.now graph }
    requires numbered { q < 8 }
    ensures told { (this : GraphOf) → slice_get job.now.graphs graph ≡ Some this → IsPrime learning_modulus → TellsPoint (record { graphs = job.now.graphs; learned = learned.now; number = graph }) this q result }
    ensures fits { (this : GraphOf) → slice_get job.now.graphs graph ≡ Some this → FitsPoint (record { graphs = job.now.graphs; learned = learned.now; number = graph }) this result }
{
    let point = learning_point(variables_of(job, graph), q);
    match fresh_point(alloc, job, learned, graph, Modulus::First, &point)? {
        Fresh::Learned(entry) => Ok(Ok(GraphLearned {
            point: Some(q),
            ..entry
        })),
        Fresh::Singular(singular) => Ok(Err(singular)),
        Fresh::Length { node } => Err(LearnError::Length { graph, node }),
    }
}

/// Learns a graph with a solver at its first learning point where it has a value.
pub(crate) fn learn_at_points(
    alloc: Global,
    job: &Job,
    learned: &Learned,
    graph: u32,
) -> Result<GraphLearned, LearnError>
    requires there { graph < length job.now.graphs }
    requires before { FitsFirst job.now.graphs learned.now graph }
    requires solver { (this : GraphOf) → slice_get job.now.graphs graph ≡ Some this → has_solver this ≡ true }
    ensures told { (this : GraphOf) → slice_get job.now.graphs graph ≡ Some this → IsPrime learning_modulus → TellsGraph (record { graphs = job.now.graphs; learned = learned.now; number = graph }) this result }
    ensures fits { (this : GraphOf) → slice_get job.now.graphs graph ≡ Some this → FitsAnswer (record { graphs = job.now.graphs; learned = learned.now; number = graph }) this result }
{
    let unset = Singular {
        node: 0,
        cause: Cause::Division,
    };
    let mut first = [unset; LEARNING_POINTS as usize];
    for q in 0..LEARNING_POINTS {
        match learn_at(alloc, job, learned, graph, q)? {
            Ok(entry) => return Ok(entry),
            Err(singular) => first[q as usize] = singular,
        }
    }
    Err(LearnError::NoLearningPoint { graph, first })
}
