//! Learning one graph.

ghost use Rattle.std.specs.Prelude.{◌≡◌, ◌<◌, length, slice_get, Some};
ghost use Rattle.prime_field.specs.Residue.{IsPrime};
ghost use Rattle.graph_file.specs.declared.graph.Graph.{Graph as GraphOf};
ghost use Rattle.graph_eval.specs.Learned.{FitsFirst};
ghost use Rattle.learn_phase.specs.LearnedSets.{learning_modulus};
ghost use Rattle.learn_phase.specs.Answers.{FitsAnswer, TellsGraph};

use crate::error::LearnError;
use crate::solvers::learn_at_points;
use graph_eval::{Fresh, GraphLearned, Learned, has_solver, lengths_of};
use graph_file::Job;
use std::alloc::Global;

/// Learns the graph with this number, counted from 0, over what was learned of those before it.
pub(crate) fn learn_graph(
    alloc: Global,
    job: &Job,
    learned: &Learned,
    graph: u32,
) -> Result<GraphLearned, LearnError>
    requires there { graph < length job.now.graphs }
    requires before { FitsFirst job.now.graphs learned.now graph }
    ensures told { (this : GraphOf) → slice_get job.now.graphs graph ≡ Some this → IsPrime learning_modulus → TellsGraph (record { graphs = job.now.graphs; learned = learned.now; number = graph }) this result }
    ensures fits { (this : GraphOf) → slice_get job.now.graphs graph ≡ Some this → FitsAnswer (record { graphs = job.now.graphs; learned = learned.now; number = graph }) this result }
{
    if has_solver(&job.graphs.as_slice()[graph as usize]) {
        return learn_at_points(alloc, job, learned, graph);
    }
    match lengths_of(alloc, job, learned, graph)? {
        Fresh::Learned(entry) => Ok(entry),
        Fresh::Length { node } => Err(LearnError::Length { graph, node }),
        Fresh::Singular(_) => unreachable!(),
    }
}
