//! Why graphs can't be learned.

use graph_eval::Singular;
use std::alloc::AllocError;
use thiserror::Error;

/// Why a job's graphs can't be learned. Graphs and nodes are told by their places, counted from 0.
#[derive(Debug, Drop, Error)]
pub enum LearnError {
    /// A graph has a node without a value at each of its learning points: the first one at each, in order.
    #[error("graph {graph} has no learning point")]
    NoLearningPoint { graph: u32, first: [Singular; 8] },
    /// The length of a node's list breaks a rule. Where it is the job's own rule on the output, the main graph and the
    /// output's node are told, and node 0 where the output is the input.
    #[error("the length of node {node} of graph {graph} breaks a rule")]
    Length { graph: u32, node: u32 },
    #[error("no memory")]
    NoMemory,
}

impl From<AllocError> for LearnError {
    ghost use Rattle.std.specs.Prelude.{◌≡◌};
    ghost use Rattle.learn_phase.specs.declared.error.LearnError.TheVariants.{NoMemory};

    ghost from_gives = { λ _ e. e ≡ NoMemory };

    fn from(_error: AllocError) -> LearnError {
        LearnError::NoMemory
    }
}
