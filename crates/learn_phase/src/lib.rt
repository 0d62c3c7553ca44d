//! What is learned of a file's graphs before they are evaluated.
//!
//! [`learn`] takes the graphs in the order of the file. A graph none of whose needed nodes solves a system is learned by
//! the rules on lengths alone; any other tries its learning points 0 to 7 in turn, and takes the first at which no node
//! fails.
#![tactic(auto)]

mod error;
mod graphs;
mod job;
mod laws;
mod points;
mod solvers;

pub use error::LearnError;
pub use job::learn;
pub use laws::one_lesson;
pub use points::learning_point;

/// How many learning points a graph has.
pub const LEARNING_POINTS: u32 = 8;

/// The most residues that are asked for at all points together.
pub const RESIDUE_LIMIT: usize = 1_048_576;

#[cfg(test)]
mod tests;
