//! Reads the file that describes graphs of numerical nodes and the points at which to evaluate them.
#![tactic(auto)]

mod asked;
mod bounds;
mod depth;
mod error;
mod exprs;
mod faults;
mod graph;
mod job;
mod kind;
mod laws;
mod line;
mod lines;
mod needed;
mod numbers;
mod patterns;
mod read;
mod reader;
mod table;
#[cfg(test)]
mod tests;
mod whole;

pub use error::{FileError, FileKind};
pub use graph::{Graph, Node, NodeKind, Source};
pub use job::{Job, Need, Special};
pub use laws::{no_fault, one_fault, one_form, said_bounds, said_grid, said_names};
pub use needed::sources_of;
pub use read::read_graphs;
