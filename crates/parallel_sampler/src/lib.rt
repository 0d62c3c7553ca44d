//! What a job's main graph has at one point after another, in rows.
//!
//! [`sample`] evaluates the main graph at points by the workers of a [`Crew`], and keeps a row for each point: the values of its
//! outputs, or the first node without a value. The workers draw numbers of blocks from a [`Board`], each number once, in as many
//! threads as there are workers where threads can be made, and by [`work`] each of them fills the rows of the blocks that it drew, in
//! a [`Table`] of its own. Then the rows are put together, so that they are the same for every number of workers and in whatever
//! order they drew.
#![tactic(auto)]

mod board;
mod crew;
mod gate;
mod laws;
mod row;
mod running;
mod samples;
mod sampling;
mod table;
mod working;

pub use board::{Board, BoardSeat};
pub use crew::Crew;
pub use gate::{Gate, OpenGate};
pub use laws::{draws_are_a_schedule, one_table};
pub use samples::Samples;
pub use sampling::sample;
pub use table::Table;
pub use working::work;

/// Memory ran out.
pub type NoMemory = std::alloc::AllocError;

#[cfg(test)]
mod tests;
