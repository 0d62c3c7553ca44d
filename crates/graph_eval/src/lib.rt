//! The value of a file's main graph at a point, on lists whose lengths were learned before.
//!
//! [`lengths_of`] gives the lengths of a graph's lists from the rules of its nodes alone, and [`fresh_point`] those of a
//! graph that solves systems, with the unknowns by which each system tells the others at a point. A [`Worker`] writes the
//! main graph's output at one point after another, in one block of [`words_needed`] words that is taken when it is made.
#![tactic(auto)]

mod evaluation;
mod expansion;
mod frames;
mod fresh;
mod kinds;
mod laws;
mod learned;
mod lengths;
mod memos;
mod needs;
mod outcome;
mod own;
mod plain;
mod shapes;
mod systems;
mod worker;

pub use fresh::{Fresh, fresh_point};
pub use laws::{one_fresh, one_length, one_measured, one_outcome, one_set, one_solved};
pub use learned::{GraphLearned, Learned};
pub use lengths::{has_solver, is_solver, lengths_of};
pub use needs::words_needed;
pub use outcome::{Cause, Outcome, Singular};
pub use worker::{Worker, main_graph};

#[cfg(test)]
mod tests;
