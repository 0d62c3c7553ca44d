//! Systems of sparse rows that are solved at many points.
//!
//! The rows of a [`SparsePlan`] say in which columns they have values, and the values come with each point. At one point the
//! plan learns which unknowns are independent, and in which order the rows are best taken. At each further point all rows
//! count, also those that followed from others where it learned.
#![tactic(auto)]

mod absorption;
mod learned;
mod order;
mod packed;
mod plan;
mod replay;
mod search;
mod steps;
mod vectors;

pub use plan::{NoMemory, SparsePlan};

#[cfg(test)]
mod tests;
