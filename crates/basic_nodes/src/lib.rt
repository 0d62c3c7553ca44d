//! The plain nodes of a graph: their values on slices of residues, and the lengths of their lists.
//!
//! A node's list is made in place from the lists that it names. No call allocates.
#![tactic(auto)]

mod lengths;
mod lists;
mod matrix;

pub use lengths::{LengthError, NodeShape, length_of};
pub use lists::{chain_into, product_into, slice, sum_into, take};
pub use matrix::matmul;

#[cfg(test)]
mod tests;
