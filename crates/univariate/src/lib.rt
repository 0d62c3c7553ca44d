//! Polynomials in one variable over residues, as lists of coefficients, the lowest first.
//!
//! A list may end in zeros: the degree is no part of it. No call allocates.
#![tactic(auto)]

mod lists;
mod zeros;

pub use lists::{add_multiple, fused, multiply_by_root, scale, trimmed_length, value};
pub use zeros::{few_zeros, near_points, one_length, same_values};
