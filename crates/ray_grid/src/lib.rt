//! Points that pin a polynomial in several variables: rays from one place along a grid of directions.
#![tactic(auto)]

mod counting;
mod grid;
mod laws;
mod points;

pub use counting::has_few;
pub use grid::{Grid, size};
pub use laws::{
    attempts_are_forcing, attempts_have_points, count_is_length, vanishing_on_lower_sets,
};
pub use points::attempt;

/// Memory ran out.
pub type NoMemory = std::alloc::AllocError;

#[cfg(test)]
mod tests;
