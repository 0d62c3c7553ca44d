//! Pairs of polynomials that agree with samples.
#![tactic(auto)]

mod assembly;
mod by_rays;
mod laws;
mod monic;
mod pairs;
mod ray_frame;
mod ray_laws;
mod ray_tables;
mod vectors;

pub use by_rays::{Method, least, rays};
pub use laws::{agreeing_pairs_are_cross_equal, least_pair_leads_least, one_least_pair};
pub use pairs::{fit, fit_points};
pub use ray_laws::{
    agreeing_is_multiple_on_rays, conditions_tell_regular_rays, regular_pair_agrees,
    regular_pair_is_least,
};

/// Memory ran out.
pub type NoMemory = std::alloc::AllocError;

#[cfg(test)]
mod ray_tests;
#[cfg(test)]
mod tests;
