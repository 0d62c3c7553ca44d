//! Polynomials over residues, and the points at which they are taken.
#![tactic(auto)]

mod bound;
mod degrees;
mod enumeration;
mod fraction;
mod laws;
mod mono;
mod monomial_plan;
mod moving;
mod pair;
mod point;
mod poly;
mod powers;
mod quotient;
mod rational;
mod ray;
mod shift;
mod term_list;

pub use bound::{Bound, Bounds};
pub use degrees::{product_degrees, product_degrees_at_most};
pub use enumeration::monomials;
pub use fraction::Frac;
pub use laws::{
    coefficients_pin, congruent_values, cross_equality, entries_pin, fractions_pin,
    leading_is_greatest, members_pin, product_value, sums, within_by_degrees,
};
pub use mono::Mono;
pub use monomial_plan::MonomialPlan;
pub use moving::{moved_degrees, moved_there_and_back, moved_value, ray_value};
pub use pair::Pair;
pub use point::Point;
pub use poly::Poly;
pub use quotient::Quotient;
pub use rational::RatPoly;

/// Memory ran out.
pub type NoMemory = std::alloc::AllocError;

#[cfg(test)]
mod tests {
    use super::Point;

    fn crosses<T: Send + Sync>() -> bool {
        true
    }

    #[test]
    fn points_give_their_entries_and_cross_threads(rt: HostRuntime) {
        let one = [2_305_843_009_213_693_950];
        assert_eq!(rt; Point::of(&one).entries(), one.as_slice());
        let eight = [1, 2, 3, 4, 5, 6, 7, 8];
        assert_eq!(rt; Point::of(&eight).entries(), eight.as_slice());
        assert!(rt; crosses::<Point>());
    }
}
