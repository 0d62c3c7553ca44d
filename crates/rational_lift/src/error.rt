use crate::Part;
use poly_maps::Mono;
use std::alloc::AllocError;
use thiserror::Error;

/// Why two pairs have no quotient.
#[derive(Clone, Copy, PartialEq, Eq, Debug, Error)]
pub enum LiftError {
    /// The denominators lead with different monomials.
    #[error("the denominators lead with different monomials")]
    Unlike {
        lead1: Mono,
        lead2: Mono,
    },
    /// No fraction within the bounds leaves both coefficients at this monomial. They are joined to `residue`.
    #[error("no fraction within the bounds has residue {residue}")]
    NoRational {
        part: Part,
        mono: Mono,
        residue: u128,
    },
    /// There was no memory left.
    #[error("no memory")]
    NoMemory,
}

impl From<AllocError> for LiftError {
    ghost use Rattle.std.specs.Prelude.{◌≡◌};
    ghost use Rattle.rational_lift.specs.declared.error.LiftError.TheVariants.{NoMemory};

    ghost from_gives = { λ _ error. error ≡ NoMemory };

    fn from(_error: AllocError) -> LiftError {
        LiftError::NoMemory
    }
}
