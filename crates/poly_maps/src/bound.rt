ghost use Rattle.std.specs.Prelude.{◌↔◌, IsTrue};
ghost use Rattle.poly_maps.specs.Bound.{WithinBound};
ghost use Rattle.poly_maps.specs.Mono.{IsBelow};

use crate::Mono;

/// A bound on degrees: the greatest total degree, and the greatest degree in each variable.
#[derive(Clone, Copy, PartialEq, Eq, Debug)]
pub struct Bound {
    pub total: u32,
    pub each: [u32; 8],
}

impl Bound {
    /// Whether the monomial's total degree and each exponent are within the bound.
    pub fn contains(&self, mono: &Mono) -> bool
        ensures { IsTrue result ↔ WithinBound self.now mono.now }
    {
        mono.total() <= self.total && are_below(mono.exponents(), &self.each)
    }
}

/// Whether each exponent is at most the entry of `each` at its place.
fn are_below(exponents: &[u16; 8], each: &[u32; 8]) -> bool
    ensures { IsTrue result ↔ IsBelow exponents.now each.now }
{
    for i in 0..8 {
        if exponents[i] as u32 > each[i] {
            return false;
        }
    }
    true
}

/// The bounds of a numerator and of a denominator.
#[derive(Clone, Copy, PartialEq, Eq, Debug)]
pub struct Bounds {
    pub num: Bound,
    pub den: Bound,
}
