use crate::{Bounds, Poly};

/// A numerator and a denominator.
#[derive(Drop)]
pub struct Pair {
    pub num: Poly,
    pub den: Poly,
}

impl Pair {
    ghost use Rattle.std.specs.Prelude.{◌↔◌, IsTrue};
    ghost use Rattle.poly_maps.specs.Pair.{WithinBounds};

    /// Whether the denominator isn't zero and both parts are within their bounds.
    pub fn within(&self, bounds: &Bounds) -> bool
        ensures { IsTrue result ↔ WithinBounds bounds.now self.now }
    {
        self.den.leading().is_some() && self.num.within(&bounds.num) && self.den.within(&bounds.den)
    }
}
