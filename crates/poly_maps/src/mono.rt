ghost use Rattle.std.specs.Prelude.{◌≡◌, ◌+◌, ◌<◌, ◌≤◌, slice_index};
ghost use Rattle.std.proofs.Common.{rules};
ghost use Rattle.std.specs.Cmp.{partial_order_from_own_ties};
ghost use Rattle.std.specs.Cmp.Rules.{comparing};
ghost use Rattle.std.specs.Ordering.{as_partial_cmp};
ghost use Rattle.poly_maps.specs.Mono.{degree, mono_cmp, mono_product, HasEight};

use std::cmp::Ordering;
use std::marker::Model;

/// A monomial in eight variables: the exponent of each.
#[derive(Clone, Copy, PartialEq, Eq, Debug)]
pub struct Mono {
    exponents: [u16; 8],
}

impl Model for Mono {
    ghost use Rattle.std.specs.Prelude.{ℕ, List};

    ghost Value = { List ℕ };

    ghost view = { λ m. m.exponents };

    ghost inverse = { λ e. record { exponents = e } };
}

impl Mono {
    /// The monomial with these exponents, the first variable's first.
    pub fn new(exponents: [u16; 8]) -> Mono
        ensures { result ≡ exponents }
    {
        Mono { exponents }
    }

    /// The exponent of the variable `i`, counted from 0.
    pub fn exponent(&self, i: usize) -> u16
        requires { i < 8 }
        ensures { result ≡ slice_index self.now i }
    {
        self.exponents[i]
    }

    /// All exponents.
    pub fn exponents(&self) -> &[u16; 8]
        ensures same { result.now ≡ self.now }
        ensures eight { HasEight self.now }
    {
        &self.exponents
    }

    /// The total degree: the sum of the exponents.
    pub fn total(&self) -> u32
        ensures { result ≡ degree self.now }
    {
        let mut total = 0;
        for i in 0..8 {
            total += self.exponents[i] as u32;
        }
        total
    }

    /// The product of two monomials, whose exponents add up.
    pub(crate) fn times(&self, other: &Mono) -> Mono
        requires { degree self.now + degree other.now < 65536 }
        ensures { result ≡ mono_product self.now other.now }
    {
        let mut exponents = self.exponents;
        for i in 0..8 {
            exponents[i] += other.exponents[i];
        }
        Mono { exponents }
    }
}

impl Ord for Mono {
    ghost cmp = { mono_cmp };

    ghost total = { Prim.search (comparing, rules) };

    ghost matches_partial_cmp = { Prim.search (comparing, rules) };

    ghost matches_eq = { Prim.search (comparing, rules) };

    fn cmp(&self, other: &Mono) -> Ordering {
        self.total()
            .cmp(&other.total())
            .then(self.exponents.cmp(&other.exponents))
    }
}

impl PartialOrd for Mono {
    ghost partial_cmp = { as_partial_cmp mono_cmp };

    ghost laws = { partial_order_from_own_ties (Prim.search (comparing, rules)) (Prim.search (comparing, rules)) };

    fn partial_cmp(&self, other: &Mono) -> Option<Ordering> {
        Some(self.cmp(other))
    }
}
