//! Polynomials whose coefficients are fractions, kept as lists of terms whose monomials descend.

ghost use Rattle.std.specs.Prelude.{◌≡◌, ℕ, List, [], ◌∷◌, ◌++◌, if◌then◌else◌, Some, None, OnOk, OnErr};
ghost use Rattle.poly_maps.specs.Fraction.{IsFraction, IsRational, fraction_at};
ghost use Rattle.poly_maps.specs.Mono.{is_same};
ghost use Rattle.poly_maps.specs.Polynomial.{AreAbove};

use crate::{Frac, Mono, NoMemory, term_list};
use std::alloc::Global;
use std::marker::Model;

/// A polynomial in eight variables over the rational numbers: a finite map from monomials to fractions in lowest terms
/// that aren't zero.
///
/// It is seen as the list of its terms, the monomials descending.
#[derive(Drop)]
pub struct RatPoly {
    terms: Vec<(Mono, Frac)>,
}

impl Model for RatPoly {
    ghost use Rattle.std.specs.Prelude.{ℕ, List};
    ghost use Rattle.poly_maps.specs.declared.fraction.Frac.{Frac};
    ghost use Rattle.poly_maps.specs.Fraction.{IsRational};

    ghost Value = { List (List ℕ × Frac) };

    ghost view = { λ p. p.terms.items };

    ghost invariant = { λ p. IsRational p.terms.items };
}

impl RatPoly {
    /// The zero polynomial. What it grows by is taken from `alloc`.
    pub fn zero(alloc: Global) -> RatPoly
        ensures { result ≡ [] }
    {
        RatPoly {
            terms: Vec::new(alloc),
        }
    }

    /// Puts the fraction `f` at a monomial that isn't in the map. Where memory runs out, the polynomial stays as it was.
    pub fn add_term(&mut self, mono: Mono, f: Frac) -> Result<(), NoMemory>
        requires absent { fraction_at mono self.old ≡ None }
        requires fraction { IsFraction f }
        ensures ok { OnOk result ((e : List ℕ) → fraction_at e self.new ≡ (if is_same mono e then Some f else fraction_at e self.old)) }
        ensures last { OnOk result (AreAbove mono self.old → self.new ≡ self.old ++ (mono, f) ∷ []) }
        ensures rational { IsRational self.new }
        ensures err { OnErr result (self.new ≡ self.old) }
    {
        // A monomial has eight exponents; the invariant of the terms asks it.
        let _exponents = mono.exponents();
        if let Err(place) = term_list::place(&self.terms, &mono) {
            self.terms.insert(place, (mono, f))?;
        }
        Ok(())
    }

    /// The whole map as a list, the monomials descending.
    pub fn terms(&self) -> &[(Mono, Frac)]
        ensures same { result.now ≡ self.now }
        ensures rational { IsRational self.now }
    {
        &self.terms
    }
}
