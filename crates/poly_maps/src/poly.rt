//! Polynomials, kept as lists of terms whose monomials descend.

ghost use Rattle.std.specs.Prelude.{◌≡◌, ℕ, ◌+◌, ◌%◌, ◌<◌, ◌≤◌, ◌↔◌, List, [], if◌then◌else◌, IsTrue, OnOk, OnErr, IfOk};
ghost use Rattle.prime_field.specs.Modulus.{value_of};
ghost use Rattle.poly_maps.specs.Bound.{IsWithin};
ghost use Rattle.poly_maps.specs.Mono.{is_same};
ghost use Rattle.poly_maps.specs.Polynomial.{coefficient, value_at, leading, total_degree, product_of, AreResidues, IsPolynomial};

use crate::powers::Powers;
use crate::{Bound, Mono, NoMemory, Point, term_list};
use prime_field::Modulus;
use std::alloc::Global;
use std::marker::Model;

/// A polynomial in eight variables over residues: a finite map from monomials to residues that aren't zero.
///
/// It is seen as the list of its terms, the monomials descending. Where residues are residues of one modulus or of
/// another is for the caller to know: each call takes the modulus.
#[derive(Drop)]
pub struct Poly {
    terms: Vec<(Mono, u64)>,
}

impl Model for Poly {
    ghost use Rattle.std.specs.Prelude.{ℕ, List};
    ghost use Rattle.poly_maps.specs.Polynomial.{IsPolynomial};

    ghost Value = { List (List ℕ × ℕ) };

    ghost view = { λ p. p.terms.items };

    ghost invariant = { λ p. IsPolynomial p.terms.items };
}

impl Poly {
    /// The zero polynomial. What it grows by is taken from `alloc`.
    pub fn zero(alloc: Global) -> Poly
        ensures { result ≡ [] }
    {
        Poly {
            terms: Vec::new(alloc),
        }
    }

    /// Adds the residue `c` to the coefficient of `mono`. Where memory runs out, the polynomial stays as it was.
    pub fn add_term(&mut self, m: Modulus, mono: Mono, c: u64) -> Result<(), NoMemory>
        requires residues { AreResidues (value_of m) self.old }
        requires residue { c < value_of m }
        ensures sum { OnOk result ((e : List ℕ) → coefficient e self.new ≡ (coefficient e self.old + (if is_same mono e then c else 0)) % value_of m) }
        ensures residues { AreResidues (value_of m) self.new }
        ensures polynomial { IsPolynomial self.new }
        ensures err { OnErr result (self.new ≡ self.old) }
    {
        term_list::add(&mut self.terms, m, mono, c)
    }

    /// The coefficient of `mono`, 0 where it isn't in the map.
    pub fn coefficient(&self, mono: Mono) -> u64
        ensures { result ≡ coefficient mono self.now }
    {
        match term_list::place(&self.terms, &mono) {
            Ok(place) => self.terms[place].1,
            Err(_) => 0,
        }
    }

    /// The whole map as a list, the monomials descending.
    pub fn terms(&self) -> &[(Mono, u64)]
        ensures same { result.now ≡ self.now }
        ensures polynomial { IsPolynomial self.now }
    {
        &self.terms
    }

    /// The greatest monomial, or None for the zero polynomial.
    pub fn leading(&self) -> Option<Mono>
        ensures { result ≡ leading self.now }
    {
        self.terms.first().map(|term| term.0)
    }

    /// The greatest total degree of a term, 0 for the zero polynomial.
    pub fn total_degree(&self) -> u32
        ensures { result ≡ total_degree self.now }
    {
        match self.terms.first() {
            Some(term) => term.0.total(),
            None => 0,
        }
    }

    /// The sum of the terms, which stand in any order and may repeat a monomial. It takes one sort, and
    /// a look-up for each term.
    pub fn from_terms(m: Modulus, mut terms: Vec<(Mono, u64)>) -> Result<Poly, NoMemory>
        requires { AreResidues (value_of m) terms.items }
        ensures sum { IfOk result (λ p. (e : List ℕ) → coefficient e p ≡ coefficient e terms.items % value_of m) }
        ensures residues { IfOk result (AreResidues (value_of m)) }
        ensures polynomial { IfOk result IsPolynomial }
    {
        terms.sort_unstable_by(|a, b| b.0.cmp(&a.0));
        let mut sum = Poly::zero(*terms.allocator());
        for term in &terms {
            sum.add_term(m, term.0, term.1)?;
        }
        // The sum is a polynomial, also where there were no terms.
        let _terms = sum.terms();
        Ok(sum)
    }

    /// The product of two polynomials.
    pub fn product(&self, m: Modulus, other: &Poly) -> Result<Poly, NoMemory>
        requires degrees { total_degree self.now + total_degree other.now ≤ 256 }
        requires left { AreResidues (value_of m) self.now }
        requires right { AreResidues (value_of m) other.now }
        ensures product { IfOk result (λ p. (e : List ℕ) → coefficient e p ≡ coefficient e (product_of self.now other.now) % value_of m) }
        ensures residues { IfOk result (AreResidues (value_of m)) }
        ensures polynomial { IfOk result IsPolynomial }
    {
        let mut products = Vec::new(*self.terms.allocator());
        for term in &self.terms {
            term_list::push_products(&mut products, m, term, &other.terms)?;
        }
        Poly::from_terms(m, products)
    }

    /// The value at a point. Where the point has fewer entries than there are variables, the missing ones are 0.
    pub fn value(&self, m: Modulus, point: &Point) -> u64
        requires { AreResidues (value_of m) self.now }
        ensures value { result ≡ value_at self.now point.now % value_of m }
        ensures residue { result < value_of m }
    {
        let powers = Powers::of(m, point, self.total_degree());
        let mut sum = 0;
        for term in &self.terms {
            sum = m.add(sum, m.mul(term.1, powers.value(&term.0)));
        }
        sum
    }

    /// Whether each term's total degree and degree in each variable are within the bound; so the zero polynomial is
    /// within each.
    pub fn within(&self, bound: &Bound) -> bool
        ensures { IsTrue result ↔ IsWithin bound.now self.now }
    {
        for term in &self.terms {
            if !bound.contains(&term.0) {
                return false;
            }
        }
        true
    }

    /// Where the polynomial takes its memory from.
    pub(crate) fn allocator(&self) -> Global {
        *self.terms.allocator()
    }
}

#[cfg(test)]
mod tests {
    use super::*;
    use crate::{Bounds, Pair};
    use std::test::Fail;

    /// `x^i * y^j`
    fn power(i: u16, j: u16) -> Mono {
        Mono::new([i, j, 0, 0, 0, 0, 0, 0])
    }

    fn crosses<T: Send + Sync>() -> bool {
        true
    }

    #[test]
    fn cross_terms_of_a_product_cancel(rt: HostRuntime) -> Result<(), Fail> {
        for m in [Modulus::first(), Modulus::second()] {
            // (x + y) * (x - y)
            let mut sum = Poly::zero(rt.alloc());
            sum.add_term(m, power(0, 1), 1)?;
            sum.add_term(m, power(1, 0), 1)?;
            let mut difference = Poly::zero(rt.alloc());
            difference.add_term(m, power(1, 0), 1)?;
            difference.add_term(m, power(0, 1), m.value() - 1)?;
            assert_eq!(rt; sum.total_degree(), 1);
            assert_eq!(rt; difference.total_degree(), 1);
            let product = sum.product(m, &difference)?;
            assert_eq!(rt;
                product.terms(),
                [(power(2, 0), 1), (power(0, 2), m.value() - 1)].as_slice()
            );
            assert_eq!(rt; product.coefficient(power(0, 2)), m.value() - 1);
            assert_eq!(rt; product.coefficient(power(1, 1)), 0);
        }
        Ok(())
    }

    #[test]
    fn terms_are_gathered_and_cancelled(rt: HostRuntime) -> Result<(), Fail> {
        let m = Modulus::second();
        let mut terms = Vec::new(rt.alloc());
        terms.push((power(1, 0), 3))?;
        terms.push((power(0, 2), 7))?;
        terms.push((power(1, 0), m.value() - 3))?;
        let mut poly = Poly::from_terms(m, terms)?;
        assert_eq!(rt; poly.leading(), Some(power(0, 2)));
        assert_eq!(rt; poly.total_degree(), 2);
        poly.add_term(m, power(0, 2), m.value() - 7)?;
        assert!(rt; poly.terms().is_empty());
        assert_eq!(rt; poly.leading(), None);
        assert_eq!(rt; poly.total_degree(), 0);
        Ok(())
    }

    #[test]
    fn values_of_low_and_high_powers(rt: HostRuntime) -> Result<(), Fail> {
        // 2^61 leaves 1 modulo the first modulus, and 2^63 leaves 25 modulo the second.
        for (m, high) in [(Modulus::first(), 512), (Modulus::second(), 3200)] {
            let mut poly = Poly::zero(rt.alloc());
            poly.add_term(m, power(70, 0), 1)?;
            poly.add_term(m, power(3, 2), 5)?;
            assert_eq!(rt; poly.value(m, &Point::of(&[2, 3])), high + 360);
            assert_eq!(rt; poly.value(m, &Point::of(&[2])), high);
        }
        Ok(())
    }

    #[test]
    fn pairs_within_their_bounds(rt: HostRuntime) -> Result<(), Fail> {
        let m = Modulus::first();
        let bounds = Bounds {
            num: Bound {
                total: 2,
                each: [1, 2, 0, 0, 0, 0, 0, 0],
            },
            den: Bound {
                total: 1,
                each: [0, 1, 0, 0, 0, 0, 0, 0],
            },
        };
        let mut pair = Pair {
            num: Poly::zero(rt.alloc()),
            den: Poly::zero(rt.alloc()),
        };
        assert!(rt; !pair.within(&bounds));
        pair.den.add_term(m, power(0, 1), 1)?;
        pair.num.add_term(m, power(1, 1), 1)?;
        assert!(rt; pair.within(&bounds));
        pair.num.add_term(m, power(2, 0), 1)?;
        assert!(rt; !pair.within(&bounds));
        assert!(rt; crosses::<Pair>() && crosses::<Bounds>());
        Ok(())
    }
}
