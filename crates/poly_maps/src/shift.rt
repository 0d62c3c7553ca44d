//! Polynomials taken at moved points: the powers of the variables are expanded, one variable after the other.

ghost use Rattle.std.specs.Prelude.{◌≡◌, ℕ, ◌*◌, ◌%◌, ◌<◌, ◌≤◌, List, [], ◌∷◌, ◌++◌, length, set, take, slice_index, EachIndex, IfOk, OnOk};
ghost use Rattle.prime_field.specs.Modulus.{value_of};
ghost use Rattle.poly_maps.specs.Mono.{HasEight};
ghost use Rattle.poly_maps.specs.Polynomial.{coefficient, value_at, AreResidues, IsPolynomial, Supported};
ghost use Rattle.poly_maps.specs.Moved.{moved, point_sum};
ghost use Rattle.poly_maps.specs.Shifted.{negatives, IsMoved};
ghost use Rattle.poly_maps.specs.Bound.{IsWithin};
ghost use Rattle.poly_maps.specs.declared.bound.Bound.{Bound};
ghost use Rattle.poly_maps.specs.Expansion.{residues, times_sum, power_row, spread, alone, IsPowerRow, AreMoved};

use crate::{Mono, NoMemory, Point, Poly};
use prime_field::Modulus;
use std::alloc::Global;

/// The monomial with another exponent of the variable `i`.
fn with_exponent(mono: &Mono, i: usize, exponent: u16) -> Mono
    requires { i < 8 }
    ensures { result ≡ set mono.now i exponent }
{
    let mut exponents = *mono.exponents();
    exponents[i] = exponent;
    Mono::new(exponents)
}

/// Multiplies the polynomial in one variable x with these coefficients, the lowest first, by `x + a`. The answer is the
/// highest coefficient of the product, for which the slice has no place.
fn multiply_by_sum(m: Modulus, row: &mut [u64], a: u64) -> u64
    requires residue { a < value_of m }
    requires residues { EachIndex row.old (λ k. slice_index row.old k < value_of m) }
    ensures product { row.new ++ result ∷ [] ≡ residues (value_of m) (times_sum a 0 row.old) }
{
    let mut below = 0;
    for entry in row.iter_mut() {
        let own = *entry;
        *entry = m.add(below, m.mul(a, own));
        below = own;
    }
    below
}

/// Makes of the coefficients of some power of `x + a` those of the power `k`.
fn raise(m: Modulus, row: &mut Vec<u64>, a: u64, k: usize) -> Result<(), NoMemory>
    requires residue { a < value_of m }
    requires row { IsPowerRow (value_of m) a row.old.items }
    requires few { k < 65536 }
    ensures { OnOk result (row.new.items ≡ residues (value_of m) (power_row a k)) }
{
    if row.len() > k + 1 {
        row.clear();
        row.push(1)?;
    }
    while row.len() <= k {
        let highest = multiply_by_sum(m, row, a);
        row.push(highest)?;
    }
    Ok(())
}

/// Appends the terms that have the entries of the row, times the term's coefficient, where the variable `i` has the
/// exponents 0, 1 and so on.
fn push_spread(
    m: Modulus,
    term: &(Mono, u64),
    i: usize,
    row: &[u64],
    out: &mut Vec<(Mono, u64)>,
) -> Result<(), NoMemory>
    requires place { i < 8 }
    requires residue { term.now.1 < value_of m }
    requires residues { EachIndex row.now (λ k. slice_index row.now k < value_of m) }
    requires few { length row.now ≤ 65536 }
    ensures { OnOk result (out.new.items ≡ out.old.items ++ spread (λ r. (term.now.1 * r) % value_of m) term.now.0 i 0 row.now) }
{
    for (j, r) in row.iter().enumerate() {
        out.push((with_exponent(&term.0, i, j as u16), m.mul(term.1, *r)))?;
    }
    Ok(())
}

/// The terms of the polynomial with these terms, moved by `a` in the variable `i`. A monomial may come more than once.
fn moved_terms(
    alloc: Global,
    m: Modulus,
    terms: &[(Mono, u64)],
    i: usize,
    a: u64,
) -> Result<Vec<(Mono, u64)>, NoMemory>
    requires place { i < 8 }
    requires residue { a < value_of m }
    requires residues { AreResidues (value_of m) terms.now }
    requires eight { Supported HasEight terms.now }
    ensures { IfOk result (λ new. AreMoved (value_of m) i a terms.now new.items) }
{
    let mut out = Vec::new(alloc);
    let mut row = Vec::new(alloc);
    row.push(1)?;
    for n in (0..terms.len()).rev() {
        let term = &terms[n];
        raise(m, &mut row, a, term.0.exponent(i) as usize)?;
        push_spread(m, term, i, &row, &mut out)?;
    }
    Ok(out)
}

/// The polynomial moved by `a` in the variable `i`.
fn moved_in(poly: Poly, m: Modulus, i: usize, a: u64) -> Result<Poly, NoMemory>
    requires place { i < 8 }
    requires residue { a < value_of m }
    requires residues { AreResidues (value_of m) poly }
    ensures coefficients { IfOk result (λ p. (e : List ℕ) → coefficient e p ≡ coefficient e (moved (alone i a) poly) % value_of m) }
    ensures residues { IfOk result (AreResidues (value_of m)) }
{
    let terms = poly.terms();
    if a == 0 {
        return Ok(poly);
    }
    Poly::from_terms(m, moved_terms(poly.allocator(), m, terms, i, a)?)
}

/// The polynomial with these terms, taken at `x + s`. Where `s` has fewer entries than there are variables, the missing
/// ones are 0.
pub(crate) fn moved_by(
    alloc: Global,
    m: Modulus,
    terms: &[(Mono, u64)],
    s: &[u64],
) -> Result<Poly, NoMemory>
    requires places { length s.now ≤ 8 }
    requires point { EachIndex s.now (λ k. slice_index s.now k < value_of m) }
    requires polynomial { IsPolynomial terms.now }
    requires residues { AreResidues (value_of m) terms.now }
    ensures { IfOk result (IsMoved (value_of m) s.now terms.now) }
{
    let mut moved = Poly::from_terms(m, Vec::from_slice(alloc, terms)?)?;
    for (i, a) in s.iter().enumerate() {
        moved = moved_in(moved, m, i, *a)?;
    }
    let _terms = moved.terms();
    Ok(moved)
}

/// The residues whose sums with the entries are 0, in the first places.
fn negated(m: Modulus, entries: &[u64]) -> [u64; 8]
    requires places { length entries.now ≤ 8 }
    requires residues { EachIndex entries.now (λ k. slice_index entries.now k < value_of m) }
    ensures { take (length entries.now) result ≡ negatives (value_of m) entries.now }
{
    let mut all = [0; 8];
    for (i, a) in entries.iter().enumerate() {
        all[i] = m.neg(*a);
    }
    all
}

impl Poly {
    /// The polynomial of `x - s`. Where `s` has fewer entries than there are variables, the missing ones are 0.
    pub fn shift_back(&self, m: Modulus, s: &Point) -> Result<Poly, NoMemory>
        requires { AreResidues (value_of m) self.now }
        ensures coefficients { IfOk result (λ p. (e : List ℕ) → coefficient e p ≡ coefficient e (moved (negatives (value_of m) s.now) self.now) % value_of m) }
        ensures residues { IfOk result (AreResidues (value_of m)) }
        ensures polynomial { IfOk result IsPolynomial }

        // What follows from the coefficients: the values, the degrees, and the way back.
        ensures value { IfOk result (λ p. (y : List ℕ) → value_at p y % value_of m ≡ value_at self.now (point_sum y (negatives (value_of m) s.now)) % value_of m) }
        ensures degrees { IfOk result (λ p. (b : Bound) → IsWithin b self.now → IsWithin b p) }
        ensures back { IfOk result (λ p. (e : List ℕ) → coefficient e (moved s.now p) % value_of m ≡ coefficient e self.now) }
    {
        let entries = s.entries();
        let negatives = negated(m, entries);
        moved_by(
            self.allocator(),
            m,
            self.terms(),
            &negatives[..entries.len()],
        )
    }
}

#[cfg(test)]
mod tests {
    use super::*;
    use std::test::Fail;

    /// `x^i * y^j`
    fn power(i: u16, j: u16) -> Mono {
        Mono::new([i, j, 0, 0, 0, 0, 0, 0])
    }

    #[test]
    fn terms_of_a_moved_polynomial_at_both_moduli(rt: HostRuntime) -> Result<(), Fail> {
        for m in [Modulus::first(), Modulus::second()] {
            // x^2*y becomes (x - 1)^2 * (y - 2).
            let mut poly = Poly::zero(rt.alloc());
            poly.add_term(m, power(2, 1), 1)?;
            let shifted = poly.shift_back(m, &Point::of(&[1, 2]))?;
            let minus_two = m.value() - 2;
            let wanted = [
                (power(2, 1), 1),
                (power(2, 0), minus_two),
                (power(1, 1), minus_two),
                (power(1, 0), 4),
                (power(0, 1), 1),
                (power(0, 0), minus_two),
            ];
            assert_eq!(rt; shifted.terms(), wanted.as_slice());
        }
        Ok(())
    }

    #[test]
    fn variables_past_the_point_stay(rt: HostRuntime) -> Result<(), Fail> {
        let m = Modulus::first();
        let mut poly = Poly::zero(rt.alloc());
        poly.add_term(m, power(0, 3), 7)?;
        let shifted = poly.shift_back(m, &Point::of(&[5]))?;
        assert_eq!(rt; shifted.terms(), poly.terms());
        Ok(())
    }
}
