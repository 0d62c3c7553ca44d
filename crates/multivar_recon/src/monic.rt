//! Pairs with 1 as the denominator's leading coefficient.

ghost use Rattle.std.specs.Prelude.{◌≡◌, ◌≢◌, ℕ, ◌*◌, ◌%◌, ◌<◌, List, [], IfNone, IfOk, IfSome};
ghost use Rattle.prime_field.specs.Modulus.{value_of};
ghost use Rattle.prime_field.specs.Residue.{IsPrime};
ghost use Rattle.poly_maps.specs.Polynomial.{coefficient, AreResidues, IsPolynomial};
ghost use Rattle.multivar_recon.specs.Least.{IsPairModulo};
ghost use Rattle.multivar_recon.specs.Rays.{IsMonicMultiple};

use crate::NoMemory;
use poly_maps::{Pair, Poly};
use prime_field::Modulus;
use std::alloc::Global;

/// The pair times the inverse of its denominator's leading coefficient. None where that is no unit.
pub(crate) fn monic(alloc: Global, m: Modulus, pair: &Pair) -> Result<Option<Pair>, NoMemory>
    requires modulo { IsPairModulo (value_of m) pair.now }
    requires some { pair.now.den ≢ [] }
    ensures multiple { IfOk result (λ found. IfSome found (λ g. (c : ℕ) × IsMonicMultiple (value_of m) c pair.now g)) }
    ensures none { IfOk result (λ found. IfNone found (IsPrime (value_of m) → ⊥)) }
{
    let (_, leading) = pair.den.terms()[0];
    let Some(inverse) = m.inv(leading) else {
        return Ok(None);
    };
    let num = multiple(alloc, m, &pair.num, inverse)?;
    let den = multiple(alloc, m, &pair.den, inverse)?;
    Ok(Some(Pair { num, den }))
}

/// The polynomial times a residue.
fn multiple(alloc: Global, m: Modulus, poly: &Poly, factor: u64) -> Result<Poly, NoMemory>
    requires residues { AreResidues (value_of m) poly.now }
    requires factor { factor < value_of m }
    ensures coefficients { IfOk result (λ p. (e : List ℕ) → coefficient e p ≡ (factor * coefficient e poly.now) % value_of m) }
    ensures residues { IfOk result (AreResidues (value_of m)) }
    ensures polynomial { IfOk result IsPolynomial }
{
    let mut terms = Vec::new(alloc);
    for term in poly.terms() {
        terms.push((term.0, m.mul(term.1, factor)))?;
    }
    Poly::from_terms(m, terms)
}
