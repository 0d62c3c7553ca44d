//! From a pair of residues at each modulus to a quotient.

ghost use Rattle.std.specs.Prelude.{◌*◌, ◌<◌, ◌≤◌, IfOk, IfErr};
ghost use Rattle.prime_field.specs.Modulus.{value_of};
ghost use Rattle.prime_field.specs.declared.Modulus.TheVariants.{First, Second};
ghost use Rattle.poly_maps.specs.Polynomial.{AreResidues};
ghost use Rattle.rational_lift.specs.Joined.{both};
ghost use Rattle.rational_lift.specs.Lifting.{LiftsTo, Lifted};
ghost use Rattle.rational_lift.specs.Parts.{by_modulus, IsMonic, TellsFault};

use crate::part::lift_part;
use crate::{Coeff, LiftError, Part};
use poly_maps::{Pair, Quotient};
use std::alloc::Global;

/// The quotient within the bounds on coefficients that leaves `p1` at the first modulus and `p2` at the second. There is
/// one at most.
///
/// # Errors
///
/// `Unlike` where the denominators lead with different monomials. Else `NoRational` where no fraction within the bounds
/// leaves both coefficients at some monomial: with the first one, the numerators' monomials descending and then the
/// denominators', and the number that has both as residues. A coefficient that is missing is 0. `NoMemory` where memory
/// runs out.
pub fn lift(alloc: Global, p1: &Pair, p2: &Pair, coeff: &Coeff) -> Result<Quotient, LiftError>
    requires first_num { AreResidues (value_of First) p1.now.num }
    requires first_den { AreResidues (value_of First) p1.now.den }
    requires second_num { AreResidues (value_of Second) p2.now.num }
    requires second_den { AreResidues (value_of Second) p2.now.den }
    requires first_lead { IsMonic p1.now.den }
    requires second_lead { IsMonic p2.now.den }
    requires num { 1 ≤ coeff.now.num }
    requires den { 1 ≤ coeff.now.den }
    requires narrow { 2 * (coeff.now.num * coeff.now.den) < both }
    ensures ok { IfOk result (λ F. LiftsTo coeff.now (by_modulus p1.now p2.now) (Lifted F)) }
    ensures err { IfErr result (TellsFault coeff.now (by_modulus p1.now p2.now)) }
{
    let lead1 = p1.den.leading().unwrap();
    let lead2 = p2.den.leading().unwrap();
    if lead1 != lead2 {
        return Err(LiftError::Unlike { lead1, lead2 });
    }
    // The denominators are polynomials: their monomials descend.
    let _first = p1.den.terms();
    let _second = p2.den.terms();
    let num = lift_part(alloc, Part::Numerator, &p1.num, &p2.num, coeff)?;
    let den = lift_part(alloc, Part::Denominator, &p1.den, &p2.den, coeff)?;
    Ok(Quotient::new(num, den))
}
