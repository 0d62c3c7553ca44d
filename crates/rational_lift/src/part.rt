//! One of the two polynomials of a quotient.

ghost use Rattle.std.specs.Prelude.{◌≡◌, ◌*◌, ◌<◌, ◌≤◌, [], IfOk, IfErr, IfSome, IfNone};
ghost use Rattle.prime_field.specs.Modulus.{value_of};
ghost use Rattle.prime_field.specs.declared.Modulus.TheVariants.{First, Second};
ghost use Rattle.poly_maps.specs.Polynomial.{AreResidues};
ghost use Rattle.rational_lift.specs.Joined.{both};
ghost use Rattle.rational_lift.specs.Parts.{IsPartLifted, TellsPart, IsTop, behind};

use crate::joint::BOTH;
use crate::{Coeff, LiftError, Part, join, recover};
use poly_maps::{Mono, Poly, RatPoly};
use std::alloc::Global;
use std::cmp::Ordering;

/// The polynomial within the bounds that leaves `first` at the first modulus and `second` at the second.
pub(crate) fn lift_part(
    alloc: Global,
    part: Part,
    first: &Poly,
    second: &Poly,
    coeff: &Coeff,
) -> Result<RatPoly, LiftError>
    requires first { AreResidues (value_of First) first.now }
    requires second { AreResidues (value_of Second) second.now }
    requires num { 1 ≤ coeff.now.num }
    requires den { 1 ≤ coeff.now.den }
    requires narrow { 2 * (coeff.now.num * coeff.now.den) < both }
    ensures ok { IfOk result (IsPartLifted coeff.now first.now second.now) }
    ensures err { IfErr result (TellsPart coeff.now part first.now second.now) }
{
    let mut lifted = RatPoly::zero(alloc);
    let mut left = first.terms();
    let mut right = second.terms();
    while let Some(mono) = top(left, right) {
        let residue = join(first.coefficient(mono), second.coefficient(mono));
        match recover(residue, BOTH, coeff.num, coeff.den) {
            Some(fraction) => lifted.add_term(mono, fraction)?,
            None => {
                return Err(LiftError::NoRational {
                    part,
                    mono,
                    residue,
                });
            }
        }
        left = after(left, &mono);
        right = after(right, &mono);
    }
    let _terms = lifted.terms();
    Ok(lifted)
}

/// The greater of the first monomials, or None where both lists are empty.
fn top(left: &[(Mono, u64)], right: &[(Mono, u64)]) -> Option<Mono>
    ensures some { IfSome result (IsTop left.now right.now) }
    ensures none { IfNone result ((left.now ≡ []) × (right.now ≡ [])) }
{
    match (left.first(), right.first()) {
        (Some(a), Some(b)) => match a.0.cmp(&b.0) {
            Ordering::Less => Some(b.0),
            _ => Some(a.0),
        },
        (Some(a), None) => Some(a.0),
        (None, Some(b)) => Some(b.0),
        (None, None) => None,
    }
}

/// The terms after the first one if it has the monomial, and all of them else.
fn after<'a>(terms: &'a [(Mono, u64)], mono: &Mono) -> &'a [(Mono, u64)]
    ensures { result.now ≡ behind mono.now terms.now }
{
    match terms.first() {
        Some(term) if term.0 == *mono => &terms[1..],
        _ => terms,
    }
}
