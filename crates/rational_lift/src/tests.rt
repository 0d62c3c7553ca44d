//! Pairs of residues that are lifted, or refused.

ghost use Rattle.std.specs.Prelude.{◌<◌, IfOk, IsTrue};
ghost use Rattle.prime_field.specs.Modulus.{value_of};
ghost use Rattle.poly_maps.specs.Polynomial.{AreResidues};
ghost use Rattle.rational_lift.specs.Parts.{IsMonic};

use super::*;
use poly_maps::{Frac, Mono, Pair, Poly};
use prime_field::Modulus;
use std::alloc::Global;
use std::test::Fail;

/// `x^i`
fn power(i: u16) -> Mono {
    Mono::new([i, 0, 0, 0, 0, 0, 0, 0])
}

/// Whether the leading coefficient is 1.
fn is_monic(poly: &Poly) -> bool
    ensures { IsTrue result → IsMonic poly.now }
{
    match poly.terms().first() {
        Some(term) => term.1 == 1,
        None => false,
    }
}

/// `(slope*x + shift) / x^i`
fn pair_of(alloc: Global, m: Modulus, slope: u64, shift: u64, i: u16) -> Result<Pair, Fail>
    requires slope { slope < value_of m }
    requires shift { shift < value_of m }
    ensures num { IfOk result (λ pair. AreResidues (value_of m) pair.num) }
    ensures den { IfOk result (λ pair. AreResidues (value_of m) pair.den) }
    ensures monic { IfOk result (λ pair. IsMonic pair.den) }
{
    let mut num = Poly::zero(alloc);
    num.add_term(m, power(1), slope)?;
    num.add_term(m, power(0), shift)?;
    let mut den = Poly::zero(alloc);
    den.add_term(m, power(i), 1)?;
    if !is_monic(&den) {
        return Err(Fail::from("a denominator that leads with another number"));
    }
    Ok(Pair { num, den })
}

#[test]
fn residues_of_halves_and_thirds_are_lifted(rt: HostRuntime) -> Result<(), Fail> {
    // 1/2 and 1/3 at each modulus
    let p1 = pair_of(
        rt.alloc(),
        Modulus::first(),
        1_152_921_504_606_846_976,
        1_537_228_672_809_129_301,
        0,
    )?;
    let p2 = pair_of(
        rt.alloc(),
        Modulus::second(),
        4_611_686_018_427_387_892,
        6_148_914_691_236_517_189,
        0,
    )?;
    let coeff = Coeff {
        num: 2_305_843_009_213_693_952,
        den: 2_305_843_009_213_693_952,
    };
    let quotient = lift(rt.alloc(), &p1, &p2, &coeff)?;
    assert_eq!(rt;
        quotient.num.terms(),
        [
            (power(1), Frac { num: 1, den: 2 }),
            (power(0), Frac { num: 1, den: 3 })
        ]
        .as_slice()
    );
    assert_eq!(rt;
        quotient.den.terms(),
        [(power(0), Frac { num: 1, den: 1 })].as_slice()
    );
    Ok(())
}

#[test]
fn denominators_that_lead_with_different_monomials_are_refused(
    rt: HostRuntime,
) -> Result<(), Fail> {
    let p1 = pair_of(rt.alloc(), Modulus::first(), 1, 0, 1)?;
    let p2 = pair_of(rt.alloc(), Modulus::second(), 1, 0, 0)?;
    let coeff = Coeff { num: 3, den: 3 };
    let Err(fault) = lift(rt.alloc(), &p1, &p2, &coeff) else {
        return Err(Fail::from("a quotient"));
    };
    let unlike = LiftError::Unlike {
        lead1: power(1),
        lead2: power(0),
    };
    assert_eq!(rt; fault, unlike);
    Ok(())
}

#[test]
fn a_coefficient_beyond_the_bounds_is_refused(rt: HostRuntime) -> Result<(), Fail> {
    let p1 = pair_of(rt.alloc(), Modulus::first(), 7, 0, 0)?;
    let p2 = pair_of(rt.alloc(), Modulus::second(), 7, 0, 0)?;
    let coeff = Coeff { num: 3, den: 3 };
    let Err(fault) = lift(rt.alloc(), &p1, &p2, &coeff) else {
        return Err(Fail::from("a quotient"));
    };
    let none = LiftError::NoRational {
        part: Part::Numerator,
        mono: power(1),
        residue: 7,
    };
    assert_eq!(rt; fault, none);
    Ok(())
}
