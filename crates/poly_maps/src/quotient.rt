ghost use Rattle.std.specs.Prelude.{◌≡◌, [], ◌∷◌};
ghost use Rattle.poly_maps.specs.Fraction.{LeadsWithOne};
ghost use Rattle.poly_maps.specs.Quotient.{IsQuotientMap};

use crate::RatPoly;
use std::marker::Model;

/// A quotient of two polynomials over the rational numbers. The leading coefficient of its denominator is 1.
#[derive(Drop)]
pub struct Quotient {
    pub num: RatPoly,
    pub den: RatPoly,
}

impl Model for Quotient {
    ghost use Rattle.poly_maps.specs.Quotient.{RationalPair, IsQuotientMap};

    ghost Value = { RationalPair };

    ghost view = { λ q. record { num = q.num; den = q.den } };

    ghost invariant = { λ q. IsQuotientMap (record { num = q.num; den = q.den }) };
}

impl Quotient {
    /// The quotient of a numerator and a denominator whose leading coefficient is 1.
    pub fn new(num: RatPoly, den: RatPoly) -> Quotient
        requires { LeadsWithOne den }
        ensures parts { result ≡ record { num = num; den = den } }
        ensures map { IsQuotientMap result }
    {
        // Both parts are maps to fractions; the invariant asks it.
        let _num = num.terms();
        let _den = den.terms();
        Quotient { num, den }
    }
}

#[cfg(test)]
mod tests {
    use super::*;
    use crate::{Frac, Mono};
    use std::test::Fail;

    /// `x^i * y^j`
    fn power(i: u16, j: u16) -> Mono
        ensures { result ≡ i ∷ j ∷ 0 ∷ 0 ∷ 0 ∷ 0 ∷ 0 ∷ 0 ∷ [] }
    {
        Mono::new([i, j, 0, 0, 0, 0, 0, 0])
    }

    fn crosses<T: Send + Sync>() -> bool {
        true
    }

    #[test]
    fn terms_descend_in_whatever_order_they_come(rt: HostRuntime) -> Result<(), Fail> {
        // (1/2*x - 3)/(x*y)
        let half = Frac { num: 1, den: 2 };
        let minus_three = Frac { num: -3, den: 1 };
        let one = Frac { num: 1, den: 1 };
        let mut num = RatPoly::zero(rt.alloc());
        num.add_term(power(0, 0), minus_three)?;
        num.add_term(power(1, 0), half)?;
        let mut den = RatPoly::zero(rt.alloc());
        den.add_term(power(1, 1), one)?;
        let quotient = Quotient::new(num, den);
        assert_eq!(rt;
            quotient.num.terms(),
            [(power(1, 0), half), (power(0, 0), minus_three)].as_slice()
        );
        assert_eq!(rt; quotient.den.terms(), [(power(1, 1), one)].as_slice());
        assert!(rt; crosses::<Quotient>());
        Ok(())
    }
}
