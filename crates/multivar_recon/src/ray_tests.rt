//! Functions that are reconstructed along rays.

ghost use Rattle.std.specs.Prelude.{◌<◌};
ghost use Rattle.prime_field.specs.Modulus.{value_of};

use super::*;
use crate::tests::{power, samples};
use poly_maps::{Bound, Bounds, Mono, Poly};
use prime_field::{Modulus, sequence};
use ray_grid::{Grid, attempt, has_few};
use std::alloc::Global;
use std::test::Fail;

#[test]
fn a_quotient_in_two_variables(rt: HostRuntime) -> Result<(), Fail> {
    let bounds = Bounds {
        num: Bound {
            total: 3,
            each: [3, 3, 0, 0, 0, 0, 0, 0],
        },
        den: Bound {
            total: 2,
            each: [2, 2, 0, 0, 0, 0, 0, 0],
        },
    };
    let grid = Grid {
        variables: 2,
        total: 5,
        each: [5, 5, 0, 0, 0, 0, 0, 0],
    };
    for m in [Modulus::first(), Modulus::second()] {
        // (x^2*y + y) / (x*y + 3)
        let mut num = Poly::zero(rt.alloc());
        num.add_term(m, power(2, 1, 0), 1)?;
        num.add_term(m, power(0, 1, 0), 1)?;
        let mut den = Poly::zero(rt.alloc());
        den.add_term(m, power(1, 1, 0), 1)?;
        den.add_term(m, power(0, 0, 0), 3)?;
        let points = attempt(rt.alloc(), &grid, 0)?;
        let values = samples(rt.alloc(), m, &points, &num, &den)?;
        assert!(rt; has_few(&bounds, 2));
        let pair = rays(rt.alloc(), &bounds, &grid, 0, m, &values)?.expect(&rt, "regular");
        assert_eq!(rt; pair.num.terms(), num.terms());
        assert_eq!(rt; pair.den.terms(), den.terms());
        let fitted = fit(rt.alloc(), &bounds, &grid, 0, m, &values)?.expect(&rt, "it agrees");
        assert_eq!(rt; pair.num.terms(), fitted.num.terms());
        assert_eq!(rt; pair.den.terms(), fitted.den.terms());
        let (same, method) = least(rt.alloc(), &bounds, &grid, 0, m, &values)?.expect(
            &rt,
            "it agrees",
        );
        assert_eq!(rt; same.den.terms(), den.terms());
        assert_eq!(rt; method, Method::Rays);
    }
    Ok(())
}

#[test]
fn a_denominator_that_loses_its_degree_on_a_ray(rt: HostRuntime) -> Result<(), Fail> {
    let m = Modulus::first();
    let bounds = Bounds {
        num: Bound {
            total: 0,
            each: [0; 8],
        },
        den: Bound {
            total: 1,
            each: [1, 1, 0, 0, 0, 0, 0, 0],
        },
    };
    let grid = Grid {
        variables: 2,
        total: 1,
        each: [1, 1, 0, 0, 0, 0, 0, 0],
    };
    let points = attempt(rt.alloc(), &grid, 0)?;
    assert_eq!(rt; points.len(), 8);
    // 1 / (y - G*x), G being the slope of the second ray
    let (fifth, sixth) = (points[4].entries(), points[5].entries());
    assert!(rt; fifth.len() == 2 && sixth.len() == 2 && fifth[1] <= sixth[1]);
    let slope = m.reduce_u128((sixth[1] - fifth[1]) as u128);
    let mut num = Poly::zero(rt.alloc());
    num.add_term(m, power(0, 0, 0), 1)?;
    let mut den = Poly::zero(rt.alloc());
    den.add_term(m, power(0, 1, 0), 1)?;
    den.add_term(m, power(1, 0, 0), m.neg(slope))?;
    let values = samples(rt.alloc(), m, &points, &num, &den)?;
    assert!(rt; has_few(&bounds, 2));
    assert!(rt; rays(rt.alloc(), &bounds, &grid, 0, m, &values)?.is_none());
    let (pair, method) = least(rt.alloc(), &bounds, &grid, 0, m, &values)?.expect(&rt, "it agrees");
    assert_eq!(rt; method, Method::Fit);
    assert_eq!(rt; pair.den.leading(), Some(power(1, 0, 0)));
    Ok(())
}

#[test]
fn zero_samples_along_rays(rt: HostRuntime) -> Result<(), Fail> {
    let m = Modulus::second();
    let bounds = Bounds {
        num: Bound {
            total: 2,
            each: [1, 2, 2, 0, 0, 0, 0, 0],
        },
        den: Bound {
            total: 1,
            each: [1, 1, 0, 0, 0, 0, 0, 0],
        },
    };
    let grid = Grid {
        variables: 3,
        total: 3,
        each: [2, 3, 2, 0, 0, 0, 0, 0],
    };
    let zero = Poly::zero(rt.alloc());
    let points = attempt(rt.alloc(), &grid, 2)?;
    let values = samples(rt.alloc(), m, &points, &zero, &zero)?;
    assert!(rt; has_few(&bounds, 3));
    let (pair, method) = least(rt.alloc(), &bounds, &grid, 2, m, &values)?.expect(
        &rt,
        "zero agrees",
    );
    assert_eq!(rt; method, Method::Rays);
    assert!(rt; pair.num.terms().is_empty());
    assert_eq!(rt; pair.den.terms(), [(power(0, 0, 0), 1)].as_slice());
    Ok(())
}

#[test]
fn one_variable_has_one_ray(rt: HostRuntime) -> Result<(), Fail> {
    let m = Modulus::first();
    let bound = Bound {
        total: 2,
        each: [2, 0, 0, 0, 0, 0, 0, 0],
    };
    let bounds = Bounds {
        num: bound,
        den: bound,
    };
    let grid = Grid {
        variables: 1,
        total: 4,
        each: [4, 0, 0, 0, 0, 0, 0, 0],
    };
    // x / (x^2 + 5)
    let mut num = Poly::zero(rt.alloc());
    num.add_term(m, power(1, 0, 0), 1)?;
    let mut den = Poly::zero(rt.alloc());
    den.add_term(m, power(2, 0, 0), 1)?;
    den.add_term(m, power(0, 0, 0), 5)?;
    let points = attempt(rt.alloc(), &grid, 3)?;
    assert_eq!(rt; points.len(), 7);
    let values = samples(rt.alloc(), m, &points, &num, &den)?;
    assert!(rt; has_few(&bounds, 1));
    let (pair, method) = least(rt.alloc(), &bounds, &grid, 3, m, &values)?.expect(&rt, "it agrees");
    assert_eq!(rt; method, Method::Rays);
    assert_eq!(rt; pair.num.terms(), num.terms());
    assert_eq!(rt; pair.den.terms(), den.terms());
    Ok(())
}

/// The `k`-th word of the sequence, as a residue.
fn coefficient(m: Modulus, k: u32) -> u64
    requires { k < 65536 }
    ensures { result < value_of m }
{
    m.reduce_u128(u128::from(sequence(k)))
}

/// The product of the variables with these numbers in four variables, counted from 0.
fn product(first: usize, second: usize) -> Mono
    requires first { first < 4 }
    requires second { second < 4 }
{
    let mut exponents = [0; 8];
    exponents[first] = 1;
    exponents[second] += 1;
    Mono::new(exponents)
}

/// Whether a quotient in four variables with coefficients from the sequence, from its word `k` on, is found along rays as by the fit.
fn is_found_alike(alloc: Global, m: Modulus, k: u32) -> Result<bool, NoMemory>
    requires { k < 1000 }
{
    let bound = Bound {
        total: 2,
        each: [2, 2, 2, 2, 0, 0, 0, 0],
    };
    let bounds = Bounds {
        num: bound,
        den: bound,
    };
    let grid = Grid {
        variables: 4,
        total: 4,
        each: [4, 4, 4, 4, 0, 0, 0, 0],
    };
    let mut num = Poly::zero(alloc);
    num.add_term(m, product(1, 2), coefficient(m, k))?;
    num.add_term(m, product(0, 3), coefficient(m, k + 1))?;
    num.add_term(m, power(0, 1, 0), coefficient(m, k + 2))?;
    let mut den = Poly::zero(alloc);
    den.add_term(m, product(2, 3), 1)?;
    den.add_term(m, power(1, 0, 0), coefficient(m, k + 3))?;
    den.add_term(m, power(0, 0, 0), coefficient(m, k + 4))?;
    let points = attempt(alloc, &grid, 0)?;
    let values = samples(alloc, m, &points, &num, &den)?;
    if !has_few(&bounds, 4) {
        return Ok(false);
    }
    let Some(along) = rays(alloc, &bounds, &grid, 0, m, &values)? else {
        return Ok(false);
    };
    let Some(fitted) = fit(alloc, &bounds, &grid, 0, m, &values)? else {
        return Ok(false);
    };
    Ok(along.num.terms() == fitted.num.terms() && along.den.terms() == fitted.den.terms())
}

#[test]
fn quotients_of_random_coefficients_are_found_alike_both_ways(rt: HostRuntime) -> Result<(), Fail> {
    for k in [3, 40, 500] {
        assert!(rt; is_found_alike(rt.alloc(), Modulus::first(), k)?);
        assert!(rt; is_found_alike(rt.alloc(), Modulus::second(), k)?);
    }
    Ok(())
}
