//! Functions that are fitted to their samples.

ghost use Rattle.std.specs.Prelude.{◌≡◌, ◌<◌, All, IfOk, length, vec_len};
ghost use Rattle.prime_field.specs.Modulus.{value_of};
ghost use Rattle.poly_maps.specs.Polynomial.{AreResidues};

use super::*;
use poly_maps::{Bound, Bounds, Mono, Point, Poly};
use prime_field::Modulus;
use ray_grid::{Grid, attempt, has_few};
use std::alloc::Global;
use std::test::Fail;

/// `x^i * y^j * z^k`
pub(crate) fn power(i: u16, j: u16, k: u16) -> Mono {
    Mono::new([i, j, k, 0, 0, 0, 0, 0])
}

/// The samples of the quotient of two polynomials; 0 where the second one's value is.
pub(crate) fn samples(
    alloc: Global,
    m: Modulus,
    points: &[Point],
    num: &Poly,
    den: &Poly,
) -> Result<Vec<u64>, NoMemory>
    requires num { AreResidues (value_of m) num.now }
    requires den { AreResidues (value_of m) den.now }
    ensures count { IfOk result (λ values. vec_len values ≡ length points.now) }
    ensures residues { IfOk result (λ values. All (λ v. v < value_of m) values.items) }
{
    let mut values = Vec::new(alloc);
    for point in points {
        let value = match m.inv(den.value(m, point)) {
            Some(inverse) => m.mul(num.value(m, point), inverse),
            None => 0,
        };
        values.push(value)?;
    }
    Ok(values)
}

#[test]
fn zero_samples_give_zero_over_one(rt: HostRuntime) -> Result<(), Fail> {
    let m = Modulus::first();
    let bounds = Bounds {
        num: Bound {
            total: 0,
            each: [0; 8],
        },
        den: Bound {
            total: 1,
            each: [1, 1, 0, 0, 0, 0, 0, 0],
        },
    };
    let grid = Grid {
        variables: 2,
        total: 1,
        each: [1, 1, 0, 0, 0, 0, 0, 0],
    };
    let zero = Poly::zero(rt.alloc());
    let points = attempt(rt.alloc(), &grid, 0)?;
    assert_eq!(rt; points.len(), 8);
    let values = samples(rt.alloc(), m, &points, &zero, &zero)?;
    assert!(rt; has_few(&bounds, 2));
    let pair = fit(rt.alloc(), &bounds, &grid, 0, m, &values)?.expect(&rt, "zero agrees");
    assert!(rt; pair.num.terms().is_empty());
    assert_eq!(rt; pair.den.terms(), [(power(0, 0, 0), 1)].as_slice());
    Ok(())
}

#[test]
fn a_common_factor_is_not_kept(rt: HostRuntime) -> Result<(), Fail> {
    let m = Modulus::first();
    let bounds = Bounds {
        num: Bound {
            total: 3,
            each: [3, 3, 0, 0, 0, 0, 0, 0],
        },
        den: Bound {
            total: 2,
            each: [2, 2, 0, 0, 0, 0, 0, 0],
        },
    };
    let grid = Grid {
        variables: 2,
        total: 5,
        each: [5, 5, 0, 0, 0, 0, 0, 0],
    };
    // (x^2 - y^2) / (x - y)
    let mut num = Poly::zero(rt.alloc());
    num.add_term(m, power(2, 0, 0), 1)?;
    num.add_term(m, power(0, 2, 0), m.value() - 1)?;
    let mut den = Poly::zero(rt.alloc());
    den.add_term(m, power(1, 0, 0), 1)?;
    den.add_term(m, power(0, 1, 0), m.value() - 1)?;
    let points = attempt(rt.alloc(), &grid, 0)?;
    assert_eq!(rt; points.len(), 48);
    let values = samples(rt.alloc(), m, &points, &num, &den)?;
    assert!(rt; has_few(&bounds, 2));
    let pair = fit(rt.alloc(), &bounds, &grid, 0, m, &values)?.expect(&rt, "x + y agrees");
    assert_eq!(rt;
        pair.num.terms(),
        [(power(1, 0, 0), 1), (power(0, 1, 0), 1)].as_slice()
    );
    assert_eq!(rt; pair.den.terms(), [(power(0, 0, 0), 1)].as_slice());
    Ok(())
}

#[test]
fn a_pole_is_no_polynomial(rt: HostRuntime) -> Result<(), Fail> {
    let m = Modulus::second();
    let bounds = Bounds {
        num: Bound {
            total: 2,
            each: [2, 2, 0, 0, 0, 0, 0, 0],
        },
        den: Bound {
            total: 0,
            each: [0; 8],
        },
    };
    let grid = Grid {
        variables: 2,
        total: 2,
        each: [2, 2, 0, 0, 0, 0, 0, 0],
    };
    // 1 / (x - y)
    let mut num = Poly::zero(rt.alloc());
    num.add_term(m, power(0, 0, 0), 1)?;
    let mut den = Poly::zero(rt.alloc());
    den.add_term(m, power(1, 0, 0), 1)?;
    den.add_term(m, power(0, 1, 0), m.value() - 1)?;
    let points = attempt(rt.alloc(), &grid, 0)?;
    let values = samples(rt.alloc(), m, &points, &num, &den)?;
    assert!(rt; has_few(&bounds, 2));
    assert!(rt; fit(rt.alloc(), &bounds, &grid, 0, m, &values)?.is_none());
    Ok(())
}

#[test]
fn a_function_of_three_variables(rt: HostRuntime) -> Result<(), Fail> {
    let bound = Bound {
        total: 2,
        each: [1, 1, 1, 0, 0, 0, 0, 0],
    };
    let bounds = Bounds {
        num: bound,
        den: bound,
    };
    let grid = Grid {
        variables: 3,
        total: 4,
        each: [2, 2, 2, 0, 0, 0, 0, 0],
    };
    for m in [Modulus::first(), Modulus::second()] {
        // (2*y*z + x) / (x*y + 3)
        let mut num = Poly::zero(rt.alloc());
        num.add_term(m, power(0, 1, 1), 2)?;
        num.add_term(m, power(1, 0, 0), 1)?;
        let mut den = Poly::zero(rt.alloc());
        den.add_term(m, power(1, 1, 0), 1)?;
        den.add_term(m, power(0, 0, 0), 3)?;
        let points = attempt(rt.alloc(), &grid, 1)?;
        assert_eq!(rt; points.len(), 63);
        let values = samples(rt.alloc(), m, &points, &num, &den)?;
        assert!(rt; has_few(&bounds, 3));
        let pair = fit(rt.alloc(), &bounds, &grid, 1, m, &values)?.expect(&rt, "it agrees");
        assert_eq!(rt; pair.num.terms(), num.terms());
        assert_eq!(rt; pair.den.terms(), den.terms());
    }
    Ok(())
}

#[test]
fn a_constant_at_one_point(rt: HostRuntime) -> Result<(), Fail> {
    let m = Modulus::first();
    let bound = Bound {
        total: 0,
        each: [0; 8],
    };
    let bounds = Bounds {
        num: bound,
        den: bound,
    };
    assert!(rt; has_few(&bounds, 1));
    let pair = fit_points(rt.alloc(), &bounds, 1, &[Point::of(&[7])], m, &[5])?.expect(
        &rt, "5 agrees",
    );
    assert_eq!(rt; pair.num.terms(), [(power(0, 0, 0), 5)].as_slice());
    assert_eq!(rt; pair.den.terms(), [(power(0, 0, 0), 1)].as_slice());
    Ok(())
}
