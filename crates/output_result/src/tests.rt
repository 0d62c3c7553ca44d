//! What the samples of known functions say.

ghost use Rattle.std.specs.Prelude.{◌≡◌, ◌*◌, ◌<◌, ◌≤◌, [], ◌∷◌, All, IfOk, length, vec_len};
ghost use Rattle.prime_field.specs.Modulus.{value_of};
ghost use Rattle.prime_field.specs.declared.Modulus.TheVariants.{First, Second};
ghost use Rattle.poly_maps.specs.Polynomial.{AreResidues};
ghost use Rattle.ray_grid.specs.Grid.{IsGrid, bound_of, point_count};
ghost use Rattle.ray_grid.specs.Covering.{Covers};
ghost use Rattle.ratfun_text.specs.Printed.{AreVariables};
ghost use Rattle.rational_lift.specs.Joined.{both};

use super::*;
use poly_maps::{Bound, Bounds, Mono, Point, Poly};
use prime_field::Modulus;
use ratfun_text::Name;
use rational_lift::Coeff;
use ray_grid::{Grid, attempt, has_few};
use std::alloc::Global;
use std::test::Fail;

/// `x^i * y^j`
fn power(i: u16, j: u16) -> Mono {
    Mono::new([i, j, 0, 0, 0, 0, 0, 0])
}

/// The names of two variables.
#[tactic(auto, using(crate::proofs::Named::x_and_y))]
fn x_and_y(alloc: Global) -> Result<Vec<Name>, NoMemory>
    ensures names { IfOk result (λ names. AreVariables names.items) }
    ensures two { IfOk result (λ names. length names.items ≡ 2) }
{
    let mut names = Vec::new(alloc);
    names.push(Name::of(alloc, b"x")?)?;
    names.push(Name::of(alloc, b"y")?)?;
    Ok(names)
}

/// The values of the quotient of two polynomials; 0 where the second one's value is.
fn samples(
    alloc: Global,
    m: Modulus,
    points: &[Point],
    num: &Poly,
    den: &Poly,
) -> Result<Vec<u64>, NoMemory>
    requires num { AreResidues (value_of m) num.now }
    requires den { AreResidues (value_of m) den.now }
    ensures count { IfOk result (λ values. vec_len values ≡ length points.now) }
    ensures residues { IfOk result (λ values. All (λ v. v < value_of m) values.items) }
{
    let mut values = Vec::new(alloc);
    for point in points {
        let value = match m.inv(den.value(m, point)) {
            Some(inverse) => m.mul(num.value(m, point), inverse),
            None => 0,
        };
        values.push(value)?;
    }
    Ok(values)
}

/// `(a*x^2 + b*y^2 + c*x + d)/(e*x + f*y + g)`. A coefficient is a small number, with its sign.
#[derive(Clone, Copy)]
struct Known {
    num: [i64; 4],
    den: [i64; 3],
}

/// The samples of the function at the points of the grid's attempt `r`.
fn values_of(
    alloc: Global,
    m: Modulus,
    grid: &Grid,
    r: u32,
    function: &Known,
) -> Result<Vec<u64>, NoMemory>
    requires grid { IsGrid grid.now }
    requires known { r < 8 }
    requires points { point_count grid.now ≤ 65536 }
    ensures count { IfOk result (λ values. vec_len values ≡ point_count grid.now) }
    ensures residues { IfOk result (λ values. All (λ v. v < value_of m) values.items) }
{
    let [a, b, c, d] = function.num;
    let mut above = Poly::zero(alloc);
    above.add_term(m, power(2, 0), m.reduce_i128(a as i128))?;
    above.add_term(m, power(0, 2), m.reduce_i128(b as i128))?;
    above.add_term(m, power(1, 0), m.reduce_i128(c as i128))?;
    above.add_term(m, power(0, 0), m.reduce_i128(d as i128))?;
    let [e, f, g] = function.den;
    let mut below = Poly::zero(alloc);
    below.add_term(m, power(1, 0), m.reduce_i128(e as i128))?;
    below.add_term(m, power(0, 1), m.reduce_i128(f as i128))?;
    below.add_term(m, power(0, 0), m.reduce_i128(g as i128))?;
    let points = attempt(alloc, grid, r)?;
    samples(alloc, m, &points, &above, &below)
}

/// The line of output 1 that is found from such samples and tells how, those at the first modulus at the points of attempt 0
/// and those at the second modulus at another's.
fn line_of(
    alloc: Global,
    bounds: &Bounds,
    grid: &Grid,
    coeff: &Coeff,
    function: &Known,
    other: u32,
) -> Result<Vec<u8>, Fail>
    requires grid { IsGrid grid.now }
    requires two { grid.now.variables ≡ 2 }
    requires points { point_count grid.now ≤ 65536 }
    requires covers { Covers (bound_of grid.now) bounds.now }
    requires some_num { 1 ≤ coeff.now.num }
    requires some_den { 1 ≤ coeff.now.den }
    requires narrow { 2 * (coeff.now.num * coeff.now.den) < both }
    requires known { other < 8 }
{
    if !has_few(bounds, grid.variables) {
        return Err(Fail::from("too many monomials"));
    }
    let values1 = values_of(alloc, Modulus::First, grid, 0, function)?;
    let values2 = values_of(alloc, Modulus::Second, grid, other, function)?;
    let first = Sampled {
        attempt: 0,
        values: &values1,
    };
    let second = Sampled {
        attempt: other,
        values: &values2,
    };
    let told = find(alloc, bounds, grid, coeff, first, second)?;
    let names = x_and_y(alloc)?;
    let mut text = Vec::new(alloc);
    push_line(alloc, &mut text, 1, &told.finding, told.methods, &names)?;
    Ok(text)
}

/// The same total degree and degree in each of two variables.
fn bound(degree: u32) -> Bound
    ensures total { result.total ≡ degree }
    ensures each { result.each ≡ degree ∷ degree ∷ 0 ∷ 0 ∷ 0 ∷ 0 ∷ 0 ∷ 0 ∷ [] }
{
    Bound {
        total: degree,
        each: [degree, degree, 0, 0, 0, 0, 0, 0],
    }
}

#[test]
fn a_common_factor_is_not_kept(rt: HostRuntime) -> Result<(), Fail> {
    let bounds = Bounds {
        num: bound(3),
        den: bound(2),
    };
    let grid = Grid {
        variables: 2,
        total: 5,
        each: [5, 5, 0, 0, 0, 0, 0, 0],
    };
    let coeff = Coeff {
        num: 1_000_000,
        den: 1_000_000,
    };
    // (x^2 - y^2)/(x - y)
    let square = Known {
        num: [1, -1, 0, 0],
        den: [1, -1, 0],
    };
    let text = line_of(rt.alloc(), &bounds, &grid, &coeff, &square, 1)?;
    assert_eq!(rt; text.as_slice(), b"f1 = x + y # rays rays\n".as_slice());
    // (x^2 + 1)/(x + 2*y + 3)
    let quotient = Known {
        num: [1, 0, 0, 1],
        den: [1, 2, 3],
    };
    let text = line_of(rt.alloc(), &bounds, &grid, &coeff, &quotient, 1)?;
    assert_eq!(rt;
        text.as_slice(),
        b"f1 = (x^2 + 1)/(x + 2*y + 3) # rays rays\n".as_slice()
    );
    Ok(())
}

#[test]
fn constants_and_poles(rt: HostRuntime) -> Result<(), Fail> {
    let bounds = Bounds {
        num: bound(2),
        den: bound(0),
    };
    let grid = Grid {
        variables: 2,
        total: 2,
        each: [2, 2, 0, 0, 0, 0, 0, 0],
    };
    let coeff = Coeff { num: 10, den: 10 };
    let zero = Known {
        num: [0, 0, 0, 0],
        den: [0, 0, 1],
    };
    let text = line_of(rt.alloc(), &bounds, &grid, &coeff, &zero, 1)?;
    assert_eq!(rt; text.as_slice(), b"f1 = 0 # rays rays\n".as_slice());
    let constant = Known {
        num: [0, 0, 0, -3],
        den: [0, 0, 7],
    };
    let text = line_of(rt.alloc(), &bounds, &grid, &coeff, &constant, 1)?;
    assert_eq!(rt; text.as_slice(), b"f1 = -3/7 # rays rays\n".as_slice());
    // 1/(x - y), which is no polynomial
    let pole = Known {
        num: [0, 0, 0, 1],
        den: [1, -1, 0],
    };
    let text = line_of(rt.alloc(), &bounds, &grid, &coeff, &pole, 1)?;
    assert_eq!(rt; text.as_slice(), b"f1 ? nopair 1\n".as_slice());
    Ok(())
}

#[test]
fn denominators_that_lose_their_degree(rt: HostRuntime) -> Result<(), Fail> {
    let bounds = Bounds {
        num: bound(0),
        den: bound(1),
    };
    let grid = Grid {
        variables: 2,
        total: 1,
        each: [1, 1, 0, 0, 0, 0, 0, 0],
    };
    // at the first modulus: 1/((2^61 - 1)*x + 1)
    let coeff = Coeff { num: 10, den: 10 };
    let shorter = Known {
        num: [0, 0, 0, 1],
        den: [2305843009213693951, 0, 1],
    };
    let text = line_of(rt.alloc(), &bounds, &grid, &coeff, &shorter, 1)?;
    assert_eq!(rt;
        text.as_slice(),
        b"f1 ? unlike 1 x # rays rays\n".as_slice()
    );
    // on the second ray of attempt 0, which has this slope
    let coeff = Coeff {
        num: 10,
        den: 10_000_000_000,
    };
    let steep = Known {
        num: [0, 0, 0, 1],
        den: [-4210768217, 1, 0],
    };
    let text = line_of(rt.alloc(), &bounds, &grid, &coeff, &steep, 0)?;
    assert_eq!(rt;
        text.as_slice(),
        b"f1 = (-1/4210768217)/(x - 1/4210768217*y) # fit fit\n".as_slice()
    );
    let text = line_of(rt.alloc(), &bounds, &grid, &coeff, &steep, 1)?;
    assert_eq!(rt;
        text.as_slice(),
        b"f1 = (-1/4210768217)/(x - 1/4210768217*y) # fit rays\n".as_slice()
    );
    Ok(())
}

#[test]
fn a_coefficient_may_be_too_large(rt: HostRuntime) -> Result<(), Fail> {
    let bounds = Bounds {
        num: bound(1),
        den: bound(0),
    };
    let grid = Grid {
        variables: 2,
        total: 1,
        each: [1, 1, 0, 0, 0, 0, 0, 0],
    };
    // 5*x
    let five_times = Known {
        num: [0, 0, 5, 0],
        den: [0, 0, 1],
    };
    let four = Coeff { num: 4, den: 1 };
    let text = line_of(rt.alloc(), &bounds, &grid, &four, &five_times, 1)?;
    assert_eq!(rt;
        text.as_slice(),
        b"f1 ? norational numerator x 5 # rays rays\n".as_slice()
    );
    let five = Coeff { num: 5, den: 1 };
    let text = line_of(rt.alloc(), &bounds, &grid, &five, &five_times, 1)?;
    assert_eq!(rt; text.as_slice(), b"f1 = 5*x # rays rays\n".as_slice());
    Ok(())
}

fn crosses<T: Send + Sync>() -> bool {
    true
}

#[test]
fn findings_cross_threads(rt: HostRuntime) {
    assert!(rt; crosses::<Finding>());
    assert!(rt; crosses::<Sampled>());
}
