//! Polynomials along rays.

ghost use Rattle.std.specs.Prelude.{◌≡◌, ◌≢◌, ℕ, ◌+◌, ◌-◌, ◌*◌, ◌%◌, ◌<◌, ◌≤◌, List, length, slice_index, IfOk};
ghost use Rattle.prime_field.specs.Modulus.{value_of};
ghost use Rattle.poly_maps.specs.Polynomial.{value_at, total_degree, AreResidues};
ghost use Rattle.poly_maps.specs.Moved.{moved, graded, point_sum, scaled};
ghost use Rattle.univariate.specs.Univariate.{univariate_value, IsTrimmed};

use crate::powers::Powers;
use crate::shift::moved_by;
use crate::{Mono, NoMemory, Point, Poly};
use prime_field::Modulus;
use std::alloc::Global;

/// The values at `g` of the terms of each total degree up to `highest`, the lowest degree first.
fn values_by_degree(
    alloc: Global,
    m: Modulus,
    terms: &[(Mono, u64)],
    g: &Point,
    highest: u32,
) -> Result<Vec<u64>, NoMemory>
    requires residues { AreResidues (value_of m) terms.now }
    requires highest { total_degree terms.now ≤ highest }
    ensures { IfOk result (λ r. (k : ℕ) → slice_index r.items k ≡ value_at (graded k terms.now) g.now % value_of m) }
{
    let powers = Powers::of(m, g, highest);
    let mut values = vec![in alloc; 0u64; highest as usize + 1]?;
    for term in terms {
        let degree = term.0.total() as usize;
        values[degree] = m.add(values[degree], m.mul(term.1, powers.value(&term.0)));
    }
    Ok(values)
}

/// Takes the zeros off the end.
fn trim(coefficients: &mut Vec<u64>)
    ensures same { (k : ℕ) → slice_index coefficients.new.items k ≡ slice_index coefficients.old.items k }
    ensures trimmed { IsTrimmed coefficients.new.items }
{
    while let Some(0) = coefficients.last() {
        coefficients.pop();
    }
}

impl Poly {
    /// The coefficients in t of the polynomial at `s + t*g`, the lowest first, without zeros at the end. Where a point
    /// has fewer entries than there are variables, the missing ones are 0.
    pub fn on_ray(&self, m: Modulus, s: &Point, g: &Point) -> Result<Vec<u64>, NoMemory>
        requires { AreResidues (value_of m) self.now }
        ensures coefficients { IfOk result (λ r. (k : ℕ) → slice_index r.items k ≡ value_at (graded k (moved s.now self.now)) g.now % value_of m) }
        ensures trimmed { IfOk result (λ r. IsTrimmed r.items) }

        // What follows from the coefficients: how many there are, and the values along the ray.
        ensures degree { IfOk result (λ r. length r.items ≤ total_degree self.now + 1) }
        ensures value { IfOk result (λ r. (t : ℕ) → univariate_value r.items t % value_of m ≡ value_at self.now (point_sum s.now (scaled t g.now)) % value_of m) }
    {
        let alloc = self.allocator();
        let moved = moved_by(alloc, m, self.terms(), s.entries())?;
        let mut coefficients = values_by_degree(alloc, m, moved.terms(), g, moved.total_degree())?;
        trim(&mut coefficients);
        Ok(coefficients)
    }
}

#[cfg(test)]
mod tests {
    use super::*;
    use std::test::Fail;

    #[test]
    fn coefficients_along_rays_at_both_moduli(rt: HostRuntime) -> Result<(), Fail> {
        for m in [Modulus::first(), Modulus::second()] {
            let start = Point::of(&[1, 2]);
            let mut poly = Poly::zero(rt.alloc());
            assert_eq!(rt; poly.on_ray(m, &start, &start)?.len(), 0);

            // x*y + 3 at (1 + 4*t, 2 + 5*t), and where one entry or the other stays.
            poly.add_term(m, Mono::new([1, 1, 0, 0, 0, 0, 0, 0]), 1)?;
            poly.add_term(m, Mono::new([0; 8]), 3)?;
            let slanted = poly.on_ray(m, &start, &Point::of(&[4, 5]))?;
            assert_eq!(rt; slanted.as_slice(), [5, 13, 20].as_slice());
            let along_second = poly.on_ray(m, &start, &Point::of(&[0, 5]))?;
            assert_eq!(rt; along_second.as_slice(), [5, 5].as_slice());
            let along_first = poly.on_ray(m, &start, &Point::of(&[4]))?;
            assert_eq!(rt; along_first.as_slice(), [5, 8].as_slice());
        }
        Ok(())
    }
}
