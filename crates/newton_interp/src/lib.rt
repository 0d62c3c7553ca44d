//! The polynomial in one variable that has given values at given points, by Newton's form, and that in several that has
//! given values on a grid.
#![tactic(auto)]

ghost use Rattle.std.specs.Prelude.{◌≡◌, ℕ, ◌+◌, ◌*◌, ◌<◌, ◌≤◌, List, IfOk, length, slice_index};
ghost use Rattle.prime_field.specs.Modulus.{value_of};
ghost use Rattle.univariate.specs.Univariate.{AreApart};
ghost use Rattle.univariate.specs.Coefficients.{AreResidues};
ghost use Rattle.newton_interp.specs.Interpolation.{IsInterpolant};

mod form;
mod grid;
mod grid_terms;
mod passes;
mod sums;

pub use form::interpolate;
pub use grid::{Axis, interpolate_grid, one_grid_interpolant};
pub use grid_terms::{grid_work, newton_grid, one_grid_polynomial};
use prime_field::Modulus;
use std::alloc::Global;
pub use sums::fused_two;

/// Memory ran out.
pub type NoMemory = std::alloc::AllocError;

/// The coefficients of the one polynomial of degree below the number of points that has these values, as many as the
/// points, the lowest first, zeros included. Any two points differ by a unit.
pub fn newton(
    alloc: Global,
    m: Modulus,
    points: &[u64],
    values: &[u64],
) -> Result<Vec<u64>, NoMemory>
    requires lengths { length values.now ≡ length points.now }
    requires points { AreResidues (value_of m) points.now }
    requires values { AreResidues (value_of m) values.now }
    requires apart { AreApart (value_of m) (length points.now) (slice_index points.now) }
    ensures length { IfOk result (λ v. length v.items ≡ length points.now) }
    ensures interpolant { IfOk result (λ v. IsInterpolant (value_of m) (length points.now) (slice_index points.now) (slice_index values.now) v.items) }
{
    let mut work = vec![in alloc; 0; 4 * points.len() + 4]?;
    let mut out = vec![in alloc; 0; points.len()]?;
    newton_over(m, points, values, &mut work, &mut out);
    Ok(out)
}

/// The same into `out`, which has one place for each point. Nothing is allocated: the work is done in the first words
/// of `work`, whatever they hold, and they are overwritten.
pub fn newton_over(m: Modulus, points: &[u64], values: &[u64], work: &mut [u64], out: &mut [u64])
    requires lengths { length values.now ≡ length points.now }
    requires places { length out.old ≡ length points.now }
    requires room { 4 * length points.now + 4 ≤ length work.old }
    requires points { AreResidues (value_of m) points.now }
    requires values { AreResidues (value_of m) values.now }
    requires apart { AreApart (value_of m) (length points.now) (slice_index points.now) }
    ensures { IsInterpolant (value_of m) (length points.now) (slice_index points.now) (slice_index values.now) out.new }
{
    let count = points.len();
    let (spread, rest) = work.split_at_mut(count);
    let (missing, rest) = rest.split_at_mut(count);
    let (product, _) = rest.split_at_mut(count + 1);
    interpolate(m, points, values, spread, missing, product, out);
}

/// Two polynomials that interpolate the same values are the same, coefficient by coefficient. It holds at every modulus.
pub fn one_interpolant()
    ensures { (m n : ℕ) (f v : ℕ → ℕ) (p q : List ℕ) → AreApart m n f → IsInterpolant m n f v p → IsInterpolant m n f v q →
        (k : ℕ) → slice_index p k ≡ slice_index q k }
{}

#[cfg(test)]
mod tests;
