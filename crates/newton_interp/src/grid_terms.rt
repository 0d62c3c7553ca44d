//! The polynomial in eight variables that has given values on a grid, term by term.

ghost use Rattle.std.specs.Prelude.{◌≡◌, ℕ, ◌+◌, ◌%◌, ◌<◌, ◌≤◌, List, IfOk, length, slice_index};
ghost use Rattle.prime_field.specs.Modulus.{value_of};
ghost use Rattle.univariate.specs.Coefficients.{AreResidues as AreResidueWords};
ghost use Rattle.poly_maps.specs.Mono.{HasEight};
ghost use Rattle.poly_maps.specs.Polynomial.{coefficient, value_at, AreResidues, IsPolynomial, Supported};
ghost use Rattle.newton_interp.specs.Grid.{AreAxes, points_of, grid_size, grid_work};
ghost use Rattle.newton_interp.specs.declared.grid.Axis.{Axis};
ghost use Rattle.newton_interp.specs.GridPoints.{AreNamed, IsOnAxes, exponents_at, grid_point, terms_below};

use crate::NoMemory;
use crate::grid::{Axis, interpolate_grid, points_at};
use poly_maps::{Mono, Poly};
use prime_field::Modulus;
use std::alloc::Global;

/// The one polynomial that has these values on the grid, whose degree in each axis's variable is below the number of
/// its points, and which has no other variables. Any two points of an axis differ by a unit.
///
/// There is one value for each combination of places on the axes, in lexicographic order, so that the place on the
/// last axis changes fastest. With no axis there is one value, and the polynomial is that constant.
pub fn newton_grid(
    alloc: Global,
    m: Modulus,
    axes: &[Axis],
    values: &[u64],
) -> Result<Poly, NoMemory>
    requires named { AreNamed axes.now }
    requires axes { AreAxes (value_of m) (points_of axes.now) }
    requires places { length values.now ≡ grid_size (points_of axes.now) }
    requires values { AreResidueWords (value_of m) values.now }
    ensures residues { IfOk result (AreResidues (value_of m)) }
    ensures polynomial { IfOk result IsPolynomial }
    ensures degrees { IfOk result (Supported (IsOnAxes axes.now)) }
    ensures values { IfOk result (λ p. (i : ℕ) → i < length values.now → value_at p (grid_point axes.now i) % value_of m ≡ slice_index values.now i) }
{
    let mut buffer = Vec::from_slice(alloc, values)?;
    let mut work = vec![in alloc; 0; grid_work(axes)]?;
    interpolated(alloc, m, axes, &mut buffer, &mut work)
}

/// The polynomial that has the buffer's values on the grid. The buffer holds its coefficients then.
fn interpolated(
    alloc: Global,
    m: Modulus,
    axes: &[Axis],
    buffer: &mut [u64],
    work: &mut [u64],
) -> Result<Poly, NoMemory>
    requires named { AreNamed axes.now }
    requires axes { AreAxes (value_of m) (points_of axes.now) }
    requires places { length buffer.old ≡ grid_size (points_of axes.now) }
    requires room { grid_work (points_of axes.now) ≤ length work.old }
    requires values { AreResidueWords (value_of m) buffer.old }
    ensures residues { IfOk result (AreResidues (value_of m)) }
    ensures polynomial { IfOk result IsPolynomial }
    ensures degrees { IfOk result (Supported (IsOnAxes axes.now)) }
    ensures values { IfOk result (λ p. (i : ℕ) → i < length buffer.old → value_at p (grid_point axes.now i) % value_of m ≡ slice_index buffer.old i) }
{
    interpolate_grid(m, axes, buffer, work);
    let terms = terms_of(alloc, axes, buffer)?;
    let polynomial = Poly::from_terms(m, terms)?;
    Ok(polynomial)
}

/// Two polynomials in the axes' variables with the same values at the grid's points, each of lower degree in each axis's
/// variable than the number of its points, are the same, coefficient by coefficient. It holds at every modulus but 0.
pub fn one_grid_polynomial()
    ensures { (m : ℕ) (axes : List Axis) (p q : List (List ℕ × ℕ)) → 0 < m → AreNamed axes → AreAxes m (points_of axes) →
        Supported HasEight p → Supported HasEight q → Supported (IsOnAxes axes) p → Supported (IsOnAxes axes) q →
        ((i : ℕ) → i < grid_size (points_of axes) → value_at p (grid_point axes i) % m ≡ value_at q (grid_point axes i) % m) →
        (e : List ℕ) → coefficient e p % m ≡ coefficient e q % m }
{}

/// The words of work that `interpolate_grid` wants.
pub fn grid_work(axes: &[Axis]) -> usize
    requires { AreNamed axes.now }
    ensures { result ≡ grid_work (points_of axes.now) }
{
    let mut work = 0;
    for k in (0..axes.len()).rev() {
        let count = points_at(axes, k).len();
        work = (count * count + 6 * count + 4).max(work);
    }
    work
}

/// The terms with these coefficients, in the order of the places.
fn terms_of(
    alloc: Global,
    axes: &[Axis],
    coefficients: &[u64],
) -> Result<Vec<(Mono, u64)>, NoMemory>
    requires named { AreNamed axes.now }
    requires places { length coefficients.now ≤ grid_size (points_of axes.now) }
    ensures { IfOk result (λ terms. terms.items ≡ terms_below axes.now (slice_index coefficients.now) (length coefficients.now)) }
{
    let mut terms = Vec::new(alloc);
    for place in 0..coefficients.len() {
        terms.push((mono_at(axes, place), coefficients[place]))?;
    }
    Ok(terms)
}

/// The monomial whose exponents are the places on the axes of the combination `place`.
fn mono_at(axes: &[Axis], place: usize) -> Mono
    requires named { AreNamed axes.now }
    requires place { place < grid_size (points_of axes.now) }
    ensures { result ≡ exponents_at axes.now place }
{
    let mut exponents = [0; 8];
    let mut rest = place;
    for k in (0..axes.len()).rev() {
        let axis = &axes[k];
        let count = axis.values.len();
        exponents[axis.variable as usize - 1] = (rest % count) as u16;
        rest /= count;
    }
    Mono::new(exponents)
}
