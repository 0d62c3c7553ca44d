//! The polynomials that have given values on grids of points, in place.
//!
//! One axis after the other, the last first: what stands in a column along the axis are values, and coefficients take
//! their place. The polynomials that are 1 at one point of an axis and 0 at the others are made once for the axis.

ghost use Rattle.std.specs.Prelude.{◌≡◌, ◌≢◌, ℕ, suc, ◌+◌, ◌*◌, ◌%◌, ◌<◌, ◌≤◌, List, ◌∷◌, drop, length, slice_index};
ghost use Rattle.prime_field.specs.Modulus.{value_of};
ghost use Rattle.prime_field.specs.Sum.{sum_to};
ghost use Rattle.univariate.specs.Coefficients.{AreResidues};
ghost use Rattle.newton_interp.specs.Grid.{IsAxis, AreAxes, AreOneAt, HasGridValues, points_of, grid_size, grid_work, value_along};

use crate::newton_over;
use prime_field::Modulus;
use univariate::fused;

/// An axis of a grid: a variable, counted from 1, and its values on the grid.
#[derive(Debug, Drop)]
pub struct Axis {
    /// The variable's number, from 1.
    pub variable: u32,
    /// The values that the variable takes, any two of which differ by a unit.
    pub values: Vec<u64>,
}

/// Replaces the values on a grid by the coefficients of the one polynomial that has them and whose degree in each
/// axis's variable is below the number of its points.
///
/// The values stand in the order of the places on the axes, the last axis fastest, and so do the coefficients, the
/// exponents being the places. The buffer holds one grid or several, one behind the other; what is in words behind the
/// last whole grid is not said. Nothing is allocated: the work is done in the first words of `work`.
pub fn interpolate_grid(m: Modulus, axes: &[Axis], buffer: &mut [u64], work: &mut [u64])
    requires axes { AreAxes (value_of m) (points_of axes.now) }
    requires fits { grid_size (points_of axes.now) ≤ length buffer.old }
    requires room { grid_work (points_of axes.now) ≤ length work.old }
    requires values { AreResidues (value_of m) buffer.old }
    ensures residues { AreResidues (value_of m) buffer.new }
    ensures values { let size = grid_size (points_of axes.now) in (q : ℕ) → suc q * size ≤ length buffer.old →
        HasGridValues (value_of m) (points_of axes.now) (λ i. slice_index buffer.new (q * size + i)) (λ i. slice_index buffer.old (q * size + i)) }
{
    let mut block = 1;
    for k in (0..axes.len()).rev() {
        let points = points_at(axes, k);
        interpolate_axis(m, points, block, buffer, work);
        block = points.len() * block;
    }
}

/// Two polynomials with the same values on a grid, each of lower degree on each axis than the number of its points, are
/// the same, coefficient by coefficient. It holds at every modulus but 0.
pub fn one_grid_interpolant()
    ensures { (m : ℕ) (axes : List (List ℕ)) (f g v : ℕ → ℕ) → 0 < m → AreAxes m axes → HasGridValues m axes f v → HasGridValues m axes g v →
        (i : ℕ) → i < grid_size axes → f i % m ≡ g i % m }
{}

/// The points of the axis at place `k`.
pub(crate) fn points_at(axes: &[Axis], k: usize) -> &[u64]
    requires { k < length axes.now }
    ensures { drop k (points_of axes.now) ≡ result.now ∷ drop (suc k) (points_of axes.now) }
{
    axes[k].values.as_slice()
}

/// Replaces the values in each column along one axis by the coefficients of the polynomial that has them. The places of
/// a column lie `block` words apart.
fn interpolate_axis(m: Modulus, points: &[u64], block: usize, buffer: &mut [u64], work: &mut [u64])
    requires axis { IsAxis (value_of m) points.now }
    requires block { 0 < block }
    requires fits { length points.now * block ≤ length buffer.old }
    requires room { length points.now * length points.now + 6 * length points.now + 4 ≤ length work.old }
    requires values { AreResidues (value_of m) buffer.old }
    ensures residues { AreResidues (value_of m) buffer.new }
    ensures along { let n = length points.now in (q i j : ℕ) → suc q * (n * block) ≤ length buffer.old → i < block → j < n →
        value_along n block (λ k. slice_index buffer.new (q * (n * block) + k)) (slice_index points.now j) i % value_of m ≡
        slice_index buffer.old (q * (n * block) + (j * block + i)) % value_of m }
{
    let count = points.len();
    let (basis, rest) = work.split_at_mut(count * count);
    let (column, rest) = rest.split_at_mut(count);
    let (combined, rest) = rest.split_at_mut(count);
    write_basis(m, points, basis, column, combined, rest);
    let groups = buffer.len() / (count * block);
    combine_columns(m, basis, block, groups, column, combined, buffer);
}

/// Writes the polynomials that are 1 at one point and 0 at the others: the row `i` of `basis` has their coefficients at
/// the power `i`.
fn write_basis(
    m: Modulus,
    points: &[u64],
    basis: &mut [u64],
    unit: &mut [u64],
    polynomial: &mut [u64],
    work: &mut [u64],
)
    requires axis { IsAxis (value_of m) points.now }
    requires square { length basis.old ≡ length points.now * length points.now }
    requires unit_length { length unit.old ≡ length points.now }
    requires polynomial_length { length polynomial.old ≡ length points.now }
    requires room { 4 * length points.now + 4 ≤ length work.old }
    ensures residues { AreResidues (value_of m) basis.new }
    ensures basis { AreOneAt (value_of m) (length points.now) (slice_index points.now) (length points.now) basis.new }
{
    basis.fill(0);
    for j in 0..points.len() {
        unit.fill(0);
        unit[j] = 1;
        newton_over(m, points, unit, work, polynomial);
        write_column(polynomial, j, points.len(), basis);
    }
}

/// Replaces each column by its combination with the rows of `basis`. The columns lie in `groups` groups, one behind the
/// other, of `block` columns each; the places of a column lie `block` words apart.
fn combine_columns(
    m: Modulus,
    basis: &[u64],
    block: usize,
    groups: usize,
    column: &mut [u64],
    combined: &mut [u64],
    buffer: &mut [u64],
)
    requires square { length basis.now ≡ length column.old * length column.old }
    requires combined_length { length combined.old ≡ length column.old }
    requires block { 0 < block }
    requires some { 0 < length column.old }
    requires one { length column.old * block ≤ length buffer.old }
    requires fits { groups * (length column.old * block) ≤ length buffer.old }
    requires basis { AreResidues (value_of m) basis.now }
    requires buffer { AreResidues (value_of m) buffer.old }
    ensures residues { AreResidues (value_of m) buffer.new }
    ensures combined { let n = length column.old in (q i j : ℕ) → q < groups → i < block → j < n →
        slice_index buffer.new (q * (n * block) + (j * block + i)) ≡
        sum_to n (λ h. slice_index basis.now (j * n + h) * slice_index buffer.old (q * (n * block) + (h * block + i))) % value_of m }
{
    let group_size = column.len() * block;
    for number in 0..groups * block {
        let start = number / block * group_size + number % block;
        read_column(buffer, start, block, column);
        combine(m, basis, column, combined);
        write_column(combined, start, block, buffer);
    }
}

/// Writes the entry of the buffer at `start` and those at each `stride` places further on to `column`.
fn read_column(buffer: &[u64], start: usize, stride: usize, column: &mut [u64])
    requires within { (i : ℕ) → i < length column.old → start + i * stride < length buffer.now }
    ensures { (i : ℕ) → i < length column.old → slice_index column.new i ≡ slice_index buffer.now (start + i * stride) }
{
    for i in 0..column.len() {
        column[i] = buffer[start + i * stride];
    }
}

/// Writes `column` to the place `start` of the buffer and to each `stride` places further on.
fn write_column(column: &[u64], start: usize, stride: usize, buffer: &mut [u64])
    requires stride { 0 < stride }
    requires within { (i : ℕ) → i < length column.now → start + i * stride < length buffer.old }
    ensures column { (i : ℕ) → i < length column.now → slice_index buffer.new (start + i * stride) ≡ slice_index column.now i }
    ensures others { (k : ℕ) → ((i : ℕ) → i < length column.now → k ≢ start + i * stride) → slice_index buffer.new k ≡ slice_index buffer.old k }
    ensures low { (m : ℕ) → AreResidues m column.now → AreResidues m buffer.old → AreResidues m buffer.new }
{
    for i in 0..column.len() {
        buffer[start + i * stride] = column[i];
    }
}

/// Writes the sum of the products of the entries of row `i` of `basis` and those of `column` to the place `i` of
/// `combined`.
fn combine(m: Modulus, basis: &[u64], column: &[u64], combined: &mut [u64])
    requires square { length basis.now ≡ length column.now * length column.now }
    requires combined_length { length combined.old ≡ length column.now }
    requires basis { AreResidues (value_of m) basis.now }
    requires column { AreResidues (value_of m) column.now }
    ensures residues { AreResidues (value_of m) combined.new }
    ensures combined { (i : ℕ) → i < length column.now →
        slice_index combined.new i ≡ sum_to (length column.now) (λ h. slice_index basis.now (i * length column.now + h) * slice_index column.now h) % value_of m }
{
    for i in 0..combined.len() {
        combined[i] = row_product(m, basis, i * column.len(), column);
    }
}

/// The sum of the products of the entries of `basis` from the place `first` on and those of `column`.
fn row_product(m: Modulus, basis: &[u64], first: usize, column: &[u64]) -> u64
    requires within { first + length column.now ≤ length basis.now }
    requires basis { AreResidues (value_of m) basis.now }
    requires column { AreResidues (value_of m) column.now }
    ensures sum { result ≡ sum_to (length column.now) (λ h. slice_index basis.now (first + h) * slice_index column.now h) % value_of m }
    ensures residue { result < value_of m }
{
    let mut sum = 0;
    for h in 0..column.len() {
        sum = fused(m, sum, basis[first + h], column[h]);
    }
    sum
}
