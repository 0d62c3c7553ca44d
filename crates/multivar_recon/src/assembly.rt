//! The polynomial in all variables whose terms of each degree are told at the directions of rays.

ghost use Rattle.std.specs.Prelude.{◌≡◌, ℕ, ◌+◌, ◌-◌, ◌*◌, ◌%◌, ◌<◌, ◌≤◌, IfNone, IfOk, IfSome, IsTrue, List, false, length, slice_index};
ghost use Rattle.prime_field.specs.Modulus.{value_of};
ghost use Rattle.univariate.specs.Coefficients.{AreResidues as AreResidueWords};
ghost use Rattle.poly_maps.specs.Mono.{degree};
ghost use Rattle.poly_maps.specs.Moved.{moved};
ghost use Rattle.poly_maps.specs.Polynomial.{coefficient, AreResidues, IsPolynomial};
ghost use Rattle.poly_maps.specs.Shifted.{negatives};
ghost use Rattle.newton_interp.specs.Grid.{points_of, grid_size};
ghost use Rattle.newton_interp.specs.GridPoints.{AreNamed, IsAbsent, exponents_at};
ghost use Rattle.multivar_recon.specs.Assembly.{assembled, filled, HaveDegrees};
ghost use Rattle.multivar_recon.specs.Parts.{AddsPart, IsLowRow};
ghost use Rattle.multivar_recon.specs.Tables.{row_terms};

use crate::NoMemory;
use newton_interp::Axis;
use poly_maps::{Mono, Point, Poly};
use prime_field::Modulus;
use std::alloc::Global;

/// The polynomial that at x + s has in degree k the terms whose coefficients, where the first variable is 1, stand in row
/// `k` of the table: one for each combination of places on the axes. None where a row has one of a degree above k.
pub(crate) fn assemble(
    alloc: Global,
    m: Modulus,
    axes: &[Axis],
    start: &Point,
    rows: usize,
    table: &[u64],
) -> Result<Option<Poly>, NoMemory>
    requires named { AreNamed axes.now }
    requires first { IsAbsent 1 axes.now }
    requires some { 1 ≤ rows }
    requires few { rows ≤ 257 }
    requires room { length table.now ≡ rows * grid_size (points_of axes.now) }
    requires residues { AreResidueWords (value_of m) table.now }
    ensures coefficients { IfOk result (λ found. IfSome found (λ p. (e : List ℕ) →
        coefficient e p ≡ coefficient e (moved (negatives (value_of m) start.now) (assembled rows (row_terms axes.now table.now))) % value_of m)) }
    ensures polynomial { IfOk result (λ found. IfSome found IsPolynomial) }
    ensures residues { IfOk result (λ found. IfSome found (AreResidues (value_of m))) }
    ensures degrees { IfOk result (λ found. IfSome found (λ p. HaveDegrees (value_of m) (rows - 1) (row_terms axes.now table.now))) }
    ensures none { IfOk result (λ found. IfNone found (HaveDegrees (value_of m) (rows - 1) (row_terms axes.now table.now) → ⊥)) }
{
    let width = table.len() / rows;
    let mut terms = Vec::new(alloc);
    for k in 0..rows {
        let row = &table[k * width..k * width + width];
        if !push_part(axes, row, k as u32, &mut terms)? {
            return Ok(None);
        }
    }
    let polynomial = Poly::from_terms(m, terms)?.shift_back(m, start)?;
    Ok(Some(polynomial))
}

/// Appends the terms with the coefficients of a row, made homogeneous of degree `k` by the first variable. False where one
/// has a higher degree.
fn push_part(
    axes: &[Axis],
    row: &[u64],
    k: u32,
    terms: &mut Vec<(Mono, u64)>,
) -> Result<bool, NoMemory>
    requires named { AreNamed axes.now }
    requires first { IsAbsent 1 axes.now }
    requires room { length row.now ≤ grid_size (points_of axes.now) }
    requires few { k < 65536 }
    ensures pushed { IfOk result (λ whole. IsTrue whole → AddsPart axes.now k (slice_index row.now) (length row.now) terms.old.items terms.new.items) }
    ensures low { IfOk result (λ whole. IsTrue whole → IsLowRow axes.now k (slice_index row.now) (length row.now)) }
    ensures high { IfOk result (λ whole. whole ≡ false → IsLowRow axes.now k (slice_index row.now) (length row.now) → ⊥) }
{
    for (place, coefficient) in row.iter().enumerate() {
        if *coefficient != 0 {
            let mono = mono_at(axes, place);
            if mono.total() > k {
                return Ok(false);
            }
            terms.push((filled(&mono, k), *coefficient))?;
        }
    }
    Ok(true)
}

/// The monomial, in which the first variable does not stand, with the exponent there that makes its degree `k`.
fn filled(mono: &Mono, k: u32) -> Mono
    requires first { slice_index mono.now 0 ≡ 0 }
    requires low { degree mono.now ≤ k }
    requires few { k < 65536 }
    ensures { result ≡ filled k mono.now }
{
    let mut exponents = *mono.exponents();
    exponents[0] = (k - mono.total()) as u16;
    Mono::new(exponents)
}

/// The monomial whose exponents are the places on the axes of the combination `place`.
fn mono_at(axes: &[Axis], place: usize) -> Mono
    requires named { AreNamed axes.now }
    requires place { place < grid_size (points_of axes.now) }
    ensures { result ≡ exponents_at axes.now place }
{
    let mut exponents = [0; 8];
    let mut rest = place;
    for k in (0..axes.len()).rev() {
        let axis = &axes[k];
        let count = axis.values.len();
        exponents[axis.variable as usize - 1] = (rest % count) as u16;
        rest /= count;
    }
    Mono::new(exponents)
}
