//! Newton's form, two points at a time: each further point adds a multiple of the product over the points before it.
//!
//! The multiple wants a division by the product of the point's differences from those before it. All is multiplied by
//! these products in place of that, and divided by their product at the end, with one inverse.

ghost use Rattle.std.specs.Prelude.{◌≡◌, ℕ, suc, ◌+◌, ◌*◌, ◌%◌, ◌<◌, ◌≤◌, length, slice_index};
ghost use Rattle.prime_field.specs.Modulus.{value_of};
ghost use Rattle.prime_field.specs.Residue.{IsUnit};
ghost use Rattle.univariate.specs.Univariate.{AreApart};
ghost use Rattle.univariate.specs.Coefficients.{AreResidues};
ghost use Rattle.newton_interp.specs.Interpolation.{IsInterpolant, IsProductOf};
ghost use Rattle.newton_interp.specs.Stage.{IsStage, Wants, AreWords};

use crate::passes::{add_to_later, raise_both, take_first};
use crate::sums::fused_two;
use prime_field::Modulus;
use univariate::scale;

/// Writes the polynomial of degree below the number of points with these values to `out`, and the product of the
/// variable less each point to `product`, which has a place more at least. Any two points differ by a unit.
///
/// `spread` and `missing` are room to work in, as long as the points; what they hold doesn't matter.
pub fn interpolate(
    m: Modulus,
    points: &[u64],
    values: &[u64],
    spread: &mut [u64],
    missing: &mut [u64],
    product: &mut [u64],
    out: &mut [u64],
)
    requires values_length { length values.now ≡ length points.now }
    requires spread_length { length spread.old ≡ length points.now }
    requires missing_length { length missing.old ≡ length points.now }
    requires product_length { length points.now < length product.old }
    requires out_length { length points.now ≤ length out.old }
    requires points { AreResidues (value_of m) points.now }
    requires values { AreResidues (value_of m) values.now }
    requires apart { AreApart (value_of m) (length points.now) (slice_index points.now) }
    ensures out { IsInterpolant (value_of m) (length points.now) (slice_index points.now) (slice_index values.now) out.new }
    ensures product { IsProductOf (value_of m) (length points.now) (slice_index points.now) product.new }
{
    begin(m, points, values, spread, missing, product, out);
    let factor = add_pairs(m, points, spread, missing, product, out);
    let inverse = m.inv(factor).unwrap();
    scale(m, out, inverse);
}

/// Begins with no point where there is an even number, and with the first point where there is an odd number.
fn begin(
    m: Modulus,
    points: &[u64],
    values: &[u64],
    spread: &mut [u64],
    missing: &mut [u64],
    product: &mut [u64],
    out: &mut [u64],
)
    requires values_length { length values.now ≡ length points.now }
    requires spread_length { length spread.old ≡ length points.now }
    requires missing_length { length missing.old ≡ length points.now }
    requires product_length { length points.now < length product.old }
    requires out_length { length points.now ≤ length out.old }
    requires points { AreResidues (value_of m) points.now }
    requires values { AreResidues (value_of m) values.now }
    ensures words { AreWords (value_of m) spread.new missing.new product.new out.new }
    ensures stage { let n = length points.now in IsStage (value_of m) n (n % 2) (slice_index points.now) (slice_index spread.new) product.new out.new }
    ensures wants { let n = length points.now in
        Wants (value_of m) n (n % 2) (slice_index points.now) (slice_index values.now) (slice_index missing.new) out.new }
{
    out.fill(0);
    product.fill(0);
    if points.len() % 2 == 0 {
        spread.fill(1);
        missing.copy_from_slice(values);
        product[0] = 1;
    } else {
        take_first(m, points, spread);
        take_first(m, values, missing);
        product[0] = m.neg(points[0]);
        product[1] = 1;
        out[0] = values[0];
    }
}

/// Adds the points two at a time. Answers by what the polynomial and its values are multiplied.
fn add_pairs(
    m: Modulus,
    points: &[u64],
    spread: &mut [u64],
    missing: &mut [u64],
    product: &mut [u64],
    out: &mut [u64],
) -> u64
    requires spread_length { length spread.old ≡ length points.now }
    requires missing_length { length missing.old ≡ length points.now }
    requires product_length { length points.now < length product.old }
    requires out_length { length points.now ≤ length out.old }
    requires points { AreResidues (value_of m) points.now }
    requires apart { AreApart (value_of m) (length points.now) (slice_index points.now) }
    requires words { AreWords (value_of m) spread.old missing.old product.old out.old }
    requires stage { let n = length points.now in IsStage (value_of m) n (n % 2) (slice_index points.now) (slice_index spread.old) product.old out.old }
    ensures residue { result < value_of m }
    ensures unit { IsUnit (value_of m) result }
    ensures words { AreWords (value_of m) spread.new missing.new product.new out.new }
    ensures stage { let n = length points.now in IsStage (value_of m) n n (slice_index points.now) (slice_index spread.new) product.new out.new }
    ensures wants { let n = length points.now in (v : ℕ → ℕ) →
        Wants (value_of m) n (n % 2) (slice_index points.now) v (slice_index missing.old) out.old →
        Wants (value_of m) n n (slice_index points.now) (λ i. result * v i) (slice_index missing.new) out.new }
{
    let mut factor = 1;
    for pair in 0..points.len() / 2 {
        let k = points.len() % 2 + 2 * pair;
        factor = m.mul(
            add_pair(m, points, k, spread, missing, product, out),
            factor,
        );
    }
    factor
}

/// Adds points `k` and `k + 1`. Answers by what the polynomial and its values are multiplied.
fn add_pair(
    m: Modulus,
    points: &[u64],
    k: usize,
    spread: &mut [u64],
    missing: &mut [u64],
    product: &mut [u64],
    out: &mut [u64],
) -> u64
    requires place { suc k < length points.now }
    requires spread_length { length spread.old ≡ length points.now }
    requires missing_length { length missing.old ≡ length points.now }
    requires product_length { length points.now < length product.old }
    requires out_length { length points.now ≤ length out.old }
    requires points { AreResidues (value_of m) points.now }
    requires apart { AreApart (value_of m) (length points.now) (slice_index points.now) }
    requires words { AreWords (value_of m) spread.old missing.old product.old out.old }
    requires stage { IsStage (value_of m) (length points.now) k (slice_index points.now) (slice_index spread.old) product.old out.old }
    ensures residue { result < value_of m }
    ensures unit { IsUnit (value_of m) result }
    ensures words { AreWords (value_of m) spread.new missing.new product.new out.new }
    ensures stage { IsStage (value_of m) (length points.now) (suc (suc k)) (slice_index points.now) (slice_index spread.new) product.new out.new }
    ensures wants { (v : ℕ → ℕ) → Wants (value_of m) (length points.now) k (slice_index points.now) v (slice_index missing.old) out.old →
        Wants (value_of m) (length points.now) (suc (suc k)) (slice_index points.now) (λ i. result * v i) (slice_index missing.new) out.new }
{
    let here = m.neg(points[k]);
    let next = m.neg(points[k + 1]);
    let own = spread[k];
    let wanting = missing[k];
    let opposite = m.neg(wanting);
    let next_own = m.mul(spread[k + 1], m.sub(points[k + 1], points[k]));
    let next_wanting = fused_two(m, 0, own, missing[k + 1], opposite, spread[k + 1]);
    let both = m.mul(own, next_own);
    let low = fused_two(m, 0, next_own, wanting, next_wanting, here);
    let first = m.mul(next_own, opposite);
    let second = m.neg(next_wanting);
    add_to_later(m, points, k, both, first, second, spread, missing);
    let linear = m.add(here, next);
    let constant = m.mul(here, next);
    raise_both(
        m,
        k,
        linear,
        constant,
        both,
        low,
        next_wanting,
        product,
        out,
    );
    both
}
