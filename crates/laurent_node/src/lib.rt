//! The coefficients of a quotient's expansion in powers of its variable, from a given order to another.
#![tactic(auto)]

ghost use Rattle.std.specs.Prelude.{◌≡◌, ℕ, ℤ, pos, negsuc, ◌+◌, ◌-◌, ◌*◌, ◌%◌, ◌<◌, ◌≤ℤ◌, ◌↔◌, List, ◌∷◌, IsTrue, OnOk, OnErr, length, slice_index};
ghost use Rattle.prime_field.specs.Modulus.{value_of};
ghost use Rattle.prime_field.specs.Residue.{IsPrime, IsUnit};
ghost use Rattle.univariate.specs.Coefficients.{AreResidues};
ghost use Rattle.laurent_node.specs.Expansion.{place, IsLeastExponent, IsExpansion};

mod terms;

use prime_field::Modulus;
use terms::{least_exponent, place_of, vanishes_before, write_expansion};

/// The expansion has a coefficient other than 0 below the first order that is asked for.
#[derive(Clone, Copy, PartialEq, Eq, Debug)]
pub struct Pole;

/// Writes the coefficients of the expansion of `num / den` at the orders from `lo` to `hi`, which are from -64 to 64.
///
/// They are the numbers whose product with the denominator is the numerator, at each order up to the least exponent
/// of the denominator past `hi`. The two polynomials may have common factors. `Pole` where there are no such numbers;
/// `out` is then as it was.
pub fn expand(
    m: Modulus,
    num: &[u64],
    den: &[u64],
    lo: i32,
    hi: i32,
    out: &mut [u64],
) -> Result<(), Pole>
    requires num { AreResidues (value_of m) num.now }
    requires den { AreResidues (value_of m) den.now }
    requires some { ((k : ℕ) → slice_index den.now k ≡ 0) → ⊥ }
    requires lowest { negsuc 63 ≤ℤ lo }
    requires ordered { lo ≤ℤ hi }
    requires highest { hi ≤ℤ pos 64 }
    requires room { length out.old + place lo ≡ place hi + 1 }
    ensures ok { OnOk result ((e : ℕ) → IsLeastExponent e den.now → IsExpansion (value_of m) num.now den.now e (place lo) out.new) }
    ensures pole { OnErr result (IsPrime (value_of m) → (e : ℕ) → IsLeastExponent e den.now → (c : List ℕ) → length c ≡ length out.old →
        IsExpansion (value_of m) num.now den.now e (place lo) c → ⊥) }
    ensures unchanged { OnErr result (out.new ≡ out.old) }
{
    let least = least_exponent(den);
    let first = place_of(lo) + least;
    if !vanishes_before(num, first) {
        return Err(Pole);
    }
    match m.inv(den[least]) {
        None => Err(Pole),
        Some(inverse) => {
            let count = place_of(hi) + 1 - place_of(lo);
            write_expansion(m, num, &den[least + 1..], first, inverse, count, out);
            Ok(())
        }
    }
}

/// There is one expansion, where the denominator's first coefficient is a unit, as it is at each prime modulus.
pub fn one_expansion()
    ensures { (m : ℕ) (num den : List ℕ) (e lo : ℕ) (c d : List ℕ) → IsLeastExponent e den → IsUnit m (slice_index den e) →
        length c ≡ length d → IsExpansion m num den e lo c → IsExpansion m num den e lo d → c ≡ d }
{}

#[cfg(test)]
mod tests;
