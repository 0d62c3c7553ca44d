//! Powers of a point's entries, computed once for all terms of a polynomial.

ghost use Rattle.std.specs.Prelude.{◌≡◌, ℕ, ◌%◌, ◌^◌, ◌<◌, List, slice_index};
ghost use Rattle.prime_field.specs.Modulus.{value_of};
ghost use Rattle.poly_maps.specs.Mono.{mono_value};
ghost use Rattle.poly_maps.specs.Powers.{ArePowers, AreTables};

use crate::{Mono, Point};
use prime_field::Modulus;

/// How many powers of an entry are kept.
const KEPT: usize = 65;

/// The powers of a point's entries. Those up to an exponent that is at most 64 are kept, and higher ones computed anew.
#[derive(Drop)]
pub(crate) struct Powers {
    modulus: Modulus,
    bases: [u64; 8],
    top: usize,
    tables: [[u64; KEPT]; 8],
    ghost filled: { AreTables (value_of modulus) bases top tables },
}

impl Powers {
    /// The powers of the point's entries, those up to the exponent `greatest` kept where it is at most 64.
    pub(crate) fn of(m: Modulus, point: &Point, greatest: u32) -> Powers
        ensures modulus { result.modulus ≡ m }
        ensures values { (e : List ℕ) → mono_value e result.bases ≡ mono_value e point.now }
    {
        let entries = point.entries();
        let mut bases = [0; 8];
        bases[..entries.len()].copy_from_slice(entries);
        let top = if greatest < 64 { greatest as usize } else { 64 };
        let mut tables = [[0; KEPT]; 8];
        for i in 0..8 {
            tables[i] = table_of(m, bases[i], top);
        }
        Powers {
            modulus: m,
            bases,
            top,
            tables,
        }
    }

    /// The power `k` of the entry `i`, counted from 0.
    fn power(&self, i: usize, k: u16) -> u64
        requires { i < 8 }
        ensures power { result ≡ (slice_index self.now.bases i ^ k) % value_of self.now.modulus }
        ensures residue { result < value_of self.now.modulus }
    {
        if k as usize <= self.top {
            self.tables[i][k as usize]
        } else {
            self.modulus.pow(self.bases[i], k as u32)
        }
    }

    /// The value of a monomial at the point.
    pub(crate) fn value(&self, mono: &Mono) -> u64
        ensures value { result ≡ mono_value mono.now self.now.bases % value_of self.now.modulus }
        ensures residue { result < value_of self.now.modulus }
    {
        let exponents = mono.exponents();
        let mut product = 1;
        for i in 0..8 {
            if exponents[i] > 0 {
                product = self.modulus.mul(product, self.power(i, exponents[i]));
            }
        }
        product
    }
}

/// The powers of the base up to the exponent `top`, at the places of their exponents.
fn table_of(m: Modulus, base: u64, top: usize) -> [u64; KEPT]
    requires room { top < 65 }
    requires residue { base < value_of m }
    ensures { ArePowers (value_of m) base top result }
{
    let mut table = [0; KEPT];
    let mut power = 1;
    for k in 0..top + 1 {
        table[k] = power;
        power = m.mul(power, base);
    }
    table
}
