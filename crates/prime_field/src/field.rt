//! The same arithmetic by a modulus that is known where the code is built, for loops that are not to ask for it at each step.

ghost use Rattle.std.specs.Prelude.{◌≡◌, ℕ, ◌+◌, ◌-◌, ◌*◌, ◌%◌, ◌^◌, ◌<◌};
ghost use Rattle.std.proofs.Common.{rules};

use crate::fold;

/// The residues by one modulus, as a field.
pub trait Field: Copy {
    ghost modulus: { ℕ };

    /// The modulus itself.
    fn value(self) -> u64
        ensures { result ≡ modulus };

    /// The sum of two residues.
    fn add(self, a: u64, b: u64) -> u64
        requires left { a < modulus }
        requires right { b < modulus }
        ensures sum { result ≡ (a + b) % modulus }
        ensures residue { result < modulus };

    /// The product of two residues.
    fn mul(self, a: u64, b: u64) -> u64
        requires left { a < modulus }
        requires right { b < modulus }
        ensures product { result ≡ (a * b) % modulus }
        ensures residue { result < modulus };

    /// What a sum of as many as four products of two residues leaves, or of a residue and four products.
    fn fold(self, sum: u128) -> u64
        requires { sum < 4 * (modulus * modulus) }
        ensures remainder { result ≡ sum % modulus }
        ensures residue { result < modulus };

    /// What is left of any number.
    fn reduce(self, n: u128) -> u64
        ensures remainder { result ≡ n % modulus }
        ensures residue { result < modulus };

    ghost large: { 1 < modulus };

    ghost narrow: { modulus < 2 ^ 63 };
}

/// The field of residues by 2^61 - 1.
#[derive(Clone, Copy, Debug)]
pub struct ByFirst;

/// The field of residues by 2^63 - 25.
#[derive(Clone, Copy, Debug)]
pub struct BySecond;

impl Field for ByFirst {
    ghost modulus = { 2305843009213693951 };

    fn value(self) -> u64 {
        fold::FIRST
    }

    fn add(self, a: u64, b: u64) -> u64 {
        let sum = a + b;
        if sum >= fold::FIRST {
            sum - fold::FIRST
        } else {
            sum
        }
    }

    fn mul(self, a: u64, b: u64) -> u64 {
        fold::narrow_by_first(a as u128 * b as u128)
    }

    fn fold(self, sum: u128) -> u64 {
        fold::few_by_first(sum)
    }

    fn reduce(self, n: u128) -> u64 {
        fold::by_first(n)
    }

    ghost large = { Prim.search rules };

    ghost narrow = { Prim.search rules };
}

impl Field for BySecond {
    ghost modulus = { 9223372036854775783 };

    fn value(self) -> u64 {
        fold::SECOND
    }

    fn add(self, a: u64, b: u64) -> u64 {
        let sum = a + b;
        if sum >= fold::SECOND {
            sum - fold::SECOND
        } else {
            sum
        }
    }

    fn mul(self, a: u64, b: u64) -> u64 {
        fold::by_second(a as u128 * b as u128)
    }

    fn fold(self, sum: u128) -> u64 {
        fold::by_second(sum)
    }

    fn reduce(self, n: u128) -> u64 {
        fold::by_second(n)
    }

    ghost large = { Prim.search rules };

    ghost narrow = { Prim.search rules };
}
