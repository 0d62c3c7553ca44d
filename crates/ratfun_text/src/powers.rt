//! Powers of arguments, each of which is kept once it is known.
ghost use Rattle.std.specs.Prelude.{◌≡◌, ℕ, ◌%◌, ◌^◌, ◌<◌, All, IfSome, List, Some};
ghost use Rattle.std.specs.Option.{option_map};
ghost use Rattle.ratfun_text.specs.Powers.{IsPower};
ghost use Rattle.ratfun_text.specs.Value.{argument};

use crate::arithmetic::pow;
use prime_field::Field;

/// How many powers are kept.
const KEPT: usize = 64;

/// How many exponents of an argument have places of their own before those of the next argument.
const EXPONENTS: usize = 16;

/// A power of an argument.
#[derive(Clone, Copy)]
pub struct KnownPower {
    /// The place of the argument, counted from 1; at 0 there is none.
    place: u32,
    exponent: u32,
    value: u64,
}

/// The argument at a place counted from 1.
#[inline]
pub fn argument(args: &[u64], place: u32) -> Option<u64>
    ensures { result ≡ argument args.now place }
{
    let index = place.checked_sub(1)?;
    args.get(index as usize).copied()
}

/// Room for powers, of which none is known.
#[inline]
pub fn no_powers() -> [KnownPower; KEPT]
    ensures { (m : ℕ) (args : List ℕ) → All (IsPower m args) result }
{
    [KnownPower {
        place: 0,
        exponent: 0,
        value: 0,
    }; KEPT]
}

/// The power of an argument, from those that are kept or computed and kept in the place of another.
#[inline]
pub fn power<F: Field>(
    field: F,
    args: &[u64],
    place: u32,
    exponent: u32,
    kept: &mut [KnownPower],
) -> Option<u64>
    requires residues { All (λ a. a < F.modulus) args.now }
    requires kept { All (IsPower F.modulus args.now) kept.old }
    ensures value { result ≡ option_map (λ base. (base ^ exponent) % F.modulus) (argument args.now place) }
    ensures residue { IfSome result (λ v. v < F.modulus) }
    ensures kept { All (IsPower F.modulus args.now) kept.new }
{
    let base = argument(args, place)?;
    let at = (place as usize * EXPONENTS + exponent as usize) % KEPT;
    if at < kept.len() {
        let found = kept[at];
        if found.place == place && found.exponent == exponent {
            return Some(found.value);
        }
    }
    Some(computed(field, base, place, exponent, at, kept))
}

/// A power that is not kept: it is computed, and kept at `at` where there is room. It stands apart, so that the way of one
/// that is kept already stays short.
#[inline(never)]
fn computed<F: Field>(
    field: F,
    base: u64,
    place: u32,
    exponent: u32,
    at: usize,
    kept: &mut [KnownPower],
) -> u64
    requires { base < F.modulus }
    ensures power { result ≡ (base ^ exponent) % F.modulus }
    ensures residue { result < F.modulus }
    ensures kept { (args : List ℕ) → argument args place ≡ Some base → All (IsPower F.modulus args) kept.old → All (IsPower F.modulus args) kept.new }
{
    let value = pow(field, base, exponent);
    if at < kept.len() {
        kept[at] = KnownPower {
            place,
            exponent,
            value,
        };
    }
    value
}
