//! Sums of a few products, folded once.

ghost use Rattle.std.specs.Prelude.{◌≡◌, ◌+◌, ◌*◌, ◌%◌, ◌<◌};
ghost use Rattle.prime_field.specs.Modulus.{value_of};

use prime_field::Modulus;

/// The residue of `summand + a * b + c * d`.
pub fn fused_two(m: Modulus, summand: u64, a: u64, b: u64, c: u64, d: u64) -> u64
    requires summand { summand < value_of m }
    requires a { a < value_of m }
    requires b { b < value_of m }
    requires c { c < value_of m }
    requires d { d < value_of m }
    ensures sum { result ≡ (summand + a * b + c * d) % value_of m }
    ensures residue { result < value_of m }
{
    m.reduce_u128(summand as u128 + a as u128 * b as u128 + c as u128 * d as u128)
}

/// The residue of `a * b + c * d + e * f`.
pub(crate) fn fused_three(m: Modulus, a: u64, b: u64, c: u64, d: u64, e: u64, f: u64) -> u64
    requires a { a < value_of m }
    requires b { b < value_of m }
    requires c { c < value_of m }
    requires d { d < value_of m }
    requires e { e < value_of m }
    requires f { f < value_of m }
    ensures sum { result ≡ (a * b + c * d + e * f) % value_of m }
    ensures residue { result < value_of m }
{
    m.reduce_u128(a as u128 * b as u128 + c as u128 * d as u128 + e as u128 * f as u128)
}
