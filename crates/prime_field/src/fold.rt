//! Remainders of 128-bit numbers by the two moduli, with no division.
//!
//! Since 2^61 leaves 1 modulo 2^61 - 1, the bits from 61 on may be added to the bits below them. Since 2^63 leaves 25
//! modulo 2^63 - 25, the bits from 63 on may be added 25 times to those below, and those from 64 on 50 times, which is where
//! a processor parts a product.

ghost use Rattle.std.specs.Prelude.{◌≡◌, ◌*◌, ◌%◌, ◌^◌, ◌<◌};

/// 2^61 - 1
pub const FIRST: u64 = 2305843009213693951;

/// 2^63 - 25
pub const SECOND: u64 = 9223372036854775783;

/// The remainder by 2^61 - 1 of a number whose bits from 61 on are a residue, as in a product of two residues.
pub fn narrow_by_first(n: u128) -> u64
    requires { n < 2305843009213693951 * 2 ^ 61 }
    ensures { result ≡ n % 2305843009213693951 }
{
    let high = (n >> 61) as u64;
    let low = (n & 0x1fff_ffff_ffff_ffff) as u64;
    let sum = high + low;
    if sum >= FIRST { sum - FIRST } else { sum }
}

/// The remainder by 2^61 - 1.
pub fn by_first(n: u128) -> u64
    ensures { result ≡ n % 2305843009213693951 }
{
    narrow_by_first((n >> 61) + (n & 0x1fff_ffff_ffff_ffff))
}

/// The remainder by 2^61 - 1 of a sum of four products of two residues.
pub fn few_by_first(n: u128) -> u64
    requires { n < 4 * (2305843009213693951 * 2305843009213693951) }
    ensures { result ≡ n % 2305843009213693951 }
{
    let wide = (n >> 61) as u64 + (n & 0x1fff_ffff_ffff_ffff) as u64;
    let sum = (wide >> 61) + (wide & 0x1fff_ffff_ffff_ffff);
    if sum < FIRST { sum } else { sum - FIRST }
}

/// The remainder by 2^63 - 25.
pub fn by_second(n: u128) -> u64
    ensures { result ≡ n % 9223372036854775783 }
{
    let wide = 50 * (n >> 64) + (n & 0xffff_ffff_ffff_ffff);
    let high = (wide >> 63) as u64;
    let low = (wide & 0x7fff_ffff_ffff_ffff) as u64;
    let sum = 25 * high + low;
    if sum >= SECOND { sum - SECOND } else { sum }
}
