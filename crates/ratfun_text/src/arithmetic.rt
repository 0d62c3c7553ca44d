//! What values ask of a field beside its sums and products.
ghost use Rattle.std.specs.Prelude.{◌≡◌, ◌+◌, ◌-◌, ◌%◌, ◌^◌, ◌<◌, ◌≤◌, IfSome, if◌then◌else◌};
ghost use Rattle.prime_field.specs.Residue.{inverse};

use prime_field::{ByFirst, BySecond, Field, Modulus};

/// A field whose units can be inverted.
pub trait Inverses: Field {
    /// The inverse of a residue, or None where it has none.
    fn inv(self, a: u64) -> Option<u64>
        requires { a < Self.modulus }
        ensures value { result ≡ inverse Self.modulus a }
        ensures residue { IfSome result (λ b. b < Self.modulus) };
}

impl Inverses for ByFirst {
    fn inv(self, a: u64) -> Option<u64> {
        Modulus::First.inv(a)
    }
}

impl Inverses for BySecond {
    fn inv(self, a: u64) -> Option<u64> {
        Modulus::Second.inv(a)
    }
}

/// What is left of a number, which mostly is a residue as it stands.
#[inline]
pub fn number<F: Field>(field: F, n: u128) -> u64
    ensures remainder { result ≡ n % F.modulus }
    ensures residue { result < F.modulus }
{
    if n < field.value() as u128 {
        n as u64
    } else {
        field.reduce(n)
    }
}

/// The residue whose sum with `a` is 0.
#[inline]
pub fn neg<F: Field>(field: F, a: u64) -> u64
    requires { a < F.modulus }
    ensures negative { result ≡ (F.modulus - a) % F.modulus }
    ensures residue { result < F.modulus }
{
    if a == 0 { 0 } else { field.value() - a }
}

/// The sum of two residues, or with `minus` their difference.
#[inline]
pub fn added<F: Field>(field: F, sum: u64, minus: bool, value: u64) -> u64
    requires sum { sum < F.modulus }
    requires value { value < F.modulus }
    ensures sum { result ≡ (sum + (if minus then F.modulus - value else value)) % F.modulus }
    ensures residue { result < F.modulus }
{
    let modulus = field.value();
    let total = sum + signed(modulus, minus, value);
    if total >= modulus {
        total - modulus
    } else {
        total
    }
}

/// A value, or with `minus` what it lacks to the modulus.
#[inline]
fn signed(modulus: u64, minus: bool, value: u64) -> u64
    requires { value < modulus }
    ensures signed { result ≡ (if minus then modulus - value else value) }
    ensures low { result ≤ modulus }
{
    if minus { modulus - value } else { value }
}

/// The residue `a` to the power `e`; the power 0 is 1, that of 0 too.
pub fn pow<F: Field>(field: F, a: u64, e: u32) -> u64
    requires { a < F.modulus }
    ensures power { result ≡ (a ^ e) % F.modulus }
    ensures residue { result < F.modulus }
{
    let mut power = 1;
    let mut square = a;
    let mut rest = e;
    while rest > 0 {
        if rest % 2 == 1 {
            power = field.mul(power, square);
        }
        square = field.mul(square, square);
        rest /= 2;
    }
    power
}
