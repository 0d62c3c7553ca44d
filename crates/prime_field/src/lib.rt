//! Arithmetic modulo two primes that fit a machine word, 2^61 - 1 and 2^63 - 25.
//!
//! Residues are plain `u64`s below the modulus. No call allocates, and none divides numbers of 128 bits.
#![tactic(auto)]

ghost use Rattle.std.specs.Prelude.{◌≡◌, ◌≢◌, ℕ, ◌+◌, ◌-◌, ◌*◌, ◌%◌, ◌^◌, ◌<◌, pos, IfSome, IfNone, IsSome};
ghost use Rattle.std.specs.Int.{int_rem_euclid};
ghost use Rattle.prime_field.specs.Modulus.{value_of, number_of};
ghost use Rattle.prime_field.specs.Residue.{IsUnit, IsPrime, inverse};
ghost use Rattle.prime_field.specs.Sequence.{word};

mod batch;
mod field;
mod fold;

pub use field::{ByFirst, BySecond, Field};

/// A modulus: a number that residues are taken by.
///
/// That both are prime is used nowhere but in the one clause of [`Modulus::inv`] that names it.
#[derive(Clone, Copy, PartialEq, Eq, Debug)]
pub enum Modulus {
    /// 2^61 - 1
    First,
    /// 2^63 - 25
    Second,
}

impl Modulus {
    /// The modulus 2^61 - 1.
    pub fn first() -> Modulus
        ensures { result ≡ Modulus.First }
    {
        Modulus::First
    }

    /// The modulus 2^63 - 25.
    pub fn second() -> Modulus
        ensures { result ≡ Modulus.Second }
    {
        Modulus::Second
    }

    /// The modulus itself.
    pub fn value(&self) -> u64
        ensures { result ≡ value_of self.now }
    {
        match self {
            Modulus::First => fold::FIRST,
            Modulus::Second => fold::SECOND,
        }
    }

    /// 1 for the first modulus, 2 for the second.
    pub fn number(&self) -> u32
        ensures { result ≡ number_of self.now }
    {
        match self {
            Modulus::First => 1,
            Modulus::Second => 2,
        }
    }

    /// The sum of two residues.
    pub fn add(&self, a: u64, b: u64) -> u64
        requires left { a < value_of self.now }
        requires right { b < value_of self.now }
        ensures sum { result ≡ (a + b) % value_of self.now }
        ensures residue { result < value_of self.now }
    {
        let modulus = self.value();
        let sum = a + b;
        if sum >= modulus { sum - modulus } else { sum }
    }

    /// The difference of two residues, `a` less `b`.
    pub fn sub(&self, a: u64, b: u64) -> u64
        requires left { a < value_of self.now }
        requires right { b < value_of self.now }
        ensures difference { result ≡ (a + (value_of self.now - b)) % value_of self.now }
        ensures residue { result < value_of self.now }
    {
        if a >= b {
            a - b
        } else {
            a + (self.value() - b)
        }
    }

    /// The product of two residues.
    pub fn mul(&self, a: u64, b: u64) -> u64
        requires left { a < value_of self.now }
        requires right { b < value_of self.now }
        ensures product { result ≡ (a * b) % value_of self.now }
        ensures residue { result < value_of self.now }
    {
        let product = a as u128 * b as u128;
        match self {
            Modulus::First => fold::narrow_by_first(product),
            Modulus::Second => fold::by_second(product),
        }
    }

    /// The residue whose sum with `a` is 0.
    pub fn neg(&self, a: u64) -> u64
        requires { a < value_of self.now }
        ensures negative { result ≡ (value_of self.now - a) % value_of self.now }
        ensures residue { result < value_of self.now }
    {
        if a == 0 { 0 } else { self.value() - a }
    }

    /// The residue `a` to the power `e`; the power 0 is 1, that of 0 too.
    pub fn pow(&self, a: u64, e: u32) -> u64
        requires { a < value_of self.now }
        ensures power { result ≡ (a ^ e) % value_of self.now }
        ensures residue { result < value_of self.now }
    {
        let mut power = 1;
        let mut square = a;
        let mut rest = e;
        while rest > 0 {
            if rest % 2 == 1 {
                power = self.mul(power, square);
            }
            square = self.mul(square, square);
            rest /= 2;
        }
        power
    }

    /// The inverse of a residue, or None where it has none.
    pub fn inv(&self, a: u64) -> Option<u64>
        requires { a < value_of self.now }
        ensures residue { IfSome result (λ b. b < value_of self.now) }
        ensures inverse { IfSome result (λ b. (a * b) % value_of self.now ≡ 1) }
        ensures none { IfNone result (IsUnit (value_of self.now) a → ⊥) }
        ensures prime { IsPrime (value_of self.now) → a ≢ 0 → IsSome result }
        ensures value { result ≡ inverse (value_of self.now) a }
    {
        let mut above = self.value();
        let mut rest = a;
        let mut earlier = 0;
        let mut factor = 1;
        let mut is_negative = false;
        while rest > 1 {
            let quotient = above / rest;
            let remainder = above - quotient * rest;
            let next = earlier + quotient * factor;
            above = rest;
            rest = remainder;
            earlier = factor;
            factor = next;
            is_negative = !is_negative;
        }
        if rest != 1 {
            None
        } else if is_negative {
            Some(self.neg(factor))
        } else {
            Some(factor)
        }
    }

    /// What `n` leaves when it is divided by the modulus.
    pub fn reduce_u128(&self, n: u128) -> u64
        ensures remainder { result ≡ n % value_of self.now }
        ensures residue { result < value_of self.now }
    {
        match self {
            Modulus::First => fold::by_first(n),
            Modulus::Second => fold::by_second(n),
        }
    }

    /// The residue that differs from `n` by a multiple of the modulus.
    pub fn reduce_i128(&self, n: i128) -> u64
        ensures remainder { int_rem_euclid n (pos (value_of self.now)) ≡ pos result }
        ensures residue { result < value_of self.now }
    {
        let size = self.reduce_u128(n.unsigned_abs());
        if n < 0 { self.neg(size) } else { size }
    }
}

const MULTIPLIER: u64 = 6364136223846793005;

const INCREMENT: u64 = 1442695040888963407;

/// The word of number `k` in the sequence that sample points are made of; word 0 is 1.
///
/// It takes `k` steps.
pub fn sequence(k: u32) -> u64
    requires { k < 65536 }
    ensures { result ≡ word k }
{
    let mut current: u64 = 1;
    for _ in 0..k {
        current = current.wrapping_mul(MULTIPLIER).wrapping_add(INCREMENT);
    }
    current
}

#[cfg(test)]
mod tests {
    use super::*;

    fn may_be_shared<T: Send + Sync>(_value: &T) {}

    #[test]
    fn moduli_go_to_other_threads() {
        may_be_shared(&Modulus::first());
    }

    #[test]
    fn values_at_both_moduli(rt: HostRuntime) {
        let first = Modulus::first();
        let second = Modulus::second();
        assert_eq!(rt; (first.number(), first.value()), (1, 2305843009213693951));
        assert_eq!(rt; (second.number(), second.value()), (2, 9223372036854775783));

        assert_eq!(rt; first.mul(2305843009213693950, 2305843009213693950), 1);
        assert_eq!(rt; second.mul(9223372036854775782, 9223372036854775782), 1);
        assert_eq!(rt;
            first.mul(1234567890123456789, 987654321098765432),
            960075274131157676
        );
        assert_eq!(rt;
            second.mul(1234567890123456789, 987654321098765432),
            3736267369219444229
        );

        assert_eq!(rt; first.add(2305843009213693950, 1), 0);
        assert_eq!(rt;
            second.add(9223372036854775782, 9223372036854775782),
            9223372036854775781
        );
        assert_eq!(rt; first.sub(1, 2), 2305843009213693950);
        assert_eq!(rt; second.neg(0), 0);
    }

    #[test]
    fn powers(rt: HostRuntime) {
        let first = Modulus::first();
        let second = Modulus::second();
        assert_eq!(rt; first.pow(3, 1000), 1236409068333599307);
        assert_eq!(rt; second.pow(3, 1000), 1941952628735780551);
        assert_eq!(rt; second.pow(0, 0), 1);
    }

    #[test]
    fn inverses(rt: HostRuntime) {
        let first = Modulus::first();
        let second = Modulus::second();
        assert_eq!(rt; first.inv(2), Some(1152921504606846976));
        assert_eq!(rt; first.inv(3), Some(1537228672809129301));
        assert_eq!(rt; first.inv(1234567890123456789), Some(2179019607881955056));
        assert_eq!(rt; second.inv(2), Some(4611686018427387892));
        assert_eq!(rt; second.inv(3), Some(6148914691236517189));
        assert_eq!(rt; second.inv(1234567890123456789), Some(8179392165194571983));
        assert_eq!(rt; first.inv(0), None);
        assert_eq!(rt; second.inv(0), None);
    }

    #[test]
    fn wide_numbers(rt: HostRuntime) {
        let first = Modulus::first();
        let second = Modulus::second();
        assert_eq!(rt; first.reduce_u128(u128::MAX), 63);
        assert_eq!(rt; second.reduce_u128(u128::MAX), 2499);
        assert_eq!(rt; first.reduce_i128(i128::MIN), 2305843009213693919);
        assert_eq!(rt; second.reduce_i128(i128::MIN), 9223372036854774533);
        assert_eq!(rt; first.reduce_i128(-1), 2305843009213693950);
        assert_eq!(rt; second.reduce_i128(i128::MAX), 1249);
    }

    #[test]
    fn sums_of_products_by_each_modulus(rt: HostRuntime) {
        let first = 2305843009213693950_u128 * 2305843009213693950;
        let second = 9223372036854775782_u128 * 9223372036854775782;
        assert_eq!(rt; ByFirst.fold(4 * first), 4);
        assert_eq!(rt; BySecond.fold(4 * second), 4);
        assert_eq!(rt; ByFirst.add(ByFirst.value() - 1, 1), 0);
        assert_eq!(rt; BySecond.add(BySecond.value() - 1, 2), 1);
        assert_eq!(rt;
            ByFirst.mul(1234567890123456789, 987654321098765432),
            960075274131157676
        );
        assert_eq!(rt;
            BySecond.mul(1234567890123456789, 987654321098765432),
            3736267369219444229
        );
    }

    #[test]
    fn words(rt: HostRuntime) {
        assert_eq!(rt; sequence(0), 1);
        assert_eq!(rt; sequence(1), 7806831264735756412);
        assert_eq!(rt; sequence(192), 2331237824956985025);
        assert_eq!(rt; sequence(65535), 9716881011205109946);
    }

    #[test]
    fn many_inverses(rt: HostRuntime) {
        let second = Modulus::second();
        let mut xs = [1, 2, 3, 9223372036854775782, 1000000007];
        let mut scratch = [0; 5];
        assert!(rt; second.inv_all(&mut xs, &mut scratch));
        assert_eq!(rt;
            xs,
            [
                1,
                4611686018427387892,
                6148914691236517189,
                9223372036854775782,
                6450836060407760531
            ]
        );

        let mut with_zero = [5, 0, 7];
        assert!(rt; !second.inv_all(&mut with_zero, &mut [0; 3]));
        assert_eq!(rt; with_zero, [5, 0, 7]);
        assert!(rt; second.inv_all(&mut [], &mut []));
    }
}
