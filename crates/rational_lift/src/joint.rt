//! One number for two residues.

ghost use Rattle.std.specs.Prelude.{◌≡◌, ℕ, ◌<◌};
ghost use Rattle.prime_field.specs.declared.Modulus.TheVariants.{First, Second};
ghost use Rattle.prime_field.specs.Modulus.{value_of};
ghost use Rattle.rational_lift.specs.Joined.{IsJoint, at_each, both};

use prime_field::Modulus;

/// The product of the two moduli.
pub(crate) const BOTH: u128 = 21267647932558653899591465697288388633;

/// The inverse of the first modulus modulo the second.
const FIRST_INVERSE: u64 = 8784163844623595984;

/// The number below the product of the moduli with residue `first` at the first modulus and `second` at the second.
pub fn join(first: u64, second: u64) -> u128
    requires first { first < value_of First }
    requires second { second < value_of Second }
    ensures joint { IsJoint (at_each first second) result }
    ensures low { result < both }
{
    let modulus = Modulus::second();
    let gap = modulus.sub(second, first);
    let factor = modulus.mul(gap, FIRST_INVERSE);
    first as u128 + Modulus::first().value() as u128 * factor as u128
}

#[cfg(test)]
mod tests {
    use super::*;

    #[test]
    fn residues_are_joined(rt: HostRuntime) {
        assert_eq!(rt; join(5, 5), 5);
        assert_eq!(rt; join(0, 1), 20254902792913003714335842189648692784);
        assert_eq!(rt; join(2305843009213693950, 9223372036854775782), BOTH - 1);
    }
}
