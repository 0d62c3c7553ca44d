//! Laws of what is lifted. Each function does nothing; its contract is the law.

ghost use Rattle.std.specs.Prelude.{◌≡◌, ℕ, ◌*◌, ◌<◌};
ghost use Rattle.prime_field.specs.declared.Modulus.{Modulus};
ghost use Rattle.poly_maps.specs.declared.pair.Pair.{Pair};
ghost use Rattle.rational_lift.specs.Joined.{IsJoint, both};
ghost use Rattle.rational_lift.specs.Lifting.{Lift, LiftsTo};
ghost use Rattle.rational_lift.specs.declared.coeff.Coeff.{Coeff};

/// Two residues have one number below the product of the moduli alone.
pub fn one_joint()
    ensures { (residues : Modulus → ℕ) (a b : ℕ) → IsJoint residues a → IsJoint residues b → a ≡ b }
{}

/// Two pairs are lifted to one thing alone: to one quotient, to one fault, and not to both.
pub fn one_lift()
    ensures { (c : Coeff) (pairs : Modulus → Pair) (a b : Lift) → 2 * (c.num * c.den) < both → LiftsTo c pairs a → LiftsTo c pairs b → a ≡ b }
{}
