//! Where a polynomial vanishes, what its values say of it, and which points are apart. Each function does nothing; its contract is the law.

ghost use Rattle.std.specs.Prelude.{◌≡◌, ℕ, ◌+◌, ◌%◌, ◌<◌, ◌≤◌, List, length};
ghost use Rattle.prime_field.specs.declared.Modulus.{Modulus};
ghost use Rattle.prime_field.specs.Modulus.{value_of};
ghost use Rattle.univariate.specs.Coefficients.{IsBelow, Alike, HasLength};
ghost use Rattle.univariate.specs.Univariate.{univariate_value, AllVanish, AreApart};

/// A polynomial in one variable with as many zeros as coefficients is zero, where each later zero less each earlier
/// one is a unit. It holds at every modulus.
pub fn few_zeros()
    ensures { (m n : ℕ) (f : ℕ → ℕ) (p : List ℕ) → length p ≤ n → AreApart m n f →
        ((j : ℕ) → j < n → univariate_value p (f j) % m ≡ 0) → AllVanish m p }
{}

/// Two polynomials of degree below n with the same values at n points are the same, where each later point less each
/// earlier one is a unit. It holds at every modulus but 0.
pub fn same_values()
    ensures { (m n : ℕ) (f : ℕ → ℕ) (p q : List ℕ) → 0 < m → IsBelow m n p → IsBelow m n q → AreApart m n f →
        ((j : ℕ) → j < n → univariate_value p (f j) % m ≡ univariate_value q (f j) % m) → Alike m p q }
{}

/// A list has one number of coefficients up to its last that isn't 0.
pub fn one_length()
    ensures { (n k : ℕ) (p : List ℕ) → HasLength n p → HasLength k p → n ≡ k }
{}

/// Points of which each later one is greater than each earlier one, by 130 at most, differ by units at both moduli.
pub fn near_points()
    ensures { (m : Modulus) (n : ℕ) (f : ℕ → ℕ) → ((i j : ℕ) → i < j → j < n → (f i < f j) × (f j ≤ f i + 130)) →
        AreApart (value_of m) n f }
{}
