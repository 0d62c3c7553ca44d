//! Laws of the definitions that the contracts speak of. Each function does nothing; its contract is the law.

ghost use Rattle.std.specs.Prelude.{◌≡◌, ◌≢◌, ℕ, ◌+◌, ◌-◌, ◌*◌, ◌%◌, ◌<◌, ◌≤◌, ◌⊎◌, ◌↔◌, All, AllPairs, Contains, List, ◌++◌, Some, length, slice_index};
ghost use Rattle.std.specs.declared.cmp.Ordering.TheVariants.{Less};
ghost use Rattle.prime_field.specs.Residue.{IsUnit};
ghost use Rattle.poly_maps.specs.declared.bound.Bound.{Bound};
ghost use Rattle.poly_maps.specs.declared.pair.Pair.{Pair};
ghost use Rattle.poly_maps.specs.Bound.{IsWithin};
ghost use Rattle.poly_maps.specs.declared.fraction.Frac.{Frac};
ghost use Rattle.poly_maps.specs.Fraction.{IsRational, fraction_at};
ghost use Rattle.poly_maps.specs.Mono.{mono_cmp};
ghost use Rattle.poly_maps.specs.Pair.{Agrees, CrossEqual};
ghost use Rattle.poly_maps.specs.Polynomial.{coefficient, value_at, leading, product_of, total_degree, degree_in, IsPolynomial};
ghost use Rattle.univariate.specs.Univariate.{IsTrimmed};

/// A polynomial is pinned by its coefficients.
pub fn coefficients_pin()
    ensures { (p q : List (List ℕ × ℕ)) → IsPolynomial p → IsPolynomial q → ((e : List ℕ) → coefficient e p ≡ coefficient e q) → p ≡ q }
{}

/// A polynomial over the rational numbers is pinned by its fractions.
pub fn fractions_pin()
    ensures { (p q : List (List ℕ × Frac)) → IsRational p → IsRational q → ((e : List ℕ) → fraction_at e p ≡ fraction_at e q) → p ≡ q }
{}

/// A list of numbers without a zero at the end is pinned by its entries, where those past the end are 0.
pub fn entries_pin()
    ensures { (r s : List ℕ) → IsTrimmed r → IsTrimmed s → ((k : ℕ) → slice_index r k ≡ slice_index s k) → r ≡ s }
{}

/// A list of ascending monomials is pinned by its members.
pub fn members_pin()
    ensures { (es fs : List (List ℕ)) → AllPairs (λ e f. mono_cmp e f ≡ Less) es → AllPairs (λ e f. mono_cmp e f ≡ Less) fs →
        ((e : List ℕ) → Contains es e ↔ Contains fs e) → es ≡ fs }
{}

/// The leading monomial has a coefficient, and it is the greatest that has one.
pub fn leading_is_greatest()
    ensures some { (p : List (List ℕ × ℕ)) (e : List ℕ) → IsPolynomial p → leading p ≡ Some e → coefficient e p ≢ 0 }
    ensures greatest { (p : List (List ℕ × ℕ)) (e f : List ℕ) → IsPolynomial p → leading p ≡ Some e → coefficient f p ≢ 0 → (f ≡ e) ⊎ (mono_cmp f e ≡ Less) }
{}

/// Polynomials whose coefficients are congruent have congruent values.
pub fn congruent_values()
    ensures { (m : ℕ) (p q : List (List ℕ × ℕ)) (x : List ℕ) → ((e : List ℕ) → coefficient e p % m ≡ coefficient e q % m) → value_at p x % m ≡ value_at q x % m }
{}

/// A sum has the sums of the coefficients and of the values.
pub fn sums()
    ensures coefficients { (e : List ℕ) (p q : List (List ℕ × ℕ)) → coefficient e (p ++ q) ≡ coefficient e p + coefficient e q }
    ensures values { (p q : List (List ℕ × ℕ)) (x : List ℕ) → value_at (p ++ q) x ≡ value_at p x + value_at q x }
{}

/// The value of a product is the product of the values.
pub fn product_value()
    ensures { (p q : List (List ℕ × ℕ)) (x : List ℕ) → value_at (product_of p q) x ≡ value_at p x * value_at q x }
{}

/// A polynomial is within a bound where its total degree and its degree in each variable are.
pub fn within_by_degrees()
    ensures { (b : Bound) (p : List (List ℕ × ℕ)) → length b.each ≡ 8 → IsPolynomial p →
        IsWithin b p ↔ ((total_degree p ≤ b.total) × ((i : ℕ) → degree_in i p ≤ slice_index b.each i)) }
{}

/// Cross equality goes both ways and holds of a pair and itself. A pair cross equal to one that agrees with samples
/// agrees with them too, where the values of that one's denominator at the points are units.
pub fn cross_equality()
    ensures itself { (m : ℕ) (f : Pair) → CrossEqual m f f }
    ensures back { (m : ℕ) (f g : Pair) → CrossEqual m f g → CrossEqual m g f }
    ensures agrees { (m : ℕ) (f g : Pair) (xs : List (List ℕ)) (vs : List ℕ) → CrossEqual m f g →
        All (λ x. IsUnit m (value_at f.den x)) xs → Agrees m xs vs f → Agrees m xs vs g }
{}
