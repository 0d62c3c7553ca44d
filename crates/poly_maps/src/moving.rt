//! Laws of polynomials taken at moved points and along rays. Each function does nothing; its contract is the law.

ghost use Rattle.std.specs.Prelude.{◌≡◌, ℕ, ◌%◌, ◌≤◌, Bool, List, IsTrue, slice_index};
ghost use Rattle.poly_maps.specs.Mono.{HasEight};
ghost use Rattle.poly_maps.specs.Polynomial.{coefficient, value_at, Supported};
ghost use Rattle.poly_maps.specs.Moved.{point_sum, scaled, moved, graded};
ghost use Rattle.poly_maps.specs.Shifted.{negatives, IsLower};
ghost use Rattle.poly_maps.specs.Bound.{IsWithin};
ghost use Rattle.univariate.specs.Univariate.{univariate_value};
ghost use Rattle.poly_maps.specs.declared.bound.Bound.{Bound};

/// The value of the moved polynomial is that of the polynomial at the moved point.
pub fn moved_value()
    ensures { (s y : List ℕ) (p : List (List ℕ × ℕ)) → value_at (moved s p) y ≡ value_at p (point_sum y s) }
{}

/// Moving raises no degree: neither the total one nor that in a variable; and it keeps to
/// every set of monomials that has, with a monomial, those with no greater exponent anywhere.
pub fn moved_degrees()
    ensures bound { (b : Bound) (s : List ℕ) (p : List (List ℕ × ℕ)) → IsWithin b p → IsWithin b (moved s p) }
    ensures lower { (test : List ℕ → Bool) (s : List ℕ) (p : List (List ℕ × ℕ)) → IsLower (λ e. IsTrue (test e)) →
        Supported (λ e. IsTrue (test e)) p → Supported (λ e. IsTrue (test e)) (moved s p) }
{}

/// Moved by a point's negatives and then by the point, or the other way round, a polynomial has the coefficients that
/// it had. It holds at every modulus.
pub fn moved_there_and_back()
    ensures forth { (m : ℕ) (s : List ℕ) (p : List (List ℕ × ℕ)) → Supported HasEight p → ((k : ℕ) → slice_index s k ≤ m) →
        (e : List ℕ) → coefficient e (moved s (moved (negatives m s) p)) % m ≡ coefficient e p % m }
    ensures back { (m : ℕ) (s : List ℕ) (p : List (List ℕ × ℕ)) → Supported HasEight p → ((k : ℕ) → slice_index s k ≤ m) →
        (e : List ℕ) → coefficient e (moved (negatives m s) (moved s p)) % m ≡ coefficient e p % m }
{}

/// Numbers that are modulo m the values at `g` of the terms of each degree, in the polynomial moved by `s`, are the
/// coefficients of the polynomial along the ray from `s` through `g`.
pub fn ray_value()
    ensures { (m : ℕ) (p : List (List ℕ × ℕ)) (s g r : List ℕ) → ((k : ℕ) → slice_index r k ≡ value_at (graded k (moved s p)) g % m) →
        (t : ℕ) → univariate_value r t % m ≡ value_at p (point_sum s (scaled t g)) % m }
{}
