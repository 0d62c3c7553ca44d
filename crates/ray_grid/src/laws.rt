//! Which points pin a polynomial. Each function does nothing; its contract is the law.

ghost use Rattle.std.specs.Prelude.{◌≡◌, ℕ, ◌%◌, ◌≤◌, All, Bool, IsTrue, List, length};
ghost use Rattle.prime_field.specs.Modulus.{value_of};
ghost use Rattle.prime_field.specs.declared.Modulus.{Modulus};
ghost use Rattle.poly_maps.specs.declared.bound.Bound.{Bound};
ghost use Rattle.poly_maps.specs.Bound.{IsWithin, WithinBound};
ghost use Rattle.poly_maps.specs.Forcing.{IsForcing};
ghost use Rattle.poly_maps.specs.Mono.{HasEight, IsBelow};
ghost use Rattle.poly_maps.specs.Polynomial.{coefficient, value_at, Supported};
ghost use Rattle.poly_maps.specs.Shifted.{IsLower};
ghost use Rattle.ray_grid.specs.declared.grid.Grid.{Grid};
ghost use Rattle.ray_grid.specs.Attempt.{attempt_points};
ghost use Rattle.ray_grid.specs.Covering.{ListsMonomials, monomial_count};
ghost use Rattle.ray_grid.specs.Grid.{IsGrid, bound_of, point_count};
ghost use Rattle.ray_grid.specs.Vanishing.{grid_point, AreAxes};

/// A polynomial whose exponents are in a lower set is zero where it vanishes at the set's points on a grid. A set is
/// lower where it has, with a list, those with no greater entry anywhere. The sets named are any that a test tells, the
/// lists within a bound, and the product set of all lists up to given tops. It holds at every modulus.
pub fn vanishing_on_lower_sets()
    ensures lower { (m : ℕ) (axes : List (ℕ → ℕ)) (tops : List ℕ) (test : List ℕ → Bool) (p : List (List ℕ × ℕ)) → AreAxes m axes tops →
        IsLower (λ e. IsTrue (test e)) → ((e : List ℕ) → IsTrue (test e) → IsBelow e tops) → Supported (λ e. IsTrue (test e)) p →
        ((j : List ℕ) → IsTrue (test j) → value_at p (grid_point axes j) % m ≡ 0) → (e : List ℕ) → coefficient e p % m ≡ 0 }
    ensures bound { (m : ℕ) (axes : List (ℕ → ℕ)) (b : Bound) (p : List (List ℕ × ℕ)) → AreAxes m axes b.each → IsWithin b p →
        ((j : List ℕ) → WithinBound b j → value_at p (grid_point axes j) % m ≡ 0) → (e : List ℕ) → coefficient e p % m ≡ 0 }
    ensures product { (m : ℕ) (axes : List (ℕ → ℕ)) (tops : List ℕ) (p : List (List ℕ × ℕ)) → AreAxes m axes tops → Supported (λ e. IsBelow e tops) p →
        ((j : List ℕ) → IsBelow j tops → value_at p (grid_point axes j) % m ≡ 0) → (e : List ℕ) → coefficient e p % m ≡ 0 }
{}

/// The points of each attempt are forcing for the grid at both moduli. That these are prime is not used.
pub fn attempts_are_forcing()
    ensures { (m : Modulus) (g : Grid) (r : ℕ) → IsGrid g → IsForcing (value_of m) (bound_of g) (attempt_points g r) }
{}

/// How many points an attempt has, and that each has an entry for each variable.
pub fn attempts_have_points()
    ensures count { (g : Grid) (r : ℕ) → length (attempt_points g r) ≡ point_count g }
    ensures entries { (g : Grid) (r : ℕ) → IsGrid g → All (λ x. length x ≡ g.variables) (attempt_points g r) }
{}

/// The ascending list of the monomials within a bound has as many as are counted.
pub fn count_is_length()
    ensures { (b : Bound) (variables : ℕ) (es : List (List ℕ)) → HasEight b.each → variables ≤ 8 → ListsMonomials b variables es →
        length es ≡ monomial_count b variables }
{}
