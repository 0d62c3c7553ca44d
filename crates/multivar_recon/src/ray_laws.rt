//! Laws of regular rays. Each function does nothing; its contract is the law.

ghost use Rattle.std.specs.Prelude.{◌≡◌, ℕ, suc, ◌+◌, ◌<◌, List, [], length, slice_index_or};
ghost use Rattle.prime_field.specs.Modulus.{value_of};
ghost use Rattle.prime_field.specs.declared.Modulus.{Modulus};
ghost use Rattle.univariate.specs.Univariate.{AreApart};
ghost use Rattle.poly_maps.specs.declared.bound.Bounds.{Bounds};
ghost use Rattle.poly_maps.specs.declared.pair.Pair.{Pair};
ghost use Rattle.poly_maps.specs.Forcing.{IsForcing};
ghost use Rattle.poly_maps.specs.Pair.{Agrees};
ghost use Rattle.thiele_interp.specs.Pairs.{IsMultiple};
ghost use Rattle.ray_grid.specs.declared.grid.Grid.{Grid};
ghost use Rattle.ray_grid.specs.Attempt.{shift};
ghost use Rattle.ray_grid.specs.Covering.{Covers};
ghost use Rattle.ray_grid.specs.Grid.{IsGrid, bound_of};
ghost use Rattle.multivar_recon.specs.Assembly.{AreMade, IsDirectional, PassTests};
ghost use Rattle.multivar_recon.specs.Least.{AreWithin, IsLeastPair};
ghost use Rattle.multivar_recon.specs.Rays.{directions, AreRays, IsAlong, IsMonicMultiple, IsRegular, RegularRays};

/// The pair by which rays are regular agrees with the samples on them.
pub fn regular_pair_agrees()
    ensures { (m : ℕ) (b : Bounds) (s : List ℕ) (gs : List (List ℕ)) (n : ℕ) (xs : List (List ℕ)) (vs : List ℕ) (f : Pair) →
        AreRays s gs n xs → IsRegular m b s gs n vs f → length vs ≡ length xs → Agrees m xs vs f }
{}

/// On each ray, each agreeing pair within the bounds is some polynomial in t times the pair by which rays are regular.
pub fn agreeing_is_multiple_on_rays()
    ensures { (m : ℕ) (b : Bounds) (s : List ℕ) (gs : List (List ℕ)) (n : ℕ) (xs : List (List ℕ)) (vs : List ℕ) (f : Pair) →
        AreRays s gs n xs → IsRegular m b s gs n vs f → b.num.total < n → AreApart m n suc →
        (h : Pair) → AreWithin b h → Agrees m xs vs h → (d : ℕ) → d < length gs → (num den h_num h_den : List ℕ) →
        let g = slice_index_or gs d [] in IsAlong m s g f.num num → IsAlong m s g f.den den → IsAlong m s g h.num h_num → IsAlong m s g h.den h_den →
        IsMultiple m num den h_num h_den }
{}

/// The pair by which rays are regular is the least pair, once its denominator's leading coefficient is made 1. It holds at
/// every modulus above 1.
pub fn regular_pair_is_least()
    ensures { (m : ℕ) (b : Bounds) (s : List ℕ) (gs : List (List ℕ)) (n : ℕ) (xs : List (List ℕ)) (vs : List ℕ) (f : Pair) →
        AreRays s gs n xs → IsRegular m b s gs n vs f → (c : ℕ) (g : Pair) → 1 < m → 0 < length gs → length vs ≡ length xs →
        IsMonicMultiple m c f g → IsForcing m b.den xs → IsLeastPair m b xs vs g }
{}

/// The four conditions under which the rays of an attempt are regular: the ray's least pair is there, with 1 as the
/// denominator at t = 0; the coefficients of each power of t are the values, at the directions, of a polynomial of no
/// higher degree; the pair assembled of these is within the bounds; and on each ray its denominator has its full degree.
/// What meets them makes the rays regular; and where rays are regular, what is made of them meets them.
pub fn conditions_tell_regular_rays()
    ensures regular { (m : Modulus) (b : Bounds) (g : Grid) (r : ℕ) (vs : List ℕ) (nums dens : ℕ → List ℕ) (degrees : ℕ → ℕ)
        (num_parts den_parts : ℕ → List (List ℕ × ℕ)) (f : Pair) → IsGrid g → Covers (bound_of g) b →
        AreMade (value_of m) b (IsDirectional g) (shift r g.variables) (directions g r) (g.total + 3) vs nums dens degrees num_parts den_parts f →
        PassTests (value_of m) b (length (directions g r)) degrees num_parts den_parts f →
        IsRegular (value_of m) b (shift r g.variables) (directions g r) (g.total + 3) vs f }
    ensures met { (m : Modulus) (b : Bounds) (g : Grid) (r : ℕ) (vs : List ℕ) (nums dens : ℕ → List ℕ) (degrees : ℕ → ℕ)
        (num_parts den_parts : ℕ → List (List ℕ × ℕ)) (f : Pair) → IsGrid g → Covers (bound_of g) b →
        AreMade (value_of m) b (IsDirectional g) (shift r g.variables) (directions g r) (g.total + 3) vs nums dens degrees num_parts den_parts f →
        RegularRays (value_of m) b g r vs → PassTests (value_of m) b (length (directions g r)) degrees num_parts den_parts f }
{}
