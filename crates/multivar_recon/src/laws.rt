//! Laws of least pairs. Each function does nothing; its contract is the law.

ghost use Rattle.std.specs.Prelude.{◌≡◌, ◌≢◌, ℕ, ◌<◌, ◌≤◌, List, Some, length};
ghost use Rattle.std.specs.declared.cmp.Ordering.TheVariants.{Less};
ghost use Rattle.poly_maps.specs.declared.bound.Bound.{Bound};
ghost use Rattle.poly_maps.specs.declared.bound.Bounds.{Bounds};
ghost use Rattle.poly_maps.specs.declared.pair.Pair.{Pair};
ghost use Rattle.poly_maps.specs.Forcing.{IsForcing};
ghost use Rattle.poly_maps.specs.Mono.{mono_cmp, HasEight};
ghost use Rattle.poly_maps.specs.Pair.{Agrees, CrossEqual};
ghost use Rattle.poly_maps.specs.Polynomial.{leading};
ghost use Rattle.ray_grid.specs.Covering.{Covers, ListsMonomials, monomial_count};
ghost use Rattle.multivar_recon.specs.Least.{AreWithin, IsAgreeing, IsLeastPair};

/// Where the points are forcing for the numerator's bound, there is one least pair at most.
pub fn one_least_pair()
    ensures { (m : ℕ) (b : Bounds) (xs : List (List ℕ)) (vs : List ℕ) (f g : Pair) → 1 < m → IsForcing m b.num xs →
        IsLeastPair m b xs vs f → IsLeastPair m b xs vs g → f ≡ g }
{}

/// No agreeing pair within the bounds has a denominator with a lesser leading monomial than that of a least pair.
pub fn least_pair_leads_least()
    ensures { (m : ℕ) (b : Bounds) (xs : List (List ℕ)) (vs : List ℕ) (f g : Pair) (lead other : List ℕ) → 1 < m →
        IsLeastPair m b xs vs f → IsAgreeing m b xs vs g → leading f.den ≡ Some lead → leading g.den ≡ Some other →
        mono_cmp other lead ≢ Less }
{}

/// Pairs within the bounds that agree with the same samples are cross equal, where the points are forcing for a grid
/// that covers the bounds.
pub fn agreeing_pairs_are_cross_equal()
    ensures pairs { (m : ℕ) (grid : Bound) (b : Bounds) (xs : List (List ℕ)) (vs : List ℕ) (f g : Pair) → 1 < m → Covers grid b →
        IsForcing m grid xs → IsAgreeing m b xs vs f → IsAgreeing m b xs vs g → CrossEqual m f g }
    // The terms of the parts may stand in any order and repeat a monomial.
    ensures terms { (m : ℕ) (grid : Bound) (b : Bounds) (xs : List (List ℕ)) (vs : List ℕ) (f g : Pair) → 1 < m → Covers grid b →
        IsForcing m grid xs → AreWithin b f → AreWithin b g → Agrees m xs vs f → Agrees m xs vs g → CrossEqual m f g }
{}
