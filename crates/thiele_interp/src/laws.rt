//! Laws of least pairs and of Thiele's form. Each function does nothing; its contract is the law.

ghost use Rattle.std.specs.Prelude.{◌≡◌, ℕ, ◌<◌, List};
ghost use Rattle.thiele_interp.specs.Pairs.{IsLeastPair, IsReducedPair};
ghost use Rattle.thiele_interp.specs.Thiele.{ClosesAt};

/// There is one least pair whose denominator has leading coefficient 1. It holds at every modulus above 1.
pub fn one_least_pair()
    ensures { (m n : ℕ) (t v : ℕ → ℕ) (a b : ℕ) (num den other_num other_den : List ℕ) → 1 < m →
        IsLeastPair m n t v a b num den → IsReducedPair m num den →
        IsLeastPair m n t v a b other_num other_den → IsReducedPair m other_num other_den →
        (num ≡ other_num) × (den ≡ other_den) }
{}

/// There is one level at most at which Thiele's form closes, where the samples are residues.
pub fn one_closing_level()
    ensures { (m n : ℕ) (t v : ℕ → ℕ) (e f : ℕ) → ((j : ℕ) → v j < m) → ClosesAt m n t v e → ClosesAt m n t v f → e ≡ f }
{}
