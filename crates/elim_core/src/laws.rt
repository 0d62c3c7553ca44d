//! What holds of solver values and of independent unknowns whatever computed them.

ghost use Rattle.std.specs.Prelude.{◌≡◌, ℕ, ◌<◌, List};
ghost use Rattle.elim_core.specs.Solver.{IsSolverValue, IsAscending, AreUnknowns, ListsIndependent};

/// Over a set there is one solver value at most.
pub fn one_solver_value()
    ensures multiples { (m u : ℕ) (rows : List (List ℕ)) (set : List ℕ) (c c' : ℕ → ℕ → ℕ) (d d' : ℕ → ℕ) → 1 < m →
        IsSolverValue m u rows set c d → IsSolverValue m u rows set c' d' → (j k : ℕ) → j < u → k < u → c j k ≡ c' j k }
    ensures constants { (m u : ℕ) (rows : List (List ℕ)) (set : List ℕ) (c c' : ℕ → ℕ → ℕ) (d d' : ℕ → ℕ) → 1 < m →
        IsSolverValue m u rows set c d → IsSolverValue m u rows set c' d' → (j : ℕ) → j < u → d j ≡ d' j }
{}

/// A system has one ascending list of its independent unknowns at most.
pub fn one_list_of_independents()
    ensures { (m u : ℕ) (rows : List (List ℕ)) (a b : List ℕ) → IsAscending a → IsAscending b → AreUnknowns u a → AreUnknowns u b →
        ListsIndependent m u rows a → ListsIndependent m u rows b → a ≡ b }
{}
