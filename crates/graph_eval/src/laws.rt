//! Laws of the definitions that the contracts speak of. Each function does nothing; its contract is the law.

ghost use Rattle.std.specs.Prelude.{◌≡◌, ℕ, ◌<◌, false, List, []};
ghost use Rattle.elim_core.specs.Kept.{HasSolution};
ghost use Rattle.elim_core.specs.Solved.{IsOwnSet, IsSolved};
ghost use Rattle.graph_file.specs.declared.graph.Graph.{Graph};
ghost use Rattle.graph_eval.specs.Fresh.{IsFreshAt, IsMeasuredAt};
ghost use Rattle.graph_eval.specs.GraphValue.{GraphValue, Outcome};
ghost use Rattle.graph_eval.specs.Learned.{FailsLength, FitsGraph, IsPlainAt, has_solver};
ghost use Rattle.graph_eval.specs.declared.fresh.Fresh.{Fresh};
ghost use Rattle.graph_eval.specs.declared.learned.GraphLearned.{GraphLearned};
ghost use Rattle.graph_eval.specs.declared.shapes.GraphSize.{GraphSize};

/// A graph has at most one outcome at a point: its value, or one singular node with one cause.
pub fn one_outcome()
    ensures { (m : ℕ) (graphs : List Graph) (learned : List (List (List ℕ))) (number : ℕ) (inputs : List ℕ) (one other : Outcome) → 1 < m
        → GraphValue m graphs learned number inputs one → GraphValue m graphs learned number inputs other → one ≡ other }
{}

/// With the same sets, the lists of a graph have one length each, its output has one, and its nodes have the same plans.
/// Where nothing is learned for any node, either the lists have lengths or one node's length breaks a rule.
pub fn one_length()
    ensures lengths { (sizes : List GraphSize) (graph : Graph) (a b : GraphLearned) → a.sets ≡ b.sets → FitsGraph sizes graph a → FitsGraph sizes graph b → a.lengths ≡ b.lengths }
    ensures output { (sizes : List GraphSize) (graph : Graph) (a b : GraphLearned) → a.sets ≡ b.sets → FitsGraph sizes graph a → FitsGraph sizes graph b → a.output ≡ b.output }
    ensures plans { (sizes : List GraphSize) (graph : Graph) (a b : GraphLearned) → a.sets ≡ b.sets → FitsGraph sizes graph a → FitsGraph sizes graph b → a.plans ≡ b.plans }
    ensures sets { (sizes : List GraphSize) (graph : Graph) (a b : GraphLearned) → has_solver graph ≡ false → FitsGraph sizes graph a → FitsGraph sizes graph b → a.sets ≡ b.sets }
    ensures either { (sizes : List GraphSize) (graph : Graph) (a : GraphLearned) (n : ℕ) → has_solver graph ≡ false → FitsGraph sizes graph a → FailsLength sizes graph n → ⊥ }
    ensures node { (sizes : List GraphSize) (graph : Graph) (n k : ℕ) → FailsLength sizes graph n → FailsLength sizes graph k → n ≡ k }
{}

/// The length rules alone have at most one answer for a graph none of whose needed nodes is a solver.
pub fn one_measured()
    ensures { (graphs : List Graph) (learned : List GraphLearned) (number : ℕ) (a b : Fresh) → IsPlainAt graphs number → IsMeasuredAt graphs learned number a → IsMeasuredAt graphs learned number b → a ≡ b }
{}

/// A system's values over a set are one list at most.
pub fn one_solved()
    ensures { (m unknowns : ℕ) (rows : List (List ℕ)) (set want a b : List ℕ) → 1 < m
        → IsSolved m unknowns rows set want a → IsSolved m unknowns rows set want b → a ≡ b }
{}

/// A system has one set of its own at most, which is empty where the system has no solution.
pub fn one_set()
    ensures once { (m unknowns : ℕ) (rows : List (List ℕ)) (a b : List ℕ) → IsOwnSet m unknowns rows a → IsOwnSet m unknowns rows b → a ≡ b }
    ensures none { (m unknowns : ℕ) (rows : List (List ℕ)) → (HasSolution m unknowns rows → ⊥) → IsOwnSet m unknowns rows [] }
{}

/// Learning a graph at a point has at most one answer, as long as the same was learned of the graphs before it.
pub fn one_fresh()
    ensures { (m : ℕ) (graphs : List Graph) (learned : List GraphLearned) (number : ℕ) (inputs : List ℕ) (a b : Fresh) → 1 < m
        → IsFreshAt m graphs learned number inputs a → IsFreshAt m graphs learned number inputs b → a ≡ b }
{}
