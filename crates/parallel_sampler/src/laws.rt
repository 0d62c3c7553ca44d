//! Laws of the definitions that the contracts speak of. Each function does nothing; its contract is the law.

ghost use Rattle.std.specs.Prelude.{◌≡◌, ℕ, ◌<◌, List};
ghost use Rattle.graph_file.specs.declared.graph.Graph.{Graph};
ghost use Rattle.graph_eval.specs.GraphValue.{GraphValue, Outcome};
ghost use Rattle.parallel_sampler.specs.Rows.{AreOutcomes};
ghost use Rattle.parallel_sampler.specs.declared.board.view.View.{View};
ghost use Rattle.parallel_sampler.specs.Board.{IsOrderly, IsSchedule, Turn};

/// A graph has one row of outcomes at most at the points of a list.
pub fn one_table()
    ensures { (m : ℕ) (graphs : List Graph) (learned : List (List (List ℕ))) (number : ℕ) (points : List (List ℕ)) (one other : List Outcome) → 1 < m
        → AreOutcomes (GraphValue m graphs learned number) points one → AreOutcomes (GraphValue m graphs learned number) points other → one ≡ other }
{}

/// Whenever a board's rule holds, all that its seats drew is a schedule: the numbers below the word in rising order, each
/// drawn once, by one seat.
pub fn draws_are_a_schedule()
    ensures { (quota word : ℕ) (views : List View) → IsOrderly quota word views → (turns : List Turn) × IsSchedule word views turns }
{}
