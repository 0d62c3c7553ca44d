//! A law of the definitions that the contracts speak of. The function does nothing; its contract is the law.

ghost use Rattle.std.specs.Prelude.{◌≡◌, ℕ, ◌<◌, List};
ghost use Rattle.graph_file.specs.declared.graph.Graph.{Graph};
ghost use Rattle.graph_eval.specs.GraphValue.{GraphValue};
ghost use Rattle.good_attempt.specs.declared.gap.Gap.{Gap};
ghost use Rattle.good_attempt.specs.Attempts.{IsExhausted, IsFirstGood, IsSampling, Sampling, Taken};

/// Trying attempts gives one answer at most. So where there is a good attempt they are not exhausted.
pub fn one_sampling()
    ensures once { (m : ℕ) (graphs : List Graph) (learned : List (List (List ℕ))) (number : ℕ) (attempts : ℕ → List (List ℕ)) (one other : Sampling) → 1 < m
        → IsSampling (GraphValue m graphs learned number) attempts one → IsSampling (GraphValue m graphs learned number) attempts other → one ≡ other }
    ensures either { (m : ℕ) (graphs : List Graph) (learned : List (List (List ℕ))) (number : ℕ) (attempts : ℕ → List (List ℕ)) (taken : Taken) (gaps : List Gap) → 1 < m
        → IsFirstGood (GraphValue m graphs learned number) attempts taken → IsExhausted (GraphValue m graphs learned number) attempts gaps → ⊥ }
{}
