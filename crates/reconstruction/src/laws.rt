//! Laws of what is found and printed. Each function does nothing but cite other laws; its contract is the law.

ghost use Rattle.std.specs.Prelude.{◌≡◌, ℕ, ◌*◌, ◌≤◌, List, true};
ghost use Rattle.prime_field.specs.Modulus.{value_of};
ghost use Rattle.prime_field.specs.Residue.{IsPrime};
ghost use Rattle.prime_field.specs.declared.Modulus.{Modulus};
ghost use Rattle.graph_file.specs.File.{IsGoodFile};
ghost use Rattle.graph_file.specs.Says.{FileForm, Says, grid_of};
ghost use Rattle.graph_file.specs.declared.job.Need.TheVariants.{Functions as ForFunctions};
ghost use Rattle.graph_eval.specs.Learned.{outputs_of};
ghost use Rattle.graph_eval.specs.declared.learned.GraphLearned.{GraphLearned};
ghost use Rattle.good_attempt.specs.Attempts.{Taken};
ghost use Rattle.good_attempt.specs.declared.gap.Gap.{Gap};
ghost use Rattle.ray_grid.specs.Grid.{point_count};
ghost use Rattle.output_result.specs.Results.{Result};
ghost use Rattle.output_result.specs.Texts.{Report, all_found, results_text};
ghost use Rattle.reconstruction.specs.Form.{IsAsked, functions_of};
ghost use Rattle.reconstruction.specs.Functions.{AllReduceWell, AreReported, AreTaken, Exhausted, Findings, Found, Reconstructs};
ghost use Rattle.reconstruction.specs.Headline.{PrintedTaken, PrintedUnique, QuotientPrinted};

use good_attempt::one_sampling;
use graph_file::{said_bounds, said_grid, said_names};
use output_result::{
    agreeing_are_cross_equal, found_is_printed, one_report, one_result, printed_is_found,
    quotient_is_found, results_are_shown,
};
use ray_grid::attempts_are_forcing;

/// What a file asks for is one finding at most. Where both moduli have a good attempt none of them is exhausted.
pub fn one_finding()
    ensures once { (bytes : List ℕ) (form : FileForm) (learned : List GraphLearned) (a b : Findings) → IsAsked bytes form learned →
        Reconstructs (functions_of form learned) a → Reconstructs (functions_of form learned) b → a ≡ b }
    ensures taken { (bytes : List ℕ) (form : FileForm) (learned : List GraphLearned) (taken : Modulus → Taken) (m : Modulus) (gaps : List Gap) →
        IsAsked bytes form learned → AreTaken (functions_of form learned) taken → Reconstructs (functions_of form learned) (Exhausted m gaps) → ⊥ }
    // The text that tells how each output was found is one, too.
    ensures reported { (bytes : List ℕ) (form : FileForm) (learned : List GraphLearned) (r s : ℕ → Report) (results : List Result) → IsAsked bytes form learned →
        AreReported (functions_of form learned) (Found results) r → AreReported (functions_of form learned) (Found results) s →
        results_text (functions_of form learned).names r results ≡ results_text (functions_of form learned).names s results }
{
    one_sampling();
    one_result();
    one_report();
    agreeing_are_cross_equal();
    quotient_is_found();
    printed_is_found();
    found_is_printed();
    results_are_shown();
    attempts_are_forcing();
    said_bounds();
    said_grid();
    said_names();
}

/// What the text of results promises: that a quotient which reduces well is printed, where both moduli are prime; that a printed
/// function is the only one with its samples; that it has samples; and that all are found where each reduces well.
pub fn functions_are_printed()
    ensures quotients { (bytes : List ℕ) (form : FileForm) (learned : List GraphLearned) (reports : ℕ → Report) (results : List Result) → ((m : Modulus) → IsPrime (value_of m)) →
        IsAsked bytes form learned → Reconstructs (functions_of form learned) (Found results) →
        QuotientPrinted (functions_of form learned) (results_text (functions_of form learned).names reports results) }
    ensures unique { (bytes : List ℕ) (form : FileForm) (learned : List GraphLearned) (reports : ℕ → Report) (results : List Result) →
        IsAsked bytes form learned → Reconstructs (functions_of form learned) (Found results) →
        PrintedUnique (functions_of form learned) (results_text (functions_of form learned).names reports results) }
    ensures taken { (bytes : List ℕ) (form : FileForm) (learned : List GraphLearned) (reports : ℕ → Report) (results : List Result) →
        IsAsked bytes form learned → Reconstructs (functions_of form learned) (Found results) →
        PrintedTaken (functions_of form learned) (results_text (functions_of form learned).names reports results) }
    ensures found { (bytes : List ℕ) (form : FileForm) (learned : List GraphLearned) (results : List Result) (taken : Modulus → Taken) →
        ((m : Modulus) → IsPrime (value_of m)) → IsAsked bytes form learned → Reconstructs (functions_of form learned) (Found results) →
        AreTaken (functions_of form learned) taken → AllReduceWell (functions_of form learned) taken → all_found results ≡ true }
{
    one_sampling();
    one_result();
    agreeing_are_cross_equal();
    quotient_is_found();
    printed_is_found();
    found_is_printed();
    results_are_shown();
    attempts_are_forcing();
    said_bounds();
    said_grid();
    said_names();
}
