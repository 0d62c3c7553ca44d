//! Laws of results. Each function does nothing but cite other laws; its contract is the law.

ghost use Rattle.std.specs.Prelude.{◌≡◌, ℕ, ◌+◌, ◌*◌, ◌<◌, ◌≤◌, ◌^◌, List, Some, length, slice_get};
ghost use Rattle.prime_field.specs.Modulus.{value_of};
ghost use Rattle.prime_field.specs.Residue.{IsPrime};
ghost use Rattle.prime_field.specs.declared.Modulus.{Modulus};
ghost use Rattle.poly_maps.specs.Pair.{CrossEqual};
ghost use Rattle.poly_maps.specs.Quotient.{RationalPair};
ghost use Rattle.poly_maps.specs.Reduced.{residue_pair};
ghost use Rattle.poly_maps.specs.declared.bound.Bound.{Bound};
ghost use Rattle.poly_maps.specs.declared.bound.Bounds.{Bounds};
ghost use Rattle.poly_maps.specs.declared.pair.Pair.{Pair};
ghost use Rattle.ray_grid.specs.Grid.{IsGrid, bound_of};
ghost use Rattle.ray_grid.specs.declared.grid.Grid.{Grid};
ghost use Rattle.ray_grid.specs.Covering.{Covers};
ghost use Rattle.ratfun_text.specs.Printed.{AreVariables};
ghost use Rattle.rational_lift.specs.Joined.{both};
ghost use Rattle.rational_lift.specs.Lifting.{Lifted};
ghost use Rattle.rational_lift.specs.declared.coeff.Coeff.{Coeff};
ghost use Rattle.output_result.specs.Findings.{output_of};
ghost use Rattle.output_result.specs.Methods.{IsReport};
ghost use Rattle.output_result.specs.Outputs.{Output, AgreesAt, IsPinned, IsQuotient, ReducesWellAt};
ghost use Rattle.output_result.specs.Printing.{AreShown, IsShown, PrintsFunction};
ghost use Rattle.output_result.specs.Results.{Result, Lifts, OutputResult};
ghost use Rattle.output_result.specs.Texts.{Report, report_text, results_text};

use ratfun_text::one_quotient;
use ray_grid::attempts_are_forcing;

/// An output has one result at most, where its points are forcing for a grid that covers its bounds.
pub fn one_result()
    ensures { (c : Coeff) (grid : Bound) (o : Output) (a b : Result) → 2 * (c.num * c.den) < both → IsPinned grid o →
        OutputResult c o a → OutputResult c o b → a ≡ b }
{}

/// What is found is a quotient within the bounds that agrees with the samples.
pub fn found_is_quotient()
    ensures { (c : Coeff) (o : Output) (F : RationalPair) → 2 * (c.num * c.den) < both →
        OutputResult c o (Lifts (Lifted F)) → IsQuotient c o F }
{}

/// An output that is a quotient which reduces well at both moduli has no other result, where both are prime.
pub fn quotient_is_found()
    ensures only { (c : Coeff) (grid : Bound) (o : Output) (F : RationalPair) (found : Result) → ((m : Modulus) → IsPrime (value_of m)) →
        2 * (c.num * c.den) < both → IsPinned grid o → IsQuotient c o F → ReducesWellAt o F →
        OutputResult c o found → found ≡ Lifts (Lifted F) }
    // It has this one on any points.
    ensures is { (c : Coeff) (o : Output) (F : RationalPair) → ((m : Modulus) → IsPrime (value_of m)) → IsQuotient c o F →
        ReducesWellAt o F → OutputResult c o (Lifts (Lifted F)) }
{}

/// At each modulus every agreeing pair within the bounds is the same quotient as what is found.
pub fn agreeing_are_cross_equal()
    ensures { (c : Coeff) (grid : Bound) (o : Output) (F : RationalPair) → IsPinned grid o → OutputResult c o (Lifts (Lifted F)) →
        (m : Modulus) (g : Pair) → AgreesAt o m g → CrossEqual (value_of m) g (residue_pair (value_of m) F) }
{}

/// What an output's result tells is in the variables of a grid that covers its bounds, and as small as it is kept.
pub fn results_are_shown()
    ensures { (c : Coeff) (g : Grid) (o : Output) (names : List (List ℕ)) (result : Result) → IsGrid g → Covers (bound_of g) o.bounds →
        1 ≤ c.num → 1 ≤ c.den → 2 * (c.num * c.den) < both → length names ≡ g.variables → OutputResult c o result → IsShown names result }
{}

/// A line that prints a function tells of a result that is this function.
pub fn printed_is_found()
    ensures { (names : List (List ℕ)) (reports : ℕ → Report) (results : List Result) (k : ℕ) (F : RationalPair) → AreVariables names → length results < 2 ^ 32 → AreShown names results →
        PrintsFunction names (results_text names reports results) k (k + 1) F → slice_get results k ≡ Some (Lifts (Lifted F)) }
{
    one_quotient();
}

/// What is found is printed on the line at its place.
pub fn found_is_printed()
    ensures { (names : List (List ℕ)) (reports : ℕ → Report) (results : List Result) (k : ℕ) (F : RationalPair) → AreVariables names → length results < 2 ^ 32 → AreShown names results →
        slice_get results k ≡ Some (Lifts (Lifted F)) → PrintsFunction names (results_text names reports results) k (k + 1) F }
{}

/// The points of any two attempts over a grid pin an output whose bounds the grid covers.
pub fn attempts_pin()
    ensures { (b : Bounds) (g : Grid) (r1 r2 : ℕ) (values1 values2 : List ℕ) → IsGrid g → Covers (bound_of g) b →
        IsPinned (bound_of g) (output_of b g r1 values1 r2 values2) }
{
    attempts_are_forcing();
}

/// What is told of how the least pairs of an output were found is one thing.
pub fn one_report()
    ensures { (grid : Grid) (attempts : Modulus → ℕ) (o : Output) (result : Result) (r s : Report) → IsReport grid attempts o result r → IsReport grid attempts o result s →
        report_text r result ≡ report_text s result }
{}
