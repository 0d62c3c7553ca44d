//! From the samples of one output at both moduli to a quotient.

ghost use Rattle.std.specs.Prelude.{◌≡◌, ℕ, ◌*◌, ◌<◌, ◌≤◌, All, IfOk, List, None, length};
ghost use Rattle.prime_field.specs.Modulus.{value_of};
ghost use Rattle.prime_field.specs.Residue.{IsPrime};
ghost use Rattle.prime_field.specs.declared.Modulus.{Modulus};
ghost use Rattle.prime_field.specs.declared.Modulus.TheVariants.{First, Second};
ghost use Rattle.poly_maps.specs.Polynomial.{AreResidues};
ghost use Rattle.ray_grid.specs.Grid.{IsGrid, bound_of, point_count};
ghost use Rattle.ray_grid.specs.Covering.{Covers, HasFew};
ghost use Rattle.rational_lift.specs.Joined.{both};
ghost use Rattle.rational_lift.specs.Lifting.{Lift};
ghost use Rattle.rational_lift.specs.Parts.{by_modulus, IsMonic, TellsFault};
ghost use Rattle.rational_lift.specs.declared.coeff.Coeff.{Coeff};
ghost use Rattle.poly_maps.specs.declared.pair.Pair.{Pair};
ghost use Rattle.output_result.specs.Findings.{output_of, result_of};
ghost use Rattle.output_result.specs.Methods.{IsReport, report_of};
ghost use Rattle.output_result.specs.Printing.{IsShown};
ghost use Rattle.output_result.specs.Results.{AreLifted, IsLift, Lifts, NoPair, OutputResult};

use crate::NoMemory;
use multivar_recon::{Method, least};
use poly_maps::{Bounds, Mono, Pair, Quotient};
use prime_field::Modulus;
use rational_lift::{Coeff, LiftError, Part, lift};
use ray_grid::Grid;
use std::alloc::{AllocError, Global};

/// What the samples of one output say.
#[derive(Drop)]
pub enum Finding {
    /// They are the values of this quotient.
    Found(Quotient),
    /// No pair within the bounds agrees with those at this modulus, the first such one.
    NoPair(Modulus),
    /// The denominators of the two least pairs lead with different monomials.
    Unlike {
        lead1: Mono,
        lead2: Mono,
    },
    /// No fraction within the bounds leaves both coefficients at this monomial. They are joined to `residue`.
    NoRational {
        part: Part,
        mono: Mono,
        residue: u128,
    },
}

/// How the least pair of one output was found at each modulus.
#[derive(Clone, Copy, Debug, PartialEq, Eq)]
pub struct Methods {
    pub first: Method,
    pub second: Method,
}

/// What is told of one output: what its samples say, and how the least pairs were found where both moduli have one.
#[derive(Drop)]
pub struct Told {
    pub finding: Finding,
    pub methods: Option<Methods>,
}

/// The values of one output at the points of an attempt, all at one modulus.
#[derive(Clone, Copy)]
pub struct Sampled<'a> {
    pub attempt: u32,
    pub values: &'a [u64],
}

/// What two pairs of residues, each with a monic denominator, are lifted to.
fn lifted(alloc: Global, p1: &Pair, p2: &Pair, coeff: &Coeff) -> Result<Finding, NoMemory>
    requires first_num { AreResidues (value_of First) p1.now.num }
    requires first_den { AreResidues (value_of First) p1.now.den }
    requires second_num { AreResidues (value_of Second) p2.now.num }
    requires second_den { AreResidues (value_of Second) p2.now.den }
    requires first_lead { IsMonic p1.now.den }
    requires second_lead { IsMonic p2.now.den }
    requires num { 1 ≤ coeff.now.num }
    requires den { 1 ≤ coeff.now.den }
    requires narrow { 2 * (coeff.now.num * coeff.now.den) < both }
    ensures { IfOk result (λ finding. AreLifted coeff.now (by_modulus p1.now p2.now) (result_of finding)) }
{
    match lift(alloc, p1, p2, coeff) {
        Ok(quotient) => Ok(Finding::Found(quotient)),
        Err(error) => refused(error),
    }
}

/// Why nothing is lifted, unless memory ran out.
fn refused(error: LiftError) -> Result<Finding, NoMemory>
    ensures { (c : Coeff) (pairs : Modulus → Pair) → TellsFault c pairs error → IfOk result (λ finding. AreLifted c pairs (result_of finding)) }
{
    match error {
        LiftError::Unlike { lead1, lead2 } => Ok(Finding::Unlike { lead1, lead2 }),
        LiftError::NoRational {
            part,
            mono,
            residue,
        } => Ok(Finding::NoRational {
            part,
            mono,
            residue,
        }),
        LiftError::NoMemory => Err(AllocError),
    }
}

/// No pair agrees at this modulus.
fn without_pair(m: Modulus) -> Told
    ensures finding { result_of result.finding ≡ NoPair m }
    ensures methods { report_of result.methods ≡ None }
{
    Told {
        finding: Finding::NoPair(m),
        methods: None,
    }
}

/// What the samples of one output say, those at the first modulus and those at the second. The quotient found is within
/// the bounds on degrees and on coefficients.
///
/// At each modulus the least pair is found once, and the two are lifted; how each was found is told with them. Where none
/// agrees at the first modulus, the second is not tried.
pub fn find(
    alloc: Global,
    bounds: &Bounds,
    grid: &Grid,
    coeff: &Coeff,
    first: Sampled,
    second: Sampled,
) -> Result<Told, NoMemory>
    requires grid { IsGrid grid.now }
    requires points { point_count grid.now ≤ 65536 }
    requires covers { Covers (bound_of grid.now) bounds.now }
    requires few { HasFew bounds.now grid.now.variables }
    requires num { 1 ≤ coeff.now.num }
    requires den { 1 ≤ coeff.now.den }
    requires narrow { 2 * (coeff.now.num * coeff.now.den) < both }
    requires first_known { first.attempt < 8 }
    requires first_samples { length first.values.now ≡ point_count grid.now }
    requires first_residues { All (λ v. v < value_of First) first.values.now }
    requires second_known { second.attempt < 8 }
    requires second_samples { length second.values.now ≡ point_count grid.now }
    requires second_residues { All (λ v. v < value_of Second) second.values.now }
    ensures result { ((m : Modulus) → IsPrime (value_of m)) → IfOk result (λ told. OutputResult coeff.now
        (output_of bounds.now grid.now first.entry.attempt first.entry.values.now second.entry.attempt second.entry.values.now) (result_of told.finding)) }
    // A modulus need be prime only where it is told to have no pair.
    ensures lifts { IfOk result (λ told. (lift : Lift) → result_of told.finding ≡ Lifts lift → IsLift coeff.now
        (output_of bounds.now grid.now first.entry.attempt first.entry.values.now second.entry.attempt second.entry.values.now) lift) }
    // The names may be any, as many as there are variables.
    ensures shown { IfOk result (λ told. (names : List (List ℕ)) → length names ≡ grid.now.variables → IsShown names (result_of told.finding)) }
    ensures methods { ((m : Modulus) → IsPrime (value_of m)) → IfOk result (λ told. IsReport grid.now (by_modulus first.entry.attempt second.entry.attempt)
        (output_of bounds.now grid.now first.entry.attempt first.entry.values.now second.entry.attempt second.entry.values.now) (result_of told.finding) (report_of told.methods)) }
{
    let m1 = Modulus::First;
    let Some((pair1, by1)) = least(alloc, bounds, grid, first.attempt, m1, first.values)? else {
        return Ok(without_pair(m1));
    };
    let m2 = Modulus::Second;
    let Some((pair2, by2)) = least(alloc, bounds, grid, second.attempt, m2, second.values)? else {
        return Ok(without_pair(m2));
    };
    let finding = lifted(alloc, &pair1, &pair2, coeff)?;
    Ok(Told {
        finding,
        methods: Some(Methods {
            first: by1,
            second: by2,
        }),
    })
}
