//! What the lines of the job have said.
ghost use Rattle.std.specs.Prelude.{◌≡◌, ◌==◌, ◌+◌, ◌<◌, max, OnOk, slice_index};
ghost use Rattle.std.specs.List.{list_any};
ghost use Rattle.graph_file.specs.Asked as spec;
ghost use Rattle.graph_file.specs.Bounding as bounding;
ghost use Rattle.graph_file.specs.Faults as faults;

use crate::job::Special;
use crate::line::{Degrees, Which};
use poly_maps::{Bound, Bounds, Point};
use rational_lift::Coeff;
use sqlite_items::Items;
use std::alloc::{AllocError, Global};

/// The bound for numerators and for denominators where no line gives them.
const COEFFICIENT: u128 = 2305843009213693952;

/// No degrees.
pub const NO_BOUND: Bound = Bound {
    total: 0,
    each: [0; 8],
};

/// What the lines of the job have said.
#[derive(Drop)]
pub struct Asked {
    pub points: Items<Point>,
    /// The bounds of each output that has none of its own.
    pub all: Option<Bounds>,
    /// The bounds of single outputs.
    pub special: Items<Special>,
    pub coeff: Option<Coeff>,
    /// The greatest degrees of a numerator and its denominator together.
    pub widest: Bound,
}

/// Nothing was said.
pub fn nothing(alloc: Global) -> Asked
    ensures { result ≡ spec.nothing }
{
    Asked {
        points: Items::new(alloc),
        all: None,
        special: Items::new(alloc),
        coeff: None,
        widest: NO_BOUND,
    }
}

/// The bounds for coefficients.
pub fn coeff_or(said: Option<Coeff>) -> Coeff
    ensures { result ≡ bounding.coeff_or said }
{
    said.unwrap_or(Coeff {
        num: COEFFICIENT,
        den: COEFFICIENT,
    })
}

fn is_own(special: &[Special], output: u32) -> bool
    ensures { result ≡ list_any (λ own. own.output == output) special.now }
{
    special.iter().any(|own| own.output == output)
}

/// Whether bounds for these outputs were given.
pub fn is_given(asked: &Asked, outputs: Which) -> bool
    ensures { result ≡ faults.is_given asked.now.all asked.now.special outputs }
{
    match outputs {
        Which::All => asked.all.is_some(),
        Which::Output(output) => is_own(asked.special.as_slice(), output),
    }
}

/// The degree in the variable with this number, counted from 0.
fn degree_in(variables: usize, degrees: &Degrees, number: usize) -> u32
    ensures { result ≡ bounding.degree_in variables degrees.now number }
{
    if number >= variables {
        return 0;
    }
    let degree = degrees.each.get(number).copied();
    degrees.total.min(degree.unwrap_or(degrees.total))
}

fn bound_said(variables: usize, degrees: &Degrees) -> Bound
    ensures { result ≡ bounding.bound_said variables degrees.now }
{
    Bound {
        total: degrees.total,
        each: [
            degree_in(variables, degrees, 0),
            degree_in(variables, degrees, 1),
            degree_in(variables, degrees, 2),
            degree_in(variables, degrees, 3),
            degree_in(variables, degrees, 4),
            degree_in(variables, degrees, 5),
            degree_in(variables, degrees, 6),
            degree_in(variables, degrees, 7),
        ],
    }
}

/// The bounds that a line says, in this many variables.
pub fn bounds_said(variables: usize, num: &Degrees, den: &Degrees) -> Bounds
    ensures { result ≡ bounding.bounds_said variables num.now den.now }
{
    Bounds {
        num: bound_said(variables, num),
        den: bound_said(variables, den),
    }
}

fn each_with(widest: &Bound, bounds: &Bounds, number: usize) -> u32
    requires low { spec.AreLow bounds.now }
    requires within { number < 8 }
    ensures { result ≡ max (slice_index widest.now.each number) (bounding.each_of number bounds.now) }
{
    widest.each[number].max(bounds.num.each[number] + bounds.den.each[number])
}

/// The greater degrees, of the bound and of a numerator and its denominator together.
pub fn widened(widest: &Bound, bounds: &Bounds) -> Bound
    requires low { spec.AreLow bounds.now }
    ensures { result ≡ spec.widened widest.now bounds.now }
{
    Bound {
        total: widest.total.max(bounds.num.total + bounds.den.total),
        each: [
            each_with(widest, bounds, 0),
            each_with(widest, bounds, 1),
            each_with(widest, bounds, 2),
            each_with(widest, bounds, 3),
            each_with(widest, bounds, 4),
            each_with(widest, bounds, 5),
            each_with(widest, bounds, 6),
            each_with(widest, bounds, 7),
        ],
    }
}

impl Asked {
    /// Bounds for these outputs are given too.
    pub fn add_bounds(&mut self, outputs: Which, bounds: Bounds) -> Result<(), AllocError>
        requires { spec.AreLow bounds }
        ensures { OnOk result (self.new ≡ spec.with_bounds self.old outputs bounds) }
    {
        self.widest = widened(&self.widest, &bounds);
        match outputs {
            Which::All => self.all = Some(bounds),
            Which::Output(output) => self.special.push(Special { output, bounds })?,
        }
        Ok(())
    }
}
