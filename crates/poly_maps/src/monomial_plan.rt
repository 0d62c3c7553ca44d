//! The values of many monomials at points, each made from that of an earlier monomial by one product.

ghost use Rattle.std.specs.Prelude.{◌≡◌, ◌≢◌, ℕ, ◌%◌, ◌<◌, [], IfOk, IfSome, length, slice_index, slice_index_or};
ghost use Rattle.prime_field.specs.Modulus.{value_of};
ghost use Rattle.poly_maps.specs.Mono.{mono_value};
ghost use Rattle.poly_maps.specs.Steps.{raised, IsStep};

use crate::{Mono, NoMemory, Point};
use prime_field::Modulus;
use std::alloc::Global;
use std::marker::Model;

/// How the value of a monomial is made.
#[derive(Clone, Copy)]
enum Step {
    /// From its exponents.
    Powers,
    /// From the value of the monomial at an earlier place, times the entry of a variable.
    Times { place: usize, variable: usize },
}

/// Monomials whose values are wanted at many points.
///
/// How each value is made is found once. Where a monomial has an earlier one with one factor less, its value costs one
/// product; so it does for all monomials within a bound in their order, but for 1.
#[derive(Drop)]
pub struct MonomialPlan {
    monos: Vec<Mono>,
    steps: Vec<Step>,
}

impl Model for MonomialPlan {
    ghost use Rattle.std.specs.Prelude.{ℕ, List};
    ghost use Rattle.poly_maps.specs.Steps.{AreSteps};

    ghost Value = { List (List ℕ) };

    ghost view = { λ p. p.monos.items };

    ghost invariant = { λ p. AreSteps p.monos.items p.steps.items };
}

impl MonomialPlan {
    /// The plan for these monomials.
    pub fn of(alloc: Global, monos: Vec<Mono>) -> Result<MonomialPlan, NoMemory>
        ensures { IfOk result (λ plan. plan ≡ monos.items) }
    {
        let mut steps = Vec::new(alloc);
        for (k, mono) in monos.iter().enumerate() {
            steps.push(step_to(&monos[..k], mono))?;
        }
        Ok(MonomialPlan { monos, steps })
    }

    /// How many monomials there are.
    pub fn len(&self) -> usize
        ensures { result ≡ length self.now }
    {
        self.monos.len()
    }

    /// Writes the value of each monomial at the point, in the order of the monomials.
    pub fn write_values(&self, m: Modulus, point: &Point, out: &mut [u64])
        requires room { length out.old ≡ length self.now }
        ensures values { (k : ℕ) → k < length self.now → slice_index out.new k ≡ mono_value (slice_index_or self.now k []) point.now % value_of m }
    {
        let entries = point.all_entries();
        for (k, step) in self.steps.iter().enumerate() {
            out[k] = match step {
                Step::Powers => value_by_powers(m, &self.monos[k], entries),
                Step::Times { place, variable } => m.mul(out[*place], entries[*variable]),
            };
        }
    }
}

/// The value of a monomial where the variables have these entries.
fn value_by_powers(m: Modulus, mono: &Mono, entries: &[u64; 8]) -> u64
    requires residues { (i : ℕ) → i < 8 → slice_index entries.now i < value_of m }
    ensures value { result ≡ mono_value mono.now entries.now % value_of m }
{
    let exponents = mono.exponents();
    let mut product = 1;
    for i in 0..8 {
        if exponents[i] > 0 {
            product = m.mul(product, m.pow(entries[i], exponents[i] as u32));
        }
    }
    product
}

/// How the value of a monomial is made behind those of earlier ones.
fn step_to(earlier: &[Mono], mono: &Mono) -> Step
    ensures { IsStep earlier.now mono.now result }
{
    let Some(variable) = first_variable(mono) else {
        return Step::Powers;
    };
    match place_of(earlier, &lowered(mono, variable)) {
        Some(place) => Step::Times { place, variable },
        None => Step::Powers,
    }
}

/// The first variable whose exponent isn't 0, counted from 0.
fn first_variable(mono: &Mono) -> Option<usize>
    ensures eight { IfSome result (λ i. i < 8) }
    ensures occurs { IfSome result (λ i. slice_index mono.now i ≢ 0) }
{
    let exponents = mono.exponents();
    for i in 0..8 {
        if exponents[i] > 0 {
            return Some(i);
        }
    }
    None
}

/// The monomial with one factor less of the variable `i`, counted from 0.
fn lowered(mono: &Mono, i: usize) -> Mono
    requires eight { i < 8 }
    requires occurs { slice_index mono.now i ≢ 0 }
    ensures within { i < length result }
    ensures is { raised result i ≡ mono.now }
{
    let mut exponents = *mono.exponents();
    exponents[i] -= 1;
    Mono::new(exponents)
}

/// Where the monomial stands among others.
fn place_of(monos: &[Mono], wanted: &Mono) -> Option<usize>
    ensures within { IfSome result (λ k. k < length monos.now) }
    ensures there { IfSome result (λ k. slice_index_or monos.now k [] ≡ wanted.now) }
{
    for (k, mono) in monos.iter().enumerate() {
        if mono == wanted {
            return Some(k);
        }
    }
    None
}

#[cfg(test)]
mod tests {
    use super::*;
    use std::test::Fail;

    #[test]
    fn values_at_a_point_of_two_entries(rt: HostRuntime) -> Result<(), Fail> {
        let power = |i: u16, j: u16, k: u16| Mono::new([i, j, k, 0, 0, 0, 0, 0]);
        let monos = [
            power(0, 0, 0),
            power(1, 0, 0),
            power(1, 1, 0),
            power(2, 1, 0),
            power(70, 1, 0),
            power(1, 0, 1),
            power(1, 0, 2),
        ];
        let plan = MonomialPlan::of(rt.alloc(), Vec::from_slice(rt.alloc(), &monos)?)?;
        assert_eq!(rt; plan.len(), 7);
        // 2^61 leaves 1 modulo the first modulus, and 2^63 leaves 25 modulo the second.
        for (m, high) in [(Modulus::first(), 1536), (Modulus::second(), 9600)] {
            let mut out = [7; 7];
            plan.write_values(m, &Point::of(&[2, 3]), &mut out);
            assert_eq!(rt; out, [1, 2, 6, 12, high, 0, 0]);
        }
        Ok(())
    }

    #[test]
    fn within_a_bound_all_but_one_come_from_earlier_ones(rt: HostRuntime) -> Result<(), Fail> {
        let bound = crate::Bound {
            total: 4,
            each: [3, 2, 4, 0, 0, 0, 0, 0],
        };
        let plan = MonomialPlan::of(rt.alloc(), crate::monomials(rt.alloc(), &bound, 3)?)?;
        for (k, step) in plan.steps.iter().enumerate() {
            let is_anew = matches!(step, Step::Powers);
            assert_eq!(rt; is_anew, k == 0);
        }
        Ok(())
    }
}
