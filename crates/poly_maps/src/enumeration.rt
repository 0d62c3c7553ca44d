//! All monomials within a bound, in their order.

ghost use Rattle.std.specs.Prelude.{◌≡◌, ℕ, ◌+◌, ◌<◌, ◌≤◌, ◌↔◌, ◌++◌, List, AllPairs, Contains, IfOk, OnOk, if◌then◌else◌, length, nat_lt, slice_index, take, drop};
ghost use Rattle.std.specs.declared.cmp.Ordering.TheVariants.{Less};
ghost use Rattle.poly_maps.specs.Bound.{IsMonomialWithin};
ghost use Rattle.poly_maps.specs.Enumeration.{of_degree, prefixed};
ghost use Rattle.poly_maps.specs.Mono.{degree, mono_cmp};

use crate::{Bound, Mono, NoMemory};
use std::alloc::Global;

/// All monomials in the first `variables` variables that are within the bound, in ascending order.
///
/// First exponents that the bounds of the other variables can't fill up to the degree are left at once.
pub fn monomials(alloc: Global, bound: &Bound, variables: u32) -> Result<Vec<Mono>, NoMemory>
    requires some { 1 ≤ variables }
    requires few { variables ≤ 8 }
    requires total { bound.now.total ≤ 256 }
    ensures ascending { IfOk result (λ monos. AllPairs (λ e f. mono_cmp e f ≡ Less) monos.items) }
    ensures members { IfOk result (λ monos. (e : List ℕ) → Contains monos.items e ↔ IsMonomialWithin bound.now variables e) }
{
    let each = limits(&bound.each, variables as usize);
    let mut found = Vec::new(alloc);
    for degree in 0..bound.total + 1 {
        push_of_degree(&mut found, &each, [0; 8], 0, degree)?;
    }
    Ok(found)
}

/// The bounds of the first `variables` variables, and 0 for the others.
fn limits(each: &[u32; 8], variables: usize) -> [u32; 8]
    requires { variables ≤ 8 }
    ensures eight { length result ≡ 8 }
    ensures limits { (k : ℕ) → slice_index result k ≡ (if nat_lt k variables then slice_index each.now k else 0) }
{
    let mut limits = [0; 8];
    for i in 0..variables {
        limits[i] = each[i];
    }
    limits
}

/// Appends the monomials with this total degree in the variables from `i` on, in ascending order, each exponent at most
/// its entry of `each`. The earlier exponents are those given.
fn push_of_degree(
    found: &mut Vec<Mono>,
    each: &[u32; 8],
    exponents: [u16; 8],
    i: usize,
    degree: u32,
) -> Result<(), NoMemory>
    requires place { i ≤ 8 }
    requires low { degree ≤ 256 }
    ensures { OnOk result (found.new.items ≡ found.old.items ++ prefixed (take i exponents) (of_degree (drop i each.now) degree)) }
{
    if degree as u64 > room(each, i) {
        return Ok(());
    }
    if i == 8 {
        found.push(Mono::new(exponents))?;
        return Ok(());
    }
    for k in 0..degree.min(each[i]) + 1 {
        let mut next = exponents;
        next[i] = k as u16;
        push_of_degree(found, each, next, i + 1, degree - k)?;
    }
    Ok(())
}

/// The sum of the bounds from place `i` on.
fn room(each: &[u32; 8], i: usize) -> u64
    requires { i ≤ 8 }
    ensures { result ≡ degree (drop i each.now) }
{
    let mut room = 0;
    for k in i..8 {
        room += each[k] as u64;
    }
    room
}

#[cfg(test)]
mod tests {
    use super::*;
    use std::test::Fail;

    #[test]
    fn monomials_of_two_variables_in_order(rt: HostRuntime) -> Result<(), Fail> {
        let bound = Bound {
            total: 2,
            each: [1, 2, 5, 5, 5, 5, 5, 5],
        };
        let power = |i: u16, j: u16| Mono::new([i, j, 0, 0, 0, 0, 0, 0]);
        let wanted = [
            power(0, 0),
            power(0, 1),
            power(1, 0),
            power(0, 2),
            power(1, 1),
        ];
        assert_eq!(rt;
            monomials(rt.alloc(), &bound, 2)?.as_slice(),
            wanted.as_slice()
        );
        Ok(())
    }

    #[test]
    fn the_total_degree_cuts_a_large_box(rt: HostRuntime) -> Result<(), Fail> {
        let bound = Bound {
            total: 4,
            each: [4; 8],
        };
        assert_eq!(rt; monomials(rt.alloc(), &bound, 8)?.len(), 495);
        Ok(())
    }
}
