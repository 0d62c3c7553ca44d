//! Systems whose solutions are known.

ghost use Rattle.std.specs.Prelude.{◌≡◌, ◌+◌, ◌<◌, ◌≤◌, All, IfOk, length};
ghost use Rattle.prime_field.specs.Modulus.{value_of};
ghost use Rattle.elim_core.specs.Sparse.{entries_of};
ghost use Rattle.sparse_solver.specs.Plan.{IsLearned, set_of};

use super::*;
use elim_core::SparseRow;
use prime_field::{Modulus, sequence};
use sqlite_items::Items;
use std::alloc::Global;
use std::process::Abort;
use std::test::Fail;

/// A plan for two rows with two columns each.
fn plan_of(
    alloc: Global,
    unknowns: u32,
    first: (u32, u32),
    second: (u32, u32),
) -> Result<SparsePlan, Fail>
    requires few { unknowns ≤ 8 }
    requires first_order { first.0 < first.1 }
    requires first_within { first.1 ≤ unknowns }
    requires second_order { second.0 < second.1 }
    requires second_within { second.1 ≤ unknowns }
    ensures unknowns { IfOk result (λ plan. plan.unknowns ≡ unknowns) }
    ensures entries { IfOk result (λ plan. entries_of plan.rows ≡ 4) }
{
    let mut rows = Items::new(alloc);
    rows.push(SparseRow {
        columns: Items::from_slice(alloc, &[first.0, first.1])?,
    })?;
    rows.push(SparseRow {
        columns: Items::from_slice(alloc, &[second.0, second.1])?,
    })?;
    Ok(SparsePlan::new(alloc, unknowns, rows)?)
}

#[test]
fn a_row_that_followed_counts_at_other_points(rt: HostRuntime) -> Result<(), Fail> {
    let m = Modulus::first();
    let mut plan = plan_of(rt.alloc(), 1, (0, 1), (0, 1))?;
    let Some(set) = plan.learn(m, &[1, 1, 1, 1])? else {
        return Err(Fail::from("nothing is learned"));
    };
    if !set.is_empty() {
        return Err(Fail::from("an independent unknown"));
    }
    let mut work = [7; 15];
    let mut out = [7; 1];
    assert!(rt; plan.solve(m, &[1, 1, 1, 1], &[1], &mut work, &mut out));
    assert_eq!(rt; out, [1]);
    let other = [1, 1, 1817916055167709182, 1];
    assert!(rt; !plan.solve(m, &other, &[1], &mut work, &mut out));
    Ok(())
}

#[test]
fn a_contradiction_is_not_learned(rt: HostRuntime) -> Result<(), Fail> {
    let mut plan = plan_of(rt.alloc(), 1, (0, 1), (0, 1))?;
    assert!(rt; plan.learn(Modulus::second(), &[1, 1, 1, 1])?.is_some());
    assert!(rt; plan.learn(Modulus::second(), &[1, 1, 2, 1])?.is_none());
    Ok(())
}

#[test]
fn the_last_unknown_of_a_chain_tells_the_others(rt: HostRuntime) -> Result<(), Fail> {
    let m = Modulus::first();
    let mut plan = plan_of(rt.alloc(), 3, (1, 2), (2, 3))?;
    let Some(set) = plan.learn(m, &[1, 1, 1, 1])? else {
        return Err(Fail::from("nothing is learned"));
    };
    assert!(rt; set.as_slice() == [3].as_slice());
    if set.len() != 1 {
        return Err(Fail::from("another set"));
    }
    let mut work = [7; 35];
    let mut out = [7; 4];
    assert!(rt; plan.solve(m, &[1, 2, 1, 3], &[1, 2], &mut work, &mut out));
    assert_eq!(rt; out, [6, 0, 2305843009213693948, 0]);
    Ok(())
}

/// A plan for four rows over three unknowns, of which the last one has a right side.
fn four_rows(alloc: Global) -> Result<SparsePlan, Fail>
    ensures unknowns { IfOk result (λ plan. plan.unknowns ≡ 3) }
    ensures entries { IfOk result (λ plan. entries_of plan.rows ≡ 8) }
{
    let mut rows = Items::new(alloc);
    rows.push(SparseRow {
        columns: Items::from_slice(alloc, &[1, 2])?,
    })?;
    rows.push(SparseRow {
        columns: Items::from_slice(alloc, &[2, 3])?,
    })?;
    rows.push(SparseRow {
        columns: Items::from_slice(alloc, &[1, 3])?,
    })?;
    rows.push(SparseRow {
        columns: Items::from_slice(alloc, &[0, 3])?,
    })?;
    Ok(SparsePlan::new(alloc, 3, rows)?)
}

/// What both ways to solve answer, if they answer the same.
fn both(plan: &SparsePlan, values: &[u64]) -> Option<bool>
    requires learned { IsLearned plan.now }
    requires unknowns { plan.now.unknowns ≡ 3 }
    requires one { length (set_of plan.now) ≡ 1 }
    requires entries { length values.now ≡ entries_of plan.now.rows }
    requires residues { All (λ x. x < value_of Modulus.First) values.now }
{
    let m = Modulus::first();
    let mut work = [7; 35];
    let mut replayed = [7; 6];
    let mut anew = [7; 6];
    let want = [1, 2, 3];
    let is_replayed = plan.solve(m, values, &want, &mut work, &mut replayed);
    let is_anew = plan.solve_anew(m, values, &want, &mut work, &mut anew);
    if is_replayed != is_anew || is_anew && replayed != anew {
        return None;
    }
    Some(is_anew)
}

#[test]
fn both_ways_to_solve_agree(rt: HostRuntime) -> Result<(), Fail> {
    let mut plan = four_rows(rt.alloc())?;
    let m = Modulus::first();
    let last = 2305843009213693950;
    let Some(set) = plan.learn(m, &[1, 1, 1, 1, 1, last, 0, 0])? else {
        return Err(Fail::from("nothing is learned"));
    };
    if set.len() != 1 {
        return Err(Fail::from("another set"));
    }
    assert_eq!(rt; both(&plan, &[2, 1, 1, 2, 1, last, 0, 0]), Some(true));
    assert_eq!(rt; both(&plan, &[0, 0, 1, 1, 1, last, 0, 0]), Some(true));
    assert_eq!(rt; both(&plan, &[1, 1, 0, 1, 1, last, 0, 0]), Some(false));
    assert_eq!(rt; both(&plan, &[1, 1, 1, 1, 1, 1, 0, 0]), Some(false));
    assert_eq!(rt; both(&plan, &[1, 1, 1, 1, 1, last, 1, 0]), Some(false));
    Ok(())
}

/// The values of four rows of which the third one follows from the first two.
fn following_values(m: Modulus, first: (u64, u64), second: (u64, u64)) -> [u64; 8]
    requires a { first.0 < value_of m }
    requires b { first.1 < value_of m }
    requires c { second.0 < value_of m }
    requires d { second.1 < value_of m }
    ensures { All (λ x. x < value_of m) result }
{
    let (a, b) = first;
    let (c, d) = second;
    [a, b, c, d, m.mul(a, c), m.neg(m.mul(b, d)), 0, 0]
}

/// The residue of the word of this number.
fn residue_of(m: Modulus, number: u32) -> u64
    requires { number < 65536 }
    ensures { result < value_of m }
{
    m.reduce_u128(sequence(number) as u128)
}

#[test]
fn random_systems_are_solved_alike_both_ways(rt: HostRuntime) -> Result<(), Fail> {
    let mut plan = four_rows(rt.alloc())?;
    let m = Modulus::first();
    let Some(set) = plan.learn(m, &following_values(m, (1, 1), (1, 1)))? else {
        return Err(Fail::from("nothing is learned"));
    };
    if set.len() != 1 {
        return Err(Fail::from("another set"));
    }
    for k in 0..50 {
        let (a, b) = (residue_of(m, 4 * k), residue_of(m, 4 * k + 1));
        let (c, d) = (residue_of(m, 4 * k + 2), residue_of(m, 4 * k + 3));
        assert_eq!(rt;
            both(&plan, &following_values(m, (a, b), (c, d))),
            Some(true)
        );
        assert_eq!(rt;
            both(&plan, &following_values(m, (a, 0), (c, d))),
            Some(true)
        );
        assert_eq!(rt;
            both(&plan, &following_values(m, (a, b), (c, 0))),
            Some(true)
        );
        assert_eq!(rt;
            both(&plan, &following_values(m, (0, b), (c, d))),
            Some(false)
        );
        assert_eq!(rt;
            both(&plan, &following_values(m, (a, b), (0, d))),
            Some(false)
        );
        assert_eq!(rt; both(&plan, &[0, 0, a, b, c, d, 0, 0]), Some(true));
        assert_eq!(rt; both(&plan, &[a, b, 0, 0, c, d, 0, 0]), Some(true));
        assert_eq!(rt; both(&plan, &[a, b, a, b, c, d, 0, 0]), Some(false));
    }
    Ok(())
}
