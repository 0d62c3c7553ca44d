ghost use Rattle.std.specs.Prelude.{◌≡◌, ◌+◌, ◌<◌, EachIndex, length, slice_index};
ghost use Rattle.prime_field.specs.Modulus.{value_of};
ghost use Rattle.univariate.specs.Coefficients.{AreResidues};

use super::{
    NoMemory, UniPair, least_pair, least_pair_over, least_pair_up_to, thiele_over, thiele_up_to,
};
use prime_field::Modulus;
use std::alloc::Global;

#[test]
fn one_over_a_sum(rt: HostRuntime) -> Result<(), NoMemory> {
    // 1 / (t + 1) at 1, 2, 3, 4
    let m = Modulus::first();
    let values = [
        1152921504606846976,
        1537228672809129301,
        576460752303423488,
        1844674407370955161,
    ];
    let pair = least_pair(rt.alloc(), m, &[1, 2, 3, 4], &values, 1, 1)?.expect(&rt, "it agrees");
    assert_eq!(rt; pair.num.as_slice(), [1].as_slice());
    assert_eq!(rt; pair.den.as_slice(), [1, 1].as_slice());
    Ok(())
}

#[test]
fn a_common_factor_stays(rt: HostRuntime) -> Result<(), NoMemory> {
    let m = Modulus::first();
    let pair = least_pair(rt.alloc(), m, &[1, 2, 3], &[1, 1, 2], 1, 1)?.expect(&rt, "it agrees");
    assert_eq!(rt; pair.num.as_slice(), [2305843009213693948, 1].as_slice());
    assert_eq!(rt; pair.den.as_slice(), [2305843009213693948, 1].as_slice());
    assert!(rt; least_pair(rt.alloc(), m, &[1, 2, 3, 4], &[1, 1, 2, 5], 0, 0)?.is_none());
    Ok(())
}

#[test]
fn zero_samples_into_lent_words(rt: HostRuntime) {
    let m = Modulus::second();
    let mut work = [17; 60];
    assert_eq!(rt;
        least_pair_over(m, &[1, 2, 3], &[0, 0, 0], 1, 1, &mut work),
        Some((0, 1))
    );
    assert_eq!(rt; work[0], 1);
    assert_eq!(rt;
        least_pair_over(m, &[1, 2, 3], &[5, 5, 5], 0, 0, &mut work),
        Some((1, 1))
    );
    assert_eq!(rt; work[0], 5);
    assert_eq!(rt; work[1], 1);
}

/// Writes 1, 2, 3 and so on.
fn count_up(points: &mut [u64])
    requires { length points.old < 132 }
    ensures { EachIndex points.new (λ k. slice_index points.new k ≡ k + 1) }
{
    for k in 0..points.len() {
        points[k] = k as u64 + 1;
    }
}

/// Writes the values of (t^64 + 2) / (t^64 + 1), or answers false where one is missing.
fn write_samples(m: Modulus, points: &[u64], values: &mut [u64]) -> bool
    requires lengths { length values.old ≡ length points.now }
    requires few { length points.now < 132 }
    requires points { AreResidues (value_of m) points.now }
    requires values { AreResidues (value_of m) values.old }
    ensures { AreResidues (value_of m) values.new }
{
    for k in 0..points.len() {
        let power = m.pow(points[k], 64);
        match m.inv(m.add(power, 1)) {
            Some(inverse) => values[k] = m.mul(m.add(power, 2), inverse),
            None => return false,
        }
    }
    true
}

/// The pair from the values at 131 points.
fn highest_pair(alloc: Global, m: Modulus) -> Result<Option<UniPair>, NoMemory> {
    let mut points = [0; 131];
    count_up(&mut points);
    let mut values = [0; 131];
    if !write_samples(m, &points, &mut values) {
        return Ok(None);
    }
    least_pair(alloc, m, &points, &values, 64, 64)
}

#[test]
fn the_highest_degrees(rt: HostRuntime) -> Result<(), NoMemory> {
    for m in [Modulus::first(), Modulus::second()] {
        let pair = highest_pair(rt.alloc(), m)?.expect(&rt, "it agrees");
        assert_eq!(rt; (pair.num.len(), pair.den.len()), (65, 65));
        for k in 1..64 {
            assert!(rt; pair.num.get(k) == Some(&0) && pair.den.get(k) == Some(&0));
        }
        assert!(rt; pair.num.first() == Some(&2) && pair.num.last() == Some(&1));
        assert!(rt; pair.den.first() == Some(&1) && pair.den.last() == Some(&1));
    }
    Ok(())
}

#[test]
fn thiele_closes(rt: HostRuntime) {
    // 1 / (t + 1) at 1, 2, 3, 4
    let m = Modulus::first();
    let points = [1, 2, 3, 4];
    let values = [
        1152921504606846976,
        1537228672809129301,
        576460752303423488,
        1844674407370955161,
    ];
    let mut work = [17; 72];
    let found = thiele_over(m, &points, &values, 1, 1, &mut work);
    assert_eq!(rt; found, Some((1, 2)));
    assert_eq!(rt; (work[0], work[1], work[2]), (1, 1, 1));

    // it closes at the third level
    assert_eq!(rt; thiele_up_to(m, &points, &values, 1, 1, 2, &mut work), None);
    let found = least_pair_up_to(m, &points, &values, 1, 1, 2, &mut work);
    assert_eq!(rt; found, Some((1, 2)));
    assert_eq!(rt; (work[0], work[1], work[2]), (1, 1, 1));
}

#[test]
fn thiele_gives_no_answer(rt: HostRuntime) {
    let m = Modulus::second();
    let points = [1, 2, 3];
    let mut work = [17; 60];
    // a divisor is 0
    assert_eq!(rt; thiele_over(m, &points, &[1, 1, 2], 1, 1, &mut work), None);
    // it closes with the denominator t - 1
    assert_eq!(rt; thiele_over(m, &points, &[2, 1, 1], 1, 1, &mut work), None);
    // it closes with the numerator t, of too high a degree
    assert_eq!(rt; thiele_over(m, &points, &[1, 2, 3], 0, 1, &mut work), None);
    assert_eq!(rt;
        thiele_over(m, &points, &[1, 2, 3], 1, 1, &mut work),
        Some((2, 1))
    );
}
