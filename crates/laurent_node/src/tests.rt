use super::{Pole, expand};
use prime_field::Modulus;

fn crosses<T: Send + Sync>() -> bool {
    true
}

#[test]
fn a_simple_pole(rt: HostRuntime) {
    // 1 / (t + t^2) = 1/t - 1 + t - ..
    let m = Modulus::first();
    let mut out = [9; 3];
    assert!(rt; expand(m, &[1], &[0, 1, 1], -1, 1, &mut out) == Ok(()));
    assert_eq!(rt; out, [1, 2305843009213693950, 1]);
    let mut too_high = [9; 2];
    assert!(rt; expand(m, &[1], &[0, 1, 1], 0, 1, &mut too_high) == Err(Pole));
    assert_eq!(rt; too_high, [9, 9]);
    assert!(rt; crosses::<Pole>());
}

#[test]
fn a_common_factor_is_no_pole(rt: HostRuntime) {
    // (3*t + t^2) / t = 3 + t
    let m = Modulus::second();
    let mut out = [9; 5];
    assert!(rt; expand(m, &[0, 3, 1], &[0, 1], -2, 2, &mut out) == Ok(()));
    assert_eq!(rt; out, [0, 0, 3, 1, 0]);
}

#[test]
fn zero_and_the_farthest_orders(rt: HostRuntime) {
    let m = Modulus::second();
    let mut out = [9; 129];
    assert!(rt; expand(m, &[], &[2], -64, 64, &mut out) == Ok(()));
    assert!(rt; out[0] == 0 && out[64] == 0 && out[128] == 0);
}
