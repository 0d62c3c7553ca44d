ghost use Rattle.std.specs.Prelude.{◌≡◌, IfOk};

use super::{Axis, NoMemory, interpolate_grid, newton, newton_grid, newton_over};
use poly_maps::Mono;
use prime_field::Modulus;
use std::alloc::Global;

fn axis(alloc: Global, variable: u32, values: &[u64]) -> Result<Axis, NoMemory>
    ensures variable { IfOk result (λ a. a.variable ≡ variable) }
    ensures values { IfOk result (λ a. a.values.items ≡ values.now) }
{
    let values = Vec::from_slice(alloc, values)?;
    Ok(Axis { variable, values })
}

#[test]
fn squares(rt: HostRuntime) -> Result<(), NoMemory> {
    let found = newton(rt.alloc(), Modulus::first(), &[1, 2, 3], &[1, 4, 9])?;
    assert_eq!(rt; found.as_slice(), [0, 0, 1].as_slice());
    Ok(())
}

#[test]
fn one_point_and_none(rt: HostRuntime) -> Result<(), NoMemory> {
    let one = newton(rt.alloc(), Modulus::second(), &[5], &[7])?;
    assert_eq!(rt; one.as_slice(), [7].as_slice());
    let none = newton(rt.alloc(), Modulus::second(), &[], &[])?;
    assert!(rt; none.is_empty());
    Ok(())
}

#[test]
fn into_lent_words(rt: HostRuntime) {
    // t^2 - t + 1 is 1, 3 and 13 at 1, 2 and 4
    let mut work = [17; 16];
    let mut out = [17; 3];
    newton_over(
        Modulus::second(),
        &[1, 2, 4],
        &[1, 3, 13],
        &mut work,
        &mut out,
    );
    assert_eq!(rt; out, [1, 9223372036854775782, 1]);
}

#[test]
fn on_a_grid(rt: HostRuntime) -> Result<(), NoMemory> {
    let y = axis(rt.alloc(), 2, &[10, 11])?;
    let z = axis(rt.alloc(), 3, &[20, 21])?;
    let axes = [y, z];
    let sum = newton_grid(rt.alloc(), Modulus::first(), &axes, &[30, 31, 31, 32])?;
    let y = Mono::new([0, 1, 0, 0, 0, 0, 0, 0]);
    let z = Mono::new([0, 0, 1, 0, 0, 0, 0, 0]);
    assert_eq!(rt; sum.terms(), [(y, 1), (z, 1)].as_slice());
    Ok(())
}

#[test]
fn two_grids_in_place(rt: HostRuntime) -> Result<(), NoMemory> {
    // y + z, and (y - 10) * (z - 20)
    let y = axis(rt.alloc(), 2, &[10, 11])?;
    let z = axis(rt.alloc(), 3, &[20, 21])?;
    let axes = [y, z];
    let mut buffer = [30, 31, 31, 32, 0, 0, 0, 1];
    let mut work = [0; 20];
    interpolate_grid(Modulus::second(), &axes, &mut buffer, &mut work);
    assert_eq!(rt;
        buffer,
        [0, 1, 1, 0, 200, 9223372036854775773, 9223372036854775763, 1]
    );
    Ok(())
}

#[test]
fn with_no_axis(rt: HostRuntime) -> Result<(), NoMemory> {
    let constant = newton_grid(rt.alloc(), Modulus::second(), &[], &[7])?;
    let one = Mono::new([0; 8]);
    assert_eq!(rt; constant.terms(), [(one, 7)].as_slice());
    Ok(())
}

#[test]
fn one_axis_as_one_variable(rt: HostRuntime) -> Result<(), NoMemory> {
    let m = Modulus::second();
    let coefficients = newton(rt.alloc(), m, &[1, 2, 4], &[1, 3, 13])?;
    let axes = [axis(rt.alloc(), 5, &[1, 2, 4])?];
    let found = newton_grid(rt.alloc(), m, &axes, &[1, 3, 13])?;
    let power = |k: u16| Mono::new([0, 0, 0, 0, k, 0, 0, 0]);
    assert_eq!(rt;
        coefficients.as_slice(),
        [
            found.coefficient(power(0)),
            found.coefficient(power(1)),
            found.coefficient(power(2))
        ]
        .as_slice()
    );
    Ok(())
}

#[test]
fn three_axes_of_different_lengths(rt: HostRuntime) -> Result<(), NoMemory> {
    for m in [Modulus::first(), Modulus::second()] {
        // 3 * x4^2 * x2 + x4 + 5
        let fourth = axis(rt.alloc(), 4, &[1, 2, 3])?;
        let first = axis(rt.alloc(), 1, &[5])?;
        let second = axis(rt.alloc(), 2, &[0, 7])?;
        let axes = [fourth, first, second];
        let found = newton_grid(rt.alloc(), m, &axes, &[6, 27, 7, 91, 8, 197])?;
        let leading = Mono::new([0, 1, 0, 2, 0, 0, 0, 0]);
        let linear = Mono::new([0, 0, 0, 1, 0, 0, 0, 0]);
        let one = Mono::new([0; 8]);
        assert_eq!(rt;
            found.terms(),
            [(leading, 3), (linear, 1), (one, 5)].as_slice()
        );
    }
    Ok(())
}
