//! The values of expressions at residues.
ghost use Rattle.std.specs.Prelude.{◌≡◌, ◌<◌, ◌≤◌, ◌-◌, ◌*◌, ◌^◌, ◌%◌, All, IfSome, None, Some, drop, length, map, if◌then◌else◌};
ghost use Rattle.std.specs.Bool.{OnTrue, OnFalse};
ghost use Rattle.std.specs.List.{Contains};
ghost use Rattle.std.specs.Option.{option_map};
ghost use Rattle.prime_field.specs.Modulus.{value_of};
ghost use Rattle.prime_field.specs.Residue.{inverse};
ghost use Rattle.ratfun_text.specs.Powers.{IsPower};
ghost use Rattle.ratfun_text.specs.Value.{greatest, product_from, sum_from, value, valued};

use crate::arithmetic::{Inverses, added, neg, number, pow};
use crate::expr::Expr;
use crate::powers::{KnownPower, argument, no_powers, power};
use prime_field::{ByFirst, BySecond, Modulus};

/// How many parts a sum or a product of a short expression has at most.
const FEW_PARTS: usize = 4;

/// Writes the values of expressions at these residues, the first of which is argument 1, a place for each, and answers
/// whether each has a value.
pub fn values_into(exprs: &[Expr], m: Modulus, args: &[u64], out: &mut [u64]) -> bool
    requires residues { All (λ a. a < value_of m) args.now }
    requires enough { All (λ expr. greatest expr ≤ length args.now) exprs.now }
    requires room { length out.old ≡ length exprs.now }
    ensures values { OnTrue result (map (value (value_of m) args.now) exprs.now ≡ map Some out.new) }
    ensures none { OnFalse result (Contains (map (value (value_of m) args.now) exprs.now) None) }
    ensures residues { OnTrue result (All (λ x. x < value_of m) out.new) }
{
    match m {
        Modulus::First => write_by(ByFirst, exprs, args, out),
        Modulus::Second => write_by(BySecond, exprs, args, out),
    }
}

/// Writes the values, with room for powers where that pays.
fn write_by<F: Inverses>(field: F, exprs: &[Expr], args: &[u64], out: &mut [u64]) -> bool
    requires residues { All (λ a. a < F.modulus) args.now }
    requires room { length out.old ≡ length exprs.now }
    ensures values { OnTrue result (map (value F.modulus args.now) exprs.now ≡ map Some out.new) }
    ensures none { OnFalse result (Contains (map (value F.modulus args.now) exprs.now) None) }
    ensures residues { OnTrue result (All (λ x. x < F.modulus) out.new) }
{
    if are_short(exprs) {
        write_values(field, exprs, args, &mut [], out)
    } else {
        let mut kept = no_powers();
        write_values(field, exprs, args, &mut kept, out)
    }
}

/// Whether there is so little to compute that room for powers would cost more than it gives.
fn are_short(exprs: &[Expr]) -> bool {
    match exprs {
        [] => true,
        [expr] => is_short(expr),
        _ => false,
    }
}

/// Whether no sum and no product in an expression has more than a few parts.
fn is_short(expr: &Expr) -> bool {
    match expr {
        Expr::Number(_) | Expr::Arg(_) => true,
        Expr::Neg(part) | Expr::Pow(part, _) => is_short(part.get()),
        Expr::Sum(parts) | Expr::Prod(parts) => {
            let parts = parts.as_slice();
            if parts.len() > FEW_PARTS {
                return false;
            }
            for (_, part) in parts {
                if !is_short(part) {
                    return false;
                }
            }
            true
        }
    }
}

/// Writes the values up to the first expression that has none.
fn write_values<F: Inverses>(
    field: F,
    exprs: &[Expr],
    args: &[u64],
    kept: &mut [KnownPower],
    out: &mut [u64],
) -> bool
    requires residues { All (λ a. a < F.modulus) args.now }
    requires kept { All (IsPower F.modulus args.now) kept.old }
    requires room { length out.old ≡ length exprs.now }
    ensures values { OnTrue result (map (value F.modulus args.now) exprs.now ≡ map Some out.new) }
    ensures none { OnFalse result (Contains (map (value F.modulus args.now) exprs.now) None) }
    ensures residues { OnTrue result (All (λ x. x < F.modulus) out.new) }
{
    for (place, expr) in exprs.iter().enumerate() {
        let Some(value) = value(field, expr, args, kept) else {
            return false;
        };
        out[place] = value;
    }
    true
}

/// The value of an expression, with powers of arguments taken from those that are kept.
#[inline(always)]
#[cycle(value)]
pub fn value<F: Inverses>(
    field: F,
    expr: &Expr,
    args: &[u64],
    kept: &mut [KnownPower],
) -> Option<u64>
    requires residues { All (λ a. a < F.modulus) args.now }
    requires kept { All (IsPower F.modulus args.now) kept.old }
    ensures value { result ≡ value F.modulus args.now expr.now }
    ensures residue { IfSome result (λ v. v < F.modulus) }
    ensures kept { All (IsPower F.modulus args.now) kept.new }
{
    match expr {
        Expr::Number(n) => Some(number(field, *n)),
        Expr::Arg(place) => argument(args, *place),
        Expr::Neg(part) => negative(field, part.get(), args, kept),
        Expr::Pow(base, exponent) => match base.get() {
            Expr::Arg(place) => power(field, args, *place, *exponent, kept),
            base => power_of(field, base, *exponent, args, kept),
        },
        Expr::Sum(parts) => sum(field, parts.as_slice(), args, kept),
        Expr::Prod(parts) => product(field, parts.as_slice(), args, kept),
    }
}

/// The negative of the value of a part.
#[cycle(value)]
fn negative<F: Inverses>(
    field: F,
    part: &Expr,
    args: &[u64],
    kept: &mut [KnownPower],
) -> Option<u64>
    requires residues { All (λ a. a < F.modulus) args.now }
    requires kept { All (IsPower F.modulus args.now) kept.old }
    ensures value { result ≡ option_map (λ v. (F.modulus - v) % F.modulus) (value F.modulus args.now part.now) }
    ensures residue { IfSome result (λ v. v < F.modulus) }
    ensures kept { All (IsPower F.modulus args.now) kept.new }
{
    let value = value(field, part, args, kept)?;
    Some(neg(field, value))
}

/// The power of the value of a part.
#[cycle(value)]
fn power_of<F: Inverses>(
    field: F,
    base: &Expr,
    exponent: u32,
    args: &[u64],
    kept: &mut [KnownPower],
) -> Option<u64>
    requires residues { All (λ a. a < F.modulus) args.now }
    requires kept { All (IsPower F.modulus args.now) kept.old }
    ensures value { result ≡ option_map (λ v. (v ^ exponent) % F.modulus) (value F.modulus args.now base.now) }
    ensures residue { IfSome result (λ v. v < F.modulus) }
    ensures kept { All (IsPower F.modulus args.now) kept.new }
{
    let value = value(field, base, args, kept)?;
    Some(pow(field, value, exponent))
}

/// The sum of the parts, of which those with `true` are taken off; it begins with the first of them.
#[cycle(value)]
fn sum<F: Inverses>(
    field: F,
    parts: &[(bool, Expr)],
    args: &[u64],
    kept: &mut [KnownPower],
) -> Option<u64>
    requires residues { All (λ a. a < F.modulus) args.now }
    requires kept { All (IsPower F.modulus args.now) kept.old }
    ensures value { result ≡ sum_from F.modulus 0 (valued F.modulus args.now parts.now) }
    ensures residue { IfSome result (λ v. v < F.modulus) }
    ensures kept { All (IsPower F.modulus args.now) kept.new }
{
    if parts.is_empty() {
        return Some(0);
    }
    let (minus, first) = &parts[0];
    let value = value(field, first, args, kept)?;
    let start = with_sign(field, *minus, value);
    sum_from(field, start, parts, 1, args, kept)
}

/// The sum of a start and the parts from a place on.
#[cycle(value)]
fn sum_from<F: Inverses>(
    field: F,
    start: u64,
    parts: &[(bool, Expr)],
    from: usize,
    args: &[u64],
    kept: &mut [KnownPower],
) -> Option<u64>
    requires start { start < F.modulus }
    requires place { from ≤ length parts.now }
    requires residues { All (λ a. a < F.modulus) args.now }
    requires kept { All (IsPower F.modulus args.now) kept.old }
    ensures value { result ≡ sum_from F.modulus start (valued F.modulus args.now (drop from parts.now)) }
    ensures residue { IfSome result (λ v. v < F.modulus) }
    ensures kept { All (IsPower F.modulus args.now) kept.new }
{
    let mut sum = start;
    for index in from..parts.len() {
        let (minus, part) = &parts[index];
        let value = value(field, part, args, kept)?;
        sum = added(field, sum, *minus, value);
    }
    Some(sum)
}

/// The product of the parts, which begins with the first of them unless that divides.
#[cycle(value)]
fn product<F: Inverses>(
    field: F,
    parts: &[(bool, Expr)],
    args: &[u64],
    kept: &mut [KnownPower],
) -> Option<u64>
    requires residues { All (λ a. a < F.modulus) args.now }
    requires kept { All (IsPower F.modulus args.now) kept.old }
    ensures value { result ≡ product_from F.modulus 1 (valued F.modulus args.now parts.now) }
    ensures residue { IfSome result (λ v. v < F.modulus) }
    ensures kept { All (IsPower F.modulus args.now) kept.new }
{
    if parts.is_empty() {
        return Some(1);
    }
    let (over, first) = &parts[0];
    if *over {
        return quotient_from(field, 1, parts, 0, args, kept);
    }
    let start = value(field, first, args, kept)?;
    product_from(field, start, parts, 1, args, kept)
}

/// The product of a start and the parts from a place on.
#[cycle(value)]
fn product_from<F: Inverses>(
    field: F,
    start: u64,
    parts: &[(bool, Expr)],
    from: usize,
    args: &[u64],
    kept: &mut [KnownPower],
) -> Option<u64>
    requires start { start < F.modulus }
    requires place { from ≤ length parts.now }
    requires residues { All (λ a. a < F.modulus) args.now }
    requires kept { All (IsPower F.modulus args.now) kept.old }
    ensures value { result ≡ product_from F.modulus start (valued F.modulus args.now (drop from parts.now)) }
    ensures residue { IfSome result (λ v. v < F.modulus) }
    ensures kept { All (IsPower F.modulus args.now) kept.new }
{
    let mut product = start;
    for index in from..parts.len() {
        let (over, part) = &parts[index];
        if *over {
            return quotient_from(field, product, parts, index, args, kept);
        }
        let value = value(field, part, args, kept)?;
        product = field.mul(product, value);
    }
    Some(product)
}

/// The product of a start and the parts from a place on, by one division by the product of those that divide.
#[cycle(value)]
fn quotient_from<F: Inverses>(
    field: F,
    start: u64,
    parts: &[(bool, Expr)],
    from: usize,
    args: &[u64],
    kept: &mut [KnownPower],
) -> Option<u64>
    requires start { start < F.modulus }
    requires place { from ≤ length parts.now }
    requires residues { All (λ a. a < F.modulus) args.now }
    requires kept { All (IsPower F.modulus args.now) kept.old }
    ensures value { result ≡ product_from F.modulus start (valued F.modulus args.now (drop from parts.now)) }
    ensures residue { IfSome result (λ v. v < F.modulus) }
    ensures kept { All (IsPower F.modulus args.now) kept.new }
{
    let mut above = start;
    let mut below = 1;
    for index in from..parts.len() {
        let (over, part) = &parts[index];
        let value = value(field, part, args, kept)?;
        if *over {
            below = field.mul(below, value);
        } else {
            above = field.mul(above, value);
        }
    }
    divided(field, above, below)
}

/// A residue, or with `minus` its negative.
#[inline]
fn with_sign<F: Inverses>(field: F, minus: bool, value: u64) -> u64
    requires { value < F.modulus }
    ensures signed { result ≡ (if minus then F.modulus - value else value) % F.modulus }
    ensures residue { result < F.modulus }
{
    if minus { neg(field, value) } else { value }
}

/// The quotient of two residues.
fn divided<F: Inverses>(field: F, above: u64, below: u64) -> Option<u64>
    requires above { above < F.modulus }
    requires below { below < F.modulus }
    ensures value { result ≡ option_map (λ inverse. (above * inverse) % F.modulus) (inverse F.modulus below) }
    ensures residue { IfSome result (λ v. v < F.modulus) }
{
    if below == 1 {
        return Some(above);
    }
    let inverse = field.inv(below)?;
    Some(field.mul(above, inverse))
}
