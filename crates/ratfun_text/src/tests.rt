ghost use Rattle.std.specs.Prelude.{◌≡◌, ◌≢◌, ℕ, ◌<◌, ◌≤◌, ◌^◌, IfOk, IsTrue, List, length};
ghost use Rattle.std.specs.Char.{is_ascii_alphabetic};
ghost use Rattle.ratfun_text.specs.Names.{names_of};
ghost use Rattle.ratfun_text.specs.Printed.{AreVariables, IsIn};

use crate::{
    Expr, ExprError, ExprKind, Name, Names, QuotientError, Text, parse_expr, print_mono,
    print_quotient, read_quotient, values_into,
};
use poly_maps::{Frac, Mono};
use prime_field::Modulus;
use sqlite_items::Items;
use std::alloc::{AllocError, Global};
use std::hash::{DefaultHasher, Hash, Hasher};
use std::process::Abort;
use std::test::Fail;

fn x_and_y(alloc: Global) -> Result<Names, AllocError>
    ensures { IfOk result (λ names. length (names_of names) < 2 ^ 32) }
{
    let mut names = Items::new(alloc);
    names.push(Name::of(alloc, b"x")?)?;
    names.push(Name::of(alloc, b"y")?)?;
    Ok(Names::Listed(names))
}

fn value(rt: &impl Abort, e: &Expr, m: Modulus, args: &[u64]) -> Option<u64> {
    assert!(rt; e.greatest() as usize <= args.len());
    assert!(rt; args.iter().all(|a| *a < m.value()));
    e.value(m, args)
}

fn values(rt: &impl Abort, exprs: &[Expr], m: Modulus, args: &[u64], out: &mut [u64]) -> bool {
    assert!(rt; exprs.len() == out.len());
    assert!(rt; exprs.iter().all(|e| e.greatest() as usize <= args.len()));
    assert!(rt; args.iter().all(|a| *a < m.value()));
    values_into(exprs, m, args, out)
}

/// The tree of the text in the names `x` and `y`.
fn parsed(alloc: Global, text: &[u8]) -> Result<Expr, ExprError> {
    let names = x_and_y(alloc).map_err(|_error| ExprError {
        place: 0,
        kind: ExprKind::NoMemory,
    })?;
    parse_expr(alloc, text, &names)
}

/// Where the text is refused in these names, and why.
fn refusal(alloc: Global, text: &[u8]) -> Option<(usize, ExprKind)> {
    let error = parsed(alloc, text).err()?;
    Some((error.place, error.kind))
}

/// So many of the first bytes, the middle, and as many of the last byte.
fn around(
    alloc: Global,
    count: usize,
    first: &[u8],
    middle: u8,
    last: &[u8],
) -> Result<Vec<u8>, AllocError> {
    let mut text = Vec::new(alloc);
    for _ in 0..count {
        text.extend_from_slice(first)?;
    }
    text.push(middle)?;
    for _ in 0..count {
        text.extend_from_slice(last)?;
    }
    Ok(text)
}

fn crosses<T: Send + Sync>() {}

fn hash_of<T: Hash>(value: &T) -> u64 {
    let mut state = DefaultHasher::new();
    value.hash(&mut state);
    state.finish()
}

#[test]
fn types_cross_threads() {
    crosses::<Expr>();
    crosses::<Name>();
    crosses::<Names>();
    crosses::<ExprError>();
    crosses::<Text>();
    crosses::<QuotientError>();
}

#[test]
fn names_keep_their_bytes(rt: HostRuntime) -> Result<(), Fail> {
    let name = Name::of(rt.alloc(), b"eps_1")?;
    assert_eq!(rt; name.bytes(), b"eps_1".as_slice());
    Ok(())
}

#[test]
fn names_are_equal_and_hash_alike_by_their_bytes(rt: HostRuntime) -> Result<(), Fail> {
    let name = Name::of(rt.alloc(), b"eps_1")?;
    let same = Name::of(rt.alloc(), b"eps_1")?;
    let other = Name::of(rt.alloc(), b"eps_12")?;
    assert!(rt; name == same);
    assert!(rt; name != other);
    assert_eq!(rt; hash_of(&name), hash_of(&same));
    assert!(rt; hash_of(&name) != hash_of(&other));
    Ok(())
}

#[test]
fn values_at_three_and_five(rt: HostRuntime) -> Result<(), Fail> {
    for (text, m, want) in [
        (
            b"-x^2 + 2*(y-1)".as_slice(),
            Modulus::First,
            2305843009213693950,
        ),
        (b"(-x)^2".as_slice(), Modulus::First, 9),
        (b"--x^3".as_slice(), Modulus::Second, 27),
        (b"y - x - 1".as_slice(), Modulus::First, 1),
        (b"y - (x - 1)".as_slice(), Modulus::First, 3),
        (b"x*-y".as_slice(), Modulus::Second, 9223372036854775768),
        (b"x/y*y".as_slice(), Modulus::First, 3),
        (b"8/2/2".as_slice(), Modulus::First, 2),
        (b"(x-3)^0".as_slice(), Modulus::First, 1),
        (b"\t(\rx + y\t) /\r 2 ".as_slice(), Modulus::First, 4),
        (
            b"340282366920938463463374607431768211455".as_slice(),
            Modulus::First,
            63,
        ),
        (
            b"00000000000000000000000000000000000000000000007".as_slice(),
            Modulus::Second,
            7,
        ),
    ] {
        let e = parsed(rt.alloc(), text)?;
        assert_eq!(rt; value(&rt, &e, m, &[3, 5]), Some(want));
    }
    Ok(())
}

/// The sum of a first part, which is taken off with `minus`, and the argument `y`.
fn sum_with_y(alloc: Global, minus: bool, first: Expr) -> Result<Expr, AllocError> {
    let mut parts = Items::new(alloc);
    parts.push((minus, first))?;
    parts.push((false, Expr::Arg(2)))?;
    Ok(Expr::Sum(parts))
}

#[test]
fn sums_begin_with_any_first_part(rt: HostRuntime) -> Result<(), Fail> {
    let mut exprs = Items::new(rt.alloc());
    exprs.push(sum_with_y(rt.alloc(), true, Expr::Arg(1))?)?;
    exprs.push(sum_with_y(rt.alloc(), false, Expr::Number(u128::MAX))?)?;
    exprs.push(sum_with_y(rt.alloc(), true, Expr::Number(u128::MAX))?)?;
    exprs.push(sum_with_y(rt.alloc(), true, Expr::Number(0))?)?;
    exprs.push(Expr::Sum(Items::new(rt.alloc())))?;
    for (m, want) in [
        (Modulus::First, [2, 68, 2305843009213693893, 5, 0]),
        (Modulus::Second, [2, 2504, 9223372036854773289, 5, 0]),
    ] {
        let mut out = [0; 5];
        assert!(rt; values(&rt, exprs.as_slice(), m, &[3, 5], &mut out));
        assert_eq!(rt; out, want);
        for (place, expr) in exprs.as_slice().iter().enumerate() {
            assert_eq!(rt; value(&rt, expr, m, &[3, 5]), out.get(place).copied());
        }
    }
    Ok(())
}

#[test]
fn a_divisor_without_an_inverse_leaves_no_value(rt: HostRuntime) -> Result<(), Fail> {
    for text in [
        b"1/0/2".as_slice(),
        b"1/(x-3)".as_slice(),
        b"(1/(y-5))^0".as_slice(),
        b"0*(x/(y-5))".as_slice(),
    ] {
        let e = parsed(rt.alloc(), text)?;
        assert_eq!(rt; value(&rt, &e, Modulus::First, &[3, 5]), None);
    }
    Ok(())
}

#[test]
fn values_of_a_list_at_both_moduli(rt: HostRuntime) -> Result<(), Fail> {
    let mut exprs = Items::new(rt.alloc());
    for text in [
        b"x^31 + x^32 - x^200*y^31".as_slice(),
        b"(x+y)^200".as_slice(),
        b"x^2 + x^66 - x^2*y^1 + x^17*y^1 - y^18*x^34".as_slice(),
        b"5/x/y*x/(y-3)/7^2".as_slice(),
        b"1/x/y^3 - x^3/6/x^3 + 1/2/3".as_slice(),
        b"12*x^5 - 7*x^4*y + 3*x^4 - x^3*y^2 + 9*x^2*y^3 - x^2*y + 4*x*y^4 - 8*x + y^5 - 6*y^2 + 340282366920938463463374607431768211455".as_slice(),
        b"-x".as_slice(),
        b"77".as_slice(),
    ] {
        exprs.push(parsed(rt.alloc(), text)?)?;
    }
    for (m, want) in [
        (
            Modulus::First,
            [
                368675024054324468,
                583146988059258389,
                2046982759046611862,
                2078785113143691795,
                1540897661854045747,
                2026299622567704629,
                1071275119090237162,
                77,
            ],
        ),
        (
            Modulus::Second,
            [
                5951876209844507881,
                891585230979926838,
                7010268052651047118,
                6807472386067224777,
                8643138607466714833,
                1434300766610792337,
                7988804146731318994,
                77,
            ],
        ),
    ] {
        let args = [1234567890123456789, 987654321987654321];
        let mut out = [0; 8];
        assert!(rt; values(&rt, exprs.as_slice(), m, &args, &mut out));
        assert_eq!(rt; out, want);
        for (place, expr) in exprs.as_slice().iter().enumerate() {
            assert_eq!(rt; value(&rt, expr, m, &args), out.get(place).copied());
        }
    }
    Ok(())
}

#[test]
fn a_list_has_no_values_where_one_of_it_has_none(rt: HostRuntime) -> Result<(), Fail> {
    for text in [b"1/(x-3)".as_slice(), b"x/y/(x-3)/2".as_slice()] {
        let mut exprs = Items::new(rt.alloc());
        exprs.push(parsed(rt.alloc(), b"x")?)?;
        exprs.push(parsed(rt.alloc(), text)?)?;
        exprs.push(parsed(rt.alloc(), b"y")?)?;
        let mut out = [0; 3];
        assert!(rt; !values(&rt, exprs.as_slice(), Modulus::First, &[3, 5], &mut out));
        assert!(rt; values(&rt, exprs.as_slice(), Modulus::First, &[4, 5], &mut out));
    }
    Ok(())
}

#[test]
fn a_sign_in_front_of_a_power_is_outside_of_it(rt: HostRuntime) -> Result<(), Fail> {
    let tree = parsed(rt.alloc(), b"-(y)^2")?;
    assert_eq!(rt; tree.greatest(), 2);
    let Expr::Neg(power) = &tree else {
        return Err("no sign".into());
    };
    let Expr::Pow(base, exponent) = power.get() else {
        return Err("no power".into());
    };
    assert_eq!(rt; *exponent, 2);
    assert!(rt; matches!(base.get(), Expr::Arg(2)));
    Ok(())
}

#[test]
fn each_fault_is_told_at_its_place(rt: HostRuntime) -> Result<(), Fail> {
    for (text, place, kind) in [
        (b"".as_slice(), 0, ExprKind::Unexpected),
        (b" ".as_slice(), 1, ExprKind::Unexpected),
        (b"x+ ".as_slice(), 3, ExprKind::Unexpected),
        (b"x w".as_slice(), 2, ExprKind::Unexpected),
        (b"2x".as_slice(), 1, ExprKind::Unexpected),
        (b"x^-1".as_slice(), 2, ExprKind::Unexpected),
        (b"x^2^2".as_slice(), 3, ExprKind::Unexpected),
        (b"+x".as_slice(), 0, ExprKind::Unexpected),
        (b"(x".as_slice(), 2, ExprKind::Unexpected),
        (b"x)".as_slice(), 1, ExprKind::Unexpected),
        (b"x*_y".as_slice(), 2, ExprKind::Unexpected),
        (b"w+x y".as_slice(), 0, ExprKind::UnknownName),
        (b" 1/w".as_slice(), 3, ExprKind::UnknownName),
        (b"x*xx".as_slice(), 2, ExprKind::UnknownName),
        (b"x^65536".as_slice(), 2, ExprKind::WideNumber),
        (
            b"340282366920938463463374607431768211456".as_slice(),
            0,
            ExprKind::WideNumber,
        ),
    ] {
        assert_eq!(rt; refusal(rt.alloc(), text), Some((place, kind)));
    }
    assert_eq!(rt; refusal(rt.alloc(), b"x^65535"), None);
    Ok(())
}

#[test]
fn more_than_64_parentheses_and_signs_are_too_deep(rt: HostRuntime) -> Result<(), Fail> {
    for (first, last, deepest) in [
        (b"(".as_slice(), b")".as_slice(), 64),
        (b"-".as_slice(), b"".as_slice(), 64),
        (b"-(".as_slice(), b")".as_slice(), 32),
        (b"-x*(".as_slice(), b")".as_slice(), 63),
    ] {
        let text = around(rt.alloc(), deepest, first, b'x', last)?;
        assert_eq!(rt; refusal(rt.alloc(), &text), None);
    }
    for (first, last, count, place) in [
        (b"(".as_slice(), b")".as_slice(), 65, 64),
        (b"-".as_slice(), b"".as_slice(), 65, 64),
        (b"-(".as_slice(), b")".as_slice(), 33, 64),
        (b"- (".as_slice(), b")".as_slice(), 33, 96),
        (b"-x*(".as_slice(), b")".as_slice(), 65, 256),
    ] {
        let text = around(rt.alloc(), count, first, b'x', last)?;
        assert_eq!(rt;
            refusal(rt.alloc(), &text),
            Some((place, ExprKind::TooDeep))
        );
    }
    Ok(())
}

#[test]
fn numbered_names_have_no_leading_zero(rt: HostRuntime) -> Result<(), Fail> {
    let tree = parse_expr(rt.alloc(), b"z1 + z262144", &Names::Numbered)?;
    assert_eq!(rt; tree.greatest(), 262144);
    for text in [
        b"z0".as_slice(),
        b"z01".as_slice(),
        b"z".as_slice(),
        b"y1".as_slice(),
        b"z1_".as_slice(),
        b"z262145".as_slice(),
    ] {
        assert_eq!(rt;
            parse_expr(rt.alloc(), text, &Names::Numbered).err(),
            Some(ExprError {
                place: 0,
                kind: ExprKind::UnknownName
            })
        );
    }
    Ok(())
}

#[test]
fn a_refusal_is_printed_with_its_place(rt: HostRuntime) -> Result<(), Fail> {
    let error = ExprError {
        place: 3,
        kind: ExprKind::WideNumber,
    };
    assert_eq!(rt;
        format!(in rt.alloc(); "{error}")?.as_str(),
        "wide number at byte 3"
    );
    Ok(())
}

/// Two names of one letter each.
#[tactic(auto, using(crate::proofs::Variables::two_letters))]
fn two_names(alloc: Global, first: u8, second: u8) -> Result<Vec<Name>, AllocError>
    requires first { IsTrue (is_ascii_alphabetic first) }
    requires second { IsTrue (is_ascii_alphabetic second) }
    requires apart { first ≢ second }
    ensures names { IfOk result (λ names. AreVariables names.items) }
    ensures two { IfOk result (λ names. length names.items ≡ 2) }
{
    let mut names = Vec::new(alloc);
    names.push(Name::of(alloc, &[first])?)?;
    names.push(Name::of(alloc, &[second])?)?;
    Ok(names)
}

/// What is printed of the quotient that the text gives in the names `x` and `y`.
fn printed_again(alloc: Global, text: &[u8]) -> Result<Text, QuotientError> {
    let names = two_names(alloc, b'x', b'y')?;
    let q = read_quotient(alloc, text, &names)?;
    Ok(print_quotient(alloc, &q, &names)?)
}

fn is_printed(alloc: Global, text: &[u8]) -> bool {
    match printed_again(alloc, text) {
        Ok(printed) => printed.bytes() == text,
        Err(_error) => false,
    }
}

fn is_refused(alloc: Global, text: &[u8]) -> bool {
    match printed_again(alloc, text) {
        Ok(_printed) => false,
        Err(error) => error == QuotientError::NotPrinted,
    }
}

#[test]
fn what_is_printed_is_read_and_printed_again(rt: HostRuntime) {
    let alloc = rt.alloc();
    assert!(rt; is_printed(alloc, b"0"));
    assert!(rt; is_printed(alloc, b"1"));
    assert!(rt; is_printed(alloc, b"x + y"));
    assert!(rt; is_printed(alloc, b"(x^2*y + y)/(x*y + 3)"));
    assert!(rt; is_printed(alloc, b"(-1/7)/(x - 1/7*y)"));
    assert!(rt; is_printed(alloc, b"(1/8*x^2 - 3/4*x + 1)/(y^2)"));
    assert!(rt; is_printed(alloc, b"-x^65535"));
}

#[test]
fn numbers_are_read_up_to_their_ends(rt: HostRuntime) {
    let alloc = rt.alloc();
    assert!(rt; is_printed(alloc, b"170141183460469231731687303715884105727"));
    assert!(rt; is_printed(alloc, b"-170141183460469231731687303715884105728"));
    assert!(rt; is_printed(alloc, b"1/340282366920938463463374607431768211455*x"));
    assert!(rt; is_refused(alloc, b"170141183460469231731687303715884105728"));
    assert!(rt; is_refused(alloc, b"-170141183460469231731687303715884105729"));
    assert!(rt; is_refused(alloc, b"1/340282366920938463463374607431768211456"));
    assert!(rt; is_refused(alloc, b"x^65536"));
}

#[test]
fn other_texts_are_refused(rt: HostRuntime) {
    let alloc = rt.alloc();
    assert!(rt; is_refused(alloc, b""));
    assert!(rt; is_refused(alloc, b"2/2*x"));
    assert!(rt; is_refused(alloc, b"1*x"));
    assert!(rt; is_refused(alloc, b"x^1"));
    assert!(rt; is_refused(alloc, b"y*x"));
    assert!(rt; is_refused(alloc, b"y + x"));
    assert!(rt; is_refused(alloc, b"x + -y"));
    assert!(rt; is_refused(alloc, b"x+y"));
    assert!(rt; is_refused(alloc, b"+x"));
    assert!(rt; is_refused(alloc, b"01*x"));
    assert!(rt; is_refused(alloc, b"(x)/(1)"));
    assert!(rt; is_refused(alloc, b"(1)/(2*x)"));
    assert!(rt; is_refused(alloc, b"x/y"));
    assert!(rt; is_refused(alloc, b"z"));
}

/// Whether a text's terms are the first polynomial of `(1/8*d^2 - 3/4*d + 1)/(m^2)`.
fn are_expected(terms: &[(Mono, Frac)]) -> bool {
    match terms {
        [square, linear, constant] => {
            square.1 == Frac { num: 1, den: 8 }
                && linear.1 == Frac { num: -3, den: 4 }
                && constant.1 == Frac { num: 1, den: 1 }
        }
        _ => false,
    }
}

#[test]
fn a_text_gives_the_terms_that_it_writes(rt: HostRuntime) -> Result<(), Fail> {
    let names = two_names(rt.alloc(), b'd', b'm')?;
    let q = read_quotient(rt.alloc(), b"(1/8*d^2 - 3/4*d + 1)/(m^2)", &names)?;
    assert!(rt; are_expected(q.num.terms()));
    assert_eq!(rt; q.den.terms().len(), 1);
    Ok(())
}

/// The monomial with these exponents of the first two variables.
#[tactic(auto, using(crate::proofs::Variables::first_two))]
fn in_two(first: u16, second: u16) -> Mono
    ensures { (names : List (List ℕ)) → 2 ≤ length names → IsIn names result }
{
    Mono::new([first, second, 0, 0, 0, 0, 0, 0])
}

#[test]
fn a_monomial_is_printed_alone(rt: HostRuntime) -> Result<(), Fail> {
    let names = two_names(rt.alloc(), b'x', b'y')?;
    let text = print_mono(rt.alloc(), &in_two(2, 1), &names)?;
    assert_eq!(rt; text.bytes(), b"x^2*y".as_slice());
    let one = print_mono(rt.alloc(), &in_two(0, 0), &names)?;
    assert_eq!(rt; one.bytes(), b"1".as_slice());
    Ok(())
}
