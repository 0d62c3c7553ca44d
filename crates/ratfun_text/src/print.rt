//! From a quotient to its text.
ghost use Rattle.std.specs.Prelude.{◌≡◌, ℕ, ◌==◌, not, ◌&&◌, List, ◌++◌, ◌∷◌, [], ◌≤◌, length, IfOk, OnOk, decimal};
ghost use Rattle.poly_maps.specs.Mono.{degree};
ghost use Rattle.poly_maps.specs.Polynomial.{Supported};
ghost use Rattle.poly_maps.specs.Quotient.{IsQuotientMap, RationalPair};
ghost use Rattle.ratfun_text.specs.Printed.{AreIn, AreVariables, HasSizes, IsIn, chained, is_one, is_unit, later_text, magnitude, mono_text, poly_text, power, powers, quotient_text, term_text};

use crate::names::{Name, NoMemory};
use crate::text::Text;
use itoa::Buffer;
use poly_maps::{Frac, Mono, Quotient};
use std::alloc::Global;

fn push_number(text: &mut Vec<u8>, number: u128) -> Result<(), NoMemory>
    ensures { OnOk result (text.new.items ≡ text.old.items ++ decimal number) }
{
    let mut buffer = Buffer::new();
    text.extend_from_slice(buffer.format(number).as_bytes())
}

/// Puts a fraction without its sign behind the text.
fn push_magnitude(text: &mut Vec<u8>, f: Frac) -> Result<(), NoMemory>
    ensures { OnOk result (text.new.items ≡ text.old.items ++ magnitude f) }
{
    push_number(text, f.num.unsigned_abs())?;
    if f.den != 1 {
        text.push(b'/')?;
        push_number(text, f.den)?;
    }
    Ok(())
}

/// Puts a variable with its exponent behind the text.
fn push_power(text: &mut Vec<u8>, name: &[u8], exponent: u16) -> Result<(), NoMemory>
    ensures { OnOk result (text.new.items ≡ text.old.items ++ power name.now exponent) }
{
    text.extend_from_slice(name)?;
    if exponent != 1 {
        text.push(b'^')?;
        push_number(text, u128::from(exponent))?;
    }
    Ok(())
}

/// Puts the power behind the text, with a `*` in front of it unless it is the first factor.
fn push_factor(text: &mut Vec<u8>, name: &[u8], exponent: u16, first: bool) -> Result<(), NoMemory>
    ensures { OnOk result (text.new.items ≡ text.old.items ++ chained first (power name.now exponent ∷ [])) }
{
    if !first {
        text.push(b'*')?;
    }
    push_power(text, name, exponent)
}

/// Puts the powers of a monomial behind the text, with a `*` in front of each but for the first factor.
fn push_powers(text: &mut Vec<u8>, names: &[Name], mono: &Mono, first: bool) -> Result<(), NoMemory>
    requires { length names.now ≤ 8 }
    ensures { OnOk result (text.new.items ≡ text.old.items ++ chained first (powers names.now mono.now)) }
{
    let exponents = mono.exponents();
    let mut first = first;
    for (i, name) in names.iter().enumerate() {
        let exponent = exponents[i];
        if exponent != 0 {
            push_factor(text, name.bytes(), exponent, first)?;
            first = false;
        }
    }
    Ok(())
}

/// Whether a term is printed as its powers alone.
fn is_bare(mono: &Mono, f: Frac) -> bool
    ensures { result ≡ (not (degree mono.now == 0) && is_unit f) }
{
    mono.total() != 0 && f.num.unsigned_abs() == 1 && f.den == 1
}

/// Puts a term without its sign behind the text.
#[tactic(auto, using(crate::proofs::Printing::term_bare, crate::proofs::Printing::term_full))]
fn push_term(text: &mut Vec<u8>, names: &[Name], mono: &Mono, f: Frac) -> Result<(), NoMemory>
    requires few { length names.now ≤ 8 }
    requires inside { IsIn names.now mono.now }
    ensures { OnOk result (text.new.items ≡ text.old.items ++ term_text names.now (mono.now, f)) }
{
    if is_bare(mono, f) {
        return push_powers(text, names, mono, true);
    }
    push_magnitude(text, f)?;
    push_powers(text, names, mono, false)
}

/// Puts the terms after the first behind the text, each behind its sign.
fn push_later(text: &mut Vec<u8>, names: &[Name], terms: &[(Mono, Frac)]) -> Result<(), NoMemory>
    requires few { length names.now ≤ 8 }
    requires inside { Supported (IsIn names.now) terms.now }
    ensures { OnOk result (text.new.items ≡ text.old.items ++ later_text names.now terms.now) }
{
    for term in terms {
        text.push(b' ')?;
        text.push(if term.1.num < 0 { b'-' } else { b'+' })?;
        text.push(b' ')?;
        push_term(text, names, &term.0, term.1)?;
    }
    Ok(())
}

/// Puts a polynomial behind the text.
fn push_poly(text: &mut Vec<u8>, names: &[Name], terms: &[(Mono, Frac)]) -> Result<(), NoMemory>
    requires few { length names.now ≤ 8 }
    requires inside { Supported (IsIn names.now) terms.now }
    ensures { OnOk result (text.new.items ≡ text.old.items ++ poly_text names.now terms.now) }
{
    let [first, later @ ..] = terms else {
        text.push(b'0')?;
        return Ok(());
    };
    if first.1.num < 0 {
        text.push(b'-')?;
    }
    push_term(text, names, &first.0, first.1)?;
    push_later(text, names, later)
}

/// Whether a polynomial is the constant 1.
fn is_one(terms: &[(Mono, Frac)]) -> bool
    ensures { result ≡ is_one terms.now }
{
    match terms {
        [(mono, f)] => mono.total() == 0 && f.num == 1 && f.den == 1,
        _ => false,
    }
}

/// The text of a quotient in these names of its variables, the first variable's first.
///
/// Its terms descend in the graded lexicographic order. A denominator of 1 isn't printed, and beside any other both parts
/// stand in parentheses, as in `(1/8*d^2 - 3/4*d + 1)/(m^2)`.
pub fn print_quotient(alloc: Global, q: &Quotient, names: &[Name]) -> Result<Text, NoMemory>
    requires names { AreVariables names.now }
    requires inside { AreIn names.now q.now }
    ensures { IfOk result (λ text. text ≡ quotient_text names.now q.now) }
{
    let mut text = Vec::new(alloc);
    let num = q.num.terms();
    let den = q.den.terms();
    if is_one(den) {
        push_poly(&mut text, names, num)?;
        return Ok(Text::of(text));
    }
    text.push(b'(')?;
    push_poly(&mut text, names, num)?;
    text.extend_from_slice(b")/(")?;
    push_poly(&mut text, names, den)?;
    text.push(b')')?;
    Ok(Text::of(text))
}

/// The text of a monomial that stands alone, which is `1` for the empty one.
#[tactic(auto, using(crate::proofs::Printing::mono_chained, crate::proofs::Printing::mono_empty))]
pub fn print_mono(alloc: Global, mono: &Mono, names: &[Name]) -> Result<Text, NoMemory>
    requires names { AreVariables names.now }
    requires inside { IsIn names.now mono.now }
    ensures { IfOk result (λ text. text ≡ mono_text names.now mono.now) }
{
    let mut text = Vec::new(alloc);
    if mono.total() == 0 {
        text.push(b'1')?;
        return Ok(Text::of(text));
    }
    push_powers(&mut text, names, mono, true)?;
    Ok(Text::of(text))
}

/// A text is the text of at most one quotient in given names.
pub fn one_quotient()
    ensures { (names : List (List ℕ)) (p q : RationalPair) → AreVariables names → IsQuotientMap p → AreIn names p → HasSizes p → IsQuotientMap q → AreIn names q → HasSizes q → quotient_text names p ≡ quotient_text names q → p ≡ q }
{}
