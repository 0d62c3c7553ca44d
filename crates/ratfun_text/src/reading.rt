//! From the text of a quotient to the quotient.
ghost use Rattle.std.specs.Prelude.{◌≡◌, ℕ, ◌≤◌, ◌^◌, ◌++◌, ◌↔◌, List, length, IfOk, IfSome, OnOk, IsTrue, MatchOption, MatchResult, Some};
ghost use Rattle.poly_maps.specs.Fraction.{IsRational, LeadsWithOne};
ghost use Rattle.poly_maps.specs.Polynomial.{Supported};
ghost use Rattle.poly_maps.specs.Quotient.{IsQuotientMap, RationalPair};
ghost use Rattle.poly_maps.specs.declared.fraction.Frac.{Frac};
ghost use Rattle.ratfun_text.specs.Bytes.{number_below};
ghost use Rattle.ratfun_text.specs.Printed.{AreIn, AreVariables, HasSizes, IsIn, poly_text, quotient_text};
ghost use Rattle.ratfun_text.specs.Reading.{AreTermsIn, before, begins_with_byte, begins_with_digit, behind, denominator_in, denominator_text, exponent_in, later_behind, number_behind, number_in, numerator_in, numerator_text, powers_after, powers_in, signed, term_in, unsigned, with_powers, zeros};

use crate::bytes::number;
use crate::names::{Name, NoMemory};
use crate::print::print_quotient;
use poly_maps::{Frac, Mono, Quotient, RatPoly};
use std::alloc::{AllocError, Global};
use thiserror::Error;

/// Why a text gave no quotient.
#[derive(Clone, Copy, Debug, PartialEq, Eq, Error)]
pub enum QuotientError {
    /// No quotient in these names is printed so.
    #[error("not printed")]
    NotPrinted,
    /// There was no memory for the quotient.
    #[error("out of memory")]
    NoMemory,
}

impl From<AllocError> for QuotientError {
    ghost use Rattle.std.specs.Prelude.{◌≡◌};
    ghost use Rattle.ratfun_text.specs.declared.reading.QuotientError.TheVariants.{NoMemory};

    ghost from_gives = { λ _ error. error ≡ NoMemory };

    fn from(_error: AllocError) -> QuotientError {
        QuotientError::NoMemory
    }
}

/// The text before the first separator and the text behind it, where there is none all of it and nothing.
fn cut(text: &[u8], separator: u8) -> (&[u8], &[u8])
    ensures before { result.0.now ≡ before separator text.now }
    ensures behind { result.1.now ≡ behind separator text.now }
    ensures shorter { length result.1.now ≤ length text.now }
{
    for (at, byte) in text.iter().enumerate() {
        if *byte == separator {
            return (&text[..at], &text[at + 1..]);
        }
    }
    (text, &[])
}

/// The number that the text writes, 0 where it writes none.
fn number_in(text: &[u8]) -> u128
    ensures { result ≡ number_in (2 ^ 128) text.now }
{
    number(text).unwrap_or(0)
}

/// The number behind a separator, which is 1 where nothing stands there.
fn number_behind(text: &[u8]) -> u128
    ensures { result ≡ number_behind (2 ^ 128) text.now }
{
    match text {
        [] => 1,
        _ => number_in(text),
    }
}

fn small_number(text: &[u8]) -> Option<u16>
    ensures { result ≡ number_below (2 ^ 16) text.now }
{
    let number = number(text)?;
    if number > 65535 {
        return None;
    }
    Some(number as u16)
}

/// The exponent behind a `^`, which is 1 where nothing stands there.
fn exponent_behind(text: &[u8]) -> u16
    ensures { result ≡ number_behind (2 ^ 16) text.now }
{
    match text {
        [] => 1,
        _ => small_number(text).unwrap_or(0),
    }
}

fn begins_with_digit(text: &[u8]) -> bool
    ensures { result ≡ begins_with_digit text.now }
{
    match text {
        [first, ..] => first.is_ascii_digit(),
        [] => false,
    }
}

/// The coefficient of a term without its sign, its numerator and its denominator.
fn coefficient_in(term: &[u8]) -> (u128, u128)
    ensures num { result.0 ≡ numerator_in term.now }
    ensures den { result.1 ≡ denominator_in term.now }
{
    if !begins_with_digit(term) {
        return (1, 1);
    }
    let (coefficient, _powers) = cut(term, b'*');
    let (num, den) = cut(coefficient, b'/');
    (number_in(num), number_behind(den))
}

/// The powers of a term, behind its coefficient.
fn powers_in(term: &[u8]) -> &[u8]
    ensures { result.now ≡ powers_in term.now }
{
    if !begins_with_digit(term) {
        return term;
    }
    let (_coefficient, powers) = cut(term, b'*');
    powers
}

/// The exponent of the variable in the first power, 0 where that is another's, and the powers of later variables.
fn take_power<'a>(powers: &'a [u8], name: &[u8]) -> (u16, &'a [u8])
    ensures exponent { result.0 ≡ exponent_in name.now powers.now }
    ensures others { result.1.now ≡ powers_after name.now powers.now }
{
    let (first, others) = cut(powers, b'*');
    let (word, exponent) = cut(first, b'^');
    if word == name {
        (exponent_behind(exponent), others)
    } else {
        (0, powers)
    }
}

/// The monomial of these powers.
fn mono_in(names: &[Name], powers: &[u8]) -> Mono
    requires { length names.now ≤ 8 }
    ensures { result ≡ with_powers 0 names.now powers.now (zeros 8) }
{
    let mut exponents = [0; 8];
    let mut rest = powers;
    for (place, name) in names.iter().enumerate() {
        let (exponent, others) = take_power(rest, name.bytes());
        exponents[place] = exponent;
        rest = others;
    }
    Mono::new(exponents)
}

/// The number with this sign, 0 where it doesn't fit.
fn signed(minus: bool, size: u128) -> i128
    ensures { result ≡ signed minus size }
{
    const LEAST: u128 = 1 << 127;
    if minus && size == LEAST {
        return i128::MIN;
    }
    if size >= LEAST {
        return 0;
    }
    if minus { -(size as i128) } else { size as i128 }
}

/// The term behind a sign.
fn term_in(names: &[Name], minus: bool, term: &[u8]) -> (Mono, Frac)
    requires { length names.now ≤ 8 }
    ensures { result ≡ term_in names.now minus term.now }
{
    let (num, den) = coefficient_in(term);
    let mono = mono_in(names, powers_in(term));
    let num = signed(minus, num);
    (mono, Frac { num, den })
}

/// Whether a `-` stands in front, and the text behind it.
fn sign_in(text: &[u8]) -> (bool, &[u8])
    ensures minus { result.0 ≡ begins_with_byte 45 text.now }
    ensures rest { result.1.now ≡ unsigned text.now }
{
    match text {
        [b'-', rest @ ..] => (true, rest),
        _ => (false, text),
    }
}

/// Puts the terms behind a first one behind those that are there. The text begins with a sign.
fn push_terms(terms: &mut Vec<(Mono, Frac)>, names: &[Name], text: &[u8]) -> Result<(), NoMemory>
    requires names { AreVariables names.now }
    requires inside { Supported (IsIn names.now) terms.old.items }
    ensures inside { OnOk result (Supported (IsIn names.now) terms.new.items) }
    ensures read { (p : List (List ℕ × Frac)) → AreTermsIn names.now p → text.now ≡ later_behind names.now p → OnOk result (terms.new.items ≡ terms.old.items ++ p) }
{
    let mut rest = text;
    while let [sign, _, behind @ ..] = rest {
        let (term, others) = cut(behind, b' ');
        terms.push(term_in(names, *sign == b'-', term))?;
        rest = others;
    }
    Ok(())
}

/// The terms that stand in the text of a polynomial.
fn terms_in(alloc: Global, names: &[Name], text: &[u8]) -> Result<Vec<(Mono, Frac)>, NoMemory>
    requires { AreVariables names.now }
    ensures inside { IfOk result (λ terms. Supported (IsIn names.now) terms.items) }
    ensures read { (p : List (List ℕ × Frac)) → AreTermsIn names.now p → text.now ≡ poly_text names.now p → IfOk result (λ terms. terms.items ≡ p) }
{
    let mut terms = Vec::new(alloc);
    if text == b"0".as_slice() {
        return Ok(terms);
    }
    let (minus, unsigned) = sign_in(text);
    let (first, others) = cut(unsigned, b' ');
    terms.push(term_in(names, minus, first))?;
    push_terms(&mut terms, names, others)?;
    Ok(terms)
}

/// The polynomial of these terms, None where they aren't those of one.
fn polynomial_of(alloc: Global, terms: &[(Mono, Frac)]) -> Result<Option<RatPoly>, NoMemory>
    ensures { IfOk result (λ found. MatchOption found (IsRational terms.now → ⊥) (λ p. p ≡ terms.now)) }
{
    let mut polynomial = RatPoly::zero(alloc);
    for (i, term) in terms.iter().enumerate() {
        if !term.1.is_reduced() {
            return Ok(None);
        }
        if i > 0 && term.0 >= terms[i - 1].0 {
            return Ok(None);
        }
        polynomial.add_term(term.0, term.1)?;
    }
    Ok(Some(polynomial))
}

/// The polynomial that stands in the text, if one does.
fn polynomial_in(alloc: Global, names: &[Name], text: &[u8]) -> Result<Option<RatPoly>, NoMemory>
    requires { AreVariables names.now }
    ensures inside { IfOk result (λ found. IfSome found (λ p. Supported (IsIn names.now) p)) }
    ensures read { (p : List (List ℕ × Frac)) → IsRational p → AreTermsIn names.now p → text.now ≡ poly_text names.now p → IfOk result (λ found. found ≡ Some p) }
{
    let terms = terms_in(alloc, names, text)?;
    polynomial_of(alloc, &terms)
}

/// The texts of a numerator and of a denominator.
fn parts(text: &[u8]) -> (&[u8], &[u8])
    ensures num { result.0.now ≡ numerator_text text.now }
    ensures den { result.1.now ≡ denominator_text text.now }
{
    let [b'(', ..] = text else {
        return (text, &[b'1']);
    };
    let (_front, inner) = cut(text, b'(');
    let (num, _rest) = cut(inner, b')');
    let (_num, rest) = cut(text, b')');
    let (_over, inner) = cut(rest, b'(');
    let (den, _end) = cut(inner, b')');
    (num, den)
}

fn leads_with_one(terms: &[(Mono, Frac)]) -> bool
    ensures { IsTrue result ↔ LeadsWithOne terms.now }
{
    match terms {
        [first, ..] => first.1.num == 1 && first.1.den == 1,
        [] => false,
    }
}

/// The quotient that stands in the text, if one does. The text may be another than that of the quotient.
fn candidate(alloc: Global, text: &[u8], names: &[Name]) -> Result<Option<Quotient>, NoMemory>
    requires { AreVariables names.now }
    ensures inside { IfOk result (λ found. IfSome found (λ q. AreIn names.now q)) }
    ensures read { (q : RationalPair) → IsQuotientMap q → AreIn names.now q → HasSizes q → text.now ≡ quotient_text names.now q → IfOk result (λ found. found ≡ Some q) }
{
    let (num, den) = parts(text);
    let Some(num) = polynomial_in(alloc, names, num)? else {
        return Ok(None);
    };
    let Some(den) = polynomial_in(alloc, names, den)? else {
        return Ok(None);
    };
    if !leads_with_one(den.terms()) {
        return Ok(None);
    }
    Ok(Some(Quotient::new(num, den)))
}

/// Reads the quotient that is printed as this text in these names of its variables, the first variable's first.
///
/// No other text of the same function is read: `2/2*x` isn't, since `print_quotient` writes `x`.
pub fn read_quotient(alloc: Global, text: &[u8], names: &[Name]) -> Result<Quotient, QuotientError>
    requires names { AreVariables names.now }
    ensures text { IfOk result (λ q. text.now ≡ quotient_text names.now q) }
    ensures inside { IfOk result (λ q. AreIn names.now q) }
    ensures printed { (q : RationalPair) → IsQuotientMap q → AreIn names.now q → HasSizes q → text.now ≡ quotient_text names.now q → MatchResult result (λ found. found ≡ q) (λ error. error ≡ QuotientError.NoMemory) }
{
    let Some(q) = candidate(alloc, text, names)? else {
        return Err(QuotientError::NotPrinted);
    };
    let printed = print_quotient(alloc, &q, names)?;
    if printed.bytes() != text {
        return Err(QuotientError::NotPrinted);
    }
    Ok(q)
}
