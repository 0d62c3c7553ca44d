//! The tree of an expression, built token by token.
ghost use Rattle.std.specs.Prelude.{◌≡◌, ◌≢◌, ◌+◌, ◌≤◌, ◌<◌, ◌^◌, [], ◌∷◌, ◌++◌, true, Err, Ok, IfOk, IsTrue, OnOk, if◌then◌else◌, length, nat_le};
ghost use Rattle.std.specs.Str.Parse.{digits_value};
ghost use Rattle.ratfun_text.specs.Bytes.{is_digits};
ghost use Rattle.ratfun_text.specs.Names.{names_of};
ghost use Rattle.ratfun_text.specs.Tokens.{is_word, token_of};
ghost use Rattle.ratfun_text.specs.Grammar.{product_of, sum_of};
ghost use Rattle.ratfun_text.specs.Parts.{IsAnswer, IsOperand, IsTree, after_caret, after_close, after_minus, after_name, after_number, after_open, after_product_sign, after_sign, after_sum_sign, depth, factor_ended, finished, negated, new_level, operand_after_number, parts_of, taken, term_ended, terms, whole};

use crate::bytes::number;
use crate::expr::Expr;
use crate::names::Names;
use crate::parse::ExprKind;
use crate::tokens::{Sign, sign_of};
use sqlite_items::{Boxed, Items};
use std::alloc::{AllocError, Global};
use std::mem::replace;

/// How many parentheses and signs in front of a factor may be open.
const DEPTH_LIMIT: u32 = 64;

/// The greatest exponent.
const GREATEST_EXPONENT: u128 = 65535;

/// The tree with so many signs in front of it.
fn negated(alloc: Global, mut tree: Expr, signs: u32) -> Result<Expr, AllocError>
    ensures { IfOk result (λ e. e ≡ negated signs tree) }
{
    for _sign in 0..signs {
        tree = Expr::Neg(Boxed::new(alloc, tree)?);
    }
    Ok(tree)
}

/// The product of the parts and one more, which is that one where there are no others.
fn product_with(mut parts: Items<(bool, Expr)>, over: bool, last: Expr) -> Result<Expr, AllocError>
    ensures { IfOk result (λ e. e ≡ product_of (parts ++ (over, last) ∷ [])) }
{
    if parts.is_empty() {
        return Ok(last);
    }
    parts.push((over, last))?;
    Ok(Expr::Prod(parts))
}

/// The sum of the parts and one more, which is that one where there are no others.
fn sum_with(mut parts: Items<(bool, Expr)>, minus: bool, last: Expr) -> Result<Expr, AllocError>
    ensures { IfOk result (λ e. e ≡ sum_of (parts ++ (minus, last) ∷ [])) }
{
    if parts.is_empty() {
        return Ok(last);
    }
    parts.push((minus, last))?;
    Ok(Expr::Sum(parts))
}

/// What has been read inside a parenthesis, or outside of all.
#[derive(Drop)]
pub struct Level {
    /// The terms before the present one.
    sum: Items<(bool, Expr)>,
    /// Whether the present term is taken off.
    minus: bool,
    /// The factors of the present term before the present one.
    product: Items<(bool, Expr)>,
    /// Whether the present factor divides.
    over: bool,
    /// The signs in front of the present factor.
    signs: u32,
    /// How many parentheses and signs are open around.
    base: u32,
}

impl Level {
    fn new(alloc: Global, base: u32) -> Level
        ensures { result ≡ new_level base }
    {
        Level {
            sum: Items::new(alloc),
            minus: false,
            product: Items::new(alloc),
            over: false,
            signs: 0,
            base,
        }
    }

    /// Takes in `*` or `/`, before which this power stands.
    fn end_factor(&mut self, alloc: Global, over: bool, power: Expr) -> Result<(), AllocError>
        ensures { OnOk result (self.new ≡ factor_ended over self.old power) }
    {
        let factor = negated(alloc, power, self.signs)?;
        self.product.push((self.over, factor))?;
        self.over = over;
        self.signs = 0;
        Ok(())
    }

    /// Takes in `+` or `-`, before which this power stands.
    fn end_term(&mut self, alloc: Global, minus: bool, power: Expr) -> Result<(), AllocError>
        ensures { OnOk result (self.new ≡ term_ended minus self.old power) }
    {
        let factor = negated(alloc, power, self.signs)?;
        let product = replace(&mut self.product, Items::new(alloc));
        let term = product_with(product, self.over, factor)?;
        self.sum.push((self.minus, term))?;
        self.minus = minus;
        self.over = false;
        self.signs = 0;
        Ok(())
    }

    /// The sum that ends with this power.
    fn ended(self, alloc: Global, power: Expr) -> Result<Expr, AllocError>
        ensures { IfOk result (λ e. e ≡ sum_of (terms self power)) }
    {
        let Level {
            sum,
            minus,
            product,
            over,
            signs,
            base: _,
        } = self;
        let factor = negated(alloc, power, signs)?;
        let term = product_with(product, over, factor)?;
        sum_with(sum, minus, term)
    }
}

/// What stands where an operand does.
#[derive(Drop)]
pub enum Operand {
    /// None yet.
    Wanted,
    /// An atom.
    Atom(Expr),
    /// An atom and a `^`, behind which its exponent is wanted.
    Base(Expr),
    /// An atom with its exponent.
    Power(Expr),
}

impl Operand {
    /// The power that ends here.
    fn whole(self) -> Option<Expr>
        ensures { result ≡ whole self }
    {
        match self {
            Operand::Wanted => None,
            Operand::Atom(tree) => Some(tree),
            Operand::Base(_tree) => None,
            Operand::Power(tree) => Some(tree),
        }
    }
}

/// The operand that a number makes, as an atom or an exponent.
fn with_number(alloc: Global, operand: Operand, digits: &[u8]) -> Result<Operand, ExprKind>
    requires { IsTrue (is_digits digits.now) }
    ensures { IsOperand (operand_after_number (digits_value 10 digits.now) operand) result }
{
    match operand {
        Operand::Wanted => match number(digits) {
            Some(number) => Ok(Operand::Atom(Expr::Number(number))),
            None => Err(ExprKind::WideNumber),
        },
        Operand::Base(tree) => {
            let exponent = exponent(digits)?;
            Ok(Operand::Power(Expr::Pow(Boxed::new(alloc, tree)?, exponent)))
        }
        Operand::Atom(_tree) => Err(ExprKind::Unexpected),
        Operand::Power(_tree) => Err(ExprKind::Unexpected),
    }
}

/// The exponent that the digits write.
fn exponent(digits: &[u8]) -> Result<u32, ExprKind>
    requires { IsTrue (is_digits digits.now) }
    ensures { result ≡ (if nat_le 65536 (digits_value 10 digits.now) then Err ExprKind.WideNumber else Ok (digits_value 10 digits.now)) }
{
    let Some(number) = number(digits) else {
        return Err(ExprKind::WideNumber);
    };
    if number > GREATEST_EXPONENT {
        return Err(ExprKind::WideNumber);
    }
    Ok(number as u32)
}

/// An expression of which a front has been read.
#[derive(Drop)]
pub struct Builder {
    alloc: Global,
    /// The levels around the present one, from the outside in.
    outer: Items<Level>,
    level: Level,
    operand: Operand,
}

impl Builder {
    /// Nothing has been read.
    pub fn new(alloc: Global) -> Builder
        ensures { parts_of result ≡ record { outer = []; level = new_level 0; operand = Operand.Wanted } }
    {
        Builder {
            alloc,
            outer: Items::new(alloc),
            level: Level::new(alloc, 0),
            operand: Operand::Wanted,
        }
    }

    /// Takes in the token that has these bytes. After a refusal nothing is said of the builder.
    pub fn read(&mut self, names: &Names, word: &[u8]) -> Result<(), ExprKind>
        requires few { length (names_of names.now) < 2 ^ 32 }
        requires shallow { depth (parts_of self.old) ≤ 64 }
        requires word { IsTrue (is_word word.now) }
        ensures { IsAnswer (taken names.now (parts_of self.old) (token_of word.now)) (parts_of self.new) result }
    {
        let first = word[0];
        if first.is_ascii_digit() {
            return self.number(word);
        }
        if first.is_ascii_alphabetic() {
            return self.name(names, word);
        }
        match sign_of(first) {
            Some(sign) => self.sign(sign),
            None => Err(ExprKind::Unexpected),
        }
    }

    fn number(&mut self, digits: &[u8]) -> Result<(), ExprKind>
        requires { IsTrue (is_digits digits.now) }
        ensures { IsAnswer (after_number (digits_value 10 digits.now) (parts_of self.old) self.old.operand) (parts_of self.new) result }
    {
        let operand = replace(&mut self.operand, Operand::Wanted);
        self.operand = with_number(self.alloc, operand, digits)?;
        Ok(())
    }

    fn name(&mut self, names: &Names, name: &[u8]) -> Result<(), ExprKind>
        requires { length (names_of names.now) < 2 ^ 32 }
        ensures { IsAnswer (after_name names.now name.now (parts_of self.old) self.old.operand) (parts_of self.new) result }
    {
        let Operand::Wanted = self.operand else {
            return Err(ExprKind::Unexpected);
        };
        let Some(argument) = names.argument(name) else {
            return Err(ExprKind::UnknownName);
        };
        self.operand = Operand::Atom(Expr::Arg(argument));
        Ok(())
    }

    fn sign(&mut self, sign: Sign) -> Result<(), ExprKind>
        requires shallow { depth (parts_of self.old) ≤ 64 }
        ensures { IsAnswer (after_sign sign (parts_of self.old)) (parts_of self.new) result }
    {
        match sign {
            Sign::Plus => self.sum_sign(false),
            Sign::Minus => self.minus(),
            Sign::Times => self.product_sign(false),
            Sign::Over => self.product_sign(true),
            Sign::Caret => self.caret(),
            Sign::Open => self.open(),
            Sign::Close => self.close(),
        }
    }

    fn sum_sign(&mut self, minus: bool) -> Result<(), ExprKind>
        ensures { IsAnswer (after_sum_sign minus (parts_of self.old) (whole self.old.operand)) (parts_of self.new) result }
    {
        let operand = replace(&mut self.operand, Operand::Wanted);
        let Some(power) = operand.whole() else {
            return Err(ExprKind::Unexpected);
        };
        self.level.end_term(self.alloc, minus, power)?;
        Ok(())
    }

    fn product_sign(&mut self, over: bool) -> Result<(), ExprKind>
        ensures { IsAnswer (after_product_sign over (parts_of self.old) (whole self.old.operand)) (parts_of self.new) result }
    {
        let operand = replace(&mut self.operand, Operand::Wanted);
        let Some(power) = operand.whole() else {
            return Err(ExprKind::Unexpected);
        };
        self.level.end_factor(self.alloc, over, power)?;
        Ok(())
    }

    /// A `-`, which is a sign in front of a factor where an operand is wanted.
    fn minus(&mut self) -> Result<(), ExprKind>
        requires shallow { depth (parts_of self.old) ≤ 64 }
        ensures { IsAnswer (after_minus (parts_of self.old) self.old.operand) (parts_of self.new) result }
    {
        let Operand::Wanted = self.operand else {
            return self.sum_sign(true);
        };
        if self.level.base + self.level.signs >= DEPTH_LIMIT {
            return Err(ExprKind::TooDeep);
        }
        self.level.signs += 1;
        Ok(())
    }

    fn caret(&mut self) -> Result<(), ExprKind>
        ensures { IsAnswer (after_caret (parts_of self.old) self.old.operand) (parts_of self.new) result }
    {
        let operand = replace(&mut self.operand, Operand::Wanted);
        let Operand::Atom(tree) = operand else {
            return Err(ExprKind::Unexpected);
        };
        self.operand = Operand::Base(tree);
        Ok(())
    }

    fn open(&mut self) -> Result<(), ExprKind>
        requires shallow { depth (parts_of self.old) ≤ 64 }
        ensures { IsAnswer (after_open (parts_of self.old) self.old.operand) (parts_of self.new) result }
    {
        let Operand::Wanted = self.operand else {
            return Err(ExprKind::Unexpected);
        };
        let depth = self.level.base + self.level.signs;
        if depth >= DEPTH_LIMIT {
            return Err(ExprKind::TooDeep);
        }
        let level = replace(&mut self.level, Level::new(self.alloc, depth + 1));
        self.outer.push(level)?;
        Ok(())
    }

    fn close(&mut self) -> Result<(), ExprKind>
        ensures { IsAnswer (after_close (parts_of self.old) (whole self.old.operand)) (parts_of self.new) result }
    {
        let operand = replace(&mut self.operand, Operand::Wanted);
        let Some(power) = operand.whole() else {
            return Err(ExprKind::Unexpected);
        };
        let Some(around) = self.outer.pop() else {
            return Err(ExprKind::Unexpected);
        };
        let level = replace(&mut self.level, around);
        self.operand = Operand::Atom(level.ended(self.alloc, power)?);
        Ok(())
    }

    /// The tree where the text ends.
    pub fn finish(self) -> Result<Expr, ExprKind>
        ensures { IsTree (finished (parts_of self)) result }
    {
        let Builder {
            alloc,
            outer,
            level,
            operand,
        } = self;
        let Some(power) = operand.whole() else {
            return Err(ExprKind::Unexpected);
        };
        if !outer.is_empty() {
            return Err(ExprKind::Unexpected);
        }
        Ok(level.ended(alloc, power)?)
    }
}
