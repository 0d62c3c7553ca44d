//! Expressions as trees, and their values.
ghost use Rattle.std.specs.Prelude.{◌≡◌, ◌<◌, ◌≤◌, All, IfSome, length};
ghost use Rattle.prime_field.specs.Modulus.{value_of};
ghost use Rattle.ratfun_text.specs.Value.{value, greatest};

use crate::evaluation;
use prime_field::{ByFirst, BySecond, Modulus};
use sqlite_items::{Boxed, Items};

/// A rational expression in numbered arguments.
#[cycle(expr)]
#[derive(Drop)]
pub enum Expr {
    /// A number, which is reduced by the modulus at hand.
    Number(u128),
    /// An argument, counted from 1.
    Arg(u32),
    /// The negative.
    Neg(Boxed<Expr>),
    /// The power with this exponent; the power 0 is 1.
    Pow(Boxed<Expr>, u32),
    /// The sum of the parts, of which those with `true` are taken off.
    Sum(Items<(bool, Expr)>),
    /// The product of the parts, by which those with `true` divide.
    Prod(Items<(bool, Expr)>),
}

impl Expr {
    /// The value modulo `m` at these residues, the first of which is argument 1.
    ///
    /// None where something is divided by a value that is no unit, or by what has no value itself. A product is taken
    /// from left to right. Calls nest as deep as the tree, and a tree that `parse_expr` gives has fewer than 200 levels,
    /// since no more than 64 parentheses and signs are open at once.
    pub fn value(&self, m: Modulus, args: &[u64]) -> Option<u64>
        requires residues { All (λ a. a < value_of m) args.now }
        requires enough { greatest self.now ≤ length args.now }
        ensures value { result ≡ value (value_of m) args.now self.now }
        ensures residue { IfSome result (λ v. v < value_of m) }
    {
        match m {
            Modulus::First => evaluation::value(ByFirst, self, args, &mut []),
            Modulus::Second => evaluation::value(BySecond, self, args, &mut []),
        }
    }

    /// The greatest place of an argument that the expression uses, 0 where it uses none.
    pub fn greatest(&self) -> u32
        ensures { result ≡ greatest self.now }
    {
        match self {
            Expr::Number(_) => 0,
            Expr::Arg(place) => *place,
            Expr::Neg(part) | Expr::Pow(part, _) => part.get().greatest(),
            Expr::Sum(parts) | Expr::Prod(parts) => {
                let mut greatest = 0;
                for (_, part) in parts.as_slice() {
                    greatest = part.greatest().max(greatest);
                }
                greatest
            }
        }
    }
}
