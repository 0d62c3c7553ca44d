//! Expressions: their text, their tree and their value modulo a prime.
#![tactic(auto)]

mod arithmetic;
mod builder;
pub mod bytes;
mod evaluation;
mod expr;
mod names;
mod parse;
mod powers;
mod print;
mod reading;
mod text;
mod tokens;

pub use evaluation::values_into;
pub use expr::Expr;
pub use names::{Name, Names, NoMemory};
pub use parse::{ExprError, ExprKind, one_fault, one_tree, parse_expr};
pub use print::{one_quotient, print_mono, print_quotient};
pub use reading::{QuotientError, read_quotient};
pub use text::Text;

#[cfg(test)]
mod tests;
