//! The expressions of a line.
ghost use Rattle.std.specs.Prelude.{◌≡◌, ◌≤◌, ◌<◌, ◌^◌, ◌-◌, All, IfOk, length};
ghost use Rattle.ratfun_text.specs.Names.{names_of, last_argument};
ghost use Rattle.ratfun_text.specs.Value.{greatest};
ghost use Rattle.graph_file.specs.Faults.{names_for, names_in, names_over};
ghost use Rattle.graph_file.specs.Line.{texts_in, texts_of};
ghost use Rattle.graph_file.specs.Parsed.{IsParsed, AreParsed};

use crate::error::FileKind;
use crate::line::{Line, Statement};
use ratfun_text::{Expr, ExprKind, Name, Names, parse_expr};
use sqlite_items::Items;
use std::alloc::Global;

/// The tree of the expression with this number, counted from 1.
fn expression(alloc: Global, text: &[u8], names: &Names, number: u32) -> Result<Expr, FileKind>
    requires { length (names_of names.now) < 2 ^ 32 }
    ensures parsed { IsParsed names.now text.now number result }
    ensures arguments { IfOk result (λ expr. greatest expr ≤ last_argument names.now) }
{
    match parse_expr(alloc, text, names) {
        Ok(expr) => Ok(expr),
        Err(error) => match error.kind {
            ExprKind::NoMemory => Err(FileKind::NoMemory),
            ExprKind::Unexpected
            | ExprKind::WideNumber
            | ExprKind::UnknownName
            | ExprKind::TooDeep => {
                Err(FileKind::Expr {
                    expression: number,
                    error,
                })
            }
        },
    }
}

/// The trees of the expressions, or why the first that is refused is so.
pub fn expressions(alloc: Global, texts: &[Name], names: &Names) -> Result<Items<Expr>, FileKind>
    requires few { length (names_of names.now) < 2 ^ 32 }
    requires count { length texts.now < 2 ^ 32 - 1 }
    ensures parsed { AreParsed names.now texts.now result }
    ensures arguments { IfOk result (λ exprs. All (λ expr. greatest expr ≤ last_argument names.now) exprs) }
{
    let mut exprs = Items::new(alloc);
    for (index, text) in texts.iter().enumerate() {
        let expr = expression(alloc, text.bytes(), names, index as u32 + 1)?;
        exprs.push(expr)?;
    }
    Ok(exprs)
}

/// The trees of expressions over a list.
fn expressions_over(
    alloc: Global,
    variables: &Names,
    list: &[u8],
    texts: &[Name],
) -> Result<Items<Expr>, FileKind>
    requires few { length (names_of variables.now) ≤ 8 }
    requires count { length texts.now < 2 ^ 32 - 1 }
    ensures parsed { AreParsed (names_over variables.now list.now) texts.now result }
    ensures arguments { IfOk result (λ exprs. All (λ expr. greatest expr ≤ last_argument (names_over variables.now list.now)) exprs) }
{
    if list == b"input".as_slice() {
        return expressions(alloc, texts, variables);
    }
    expressions(alloc, texts, &Names::Numbered)
}

fn node_expressions(
    alloc: Global,
    variables: &Names,
    statement: &Statement,
) -> Result<Items<Expr>, FileKind>
    requires few { length (names_of variables.now) ≤ 8 }
    requires count { length (texts_of statement.now) < 2 ^ 32 - 1 }
    ensures parsed { AreParsed (names_for variables.now statement.now) (texts_of statement.now) result }
    ensures arguments { IfOk result (λ exprs. All (λ expr. greatest expr ≤ last_argument (names_for variables.now statement.now)) exprs) }
{
    match statement {
        Statement::Eval { from, texts } => expressions_over(
            alloc,
            variables,
            from.bytes(),
            texts.as_slice(),
        ),
        _ => Ok(Items::new(alloc)),
    }
}

/// The trees of the line's expressions.
pub fn line_expressions(
    alloc: Global,
    variables: &Names,
    line: &Line,
) -> Result<Items<Expr>, FileKind>
    requires few { length (names_of variables.now) ≤ 8 }
    requires count { length (texts_in line.now) < 2 ^ 32 - 1 }
    ensures parsed { AreParsed (names_in variables.now line.now) (texts_in line.now) result }
    ensures arguments { IfOk result (λ exprs. All (λ expr. greatest expr ≤ last_argument (names_in variables.now line.now)) exprs) }
{
    match line {
        Line::Node(_, statement) => node_expressions(alloc, variables, statement),
        _ => Ok(Items::new(alloc)),
    }
}
