//! Copies of expressions, and of lists of plain values.
ghost use Rattle.std.specs.Prelude.{◌≡◌, IfOk, map};
ghost use Rattle.pm_auto.specs.Tree.{tree};

use crate::auto::Edge;
use crate::expr::Expr;
use pm_list::Listed;
use std::alloc::{AllocError, Global};

/// An expression that says the same as this one.
#[cycle(copy_expr)]
pub fn copy_expr(alloc: Global, expr: &Expr) -> Result<Expr, AllocError>
    ensures { IfOk result (λ e. tree e ≡ tree expr.now) }
{
    match expr {
        Expr::Empty => Ok(Expr::Empty),
        Expr::One(kind) => Ok(Expr::One(*kind)),
        Expr::Choice(items) => {
            let copies = copy_exprs(alloc, items.as_slice())?;
            Ok(Expr::Choice(copies))
        }
        Expr::Seq(items) => {
            let copies = copy_exprs(alloc, items.as_slice())?;
            Ok(Expr::Seq(copies))
        }
        Expr::Plus(inner) => {
            let copied = copy_expr(alloc, inner)?;
            Ok(Expr::Plus(Box::new(alloc, copied)?))
        }
        Expr::Star(inner) => {
            let copied = copy_expr(alloc, inner)?;
            Ok(Expr::Star(Box::new(alloc, copied)?))
        }
        Expr::Opt(inner) => {
            let copied = copy_expr(alloc, inner)?;
            Ok(Expr::Opt(Box::new(alloc, copied)?))
        }
        Expr::Range(inner, low, high) => {
            let copied = copy_expr(alloc, inner)?;
            Ok(Expr::Range(Box::new(alloc, copied)?, *low, *high))
        }
    }
}

/// Expressions that say the same as these, in the same order.
#[cycle(copy_expr)]
fn copy_exprs(alloc: Global, items: &[Expr]) -> Result<Vec<Expr>, AllocError>
    ensures { IfOk result (λ v. map tree v.items ≡ map tree items.now) }
{
    let mut copies = Vec::new(alloc);
    for item in items {
        copies.push(copy_expr(alloc, item)?)?;
    }
    Ok(copies)
}

/// A list equal to this one.
pub fn copy_plain<T: Copy + Drop>(alloc: Global, items: &[T]) -> Result<Listed<T>, AllocError>
    ensures { IfOk result (λ l. l ≡ items.now) }
{
    let mut copies = Listed::from_vec(Vec::with_capacity(alloc, items.len())?);
    for item in items {
        copies.push(*item)?;
    }
    Ok(copies)
}

/// Lists of edges equal to these, in the same order.
pub fn copy_edges(alloc: Global, lists: &[Listed<Edge>]) -> Result<Listed<Listed<Edge>>, AllocError>
    ensures { IfOk result (λ l. l ≡ lists.now) }
{
    let mut copies: Listed<Listed<Edge>> = Listed::new(alloc);
    for edges in lists {
        copies.push(copy_plain(alloc, edges.as_slice())?)?;
    }
    Ok(copies)
}
