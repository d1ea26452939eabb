//! Expressions made of parts.
ghost use Rattle.std.specs.Prelude.{◌≡◌, IfOk, Option, Some, None, map};
ghost use Rattle.pm_auto.specs.Tree.{tree, plus as plus_tree, star as star_tree, opt as opt_tree, range as range_tree, choice as choice_tree, seq as seq_tree};
ghost use Rattle.pm_expr.specs.Names.{joined};
ghost use Rattle.pm_expr.specs.Reader.{sequence_of, choice_of};

use pm_auto::Expr;
use std::alloc::{AllocError, Global};

/// One or more of these.
pub(crate) fn plus(alloc: Global, expr: Expr) -> Result<Expr, AllocError>
    ensures { IfOk result (λ e. tree e ≡ plus_tree (tree expr)) }
{
    Ok(Expr::Plus(Box::new(alloc, expr)?))
}

/// Any number of these.
pub(crate) fn star(alloc: Global, expr: Expr) -> Result<Expr, AllocError>
    ensures { IfOk result (λ e. tree e ≡ star_tree (tree expr)) }
{
    Ok(Expr::Star(Box::new(alloc, expr)?))
}

/// At most one of these.
pub(crate) fn query(alloc: Global, expr: Expr) -> Result<Expr, AllocError>
    ensures { IfOk result (λ e. tree e ≡ opt_tree (tree expr)) }
{
    Ok(Expr::Opt(Box::new(alloc, expr)?))
}

/// From the first number to the second of these, or at least the first.
pub(crate) fn range(
    alloc: Global,
    expr: Expr,
    low: u32,
    high: Option<u32>,
) -> Result<Expr, AllocError>
    ensures { IfOk result (λ e. tree e ≡ range_tree (tree expr) low high) }
{
    Ok(Expr::Range(Box::new(alloc, expr)?, low, high))
}

/// The choice of these; of one alone it is that one.
pub(crate) fn any_of(mut parts: Vec<Expr>) -> Expr
    ensures { tree result ≡ joined choice_tree (map tree parts.items) }
{
    if parts.len() == 1 {
        parts.remove(0)
    } else {
        Expr::Choice(parts)
    }
}

/// The sequence of these; of one alone it is that one.
pub(crate) fn in_turn(mut parts: Vec<Expr>) -> Expr
    ensures { tree result ≡ joined seq_tree (map tree parts.items) }
{
    if parts.len() == 1 {
        parts.remove(0)
    } else {
        Expr::Seq(parts)
    }
}

/// The sequence of the items and the last one.
pub(crate) fn sequence(mut items: Vec<Expr>, last: Expr) -> Result<Expr, AllocError>
    ensures { IfOk result (λ e. tree e ≡ sequence_of (map tree items.items) (tree last)) }
{
    items.push(last)?;
    Ok(in_turn(items))
}

/// The choice of the sequences that are done and one of the items and the last one.
pub(crate) fn choice(mut done: Vec<Expr>, items: Vec<Expr>, last: Expr) -> Result<Expr, AllocError>
    ensures { IfOk result (λ e. tree e ≡ choice_of (map tree done.items) (map tree items.items) (tree last)) }
{
    done.push(sequence(items, last)?)?;
    Ok(any_of(done))
}
