//! The places of a whole expression.
ghost use Rattle.std.specs.Prelude.{◌≡◌, ◌+◌, ◌*◌, ◌≤◌, [], true, map, IfOk};
ghost use Rattle.pm_auto.specs.Alike.{Alike};
ghost use Rattle.pm_auto.specs.Core.{Never, Empty};
ghost use Rattle.pm_auto.specs.Expand.{expand, and_copies, range, optional as option_of, one_of, in_turn};
ghost use Rattle.pm_auto.specs.Trim.{trim};
ghost use Rattle.pm_auto.specs.Table.{width as places, widths, part as part_of, one_or};

use crate::expr::Expr;
use crate::places::{Part, either, no_places, one_place, repeat, then};
use crate::width::width;
use std::alloc::{AllocError, Global};

/// The places of the expansion, numbered from `from` on, without what stands before or after a part that has no list. No
/// copy of an expression without places is written out.
#[cycle(lay_out)]
pub fn lay_out(alloc: Global, expr: &Expr, from: usize) -> Result<Part, AllocError>
    requires { from + places (expand expr.now) ≤ 4096 }
    ensures { IfOk result (λ p. Alike p (part_of from (trim (expand expr.now)))) }
{
    match expr {
        Expr::Empty => Ok(no_places(alloc, true)),
        Expr::One(kind) => one_place(alloc, from, *kind),
        Expr::Choice(items) => lay_out_choice(alloc, items.as_slice(), from),
        Expr::Seq(items) => lay_out_sequence(alloc, items.as_slice(), from),
        Expr::Plus(inner) => {
            let once = lay_out(alloc, inner, from)?;
            repeat(alloc, once)
        }
        Expr::Star(inner) => {
            let once = lay_out(alloc, inner, from)?;
            let more = repeat(alloc, once)?;
            optional(alloc, more)
        }
        Expr::Opt(inner) => {
            let once = lay_out(alloc, inner, from)?;
            optional(alloc, once)
        }
        Expr::Range(inner, low, high) => lay_out_range(alloc, inner, *low, *high, from),
    }
}

/// The part or nothing.
fn optional(alloc: Global, part: Part) -> Result<Part, AllocError>
    ensures { IfOk result (λ p. p ≡ one_or record { rows = []; first = []; may_be_empty = true } part) }
{
    either(no_places(alloc, true), part)
}

/// The places of a choice of these items.
#[cycle(lay_out)]
fn lay_out_choice(alloc: Global, items: &[Expr], from: usize) -> Result<Part, AllocError>
    requires { from + widths (map expand items.now) ≤ 4096 }
    ensures { IfOk result (λ p. Alike p (part_of from (trim (one_of Never (map expand items.now))))) }
{
    let mut part = no_places(alloc, false);
    for item in items {
        let next = lay_out(alloc, item, from + part.rows.len())?;
        part = either(part, next)?;
    }
    Ok(part)
}

/// The places of these items in turn.
#[cycle(lay_out)]
fn lay_out_sequence(alloc: Global, items: &[Expr], from: usize) -> Result<Part, AllocError>
    requires { from + widths (map expand items.now) ≤ 4096 }
    ensures { IfOk result (λ p. Alike p (part_of from (trim (in_turn Empty (map expand items.now))))) }
{
    let mut part = no_places(alloc, true);
    for item in items {
        let next = lay_out(alloc, item, from + part.rows.len())?;
        part = then(alloc, part, next)?;
    }
    Ok(part)
}

/// The places of a repetition.
#[cycle(lay_out)]
fn lay_out_range(
    alloc: Global,
    inner: &Expr,
    low: u32,
    high: Option<u32>,
    from: usize,
) -> Result<Part, AllocError>
    requires { from + places (range (expand inner.now) low high) ≤ 4096 }
    ensures { IfOk result (λ p. Alike p (part_of from (trim (range (expand inner.now) low high)))) }
{
    if width(inner) == 0 {
        let once = lay_out(alloc, inner, from)?;
        return Ok(no_places(alloc, low == 0 || once.may_be_empty));
    }
    let part = lay_out_copies(alloc, inner, low, from)?;
    match high {
        None => {
            let once = lay_out(alloc, inner, from + part.rows.len())?;
            let more = repeat(alloc, once)?;
            let rest = optional(alloc, more)?;
            then(alloc, part, rest)
        }
        Some(high) => {
            let more = high.saturating_sub(low);
            lay_out_more(alloc, part, inner, low, more, from)
        }
    }
}

/// The places of `low` copies.
#[cycle(lay_out)]
fn lay_out_copies(alloc: Global, inner: &Expr, low: u32, from: usize) -> Result<Part, AllocError>
    requires { from + low * places (expand inner.now) ≤ 4096 }
    ensures { IfOk result (λ p. Alike p (part_of from (trim (and_copies Empty low (expand inner.now))))) }
{
    let mut part = no_places(alloc, true);
    for _i in 0..low {
        let next = lay_out(alloc, inner, from + part.rows.len())?;
        part = then(alloc, part, next)?;
    }
    Ok(part)
}

/// The places of `low` copies, which `part` has, and of `more` copies of which each may be left out.
#[cycle(lay_out)]
fn lay_out_more(
    alloc: Global,
    part: Part,
    inner: &Expr,
    low: u32,
    more: u32,
    from: usize,
) -> Result<Part, AllocError>
    requires begun { Alike part (part_of from (trim (and_copies Empty low (expand inner.now)))) }
    requires narrow { from + (low * places (expand inner.now) + more * places (expand inner.now)) ≤ 4096 }
    ensures { IfOk result (λ p. Alike p (part_of from (trim (and_copies (and_copies Empty low (expand inner.now)) more (option_of (expand inner.now)))))) }
{
    let mut part = part;
    for _i in 0..more {
        let once = lay_out(alloc, inner, from + part.rows.len())?;
        let next = optional(alloc, once)?;
        part = then(alloc, part, next)?;
    }
    Ok(part)
}
