//! The number of places of an expression's expansion.
ghost use Rattle.std.specs.Prelude.{◌≡◌, ◌≤◌, ◌^◌, min, map};
ghost use Rattle.pm_auto.specs.Expand.{expand, written};
ghost use Rattle.pm_auto.specs.Table.{width as places, widths};

use crate::expr::Expr;

/// One more than the greatest number of places that an automaton may have.
const CAP: usize = 4097;

/// The number of places of the expansion, or 4,097 where there are more. The expansion itself is not built.
#[cycle(width)]
pub fn width(expr: &Expr) -> usize
    ensures { result ≡ min (places (expand expr.now)) 4097 }
{
    match expr {
        Expr::Empty => 0,
        Expr::One(_) => 1,
        Expr::Choice(items) => width_of_all(items.as_slice()),
        Expr::Seq(items) => width_of_all(items.as_slice()),
        Expr::Plus(inner) => width(inner),
        Expr::Star(inner) => width(inner),
        Expr::Opt(inner) => width(inner),
        Expr::Range(inner, low, high) => { (width(inner) * copies(*low, *high)).min(CAP) }
    }
}

/// The places of all items together, or 4,097 where there are more.
#[cycle(width)]
fn width_of_all(items: &[Expr]) -> usize
    ensures { result ≡ min (widths (map expand items.now)) 4097 }
{
    let mut sum = 0;
    for item in items {
        sum = (sum + width(item)).min(CAP);
    }
    sum
}

/// How many copies of its inner expression a repetition is written out as.
fn copies(low: u32, high: Option<u32>) -> usize
    ensures value { result ≡ written low high }
    ensures small { result ≤ 2 ^ 32 }
{
    match high {
        None => low as usize + 1,
        Some(high) => low.max(high) as usize,
    }
}
