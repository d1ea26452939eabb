//! Content expressions that say the same.
ghost use Rattle.std.specs.Prelude.{◌≡◌, true, map};
ghost use Rattle.pm_auto.specs.Tree.{tree};

use pm_auto::Expr;

/// Whether the two say the same. It takes no memory.
#[cycle(same)]
pub fn same_expr(left: &Expr, right: &Expr) -> bool
    ensures { result ≡ true → tree left.now ≡ tree right.now }
{
    match (left, right) {
        (Expr::Empty, Expr::Empty) => true,
        (Expr::One(a), Expr::One(b)) => *a == *b,
        (Expr::Choice(a), Expr::Choice(b)) => same_exprs(a.as_slice(), b.as_slice()),
        (Expr::Seq(a), Expr::Seq(b)) => same_exprs(a.as_slice(), b.as_slice()),
        (Expr::Plus(a), Expr::Plus(b)) => same_expr(a, b),
        (Expr::Star(a), Expr::Star(b)) => same_expr(a, b),
        (Expr::Opt(a), Expr::Opt(b)) => same_expr(a, b),
        (Expr::Range(a, low, high), Expr::Range(b, least, most)) => {
            *low == *least && same_most(*high, *most) && same_expr(a, b)
        }
        _ => false,
    }
}

/// Whether both lists say the same, part by part.
#[cycle(same)]
fn same_exprs(left: &[Expr], right: &[Expr]) -> bool
    ensures { result ≡ true → map tree left.now ≡ map tree right.now }
{
    if left.len() != right.len() {
        return false;
    }
    for i in 0..left.len() {
        if !same_expr(&left[i], &right[i]) {
            return false;
        }
    }
    true
}

/// Whether both are one number or none.
fn same_most(left: Option<u32>, right: Option<u32>) -> bool
    ensures { result ≡ true → left ≡ right }
{
    match (left, right) {
        (None, None) => true,
        (Some(a), Some(b)) => a == b,
        _ => false,
    }
}
