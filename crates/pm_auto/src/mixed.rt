//! Inline and block types in one expression.
ghost use Rattle.std.specs.Prelude.{◌≡◌};
ghost use Rattle.pm_auto.specs.Types.{types, types_of_list, one_is};

use crate::expr::Expr;
use crate::search::is_marked;

/// Whether a type with this entry in the table occurs in the expression. A type without an entry counts as a block type.
#[cycle(has_type)]
pub fn has_type(expr: &Expr, inline: &[bool], wanted: bool) -> bool
    ensures { result ≡ one_is inline.now wanted (types expr.now) }
{
    match expr {
        Expr::Empty => false,
        Expr::One(kind) => is_marked(inline, *kind) == wanted,
        Expr::Choice(items) => one_has_type(items.as_slice(), inline, wanted),
        Expr::Seq(items) => one_has_type(items.as_slice(), inline, wanted),
        Expr::Plus(inner) => has_type(inner, inline, wanted),
        Expr::Star(inner) => has_type(inner, inline, wanted),
        Expr::Opt(inner) => has_type(inner, inline, wanted),
        Expr::Range(inner, _, _) => has_type(inner, inline, wanted),
    }
}

/// The same of several expressions.
#[cycle(has_type)]
fn one_has_type(items: &[Expr], inline: &[bool], wanted: bool) -> bool
    ensures { result ≡ one_is inline.now wanted (types_of_list items.now) }
{
    for item in items {
        if has_type(item, inline, wanted) {
            return true;
        }
    }
    false
}
