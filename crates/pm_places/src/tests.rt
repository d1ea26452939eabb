//! The laws are called, with ample memory, for the automaton of `(3 | 2) 2+`, and one for that of `1` and a choice of nothing.
ghost use Rattle.std.specs.Prelude.{ℕ, List, IsSome, IfOk, ◌↔◌};
ghost use Rattle.pm_places.specs.Nexts.{IsBegun, led_to};

use crate::laws;
use pm_auto::{Auto, AutoError, Expr};
use std::alloc::Global;
use std::test::Fail;

/// The automaton of an expression: what a law says of it.
fn built(alloc: Global, expr: &Expr) -> Result<Auto, AutoError>
    ensures { IfOk result (λ a. (w : List ℕ) → IsSome (led_to a.edges 0 w) ↔ IsBegun expr.now w) }
{
    let auto = Auto::build(alloc, expr, &[])?;
    laws::leads_where_begun(expr, &auto);
    Ok(auto)
}

#[test]
fn laws_are_called(rt: HostRuntime) -> Result<(), Fail> {
    let alloc = rt.alloc();
    let some = Expr::Plus(Box::new(alloc, Expr::One(2))?);
    let auto = built(alloc, &some)?;
    assert!(rt; auto.edges(auto.start()).len() == 1);
    let either = Expr::Choice(vec![in alloc; Expr::One(3), Expr::One(2)]?);
    let expr = Expr::Seq(vec![in alloc; either, some]?);
    let auto = Auto::build(alloc, &expr, &[])?;
    laws::leads_where_begun(&expr, &auto);
    laws::leads_to_state(&expr, &auto);
    laws::has_edges_next(&expr, &auto);
    laws::reaches_each_state(&expr, &auto);
    laws::leads_alike_together(&expr, &auto);
    laws::edges_go_on(&expr, &auto);
    let edges = auto.edges(auto.start());
    assert!(rt; edges.len() == 2);
    assert!(rt; edges[0].kind == 3 && edges[1].kind == 2);
    let none = Expr::Seq(vec![in alloc; Expr::One(1), Expr::Choice(Vec::new(alloc))]?);
    let auto = built(alloc, &none)?;
    assert!(rt; auto.edges(auto.start()).is_empty());
    assert!(rt; !auto.valid_end(auto.start()));
    Ok(())
}
