//! The automaton of an expression that no text writes.
use pm_auto::{Auto, AutoError, Expr};
use std::alloc::Global;

/// Whether each type is an inline one.
const INLINE: [bool; 2] = [false, false];

/// Whether nothing may stand in a sequence with a choice of nothing, which no text writes.
fn leaves_no_place(alloc: Global) -> Result<bool, AutoError> {
    let none = Expr::Choice(Vec::new(alloc));
    let both = vec![in alloc; Expr::One(1), none]?;
    let expr = Expr::Seq(both);
    let automaton = Auto::build(alloc, &expr, INLINE.as_slice())?;
    let start = automaton.start();
    Ok(!automaton.valid_end(start) && automaton.edges(start).is_empty())
}

#[test]
fn a_part_without_a_list_leaves_no_place(rt: HostRuntime) {
    assert!(rt; leaves_no_place(rt.alloc()) == Ok(true));
}
