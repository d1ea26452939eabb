//! Automata of all types, and dead ends.
ghost use Rattle.std.specs.Prelude.{◌≡◌, ◌<◌, ◌≤◌, ℕ, length, map, IfOk, IfErr, OnOk, MatchOption};
ghost use Rattle.pm_auto.specs.Tree.{tree};
ghost use Rattle.pm_auto.specs.Built.{Is_fault};
ghost use Rattle.pm_auto.specs.Finish.{Finishes};
ghost use Rattle.pm_schema.specs.Generated.{nth, IsAutoOf, AutosOf, Finishing, AllFinishing, IsGeneratable};
ghost use Rattle.pm_schema.specs.Shared.{HasNoFault};
ghost use Rattle.pm_schema.specs.Refusals.{inline_table as inline_table_of, HasAutomata, IsNamed, IsRefused};

use crate::error::SchemaError;
use crate::same::same_expr;
use crate::spec::{NodeSpec, SchemaSpec};
use pm_auto::{Auto, AutoError, Expr, State};
use pm_list::Listed;
use std::alloc::{AllocError, Global};

/// Whether each type is inline.
fn inline_table(alloc: Global, spec: &SchemaSpec) -> Result<Vec<bool>, AllocError>
    ensures { IfOk result (λ v. v.items ≡ inline_table_of spec.now) }
{
    let mut table = Vec::new(alloc);
    let nodes = spec.nodes.as_slice();
    for node in nodes {
        table.push(node.is_inline())?;
    }
    Ok(table)
}

/// The first of so many types whose content says the same.
fn find_same(nodes: &[NodeSpec], count: usize, content: &Expr) -> Option<usize>
    requires { count ≤ length nodes.now }
    ensures { MatchOption result (Unit {0}) (λ j. (j < count) × (tree (nth nodes.now j).content ≡ tree content.now)) }
{
    for kind in 0..count {
        if same_expr(&nodes[kind].content, content) {
            return Some(kind);
        }
    }
    None
}

/// The automaton of the content: a copy of that of an earlier type whose content says the same, or else a new one. Schemas
/// have few contents and many types.
fn auto_of(
    alloc: Global,
    nodes: &[NodeSpec],
    autos: &[Auto],
    content: &Expr,
    inline: &[bool],
) -> Result<Auto, AutoError>
    requires few { length autos.now ≤ length nodes.now }
    requires automata { AutosOf nodes.now autos.now }
    requires have { (j : ℕ) → j < length autos.now → HasNoFault (nth nodes.now j).content inline.now }
    ensures automaton { IfOk result (IsAutoOf content.now) }
    ensures has { OnOk result (HasNoFault content.now inline.now) }
    ensures fault { IfErr result (Is_fault content.now inline.now) }
{
    match find_same(nodes, autos.len(), content) {
        Some(kind) => {
            let auto = autos[kind].copy(alloc)?;
            Ok(auto)
        }
        None => {
            let auto = Auto::build(alloc, content, inline)?;
            Ok(auto)
        }
    }
}

/// The automaton of each type's content. `Content` with the fault of the first type for which there is none.
pub fn build_autos(alloc: Global, spec: &SchemaSpec) -> Result<Listed<Auto>, SchemaError>
    requires { IsNamed spec.now }
    ensures full { IfOk result (λ autos. length autos ≡ length spec.now.nodes) }
    ensures automata { IfOk result (λ autos. AutosOf spec.now.nodes autos) }
    ensures have { OnOk result (HasAutomata spec.now) }
    ensures refused { IfErr result (IsRefused spec.now) }
{
    let inline = inline_table(alloc, spec)?;
    let table = inline.as_slice();
    let mut autos = Listed::new(alloc);
    let nodes = spec.nodes.as_slice();
    for node in nodes {
        match auto_of(alloc, nodes, autos.as_slice(), &node.content, table) {
            Ok(auto) => autos.push(auto)?,
            Err(error) => return Err(SchemaError::from(error)),
        }
    }
    Ok(autos)
}

/// A state from which no valid end can be reached through types of the table.
fn dead_state(alloc: Global, auto: &Auto, table: &[bool]) -> Result<Option<State>, AllocError>
    ensures inside { IfOk result (λ o. MatchOption o (Unit {0}) (λ s. s < length auto.now.sets)) }
    ensures dead { IfOk result (λ o. MatchOption o (Finishing table.now auto.now) (λ s. Finishes table.now auto.now s → ⊥)) }
{
    let ends = auto.finishing(alloc, table)?;
    let ends = ends.as_slice();
    for (state, end) in ends.iter().enumerate() {
        if !*end {
            return Ok(Some(state));
        }
    }
    Ok(None)
}

/// Looks for dead ends. `DeadEnd` with the first type that has one.
pub fn check_ends(
    alloc: Global,
    spec: &SchemaSpec,
    autos: &[Auto],
    table: &[bool],
) -> Result<(), SchemaError>
    requires named { IsNamed spec.now }
    requires full { length autos.now ≡ length spec.now.nodes }
    requires automata { AutosOf spec.now.nodes autos.now }
    requires have { HasAutomata spec.now }
    requires generatable { IsGeneratable spec.now.nodes table.now }
    ensures live { OnOk result (AllFinishing table.now autos.now) }
    ensures refused { IfErr result (IsRefused spec.now) }
{
    for (kind, auto) in autos.iter().enumerate() {
        if dead_state(alloc, auto, table)?.is_some() {
            return Err(SchemaError::DeadEnd { kind });
        }
    }
    Ok(())
}
