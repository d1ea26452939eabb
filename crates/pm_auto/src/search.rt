//! The shortest list of types along links.
ghost use Rattle.std.specs.Prelude.{◌≡◌, ◌<◌, ◌↔◌, ℕ, Bool, List, true, false, length, IfOk, slice_index_or};
ghost use Rattle.pm_auto.specs.Graph.{Is_graph, Is_shortest, Reaches};
ghost use Rattle.pm_auto.specs.Near.{one_to as one_to_is, wider, first_to as first_to_is, trail, Keeps, All_reach};

use crate::auto::Edge;
use crate::edges::links_of;
use crate::expr::TypeId;
use pm_list::Listed;
use std::alloc::{AllocError, Global};

/// Whether the node is marked.
pub fn is_marked(marks: &[bool], node: usize) -> bool
    ensures { result ≡ slice_index_or marks.now node false }
{
    if node < marks.len() {
        marks[node]
    } else {
        false
    }
}

/// Whether one of the links leads to a marked node.
fn one_to(marks: &[bool], edges: &[Edge]) -> bool
    ensures { result ≡ one_to_is marks.now edges.now }
{
    for edge in edges {
        if is_marked(marks, edge.to) {
            return true;
        }
    }
    false
}

/// The first of the links that leads to a marked node. The caller knows that there is one.
fn first_to(marks: &[bool], edges: &[Edge]) -> Edge
    ensures { result ≡ first_to_is marks.now edges.now }
{
    for edge in edges {
        if is_marked(marks, edge.to) {
            return *edge;
        }
    }
    Edge { kind: 0, to: 0 }
}

/// The marks as a list of their own.
fn copy(alloc: Global, marks: &[bool]) -> Result<Listed<bool>, AllocError>
    ensures { IfOk result (λ l. l ≡ marks.now) }
{
    let mut list = Listed::new(alloc);
    for mark in marks {
        list.push(*mark)?;
    }
    Ok(list)
}

/// Whether the marks are the same.
fn same_marks(a: &[bool], b: &[bool]) -> bool
    ensures equal { result ≡ true → a.now ≡ b.now }
    ensures different { result ≡ false → a.now ≡ b.now → ⊥ }
{
    a == b
}

/// One round: the marked nodes, and those with a link to one.
fn widen(alloc: Global, links: &[Listed<Edge>], marks: &[bool]) -> Result<Listed<bool>, AllocError>
    ensures { IfOk result (λ l. l ≡ wider marks.now links.now marks.now) }
{
    let mut list = Listed::new(alloc);
    for (node, edges) in links.iter().enumerate() {
        let marked = is_marked(marks, node) || one_to(marks, edges.as_slice());
        list.push(marked)?;
    }
    Ok(list)
}

/// Marks the node where one of its links leads to a marked one.
fn mark(links: &[Listed<Edge>], marks: &mut Vec<bool>, node: usize)
    requires node { node < length links.now }
    requires marks { length marks.old.items ≡ length links.now }
    ensures size { length marks.new.items ≡ length marks.old.items }
    ensures keeps { Keeps marks.old.items marks.new.items }
    ensures reach { (goals : List Bool) → Is_graph (length links.now) links.now → All_reach links.now goals marks.old.items → All_reach links.now goals marks.new.items }
{
    if !one_to(marks.as_slice(), links_of(links, node)) {
        return;
    }
    marks[node] = true;
}

/// The number that stands at this place, counted from the last one where that is asked.
fn turned(i: usize, count: usize, back: bool) -> usize
    requires { i < count }
    ensures { result < count }
{
    if back { count - 1 - i } else { i }
}

/// Marks each node with a link to a marked one, those marked by this call among them, from the last node to the first or the
/// other way.
fn sweep(links: &[Listed<Edge>], marks: &mut Vec<bool>, back: bool)
    requires marks { length marks.old.items ≡ length links.now }
    ensures size { length marks.new.items ≡ length marks.old.items }
    ensures keeps { Keeps marks.old.items marks.new.items }
    ensures reach { (goals : List Bool) → Is_graph (length links.now) links.now → All_reach links.now goals marks.old.items → All_reach links.now goals marks.new.items }
{
    let count = links.len();
    for i in 0..count {
        mark(links, marks, turned(i, count, back));
    }
}

/// Goes through the nodes once back and once forth.
fn back_and_forth(links: &[Listed<Edge>], marks: &mut Vec<bool>)
    requires marks { length marks.old.items ≡ length links.now }
    ensures size { length marks.new.items ≡ length marks.old.items }
    ensures keeps { Keeps marks.old.items marks.new.items }
    ensures reach { (goals : List Bool) → Is_graph (length links.now) links.now → All_reach links.now goals marks.old.items → All_reach links.now goals marks.new.items }
{
    sweep(links, marks, true);
    sweep(links, marks, false);
}

/// The nodes from which some list of types leads to a goal. Each round goes through them back and forth, so that a row of nodes
/// is gone through in one, whatever its direction. The last round finds nothing more.
pub fn reaching(
    alloc: Global,
    links: &[Listed<Edge>],
    goals: &[bool],
) -> Result<Listed<bool>, AllocError>
    requires graph { Is_graph (length links.now) links.now }
    requires goals { length goals.now ≡ length links.now }
    ensures full { IfOk result (λ l. length l ≡ length links.now) }
    ensures reach { IfOk result (λ l. (s : ℕ) → s < length links.now → (slice_index_or l s false ≡ true) ↔ Reaches links.now goals.now s) }
{
    let copied = copy(alloc, goals)?;
    let mut last = copied.into_vec();
    'rounds: loop {
        back_and_forth(links, &mut last);
        let next = widen(alloc, links, last.as_slice())?;
        if same_marks(next.as_slice(), last.as_slice()) {
            return Ok(next);
        }
        last = next.into_vec();
    }
}

/// The list that goes one round nearer at each step, from the node that the last round reaches.
fn follow(
    alloc: Global,
    links: &[Listed<Edge>],
    rounds: &[Listed<bool>],
    start: usize,
) -> Result<Listed<TypeId>, AllocError>
    ensures { IfOk result (λ l. l ≡ trail links.now rounds.now (length rounds.now) start) }
{
    let mut list = Listed::new(alloc);
    let mut node = start;
    let mut left = rounds.len();
    'steps: while left > 0 {
        left -= 1;
        let marks = &rounds[left];
        let link = first_to(marks.as_slice(), links_of(links, node));
        list.push(link.kind)?;
        node = link.to;
    }
    Ok(list)
}

/// The shortest list of types along the links from the start to a goal, the first of its length by the order of the links
/// at the first difference; `None` exactly where there is none. Each round finds the nodes that are one step farther from a
/// goal, so a node's links are read once for each type of the answer.
pub fn search(
    alloc: Global,
    links: &[Listed<Edge>],
    goals: &[bool],
    start: usize,
) -> Result<Option<Listed<TypeId>>, AllocError>
    requires graph { Is_graph (length links.now) links.now }
    requires goals { length goals.now ≡ length links.now }
    requires start { start < length links.now }
    ensures { IfOk result (λ o. Is_shortest links.now goals.now start o) }
{
    let mut rounds: Listed<Listed<bool>> = Listed::new(alloc);
    let mut last = copy(alloc, goals)?;
    'rounds: while !is_marked(last.as_slice(), start) {
        let next = widen(alloc, links, last.as_slice())?;
        if same_marks(next.as_slice(), last.as_slice()) {
            return Ok(None);
        }
        rounds.push(last)?;
        last = next;
    }
    let list = follow(alloc, links, rounds.as_slice(), start)?;
    Ok(Some(list))
}
