//! The place of a position.
ghost use Rattle.std.specs.Prelude.{◌≡◌, ◌+◌, ◌<◌, ◌≤◌, ◌-◌, ◌↔◌, Err, length, IfOk, OnOk};
ghost use Rattle.pm_tokens.specs.Scan.{depth_at};
ghost use Rattle.pm_node.specs.Documents.{doc_of};
ghost use Rattle.pm_resolve.specs.Levels.{Entered, SearchesFew};
ghost use Rattle.pm_resolve.specs.Places.{search_bound};

use crate::fault::PlaceError;
use crate::level::Level;
use crate::place::Place;
use pm_node::{Body, Document, Fragment, Node};
use pm_sized::Steps;
use std::alloc::{AllocError, Global};
use std::marker::Brand;
use std::sync::ledger::{Blank, Ledger};

/// The place of a position of a document's content, counted in tokens. `OutOfRange` comes exactly where the position passes the size of the
/// content.
/// ProseMirror: `Node.resolve`.
pub fn resolve<'a>(alloc: Global, doc: &'a Document, pos: usize) -> Result<Place<'a>, PlaceError>
    ensures document { IfOk result (λ p. p.doc ≡ doc.now) }
    ensures position { IfOk result (λ p. p.pos ≡ pos) }
    ensures within { OnOk result (pos ≤ length doc.now.tokens) }
    ensures out_of_range { (result ≡ Err PlaceError.OutOfRange) ↔ (length doc.now.tokens < pos) }
{
    resolve_with::<Brand>(Blank::new(1), alloc, doc, pos)
}

fn resolve_with<'a, L: Ledger>(
    blank: Blank,
    alloc: Global,
    doc: &'a Document,
    pos: usize,
) -> Result<Place<'a>, PlaceError>
    requires name { blank.name ≡ L.name }
    requires parts { blank.parts ≡ L.parts }
    requires one { 0 < blank.parts }
    ensures document { IfOk result (λ p. p.doc ≡ doc.now) }
    ensures position { IfOk result (λ p. p.pos ≡ pos) }
    ensures within { OnOk result (pos ≤ length doc.now.tokens) }
    ensures out_of_range { (result ≡ Err PlaceError.OutOfRange) ↔ (length doc.now.tokens < pos) }
{
    let mut steps: Steps<L> = Steps::open(blank);
    resolve_counted(alloc, doc, pos, &mut steps)
}

/// The same, with the steps of the searches counted. They are at most the sum of the bounds of `Children::find_counted` over
/// the nodes at the depths from 0 to the position's depth, also where memory runs out. Where the position passes the content no
/// step is taken.
pub fn resolve_counted<'a, L: Ledger>(
    alloc: Global,
    doc: &'a Document,
    pos: usize,
    steps: &mut Steps<L>,
) -> Result<Place<'a>, PlaceError>
    ensures document { IfOk result (λ p. p.doc ≡ doc.now) }
    ensures position { IfOk result (λ p. p.pos ≡ pos) }
    ensures within { OnOk result (pos ≤ length doc.now.tokens) }
    ensures out_of_range { (result ≡ Err PlaceError.OutOfRange) ↔ (length doc.now.tokens < pos) }
    ensures most { pos ≤ length doc.now.tokens → steps.new ≤ steps.old + search_bound doc.now pos (depth_at doc.now.tokens pos) }
    ensures untouched { result ≡ Err PlaceError.OutOfRange → steps.new ≡ steps.old }
{
    if pos > doc.size() {
        return Err(PlaceError::OutOfRange);
    }
    let mut levels = Vec::new(alloc);
    enter(&mut levels, doc.top(), doc.content(), 0, pos, steps)?;
    Ok(Place::new(doc, pos, levels))
}

/// Puts a level for the node with this content, which starts at `start`, and then one for each node in it around the
/// position.
fn enter<'a, L: Ledger>(
    levels: &mut Vec<Level<'a>>,
    node: &'a Node,
    content: &'a Fragment,
    start: usize,
    pos: usize,
    steps: &mut Steps<L>,
) -> Result<(), AllocError>
    requires content { content.now ≡ (doc_of node.now).tokens }
    requires started { start ≤ pos }
    requires within { pos - start ≤ length content.now }
    ensures entered { OnOk result (Entered pos start node.now levels.old.items levels.new.items) }
    ensures steps { SearchesFew pos start node.now steps.old steps.new }
{
    let children = content.children();
    let found = children.find_counted(pos - start, steps);
    levels.push(Level {
        node,
        content,
        start,
        index: found.index,
    })?;
    if found.rest > 0 {
        let child: &'a Node = children.get(found.index);
        if let Body::Children(inner) = &child.body {
            let _ = inner.size();
            return enter(levels, child, inner, pos - found.rest + 1, pos, steps);
        }
    }
    Ok(())
}
