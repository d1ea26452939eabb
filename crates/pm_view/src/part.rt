//! The parts of a view.
use pm_attrs::Attrs;
use pm_marks::MarkSet;
use pm_node::{Node, Units};

/// A part of a view. Nodes are lent by the document: of a node that is no leaf and no text, its open and its close are parts.
#[derive(Clone, Copy)]
pub enum Part<'a> {
    Open(&'a Node),
    Close(&'a Node),
    Leaf(&'a Node),
    Run(TextRun<'a>),
}

/// The units of a text that are in the view, with the text's marks: those from..to of its own units, counted from 0.
#[derive(Clone, Copy)]
pub struct TextRun<'a> {
    pub units: &'a Units,
    pub from: usize,
    pub to: usize,
    pub marks: &'a MarkSet<Attrs>,
}
