//! The parts of a view, one by one.
ghost use Rattle.std.specs.Prelude.{◌≡◌, ◌≤◌, ◌+◌, length, take, vec_capacity, IfOk, option_map};
ghost use Rattle.pm_tokens.specs.Scan.{deepest, depth_at};
ghost use Rattle.pm_view.specs.Ahead.{ahead, AreFlat};
ghost use Rattle.pm_view.specs.Grouped.{grouped};
ghost use Rattle.pm_view.specs.Known.{tokens_of};
ghost use Rattle.pm_view.specs.Parts.{seen};
ghost use Rattle.pm_view.specs.Seen.{Taken};

use crate::around::Around;
use crate::part::{Part, TextRun};
use pm_node::{Body, Fragment, Node};
use std::alloc::AllocError;
use std::marker::Model;

/// The parts of a view that were not taken yet. A contract sees them as a list. Its memory is taken when it is made: room for
/// as many nodes as are around one of its parts at most.
#[derive(Drop)]
pub struct Tokens<'a> {
    /// What the next part stands in.
    content: &'a Fragment,
    /// How many tokens of it are after.
    at: usize,
    /// How many tokens of the view are left.
    left: usize,
    /// The nodes around the content, the innermost last.
    outer: Vec<Around<'a>>,
}

impl<'a> Model for Tokens<'a> {
    ghost use Rattle.std.specs.Prelude.{List};
    ghost use Rattle.pm_view.specs.Seen.{Seen};
    ghost use Rattle.pm_view.specs.Codes.{seen_code};

    ghost Value = { List Seen };

    ghost coded = { seen_code };

    ghost use Rattle.std.specs.Prelude.{take, vec_capacity};
    ghost use Rattle.pm_view.specs.Ahead.{ahead, AreFlat, IsFlat, FitIn};
    ghost use Rattle.pm_view.specs.Grouped.{grouped};

    ghost view = { λ t. grouped (take t.left (ahead t.content.now t.at t.outer.items)) };

    ghost invariant = { λ t. IsFlat t.content.now t.at × AreFlat t.outer.items
        × FitIn (vec_capacity t.outer) t.left t.content.now t.at t.outer.items };
}

impl<'a> Tokens<'a> {
    /// The next `left` tokens of a content from `at` on, and of what is after the nodes around it. `outer` has room for the
    /// nodes around each of them.
    pub(crate) fn enter(
        content: &'a Fragment,
        at: usize,
        left: usize,
        outer: Vec<Around<'a>>,
    ) -> Result<Tokens<'a>, AllocError>
        requires within { at ≤ length content.now }
        requires flat { AreFlat outer.items }
        requires fit { deepest (length outer.items + depth_at content.now at) (tokens_of (take left (ahead content.now at outer.items))) ≤ vec_capacity outer }
        ensures { IfOk result (λ t. t ≡ grouped (take left (ahead content.now at outer.entry.items))) }
    {
        let mut outer = outer;
        let children = content.children();
        let found = children.find(at);
        if found.rest == 0 {
            return Ok(Tokens {
                content,
                at,
                left,
                outer,
            });
        }
        let child: &'a Node = children.get(found.index);
        let size = child.size();
        let end = at - found.rest + size;
        match &child.body {
            Body::Children(inner) => {
                outer.push(Around {
                    node: child,
                    content,
                    at: end,
                })?;
                Tokens::enter(inner, found.rest - 1, left, outer)
            }
            _ => Ok(Tokens {
                content,
                at,
                left,
                outer,
            }),
        }
    }

    /// The next part; None where all were taken. It takes no memory.
    pub fn next(&mut self) -> Option<Part<'a>>
        ensures { Taken self.old (option_map seen result) self.new }
    {
        if self.left == 0 {
            return None;
        }
        let children = self.content.children();
        let found = children.find(self.at);
        if found.index == children.len() {
            let around = self.outer.pop()?;
            self.content = around.content;
            self.at = around.at;
            self.left -= 1;
            return Some(Part::Close(around.node));
        }
        let child: &'a Node = children.get(found.index);
        let size = child.size();
        let end = self.at - found.rest + size;
        match &child.body {
            Body::Text(units) => {
                let rest = units.len() - found.rest;
                let count = rest.min(self.left);
                self.at = end;
                self.left -= count;
                Some(Part::Run(TextRun {
                    units,
                    from: found.rest,
                    to: found.rest + count,
                    marks: &child.marks,
                }))
            }
            Body::Leaf => {
                self.at = end;
                self.left -= 1;
                Some(Part::Leaf(child))
            }
            Body::Children(inner) => {
                let around = Around {
                    node: child,
                    content: self.content,
                    at: end,
                };
                match self.outer.push(around) {
                    Ok(()) => {
                        self.content = inner;
                        self.at = 0;
                        self.left -= 1;
                        Some(Part::Open(child))
                    }
                    Err(_) => unreachable!(),
                }
            }
        }
    }
}
