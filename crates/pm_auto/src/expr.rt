//! Content expressions.
ghost use Rattle.std.specs.Prelude.{◌≡◌, IfOk};

use crate::copies::copy_expr;
use std::alloc::{AllocError, Global};

/// A node type: a number below the number of types of the schema, so an index into tables with one entry for each type.
/// ProseMirror: `NodeType`.
pub type TypeId = usize;

/// What the children of a node may be, as a list of their types.
#[derive(Drop, Debug)]
pub enum Expr {
    /// No child.
    Empty,
    /// One child of the type.
    One(TypeId),
    /// The lists of each alternative.
    Choice(Vec<Expr>),
    /// A list of each part, one after another.
    Seq(Vec<Expr>),
    /// One or more lists of the inner expression, one after another.
    Plus(Box<Expr>),
    /// Any number of lists of the inner expression.
    Star(Box<Expr>),
    /// No list or one list of the inner expression.
    Opt(Box<Expr>),
    /// From the first number to the second of lists of the inner expression; with no second number, at least the first;
    /// where the second is below the first, exactly the first.
    Range(Box<Expr>, u32, Option<u32>),
}

impl Expr {
    ghost use Rattle.pm_auto.specs.Tree.{tree};

    /// An expression that says the same as this one, in memory of its own.
    pub fn copy(&self, alloc: Global) -> Result<Expr, AllocError>
        ensures { IfOk result (λ e. tree e ≡ tree self.now) }
    {
        copy_expr(alloc, self)
    }
}
