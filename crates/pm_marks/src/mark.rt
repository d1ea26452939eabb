//! A mark.
ghost use Rattle.std.specs.Prelude.{◌≡◌, ◌↔◌, IsTrue, IfOk};
ghost use Rattle.pm_marks.specs.Sets.{same_mark};

use crate::same::Same;
use std::alloc::{AllocError, Global};

/// The number of a mark type, which is its place in the schema, counted from 0. It is a mark's rank in a set.
/// ProseMirror: `MarkType`, and its `rank`.
pub type MarkId = usize;

/// A mark of a type, with its attributes.
/// ProseMirror: `Mark`.
#[derive(Drop, Debug)]
pub struct Mark<A> {
    pub kind: MarkId,
    pub attrs: A,
}

impl<A: Same> Mark<A> {
    /// Whether both marks have one type and equal attributes. It takes no memory.
    pub fn same(&self, other: &Mark<A>) -> bool
        ensures same { result ≡ same_mark A.equal self.now other.now }
        ensures equality { IsTrue result ↔ (self.now ≡ other.now) }
    {
        self.kind == other.kind && self.attrs.same(&other.attrs)
    }

    /// A mark equal to this one.
    pub fn copy(&self, alloc: Global) -> Result<Mark<A>, AllocError>
        ensures { IfOk result (λ m. m ≡ self.now) }
    {
        Ok(Mark {
            kind: self.kind,
            attrs: self.attrs.copy(alloc)?,
        })
    }
}
