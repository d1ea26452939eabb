//! Walks over the content of a node that give its tokens other marks.
ghost use Rattle.std.specs.Prelude.{◌≡◌, ◌<◌, length, IfOk};
ghost use Rattle.pm_schema.specs.Documents.{documents_of};
ghost use Rattle.pm_apply.specs.Markings.{sort_marks};

use crate::marking::{Reach, Sort, change};
use pm_attrs::Attrs;
use pm_auto::TypeId;
use pm_marks::MarkSet;
use pm_schema::Schema;
use pm_step::Marking;
use std::alloc::{AllocError, Global};

/// What a walk over the content of a node gives its tokens: a marking, under a schema. Both are lent. A child's content is walked
/// with the child's type as the parent, and the rest the same.
#[derive(Drop)]
pub struct Walk<'a> {
    pub schema: &'a Schema,
    pub marking: &'a Marking,
    /// The type of the node.
    pub parent: TypeId,
}

impl Walk<'_> {
    /// The marks that come of the marks `old` of a token of this sort in the content.
    pub fn made(
        &self,
        alloc: Global,
        reach: Reach,
        sort: Sort,
        old: &MarkSet<Attrs>,
    ) -> Result<MarkSet<Attrs>, AllocError>
        requires { self.now.parent < length self.now.schema.now.spec.nodes }
        ensures { IfOk result (λ s. s ≡ sort_marks (documents_of self.now.schema.now.spec) self.now.marking.now reach sort
            self.now.parent old.now) }
    {
        if reach.acts(self.schema, self.marking, sort, self.parent) {
            change(alloc, self.schema, self.marking, old)
        } else {
            old.copy(alloc)
        }
    }
}
