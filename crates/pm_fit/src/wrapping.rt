//! The wrapping of a content at a place.
ghost use Rattle.std.specs.Prelude.{◌≡◌, IfOk};
ghost use Rattle.pm_fit.specs.Wrappings.{wrapping_of};

use crate::types::state_after;
use pm_auto::TypeId;
use pm_list::Listed;
use pm_schema::Schema;
use std::alloc::{AllocError, Global};

/// The wrapping towards the type `to` in a node of the type `parent`, after children of the types `before`: the shortest list
/// of types that may be put around others, of which the first may come next there, each later one stands first in the one
/// before, which may then end, and `to` may stand first in the last. Of lists of one length it is the first by the order of
/// edges. None where there is none.
/// ProseMirror: `ContentMatch.findWrapping`.
pub fn wrapping(
    alloc: Global,
    schema: &Schema,
    parent: TypeId,
    before: &[TypeId],
    to: TypeId,
) -> Result<Option<Listed<TypeId>>, AllocError>
    ensures { IfOk result (λ w. w ≡ wrapping_of schema.now parent before.now to) }
{
    if parent >= schema.node_count() {
        return Ok(None);
    }
    let automaton = schema.auto(parent);
    match state_after(automaton, before) {
        Some(state) => automaton.wrapping(alloc, state, to, schema.autos(), schema.wrappers()),
        None => Ok(None),
    }
}
