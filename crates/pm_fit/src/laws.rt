//! Laws of what the definitions of wrappings compute. The call does nothing; its contract is the law.
ghost use Rattle.std.specs.Prelude.{◌≡◌, ℕ, map, length, slice_get, Some};
ghost use Rattle.pm_auto.specs.declared.auto.Auto.{Auto};
ghost use Rattle.pm_auto.specs.Graph.{Is_shortest};
ghost use Rattle.pm_auto.specs.Wraps.{wrap_links, wrap_goals};
ghost use Rattle.pm_schema.specs.Made.{can_wrap};
ghost use Rattle.pm_fit.specs.Wrappings.{state_after, wrapping_of};

use pm_auto::TypeId;
use pm_schema::Schema;

/// The wrapping towards the type `to` in a node of the type `parent`, after children of the types `before`, is the least list
/// of wrappers: it leads to `to`, and any other list that does is longer, or as long and later by the order of edges at the
/// first difference. There is none exactly where no list leads there.
pub fn wrapping_is_least(schema: &Schema, parent: TypeId, before: &[TypeId], to: TypeId)
    ensures least { (a : Auto) (state : ℕ) → slice_get schema.now.autos parent ≡ Some a → state_after a.edges 0 before.now ≡ Some state
        → Is_shortest (wrap_links a state schema.now.autos (map can_wrap schema.now.spec.nodes)) (wrap_goals a state to schema.now.autos)
        (length schema.now.autos) (wrapping_of schema.now parent before.now to) }
{
    let _ = schema;
    let _ = parent;
    let _ = before;
    let _ = to;
}
