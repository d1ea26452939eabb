//! Which types can be filled.
ghost use Rattle.std.specs.Prelude.{◌≡◌, ◌<◌, ◌↔◌, length, true};
ghost use Rattle.pm_schema.specs.Types.{node_at};
ghost use Rattle.pm_schema.specs.Made.{can_be_made};
ghost use Rattle.pm_schema.specs.Built.{IsBuilt};
ghost use Rattle.pm_schema.specs.Generated.{CanBeFilled};

use crate::schema::Schema;
use pm_auto::TypeId;

impl Schema {
    /// Whether nodes of the type can be made by filling alone: it isn't the type of texts, each of its attributes has a
    /// default, and its content can be filled with such types. In a schema that was built the first two are enough.
    pub fn is_generatable(&self, kind: TypeId) -> bool
        requires { kind < length self.now.spec.nodes }
        ensures makeable { result ≡ can_be_made (node_at self.now.spec kind) }
        ensures exactly { IsBuilt self.now → (result ≡ true) ↔ CanBeFilled self.now.spec.nodes kind }
    {
        self.generatable.as_slice()[kind]
    }
}
