//! Laws about schemas, each the contract of a call that does nothing.
ghost use Rattle.std.specs.Prelude.{◌≡◌, ◌↔◌, ℕ, true, List};
ghost use Rattle.pm_auto.specs.Lang.{In};
ghost use Rattle.pm_schema.specs.Types.{node_at};
ghost use Rattle.pm_schema.specs.Documents.{documents_of};

use crate::spec::SchemaSpec;

/// The test by which documents read content decides the language of the type's content expression: a list of types passes
/// exactly where it is in the language.
pub fn content_decides(spec: &SchemaSpec)
    ensures { (k : ℕ) (kids : List ℕ) → ((documents_of spec.now).accepts k kids ≡ true) ↔ In (node_at spec.now k).content kids }
{
    let _ = &spec.nodes;
}
