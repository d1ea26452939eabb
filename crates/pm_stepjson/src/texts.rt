//! Steps as texts.
ghost use Rattle.std.specs.Prelude.{◌≡◌, ◌≤◌, false, IfOk, Some, string_bytes};
ghost use Rattle.serde_json.specs.Data.{depth};
ghost use Rattle.serde_json.specs.Read.{read, max_depth};
ghost use Rattle.serde_json.specs.Written.{compact_text, has_float};
ghost use Rattle.pm_docjson.specs.KeyOrder.{HasOrderedKeys};
ghost use Rattle.pm_step.specs.Steps.{step_of};
ghost use Rattle.pm_stepjson.specs.Writable.{CanBeWritten, NestsWithin, IsStorable};
ghost use Rattle.pm_stepjson.specs.Laws.{ComesBack};
ghost use Rattle.pm_stepjson.specs.Writing.{step_written};

use crate::writing::write_step;
use pm_schema::Schema;
use pm_step::Step;
use std::alloc::{AllocError, Global};

/// The text of a step: the compact text of its JSON value, which has no float, and in whose objects the keys stand in byte
/// order. It is read back as that value where the value nests at most 127 levels. That of a step that can be written nests at
/// most 107, where each position in its slice stands in at most 48 nodes, as in a valid document. The text of a step that can be
/// stored is read as this step, and each step that applies to a valid document is one (`applied_can_be_written`).
pub fn step_text(alloc: Global, schema: &Schema, step: &Step) -> Result<String, AllocError>
    ensures text { IfOk result (λ s. string_bytes s ≡ compact_text (step_written schema.now.spec (step_of step.now))) }
    ensures read { IfOk result (λ s. depth (step_written schema.now.spec (step_of step.now)) ≤ max_depth
        → read (string_bytes s) ≡ Some (step_written schema.now.spec (step_of step.now))) }
    ensures shallow { CanBeWritten schema.now.spec (step_of step.now) → NestsWithin 48 (step_of step.now)
        → depth (step_written schema.now.spec (step_of step.now)) ≤ 107 }
    ensures back { IfOk result (λ s. IsStorable schema.now.spec (step_of step.now)
        → ComesBack schema.now.spec (step_of step.now) (string_bytes s)) }
    ensures ordered { HasOrderedKeys (step_written schema.now.spec (step_of step.now)) }
    ensures whole { has_float (step_written schema.now.spec (step_of step.now)) ≡ false }
{
    let value = write_step(alloc, schema, step)?;
    value.to_string(alloc)
}
