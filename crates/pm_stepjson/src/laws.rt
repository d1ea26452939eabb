//! Laws of what is read, and of what applies. Each call does nothing; its contract is the law.
ghost use Rattle.std.specs.Prelude.{◌≡◌, [], true};
ghost use Rattle.serde_json.specs.View.{view};
ghost use Rattle.pm_schema.specs.Defaults.{HasShallowDefaults};
ghost use Rattle.pm_schema.specs.Documents.{documents_of};
ghost use Rattle.pm_schema.specs.Types.{node_at};
ghost use Rattle.pm_meaning.specs.Known.{knows_step};
ghost use Rattle.pm_step.specs.Steps.{step_of};
ghost use Rattle.pm_stepjson.specs.Writable.{CanBeWritten, HasSlice};
ghost use Rattle.pm_stepjson.specs.Laws.{ReadStepCanBeWritten, AppliedCanBeWritten};

use pm_schema::Schema;
use pm_step::Step;
use serde_json::Value as Json;

/// A step that is read can be written, and its positions and `insert` are 4,294,967,295 at most, so `write_step` gives a JSON
/// value that is read as this step. It asks that no default of the schema nests more than four levels deep, as none does that
/// JSON gives.
pub fn read_step_can_be_written(schema: &Schema, json: &Json)
    ensures { HasShallowDefaults schema.now.spec → ReadStepCanBeWritten schema.now.spec (view json.now) }
{
    texts_are_plain(schema);
    let _ = json;
}

/// A step that applies to a valid document can be written, its positions and `insert` are 4,294,967,295 at most, and its slice
/// nests no deeper than a document; so `step_text` gives a text that is read back as this step. For this a step is refused that
/// the schema does not know.
pub fn applied_can_be_written(schema: &Schema)
    ensures { AppliedCanBeWritten schema.now.spec }
{
    let _ = schema;
}

/// The schema knows each step that can be written. So none that is read is refused as one that it does not know
/// (`read_step_can_be_written`).
pub fn written_is_known(schema: &Schema, step: &Step)
    ensures { CanBeWritten schema.now.spec (step_of step.now) → knows_step (documents_of schema.now.spec) (step_of step.now) ≡ true }
{
    let _ = schema;
    has_slice(step);
}

/// The slice of a step is one.
fn has_slice(step: &Step)
    ensures { HasSlice (step_of step.now) }
{
    match step {
        Step::Replace(step) => {
            let _ = step.slice.size();
        }
        Step::ReplaceAround(step) => {
            let _ = step.slice.size();
        }
        Step::Mark(_) => {}
        Step::NodeMark(_) => {}
        Step::Attr(_) => {}
        Step::DocAttr(_) => {}
    }
}

/// The type of texts has no attributes.
#[tactic(auto, unfolding(pm_schema::specs::Documents::documents_of))]
fn texts_are_plain(schema: &Schema)
    ensures { (node_at schema.now.spec (documents_of schema.now.spec).text).attrs ≡ [] }
{
    let _ = schema.text_type();
}
