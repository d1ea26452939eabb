//! Marks.
ghost use Rattle.std.specs.Prelude.{◌≡◌, ◌++◌, false, IfOk, OnOk, string_bytes};
ghost use Rattle.serde_json.specs.Written.{comma_if, compact_text};
ghost use Rattle.pm_docjson.specs.Writing.{mark_written};
ghost use Rattle.pm_doctext.specs.Texts.{mark_text, marks_text};

use pm_attrs::Attrs;
use pm_docjson::write_mark;
use pm_marks::Mark;
use pm_schema::Schema;
use std::alloc::{AllocError, Global};

/// Puts the member `marks` after the text, where there are some.
pub(crate) fn push_marks(
    alloc: Global,
    schema: &Schema,
    text: &mut String,
    marks: &[Mark<Attrs>],
) -> Result<(), AllocError>
    ensures { OnOk result (string_bytes text.new ≡ string_bytes text.old ++ marks_text schema.now.spec marks.now) }
{
    if marks.is_empty() {
        return Ok(());
    }
    text.push_str("\"marks\":[")?;
    push_list(alloc, schema, text, marks)
}

/// The marks, and the end of their list.
fn push_list(
    alloc: Global,
    schema: &Schema,
    text: &mut String,
    marks: &[Mark<Attrs>],
) -> Result<(), AllocError>
    ensures { OnOk result (string_bytes text.new ≡ string_bytes text.old ++ mark_text schema.now.spec false marks.now) }
{
    let mut later = false;
    for mark in marks {
        push_mark(alloc, schema, text, later, mark)?;
        later = true;
    }
    text.push_str("],")
}

/// A mark, which is the first one of a list or a later one.
fn push_mark(
    alloc: Global,
    schema: &Schema,
    text: &mut String,
    later: bool,
    mark: &Mark<Attrs>,
) -> Result<(), AllocError>
    ensures { OnOk result (string_bytes text.new ≡ string_bytes text.old ++ (comma_if later ++ compact_text (mark_written schema.now.spec mark.now))) }
{
    let written = written_text(alloc, schema, mark)?;
    push_comma(text, later)?;
    text.push_str(written.as_str())
}

/// The text of a mark's JSON value, which is small.
fn written_text(alloc: Global, schema: &Schema, mark: &Mark<Attrs>) -> Result<String, AllocError>
    ensures { IfOk result (λ t. string_bytes t ≡ compact_text (mark_written schema.now.spec mark.now)) }
{
    let value = write_mark(alloc, schema, mark)?;
    value.to_string(alloc)
}

fn push_comma(text: &mut String, later: bool) -> Result<(), AllocError>
    ensures { OnOk result (string_bytes text.new ≡ string_bytes text.old ++ comma_if later) }
{
    if later {
        text.push_str(",")?;
    }
    Ok(())
}
