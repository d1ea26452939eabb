//! Nodes and texts, without what stands in them.
ghost use Rattle.std.specs.Prelude.{◌≡◌, ◌++◌, codes, OnOk, string_bytes};
ghost use Rattle.pm_tokens.specs.Scan.{part};
ghost use Rattle.pm_doctext.specs.Texts.{front_text, back_text, run_text, start_text, end_text, part_text, opens};
ghost use Rattle.pm_view.specs.Parts.{seen};

use crate::attrs::push_attrs;
use crate::marks::push_marks;
use crate::quoted::push_units;
use crate::types::{node_name, push_type, text_name};
use pm_attrs::Attrs;
use pm_auto::TypeId;
use pm_marks::Mark;
use pm_schema::Schema;
use pm_view::{Part, TextRun};
use std::alloc::{AllocError, Global};

/// Appends a part to the text. `first` says that the node in which it stands has had no child yet.
pub(crate) fn push_part(
    alloc: Global,
    schema: &Schema,
    text: &mut String,
    first: bool,
    part: Part<'_>,
) -> Result<(), AllocError>
    ensures { OnOk result (string_bytes text.new ≡ string_bytes text.old ++ part_text schema.now.spec first (seen part.entry)) }
{
    match part {
        Part::Open(node) => {
            push_start(text, first)?;
            push_front(alloc, schema, text, node.kind, &node.attrs)
        }
        Part::Close(node) => {
            push_end(text, first)?;
            push_back(alloc, schema, text, node.kind, node.marks.marks())
        }
        Part::Leaf(node) => {
            push_start(text, first)?;
            push_front(alloc, schema, text, node.kind, &node.attrs)?;
            push_back(alloc, schema, text, node.kind, node.marks.marks())
        }
        Part::Run(run) => {
            push_start(text, first)?;
            push_run(alloc, schema, text, run)
        }
    }
}

/// Whether the next part stands in a node that has had no child yet.
pub(crate) fn opens(part: Part<'_>) -> bool
    ensures { result ≡ opens (seen part.entry) }
{
    match part {
        Part::Open(_) => true,
        _ => false,
    }
}

/// What stands before a child: the first one begins the content.
fn push_start(text: &mut String, first: bool) -> Result<(), AllocError>
    ensures { OnOk result (string_bytes text.new ≡ string_bytes text.old ++ start_text first) }
{
    if first {
        text.push_str("\"content\":[")
    } else {
        text.push_str(",")
    }
}

/// What stands after the children, where there were some.
pub(crate) fn push_end(text: &mut String, first: bool) -> Result<(), AllocError>
    ensures { OnOk result (string_bytes text.new ≡ string_bytes text.old ++ end_text first) }
{
    if first { Ok(()) } else { text.push_str("],") }
}

/// What stands before the content of a node: the beginning of its object, and its attributes.
pub(crate) fn push_front(
    alloc: Global,
    schema: &Schema,
    text: &mut String,
    kind: TypeId,
    attrs: &Attrs,
) -> Result<(), AllocError>
    ensures { OnOk result (string_bytes text.new ≡ string_bytes text.old ++ front_text schema.now.spec kind attrs.now) }
{
    text.push_str("{")?;
    push_attrs(alloc, schema, text, kind, attrs)
}

/// What stands after the content of a node: its marks, its type, and the end of its object.
pub(crate) fn push_back(
    alloc: Global,
    schema: &Schema,
    text: &mut String,
    kind: TypeId,
    marks: &[Mark<Attrs>],
) -> Result<(), AllocError>
    ensures { OnOk result (string_bytes text.new ≡ string_bytes text.old ++ back_text schema.now.spec kind marks.now) }
{
    push_marks(alloc, schema, text, marks)?;
    push_type(alloc, text, node_name(schema, kind))
}

/// A text: its marks, its units, and its type.
fn push_run(
    alloc: Global,
    schema: &Schema,
    text: &mut String,
    run: TextRun<'_>,
) -> Result<(), AllocError>
    ensures { OnOk result (string_bytes text.new ≡ string_bytes text.old ++ run_text schema.now.spec (part run.entry.from run.entry.to run.entry.units.now) run.entry.marks.now) }
{
    text.push_str("{")?;
    push_marks(alloc, schema, text, run.marks.marks())?;
    text.push_str("\"text\":")?;
    push_units(alloc, text, run.units, run.from, run.to)?;
    text.push_str(",")?;
    push_type(alloc, text, text_name(schema))
}
