//! Attributes of one node, and of the document.
ghost use Rattle.pm_tokens.specs.Faults.{Valid};
ghost use Rattle.pm_value.specs.Views.{plain};
ghost use Rattle.pm_schema.specs.Documents.{documents_of};
ghost use Rattle.pm_edit.specs.Edits.{set_attr, set_doc_attr};
ghost use Rattle.pm_edit.specs.Ops.{Answers};

use crate::beginning::begins_node;
use crate::places::is_position;
use pm_change::{MakeError, NoStep};
use pm_node::Document;
use pm_schema::Schema;
use pm_step::{AttrStep, DocAttrStep, Step};
use pm_value::{Text, Value};
use std::alloc::Global;

/// Gives an attribute of the node that begins at a position another value. `Range` comes exactly where the position passes the
/// size, and `NotThere` where no node begins there. Whether the node's type has the attribute, and whether it may have the value,
/// is asked where the step is applied.
/// ProseMirror: `Transform.setNodeAttribute`.
pub fn set_attr(
    alloc: Global,
    schema: &Schema,
    doc: &Document,
    pos: u64,
    attr: &Text,
    value: &Value,
) -> Result<Step, MakeError>
    requires { Valid (documents_of schema.now.spec) doc.now }
    ensures { Answers (set_attr doc.now pos attr.now (plain value.now)) result }
{
    let _ = schema;
    if !is_position(doc, pos) {
        return Err(MakeError::NoStep(NoStep::Range));
    }
    if !begins_node(doc.content(), pos as usize) {
        return Err(MakeError::NoStep(NoStep::NotThere));
    }
    let attr = attr.copy(alloc)?;
    let value = value.copy(alloc)?;
    Ok(Step::Attr(AttrStep { pos, attr, value }))
}

/// Gives an attribute of the document's top node another value. There is always a step; whether the top type has the attribute,
/// and whether it may have the value, is asked where it is applied.
/// ProseMirror: `Transform.setDocAttribute`.
pub fn set_doc_attr(
    alloc: Global,
    schema: &Schema,
    doc: &Document,
    attr: &Text,
    value: &Value,
) -> Result<Step, MakeError>
    requires { Valid (documents_of schema.now.spec) doc.now }
    ensures { Answers (set_doc_attr attr.now (plain value.now)) result }
{
    let _ = schema;
    let _ = doc;
    let attr = attr.copy(alloc)?;
    let value = value.copy(alloc)?;
    Ok(Step::DocAttr(DocAttrStep { attr, value }))
}
