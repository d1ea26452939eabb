//! Documents.
ghost use Rattle.std.specs.Prelude.{◌≡◌, [], ◌++◌, true, OnOk, IfOk, string_bytes};
ghost use Rattle.serde_json.specs.Written.{compact_text};
ghost use Rattle.pm_tokens.specs.Scan.{Balanced};
ghost use Rattle.pm_docjson.specs.Writing.{doc_written};
ghost use Rattle.pm_view.specs.Known.{known};
ghost use Rattle.pm_view.specs.Seen.{ArePartsOf};
ghost use Rattle.pm_doctext.specs.Texts.{front_text, back_text, content_text};

use crate::nodes::{opens, push_back, push_end, push_front, push_part};
use pm_node::Document;
use pm_schema::Schema;
use pm_view::{SliceView, Tokens, view};
use std::alloc::{AllocError, Global};

/// Appends the text of a document to the text: the bytes of `document_text` of pm_docjson, the compact text of the document's
/// JSON value. It goes over the document's parts once, and copies no node. Out of memory, a part of it may stand after
/// the text.
pub fn push_document(
    alloc: Global,
    schema: &Schema,
    text: &mut String,
    document: &Document,
) -> Result<(), AllocError>
    ensures { OnOk result (string_bytes text.new ≡ string_bytes text.old ++ compact_text (doc_written schema.now.spec document.now)) }
{
    let parts = parts_of(alloc, document)?;
    push_top(alloc, schema, text, document)?;
    push_parts(alloc, schema, text, parts)?;
    push_bottom(alloc, schema, text, document)
}

/// What stands before the content of the top node.
fn push_top(
    alloc: Global,
    schema: &Schema,
    text: &mut String,
    document: &Document,
) -> Result<(), AllocError>
    ensures { OnOk result (string_bytes text.new ≡ string_bytes text.old ++ front_text schema.now.spec document.now.kind document.now.attrs) }
{
    push_front(alloc, schema, text, document.kind(), document.attrs())
}

/// What stands after it.
fn push_bottom(
    alloc: Global,
    schema: &Schema,
    text: &mut String,
    document: &Document,
) -> Result<(), AllocError>
    ensures { OnOk result (string_bytes text.new ≡ string_bytes text.old ++ back_text schema.now.spec document.now.kind document.now.marks) }
{
    let marks = document.marks();
    push_back(alloc, schema, text, document.kind(), marks.marks())
}

/// The parts of a document, in order.
fn parts_of(alloc: Global, document: &Document) -> Result<Tokens<'_>, AllocError>
    ensures parts { IfOk result (ArePartsOf (known [] document.now.tokens)) }
    ensures whole { Balanced document.now.tokens }
{
    let _ = document.content().size();
    whole_view(document).tokens(alloc)
}

/// The view of a whole document. It takes no memory.
fn whole_view(document: &Document) -> SliceView<'_>
    ensures { result ≡ known [] document.now.tokens }
{
    let size = document.size();
    match view(document, 0, size) {
        Ok(whole) => whole,
        Err(_) => unreachable!(),
    }
}

/// Appends the parts of a content to the text, up to its end.
fn push_parts(
    alloc: Global,
    schema: &Schema,
    text: &mut String,
    parts: Tokens<'_>,
) -> Result<(), AllocError>
    ensures { OnOk result (string_bytes text.new ≡ string_bytes text.old ++ content_text schema.now.spec true parts.entry) }
{
    let mut parts = parts;
    let mut first = true;
    while let Some(part) = parts.next() {
        push_part(alloc, schema, text, first, part)?;
        first = opens(part);
    }
    push_end(text, first)
}
