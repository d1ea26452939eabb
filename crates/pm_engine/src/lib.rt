//! The front door: what an editor's server or a review tool calls, from one crate.
//!
//! Each item has a crate of its own, with its contract; this crate names them again, and adds `standing`, the calls of
//! a client whose authority is in the same program. A position counts tokens: one for each open, each close, each leaf
//! and each UTF-16 unit of text. What allocates is lent an allocator. The shortest example:
//!
//! ```text
//! let schema = read_schema(alloc, &Json::from_str(alloc, schema_text)?)?;
//! let before = Document::new(alloc, read_node(alloc, &schema, &Json::from_str(alloc, doc_text)?)?)?;
//! before.check(alloc, &schema)?;
//! let step = read_step(alloc, &schema, &Json::from_str(alloc, step_text)?)?;
//! let after = DocChange::new(alloc, step)?.apply(alloc, &schema, &before);
//! ```
//!
//! Proved: `edit`, `undo` and `undo_event` of `standing` make what those of `Client` make, and the client goes on
//! standing to the authority's log. An undo, also of a numbered event, is the same as over the client's whole timeline
//! (`whole`). With nothing changed since the event it gives the document before the event, under loose rules or where the
//! stored inverses apply (`restores`). A cursor with side `After` stays before its token, where that is still there and no
//! step on the way has ranges that touch (`tokens`). `standing::exchange` presents the client's message and lets it take
//! the answer.
//!
//! Whole callers are in docs/embed/LIBRARY.md.
#![tactic(auto)]

pub mod standing;

// Values of attributes, and the kinds that an attribute may be kept to.
pub use pm_value::{Kinds, Text, Value, ValueError};

// Schemas, and reading one from its JSON value.
pub use pm_schema::{
    AttrError, AttrSpec, AttrSpecs, Attrs, MarkSpec, NodeSpec, Schema, SchemaError, SchemaSpec,
};
pub use pm_schemajson::{SchemaReadError, read_schema};

// Documents: nodes, their content, marks, and slices, which are parts of documents whose sides may be open.
pub use pm_marks::{Mark, MarkSet};
pub use pm_node::{
    Body, CheckError, Document, FillError, Fragment, MAX_DEPTH, Node, Units, make_filled,
};
pub use pm_slice::{CutError, Slice, cut};

// JSON: its values, what is read from them in any form of which a `JsonRef` tells, and what is written to them and to texts.
pub use pm_docjson::{
    DocReadError, document_text, node_text, read_mark, read_node, write_mark, write_node,
};
pub use pm_json::JsonRef;
pub use pm_slicejson::{read_slice, write_slice};
pub use pm_stepjson::{StepReadError, read_step, step_text, write_step};
pub use serde_json::Value as Json;

// Places: the nodes around a position.
pub use pm_resolve::{Place, PlaceError, resolve};

// Steps, where positions go over them, and what they make of documents.
pub use pm_apply::DocChange;
pub use pm_change::{Change, Failed, MakeError, NoStep};
pub use pm_map::{Mapping, Moved, Positions, Recover, Side, StepMap};
pub use pm_replace::{Reason, replace};
pub use pm_step::{
    AttrStep, DocAttrStep, MarkStep, Marking, NodeMarkStep, ReplaceAroundStep, ReplaceStep, Step,
};

// Edits: what an editor asks for, the steps that do it, and a slice fitted to a place.
pub use pm_edit::{Edited, edit_for, steps_for};
pub use pm_fit::{Fitted, fit};
pub use pm_ops::Op;

// Working together: the authority with its log, the clients, what they send and what is answered.
pub use pm_authority::{Answer, Authority, Message, Name, Named, Refusal, Request, copy_steps};
pub use pm_client::{Client, Cursor, CursorError, EditError, MessageKind, Taken, UndoError};
pub use pm_list::Listed;

// The desk, at which threads share an authority.
pub use pm_change::Machine;
pub use pm_desk::{Back, Closed, Desk, Past, Seat};
