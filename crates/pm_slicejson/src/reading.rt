//! JSON values as slices.
ghost use Rattle.std.specs.Prelude.{map};
ghost use Rattle.serde_json.specs.View.{items_of};
ghost use Rattle.pm_docjson.specs.Answers.{Gives};
ghost use Rattle.pm_slice.specs.Sides.{sides};
ghost use Rattle.pm_slicejson.specs.Reading.{list_at, as_slice, sides_of, slice_of};

use crate::numbers::count_at;
use pm_docjson::{DocReadError, LeafContent, read_nodes};
use pm_json::JsonRef;
use pm_node::Fragment;
use pm_schema::Schema;
use pm_slice::Slice;
use std::alloc::Global;

/// The slice of a JSON value, or its first fault in the order `content`, `openStart`, `openEnd`. Null is the empty slice.
/// `content` must be a list, whose nodes are read as by `read_node`, but a leaf's content that is not empty is `Shape`. Open
/// sides are from 0 to 4,294,967,295, and 0 where they are absent or null; any other value is `Shape`. `Open` comes last,
/// where a side is deeper than the nodes that stand first, or last, within one another and are no leaf and no text. A slice
/// without tokens is the empty one.
#[tactic(auto, unfolding(crate::specs::Reading::slice_of))]
pub fn read_slice<J: JsonRef>(
    alloc: Global,
    schema: &Schema,
    json: J,
) -> Result<Slice, DocReadError>
    ensures { Gives (λ s. s) result (slice_of schema.now.spec (J.seen json)) }
{
    if json.is_null() {
        return Ok(Slice::empty(alloc));
    }
    sides_of(alloc, schema, json)
}

/// A slice by its fields.
#[tactic(auto, unfolding(crate::specs::Reading::sides_of))]
fn sides_of<J: JsonRef>(alloc: Global, schema: &Schema, json: J) -> Result<Slice, DocReadError>
    ensures { Gives (λ s. s) result (sides_of schema.now.spec (J.seen json)) }
{
    let items = list_at(alloc, json, "content")?;
    let content = read_nodes(alloc, schema, LeafContent::Refused, items.as_slice())?;
    let open_start = count_at(json, "openStart")?;
    let open_end = count_at(json, "openEnd")?;
    as_slice(alloc, content, open_start, open_end)
}

/// A list that must be there.
fn list_at<J: JsonRef>(alloc: Global, json: J, key: &str) -> Result<Vec<J>, DocReadError>
    ensures { Gives (λ v. items_of (map J.seen v.items)) result (list_at key.now (J.seen json)) }
{
    match json.get(key) {
        Some(value) => match value.items(alloc)? {
            Some(items) => Ok(items),
            None => Err(DocReadError::Shape),
        },
        None => Err(DocReadError::Shape),
    }
}

/// The content with these sides.
fn as_slice(
    alloc: Global,
    content: Fragment,
    open_start: usize,
    open_end: usize,
) -> Result<Slice, DocReadError>
    ensures { Gives (λ s. s) result (as_slice (sides content open_start open_end)) }
{
    match Slice::new(alloc, content, open_start, open_end) {
        Ok(slice) => Ok(slice),
        Err(_) => Err(DocReadError::Open),
    }
}
