//! Slices as JSON values.
ghost use Rattle.std.specs.Prelude.{◌≡◌, IfOk, OnOk, Ok};
ghost use Rattle.serde_json.specs.View.{view, members_view};
ghost use Rattle.pm_docjson.specs.Writable.{AreWritable};
ghost use Rattle.pm_slicejson.specs.Reading.{slice_of};
ghost use Rattle.pm_slicejson.specs.Writing.{slice_written, put_count};

use pm_docjson::write_nodes;
use pm_schema::Schema;
use pm_slice::Slice;
use serde_json::{Map, Value as Json, put};
use std::alloc::{AllocError, Global};

/// The JSON value of a slice: null where the slice is empty, else `content`, and the open sides that are above 0. It is read back
/// as the same slice where its content can be written.
pub fn write_slice(alloc: Global, schema: &Schema, slice: &Slice) -> Result<Json, AllocError>
    ensures written { IfOk result (λ j. view j ≡ slice_written schema.now.spec slice.now) }
    ensures again { IfOk result (λ j. AreWritable schema.now.spec slice.now.content → slice_of schema.now.spec (view j) ≡ Ok slice.now) }
{
    slice_json(alloc, schema, slice)
}

#[tactic(auto, using(crate::proofs::Puts::counts))]
fn slice_json(alloc: Global, schema: &Schema, slice: &Slice) -> Result<Json, AllocError>
    ensures written { IfOk result (λ j. view j ≡ slice_written schema.now.spec slice.now) }
    ensures again { OnOk result (AreWritable schema.now.spec slice.now.content
        → slice_of schema.now.spec (slice_written schema.now.spec slice.now) ≡ Ok slice.now) }
{
    if slice.size() == 0 {
        return Ok(Json::Null);
    }
    let nodes = slice.content();
    let _ = nodes.size();
    let content = write_nodes(alloc, schema, nodes)?;
    let mut map = Map::new(alloc);
    put_count(&mut map, alloc, "openStart", slice.open_start())?;
    put_count(&mut map, alloc, "openEnd", slice.open_end())?;
    put(&mut map, alloc, "content", Json::Array(content))?;
    Ok(Json::Object(map))
}

/// Puts a number in, where it is above 0.
fn put_count(
    map: &mut Map<String, Json>,
    alloc: Global,
    key: &str,
    number: usize,
) -> Result<(), AllocError>
    ensures { OnOk result (members_view map.new.entries
        ≡ put_count key.now number (members_view map.old.entries)) }
{
    if number == 0 {
        Ok(())
    } else {
        put(map, alloc, key, Json::from(number))
    }
}
