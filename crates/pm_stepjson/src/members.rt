//! The members that steps with a slice have in common.
ghost use Rattle.std.specs.Prelude.{◌≡◌, IfOk, OnOk};
ghost use Rattle.serde_json.specs.View.{members_view};
ghost use Rattle.pm_docjson.specs.Writable.{AreWritable};
ghost use Rattle.pm_stepjson.specs.Members.{put_slice, put_structure, SliceAgain};
ghost use Rattle.pm_stepjson.specs.Fields.{replaced};

use pm_schema::Schema;
use pm_slice::Slice;
use pm_slicejson::write_slice;
use serde_json::{Map, Value as Json, put};
use std::alloc::{AllocError, Global};

/// What is replaced by a slice: the members from `slice` to `to`.
#[tactic(auto, using(crate::proofs::ObjectLaws::puts))]
pub(crate) fn replaced(
    alloc: Global,
    schema: &Schema,
    name: &str,
    to: u64,
    slice: &Slice,
    structure: bool,
) -> Result<Map<String, Json>, AllocError>
    ensures written { IfOk result (λ m. members_view m.entries ≡ replaced schema.now.spec name.now to slice.now structure) }
    ensures again { OnOk result (AreWritable schema.now.spec slice.now.content → SliceAgain schema.now.spec slice.now) }
{
    let mut map = Map::new(alloc);
    put(&mut map, alloc, "to", Json::from(to))?;
    put_structure(&mut map, alloc, structure)?;
    let name = Json::try_from_str(alloc, name)?;
    put(&mut map, alloc, "stepType", name)?;
    put_slice(&mut map, alloc, schema, slice)?;
    Ok(map)
}

/// Puts the flag in, where it is true.
fn put_structure(
    map: &mut Map<String, Json>,
    alloc: Global,
    structure: bool,
) -> Result<(), AllocError>
    ensures { OnOk result (members_view map.new.entries ≡ put_structure structure (members_view map.old.entries)) }
{
    if structure {
        put(map, alloc, "structure", Json::from(true))
    } else {
        Ok(())
    }
}

/// Puts a slice in, where it is not empty.
fn put_slice(
    map: &mut Map<String, Json>,
    alloc: Global,
    schema: &Schema,
    slice: &Slice,
) -> Result<(), AllocError>
    ensures put { OnOk result (members_view map.new.entries
        ≡ put_slice schema.now.spec slice.now (members_view map.old.entries)) }
    ensures again { OnOk result (AreWritable schema.now.spec slice.now.content → SliceAgain schema.now.spec slice.now) }
{
    if slice.size() == 0 {
        return Ok(());
    }
    let json = write_slice(alloc, schema, slice)?;
    put(map, alloc, "slice", json)?;
    Ok(())
}
