//! A line that opens a document.
ghost use Rattle.serde_json.specs.View.{view};
ghost use Rattle.pm_head.specs.Answers.{Gives};
ghost use Rattle.pm_order.specs.Openings.{kind_in, opening_in};

use crate::clients::ids_in;
use crate::fields::version_in;
use crate::names::name_in;
use pm_head::LineError;
use pm_opjson::text_in;
use pm_talk::ClientIds;
use pm_value::Text;
use serde_json::Value;
use std::alloc::Global;

/// The name of a document that is opened, that of its schema, the version at which its log begins, and the IDs of its clients in the
/// order in which they came.
#[derive(Drop)]
pub struct Opening {
    pub name: Text,
    pub kind: Text,
    pub version: u32,
    pub ids: ClientIds,
}

/// What a line says that opens a document, but for the document itself: `in`, `schema`, `version` and `clientIDs`.
#[tactic(auto, unfolding(crate::specs::Openings::opening_in))]
pub fn opening_in(alloc: Global, json: &Value) -> Result<Opening, LineError>
    ensures { Gives (λ o. o) result (opening_in (view json.now)) }
{
    let name = name_in(alloc, json, "in")?;
    let kind = kind_in(alloc, json)?;
    let version = version_in(json)?;
    let ids = ids_in(alloc, json)?;
    Ok(Opening {
        name,
        kind,
        version,
        ids,
    })
}

/// The text at `schema`.
fn kind_in(alloc: Global, json: &Value) -> Result<Text, LineError>
    ensures { Gives (λ t. t) result (kind_in (view json.now)) }
{
    let text = text_in(json, "schema")?;
    Ok(Text::from_str(alloc, text)?)
}
