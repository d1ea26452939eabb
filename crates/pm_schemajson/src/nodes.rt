//! Node types.
ghost use Rattle.std.specs.Prelude.{◌≡◌, map};
ghost use Rattle.serde_json.specs.View.{items_of};
ghost use Rattle.pm_schemajson.specs.Answers.{Gives};
ghost use Rattle.pm_schemajson.specs.Reading.{node_fields as fields_of_node, node_list as list_of_nodes};
ghost use Rattle.pm_schemajson.specs.Views.{node_text, node_texts};

use crate::attrs::attrs_of;
use crate::error::{Field, SchemaReadError};
use crate::fields::{object, text_if, text_or, truth_or};
use crate::kinds::NodeText;
use crate::named::{groups_of, name_of};
use pm_json::JsonRef;
use std::alloc::Global;

#[tactic(auto, unfolding(crate::specs::Reading::node_fields))]
fn node_fields<J: JsonRef>(
    alloc: Global,
    version: u32,
    json: J,
) -> Result<NodeText, SchemaReadError>
    ensures { Gives node_text result (fields_of_node version (J.seen json)) }
{
    let name = name_of(alloc, json)?;
    let content = text_or(alloc, json, "content", Field::Content, "")?;
    let groups = groups_of(alloc, json)?;
    let marks = text_if(alloc, json, "marks", Field::Marks)?;
    let inline = truth_or(json, "inline", Field::Inline, false)?;
    let atom = truth_or(json, "atom", Field::Atom, false)?;
    let attrs = attrs_of(alloc, version, json)?;
    Ok(NodeText {
        name,
        content,
        groups,
        marks,
        inline,
        atom,
        attrs,
    })
}

/// The entries of `nodes`.
#[tactic(auto, unfolding(crate::specs::Reading::node_list))]
pub(crate) fn node_list<J: JsonRef>(
    alloc: Global,
    version: u32,
    items: &[J],
) -> Result<Vec<NodeText>, SchemaReadError>
    ensures { Gives (λ v. node_texts v.items) result (list_of_nodes version (items_of (map J.seen items.now))) }
{
    let mut nodes = Vec::new(alloc);
    for &item in items {
        object(item, Field::Nodes)?;
        nodes.push(node_fields(alloc, version, item)?)?;
    }
    Ok(nodes)
}
