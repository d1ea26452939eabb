//! The content expressions of the node types.
ghost use Rattle.std.specs.Prelude.{◌≡◌, IfOk, map};
ghost use Rattle.pm_auto.specs.Tree.{tree};
ghost use Rattle.pm_expr.specs.Tables.{named as name_groups, texts};
ghost use Rattle.pm_schemajson.specs.Answers.{Gives};
ghost use Rattle.pm_schemajson.specs.Contents.{named, contents_of as contents_from, with_content};
ghost use Rattle.pm_schemajson.specs.Views.{node_text, node_texts, node_type, node_types};

use crate::content::content_of;
use crate::error::SchemaReadError;
use crate::kinds::NodeText;
use pm_auto::Expr;
use pm_expr::{NameGroups, Names};
use pm_list::Listed;
use pm_schema::NodeSpec;
use pm_value::Text;
use std::alloc::{AllocError, Global};

/// The node types with their content read.
pub(crate) fn contents(
    alloc: Global,
    nodes: Vec<NodeText>,
) -> Result<Listed<NodeSpec>, SchemaReadError>
    ensures { Gives node_types result (contents_from (map named (node_texts nodes.items)) 0 (node_texts nodes.items)) }
{
    let table = name_table(alloc, nodes.as_slice())?;
    let names = Names::new(alloc, table.as_slice())?;
    contents_of(alloc, &names, nodes)
}

/// What the expressions name.
fn name_table(alloc: Global, nodes: &[NodeText]) -> Result<Vec<NameGroups>, AllocError>
    ensures { IfOk result (λ v. map name_groups v.items ≡ map named (node_texts nodes.now)) }
{
    let mut table = Vec::new(alloc);
    for node in nodes {
        table.push(names_of(alloc, node)?)?;
    }
    Ok(table)
}

fn names_of(alloc: Global, node: &NodeText) -> Result<NameGroups, AllocError>
    ensures { IfOk result (λ n. name_groups n ≡ named (node_text node.now)) }
{
    let name = String::from_str(alloc, node.name.as_str())?;
    let groups = strings(alloc, node.groups.as_slice())?;
    Ok(NameGroups { name, groups })
}

fn strings(alloc: Global, items: &[Text]) -> Result<Vec<String>, AllocError>
    ensures { IfOk result (λ v. texts v.items ≡ items.now) }
{
    let mut copies = Vec::new(alloc);
    for item in items {
        copies.push(String::from_str(alloc, item.as_str())?)?;
    }
    Ok(copies)
}

/// The node types with their content read, from the first one on.
#[tactic(auto, unfolding(crate::specs::Contents::contents_of))]
fn contents_of(
    alloc: Global,
    names: &Names,
    mut nodes: Vec<NodeText>,
) -> Result<Listed<NodeSpec>, SchemaReadError>
    ensures { Gives node_types result (contents_from names.now 0 (node_texts nodes.items)) }
{
    let mut kinds = Listed::new(alloc);
    let mut known = Vec::new(alloc);
    let mut kind = 0;
    nodes.reverse();
    while let Some(node) = nodes.pop() {
        let content = content_of(alloc, names, &mut known, kind, node.content.as_str())?;
        kinds.push(filled(node, content))?;
        kind += 1;
    }
    Ok(kinds)
}

/// The node type with this content.
fn filled(node: NodeText, content: Expr) -> NodeSpec
    ensures { node_type result ≡ with_content (node_text node) (tree content) }
{
    let NodeText {
        name,
        content: _,
        groups,
        marks,
        inline,
        atom,
        attrs,
    } = node;
    NodeSpec {
        name,
        content,
        groups,
        marks,
        inline,
        atom,
        attrs,
    }
}
