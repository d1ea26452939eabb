//! Building a schema.
ghost use Rattle.std.specs.Prelude.{◌≡◌, true, map, IfOk, IfErr};
ghost use Rattle.std.specs.List.{list_all};
ghost use Rattle.pm_schema.specs.Types.{is_version};
ghost use Rattle.pm_schema.specs.Defaults.{have_kinds};
ghost use Rattle.pm_schema.specs.Made.{can_wrap};
ghost use Rattle.pm_schema.specs.Built.{IsBuilt};
ghost use Rattle.pm_schema.specs.Refusals.{IsRefused};

use crate::ends::{build_autos, check_ends};
use crate::error::SchemaError;
use crate::generated::generatable;
use crate::marks::{allowed_rows, check_marks, exclude_rules};
use crate::naming::name_types;
use crate::schema::Schema;
use crate::spec::{MarkSpec, NodeSpec, SchemaSpec};
use crate::types::find_types;
use pm_list::Listed;
use std::alloc::{AllocError, Global};

/// For each type whether it may be put around others.
fn wrappers(alloc: Global, nodes: &[NodeSpec]) -> Result<Listed<bool>, AllocError>
    ensures { IfOk result (λ l. l ≡ map can_wrap nodes.now) }
{
    let mut list = Listed::new(alloc);
    for node in nodes {
        list.push(node.can_wrap())?;
    }
    Ok(list)
}

/// Each default of a node type is of a kind that its attribute names, as the attributes of each type know.
fn node_defaults(nodes: &[NodeSpec])
    ensures { list_all (λ n. have_kinds n.attrs) nodes.now ≡ true }
{
    for node in nodes {
        let _ = node.attrs.as_slice();
    }
}

/// Each default of a mark type likewise.
fn mark_defaults(marks: &[MarkSpec])
    ensures { list_all (λ m. have_kinds m.attrs) marks.now ≡ true }
{
    for mark in marks {
        let _ = mark.attrs.as_slice();
    }
}

impl Schema {
    /// The schema of these types, whose version has to be 1 or 2. A schema that is built has no dead end: from each state of
    /// each type a valid end can be reached through types that can be made. ProseMirror: `new Schema`.
    ///
    /// # Errors
    ///
    /// In the order in which they are looked for:
    /// - `NoTop`: no type has the top name, or it is `text`.
    /// - `NoText`: no type is called `text`.
    /// - `TextAttrs`: that type has an attribute or content.
    /// - `DoubleName`: two types, of nodes or of marks, have one name.
    /// - `UnknownMark`: a name in `marks` or `excludes` is that of no mark type and of no group.
    /// - `Content`: there is no automaton for the content of a type, with the fault of the first such type.
    /// - `DeadEnd`: a type has a state from which no generatable types lead to a valid end, with the first such type.
    pub fn build(alloc: Global, spec: SchemaSpec) -> Result<Schema, SchemaError>
        requires { is_version spec.version ≡ true }
        ensures spec { IfOk result (λ s. s.spec ≡ spec) }
        ensures built { IfOk result IsBuilt }
        ensures refused { IfErr result (IsRefused spec) }
    {
        let (top, text) = find_types(&spec)?;
        let (node_names, mark_names) = name_types(alloc, &spec)?;
        check_marks(alloc, &spec)?;
        let autos = build_autos(alloc, &spec)?;
        let generatable = generatable(alloc, spec.nodes.as_slice(), autos.as_slice())?;
        check_ends(alloc, &spec, autos.as_slice(), generatable.as_slice())?;
        let allowed = allowed_rows(alloc, &spec, autos.as_slice())?;
        let rules = exclude_rules(alloc, &spec)?;
        let may_wrap = wrappers(alloc, spec.nodes.as_slice())?;
        node_defaults(spec.nodes.as_slice());
        mark_defaults(spec.marks.as_slice());
        Ok(Schema {
            spec,
            node_names,
            mark_names,
            top,
            text,
            autos,
            allowed,
            rules,
            generatable,
            may_wrap,
        })
    }
}
