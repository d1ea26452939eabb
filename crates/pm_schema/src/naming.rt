//! The tables of names.
ghost use Rattle.std.specs.Prelude.{◌≡◌, true, false, IfOk, IfErr, OnOk};
ghost use Rattle.pm_schema.specs.Types.{names_of_nodes, names_of_marks};
ghost use Rattle.pm_schema.specs.Refusals.{repeats, has_types, has_double_name, IsRefused};

use crate::error::SchemaError;
use crate::names::Names;
use crate::spec::SchemaSpec;
use std::alloc::Global;

/// The names of the node types. `DoubleName` only where one stands twice.
fn name_nodes(alloc: Global, spec: &SchemaSpec) -> Result<Names, SchemaError>
    requires { has_types spec.now ≡ true }
    ensures names { IfOk result (λ t. t ≡ names_of_nodes spec.now) }
    ensures rest { IfOk result (λ t. has_double_name spec.now ≡ repeats t (names_of_marks spec.now)) }
    ensures refused { IfErr result (IsRefused spec.now) }
{
    let mut names = Names::new(alloc);
    let nodes = spec.nodes.as_slice();
    for node in nodes {
        let name = node.name.as_str();
        if names.has(name) {
            return Err(SchemaError::DoubleName);
        }
        names.add(alloc, name)?;
    }
    Ok(names)
}

/// The names of the mark types. `DoubleName` only where one stands twice, or among the `others`, those of the node types.
fn name_marks(alloc: Global, spec: &SchemaSpec, others: &Names) -> Result<Names, SchemaError>
    requires types { has_types spec.now ≡ true }
    requires rest { has_double_name spec.now ≡ repeats others.now (names_of_marks spec.now) }
    ensures names { IfOk result (λ t. t ≡ names_of_marks spec.now) }
    ensures differ { OnOk result (has_double_name spec.now ≡ false) }
    ensures refused { IfErr result (IsRefused spec.now) }
{
    let mut names = Names::new(alloc);
    let marks = spec.marks.as_slice();
    for mark in marks {
        let name = mark.name.as_str();
        if others.has(name) || names.has(name) {
            return Err(SchemaError::DoubleName);
        }
        names.add(alloc, name)?;
    }
    Ok(names)
}

/// The names of the node types, and those of the mark types. `DoubleName` exactly where two types have one name.
pub fn name_types(alloc: Global, spec: &SchemaSpec) -> Result<(Names, Names), SchemaError>
    requires { has_types spec.now ≡ true }
    ensures nodes { IfOk result (λ r. r.0 ≡ names_of_nodes spec.now) }
    ensures marks { IfOk result (λ r. r.1 ≡ names_of_marks spec.now) }
    ensures differ { OnOk result (has_double_name spec.now ≡ false) }
    ensures refused { IfErr result (IsRefused spec.now) }
{
    let node_names = name_nodes(alloc, spec)?;
    let mark_names = name_marks(alloc, spec, &node_names)?;
    Ok((node_names, mark_names))
}
