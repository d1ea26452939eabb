//! The tables of marks.
ghost use Rattle.std.specs.Prelude.{◌≡◌, ◌<◌, true, false, length, map, IfOk, IfErr, OnOk};
ghost use Rattle.pm_auto.specs.States.{edge_kinds};
ghost use Rattle.pm_auto.specs.Walks.{edges_at};
ghost use Rattle.pm_schema.specs.Contents.{Runs, All_run};
ghost use Rattle.pm_schema.specs.MarkTexts.{known_where_given, first_is_inline, allowed_row, excluded_row, exclude_table};
ghost use Rattle.pm_schema.specs.Refusals.{has_types, has_double_name, knows_marks, IsNamed, IsRefused};

use crate::error::SchemaError;
use crate::mark_texts::{all_known, named};
use crate::spec::{MarkSpec, NodeSpec, SchemaSpec};
use pm_auto::Auto;
use pm_list::Listed;
use pm_marks::{MarkId, MarkRules};
use pm_value::Text;
use std::alloc::{AllocError, Global};

/// Whether each name in the text is known, where there is a text.
fn is_known(alloc: Global, marks: &[MarkSpec], text: &Option<Text>) -> Result<bool, AllocError>
    ensures { IfOk result (λ b. b ≡ known_where_given marks.now text.now) }
{
    match text {
        None => Ok(true),
        Some(text) => all_known(alloc, marks, text.as_str()),
    }
}

/// Looks for names in `marks` and `excludes` that are those of no mark type and of no group: `UnknownMark` where there is one.
pub fn check_marks(alloc: Global, spec: &SchemaSpec) -> Result<(), SchemaError>
    requires types { has_types spec.now ≡ true }
    requires differ { has_double_name spec.now ≡ false }
    ensures named { OnOk result (IsNamed spec.now) }
    ensures refused { IfErr result (IsRefused spec.now) }
{
    let nodes = spec.nodes.as_slice();
    let marks = spec.marks.as_slice();
    for node in nodes {
        if !is_known(alloc, marks, &node.marks)? {
            return Err(SchemaError::UnknownMark);
        }
    }
    for mark in marks {
        if !is_known(alloc, marks, &mark.excludes)? {
            return Err(SchemaError::UnknownMark);
        }
    }
    Ok(())
}

/// Whether the first type of the start is inline.
fn holds_inline(spec: &SchemaSpec, auto: &Auto) -> bool
    ensures { result ≡ first_is_inline spec.now (edge_kinds (edges_at auto.now.edges 0)) }
{
    let nodes = spec.nodes.as_slice();
    match auto.edges(auto.start()) {
        [] => false,
        [first, ..] => first.kind < nodes.len() && nodes[first.kind].is_inline(),
    }
}

/// The marks that the children of a node of the type may have.
fn allowed(
    alloc: Global,
    spec: &SchemaSpec,
    node: &NodeSpec,
    auto: &Auto,
) -> Result<Listed<bool>, AllocError>
    requires { Runs node.now.content auto.now }
    ensures { IfOk result (λ l. l ≡ allowed_row spec.now node.now) }
{
    let marks = spec.marks.as_slice();
    match &node.marks {
        Some(text) => named(alloc, marks, text.as_str()),
        None => {
            let all = holds_inline(spec, auto);
            Ok(Listed::from_vec(vec![in alloc; all; marks.len()]?))
        }
    }
}

/// The same of each type.
pub fn allowed_rows(
    alloc: Global,
    spec: &SchemaSpec,
    autos: &[Auto],
) -> Result<Listed<Listed<bool>>, AllocError>
    requires runs { All_run spec.now.nodes autos.now }
    requires full { length autos.now ≡ length spec.now.nodes }
    ensures { IfOk result (λ l. l ≡ map (allowed_row spec.now) spec.now.nodes) }
{
    let mut rows: Listed<Listed<bool>> = Listed::new(alloc);
    let nodes = spec.nodes.as_slice();
    for k in 0..nodes.len() {
        let row = allowed(alloc, spec, &nodes[k], &autos[k])?;
        rows.push(row)?;
    }
    Ok(rows)
}

/// The mark types that the one at place `k` excludes.
fn excluded(
    alloc: Global,
    marks: &[MarkSpec],
    k: MarkId,
    mark: &MarkSpec,
) -> Result<Vec<bool>, AllocError>
    requires { k < length marks.now }
    ensures { IfOk result (λ v. v.items ≡ excluded_row marks.now k mark.now) }
{
    match &mark.excludes {
        Some(text) => Ok(named(alloc, marks, text.as_str())?.into_vec()),
        None => {
            let mut row = vec![in alloc; false; marks.len()]?;
            row[k] = true;
            Ok(row)
        }
    }
}

/// Which mark types exclude which.
pub fn exclude_rules(alloc: Global, spec: &SchemaSpec) -> Result<MarkRules, AllocError>
    ensures { IfOk result (λ r. r ≡ exclude_table spec.now) }
{
    let mut rows = Vec::new(alloc);
    let marks = spec.marks.as_slice();
    for (k, mark) in marks.iter().enumerate() {
        rows.push(excluded(alloc, marks, k, mark)?)?;
    }
    Ok(MarkRules::new(rows))
}
