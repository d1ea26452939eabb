//! Nodes that are made from their type alone.
ghost use Rattle.std.specs.Prelude.{◌≡◌, ◌<◌, ◌≤◌, ◌+◌, ℕ, suc, List, [], min, Some, None, true, map, length, slice_index_or, IfOk, IfErr, OnOk};
ghost use Rattle.pm_auto.specs.declared.auto.Auto.{Auto};
ghost use Rattle.pm_auto.specs.Finish.{all_can};
ghost use Rattle.pm_tokens.specs.Schemas.{max_size};
ghost use Rattle.pm_schema.specs.Types.{node_at};
ghost use Rattle.pm_schema.specs.Documents.{documents_of};
ghost use Rattle.pm_node.specs.Trees.{node_tokens};
ghost use Rattle.pm_node.specs.Filled.{IsFill, AreFills, Filling, CanBeMade, IsFillFault, defaults, joined, filled_tokens};
ghost use Rattle.pm_node.specs.Sizes.{Sizes, Small, measured};
ghost use Rattle.pm_node.specs.declared.filled.FillError.TheVariants.{NoMemory};

use crate::check::MAX_DEPTH;
use crate::node::{Body, Fragment, Node};
use pm_attrs::Attrs;
use pm_auto::TypeId;
use pm_list::Listed;
use pm_marks::MarkSet;
use pm_schema::{AnyType, Schema};
use std::alloc::{AllocError, AllocFailed, Global};
use std::sync::Arc;
use thiserror::Error;

/// Up to here sizes of filled nodes are told apart. No schema allows a document more tokens.
const COUNTED: usize = 1_000_000;

/// Why a node can't be made from its type alone.
#[derive(Clone, Copy, Debug, PartialEq, Eq, Error)]
pub enum FillError {
    #[error("the type is that of texts, or has an attribute without default")]
    NotGeneratable,
    #[error("the filled node nests more than 48 levels below itself")]
    Deep,
    #[error("the filled node has more tokens than the schema allows")]
    Large,
    #[error("no memory")]
    NoMemory,
}

impl From<AllocError> for FillError {
    ghost from_gives = { λ _ e. e ≡ NoMemory };

    fn from(_error: AllocError) -> FillError {
        FillError::NoMemory
    }
}

impl<T: Drop> From<AllocFailed<T>> for FillError {
    ghost from_gives = { λ _ e. e ≡ NoMemory };

    fn from(_error: AllocFailed<T>) -> FillError {
        FillError::NoMemory
    }
}

/// A node of the type with default attributes, without marks, that holds the shortest list of types that its content may
/// be, the first by the order of edges, each of them filled in the same way. `NotGeneratable` exactly where the type is
/// that of texts or has an attribute without default; else `Deep` exactly where the node would nest more than 48 levels
/// below itself, or without end, where a leaf is no level; else `Large` exactly where it would have more tokens than the
/// schema allows a document, its own open and close among them.
/// ProseMirror: `NodeType.createAndFill`, whose list need not be the shortest.
pub fn make_filled(alloc: Global, schema: &Schema, kind: TypeId) -> Result<Node, FillError>
    requires { kind < length schema.now.spec.nodes }
    ensures filled { IfOk result (λ n. Filling schema.now kind (Some (node_tokens n))) }
    ensures small { IfOk result (λ n. length (node_tokens n) ≤ max_size (documents_of schema.now.spec)) }
    ensures generatable { OnOk result (CanBeMade schema.now kind) }
    ensures refused { IfErr result (IsFillFault schema.now kind) }
{
    if !schema.is_generatable(kind) {
        return Err(FillError::NotGeneratable);
    }
    let fills = fills_of(alloc, schema)?;
    let fills = fills.as_slice();
    let sizes = sizes_within(alloc, schema, fills, MAX_DEPTH + 1)?;
    match size_at(sizes.as_slice(), kind) {
        None => Err(FillError::Deep),
        Some(size) => {
            if size > schema.max_size() {
                return Err(FillError::Large);
            }
            let node = filled_node(alloc, schema, fills, MAX_DEPTH + 1, kind)?;
            Ok(node)
        }
    }
}

/// The fill of each type.
fn fills_of(alloc: Global, schema: &Schema) -> Result<Listed<Listed<TypeId>>, AllocError>
    ensures { IfOk result (AreFills schema.now) }
{
    let mut fills: Listed<Listed<TypeId>> = Listed::new(alloc);
    for kind in 0..schema.node_count() {
        let fill = fill_of(alloc, schema, kind)?;
        fills.push(fill)?;
    }
    Ok(fills)
}

/// The fill of the type. Each type has one, since none has a dead end.
fn fill_of(alloc: Global, schema: &Schema, kind: TypeId) -> Result<Listed<TypeId>, AllocError>
    requires { kind < length schema.now.spec.nodes }
    ensures shortest { IfOk result (λ w. (d : Auto) → IsFill schema.now.generatable (slice_index_or schema.now.autos kind d) w) }
    ensures made { IfOk result (λ w. all_can schema.now.generatable w ≡ true) }
{
    let automaton = schema.auto(kind);
    let fill = automaton.fill(alloc, automaton.start(), &[], true, schema.generatable())?;
    match fill {
        Some(list) => Ok(list),
        None => Ok(Listed::new(alloc)),
    }
}

/// The fill of the type.
fn fill_at(fills: &[Listed<TypeId>], kind: TypeId) -> &[TypeId]
    ensures { result.now ≡ slice_index_or fills.now kind [] }
{
    if kind < fills.len() {
        fills[kind].as_slice()
    } else {
        &[]
    }
}

/// The size of each type's filled node, where at most `levels` nodes may stand one in another.
fn sizes_within(
    alloc: Global,
    schema: &Schema,
    fills: &[Listed<TypeId>],
    levels: usize,
) -> Result<Listed<Option<usize>>, AllocError>
    requires { AreFills schema.now fills.now }
    ensures { IfOk result (Sizes schema.now.spec fills.now levels) }
{
    let mut sizes = leaf_sizes(alloc, schema)?;
    for _level in 0..levels {
        sizes = next_sizes(alloc, schema, fills, sizes.as_slice())?;
    }
    Ok(sizes)
}

/// The sizes of leaves.
fn leaf_sizes(alloc: Global, schema: &Schema) -> Result<Listed<Option<usize>>, AllocError>
    ensures { (fills : List (List ℕ)) → IfOk result (Sizes schema.now.spec fills 0) }
{
    let mut sizes = Listed::new(alloc);
    for kind in 0..schema.node_count() {
        let size = leaf_size(schema, kind);
        sizes.push(size)?;
    }
    Ok(sizes)
}

/// The size of a leaf, `None` where the type is no leaf.
fn leaf_size(schema: &Schema, kind: TypeId) -> Option<usize>
    requires { kind < length schema.now.spec.nodes }
    ensures { (fills : List (List ℕ)) → result ≡ measured (filled_tokens schema.now.spec fills 0 kind) }
{
    if schema.is_leaf(kind) { Some(1) } else { None }
}

/// The sizes where one level more is allowed.
fn next_sizes(
    alloc: Global,
    schema: &Schema,
    fills: &[Listed<TypeId>],
    sizes: &[Option<usize>],
) -> Result<Listed<Option<usize>>, AllocError>
    requires { AreFills schema.now fills.now }
    ensures { (n : ℕ) → Sizes schema.now.spec fills.now n sizes.now → IfOk result (Sizes schema.now.spec fills.now (suc n)) }
{
    let mut next = Listed::new(alloc);
    for kind in 0..schema.node_count() {
        let size = next_size(schema, fills, sizes, kind);
        next.push(size)?;
    }
    Ok(next)
}

/// The size of the type's filled node where one level more is allowed.
fn next_size(
    schema: &Schema,
    fills: &[Listed<TypeId>],
    sizes: &[Option<usize>],
    kind: TypeId,
) -> Option<usize>
    requires table { AreFills schema.now fills.now }
    requires known { kind < length schema.now.spec.nodes }
    ensures { (n : ℕ) → Sizes schema.now.spec fills.now n sizes.now → result ≡ measured (filled_tokens schema.now.spec fills.now (suc n) kind) }
{
    if schema.is_leaf(kind) {
        return Some(1);
    }
    match content_size(schema, sizes, fill_at(fills, kind)) {
        None => None,
        Some(size) => Some(capped(size, 2)),
    }
}

/// The size of nodes of the types, one after another.
fn content_size(schema: &Schema, sizes: &[Option<usize>], kinds: &[TypeId]) -> Option<usize>
    requires { all_can schema.now.generatable kinds.now ≡ true }
    ensures { (fills : List (List ℕ)) (n : ℕ) → Sizes schema.now.spec fills n sizes.now → result ≡ measured (joined (map (filled_tokens schema.now.spec fills n) kinds.now)) }
{
    let mut total = 0;
    for kind in kinds {
        match size_at(sizes, *kind) {
            None => return None,
            Some(size) => total = capped(total, size),
        }
    }
    Some(total)
}

/// The sum, where any number above `COUNTED` counts as the one above it.
fn capped(a: usize, b: usize) -> usize
    ensures { result ≡ min (a + b) 1000001 }
{
    if a > COUNTED || b > COUNTED - a {
        return COUNTED + 1;
    }
    a + b
}

/// The size of the type's filled node, `None` where it nests too deep.
fn size_at(sizes: &[Option<usize>], kind: TypeId) -> Option<usize>
    ensures { result ≡ slice_index_or sizes.now kind None }
{
    if kind < sizes.len() {
        sizes[kind]
    } else {
        None
    }
}

/// The filled node of the type. It recurses at most `levels` deep.
#[cycle(filled)]
fn filled_node(
    alloc: Global,
    schema: &Schema,
    fills: &[Listed<TypeId>],
    levels: usize,
    kind: TypeId,
) -> Result<Node, AllocError>
    requires table { AreFills schema.now fills.now }
    requires known { kind < length schema.now.spec.nodes }
    requires small { Small (filled_tokens schema.now.spec fills.now levels kind) }
    ensures { IfOk result (λ n. filled_tokens schema.now.spec fills.now levels kind ≡ Some (node_tokens n)) }
{
    let attrs = default_attrs(alloc, schema, kind)?;
    let marks = MarkSet::empty(alloc);
    if schema.is_leaf(kind) {
        return Ok(Node {
            kind,
            attrs,
            marks,
            body: Body::Leaf,
        });
    }
    let kinds = fill_at(fills, kind);
    let content = filled_content(alloc, schema, fills, levels - 1, kinds)?;
    Ok(Node {
        kind,
        attrs,
        marks,
        body: Body::Children(content),
    })
}

/// Filled nodes of the types, one after another.
#[cycle(filled)]
fn filled_content(
    alloc: Global,
    schema: &Schema,
    fills: &[Listed<TypeId>],
    levels: usize,
    kinds: &[TypeId],
) -> Result<Fragment, AllocError>
    requires table { AreFills schema.now fills.now }
    requires made { all_can schema.now.generatable kinds.now ≡ true }
    requires small { Small (joined (map (filled_tokens schema.now.spec fills.now levels) kinds.now)) }
    ensures { IfOk result (λ f. joined (map (filled_tokens schema.now.spec fills.now levels) kinds.now) ≡ Some f) }
{
    let mut content = Fragment::new(alloc);
    for kind in kinds {
        let node = filled_node(alloc, schema, fills, levels, *kind)?;
        let node = Arc::new(alloc, node)?;
        content.push(alloc, node)?;
    }
    Ok(content)
}

/// The default of each attribute of the type. Nothing is given and each attribute has a default, so that nothing but memory
/// can be wanting.
fn default_attrs(alloc: Global, schema: &Schema, kind: TypeId) -> Result<Attrs, AllocError>
    requires { kind < length schema.now.spec.nodes }
    ensures { IfOk result (λ a. a ≡ defaults (node_at schema.now.spec kind).attrs) }
{
    match schema.attrs_for(alloc, AnyType::Node(kind), Vec::new(alloc)) {
        Ok(attrs) => Ok(attrs),
        Err(_) => Err(AllocError),
    }
}
