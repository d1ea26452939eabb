//! A schema, and its look-ups.
ghost use Rattle.std.specs.Prelude.{◌≡◌, ◌<◌, ◌≤◌, [], length, map, slice_index_or, Some, codes, IfSome, true, false};
ghost use Rattle.pm_schema.specs.Names.{place_of};
ghost use Rattle.pm_schema.specs.Types.{names_of_nodes, names_of_marks, node_at, mark_at, is_inline as inline_of, is_leaf as leaf_of, is_atom as atom_of, is_inclusive, is_version};
ghost use Rattle.pm_schema.specs.Contents.{Runs, All_run, all_run-prop};
ghost use Rattle.pm_schema.specs.MarkTexts.{allowed_row, exclude_table};
ghost use Rattle.pm_schema.specs.Defaults.{nodes_have_kinds, marks_have_kinds};
ghost use Rattle.pm_tokens.specs.Schemas.{compatible, max_size};
ghost use Rattle.pm_schema.specs.Documents.{documents_of};
ghost use Rattle.pm_schema.specs.Refusals.{has_double_name, is_plain_text};
ghost use Rattle.pm_schema.specs.Generated.{NeverStuck, never_stuck-prop};
ghost use Rattle.pm_schema.specs.Made.{can_be_made, can_wrap};

use crate::names::Names;
use crate::spec::SchemaSpec;
use pm_auto::{Auto, TypeId};
use pm_list::Listed;
use pm_marks::{MarkId, MarkRules};

/// A schema: what it was built from, and the tables that look-ups read. A contract sees the record of its lists, in the
/// order of the types.
/// ProseMirror: `Schema`.
#[derive(Drop)]
pub struct Schema {
    pub(crate) spec: SchemaSpec,
    pub(crate) node_names: Names,
    pub(crate) mark_names: Names,
    pub(crate) top: TypeId,
    pub(crate) text: TypeId,
    pub(crate) autos: Listed<Auto>,
    pub(crate) allowed: Listed<Listed<bool>>,
    pub(crate) rules: MarkRules,
    pub(crate) generatable: Listed<bool>,
    pub(crate) may_wrap: Listed<bool>,
    ghost nodes_named: { node_names ≡ names_of_nodes spec },
    ghost marks_named: { mark_names ≡ names_of_marks spec },
    ghost names_differ: { has_double_name spec ≡ false },
    ghost top_named: { place_of spec.top node_names ≡ Some top },
    ghost text_named: { place_of (codes "text") node_names ≡ Some text },
    ghost text_plain: { is_plain_text spec ≡ true },
    ghost full: { length autos ≡ length spec.nodes },
    ghost runs: { All_run spec.nodes autos } by { all_run-prop spec.nodes autos },
    ghost allows: { allowed ≡ map (allowed_row spec) spec.nodes },
    ghost excludes: { rules ≡ exclude_table spec },
    ghost makes: { generatable ≡ map can_be_made spec.nodes },
    ghost never_stuck: { NeverStuck generatable autos } by { never_stuck-prop generatable autos },
    ghost wraps: { may_wrap ≡ map can_wrap spec.nodes },
    ghost versioned: { is_version spec.version ≡ true },
    ghost node_defaults: { nodes_have_kinds spec ≡ true },
    ghost mark_defaults: { marks_have_kinds spec ≡ true },
}

impl Schema {
    /// The type of the top node.
    /// ProseMirror: `Schema.topNodeType`.
    pub fn top(&self) -> TypeId
        ensures named { place_of self.now.spec.top (names_of_nodes self.now.spec) ≡ Some result }
        ensures inside { result < length self.now.spec.nodes }
    {
        self.top
    }

    /// The type of texts, which has the name `text` and no attributes.
    pub fn text_type(&self) -> TypeId
        ensures named { place_of (codes "text") (names_of_nodes self.now.spec) ≡ Some result }
        ensures plain { (node_at self.now.spec result).attrs ≡ [] }
        ensures inside { result < length self.now.spec.nodes }
    {
        self.text
    }

    /// The number of node types.
    pub fn node_count(&self) -> usize
        ensures { result ≡ length self.now.spec.nodes }
    {
        self.spec.nodes.len()
    }

    /// The number of mark types.
    pub fn mark_count(&self) -> usize
        ensures { result ≡ length self.now.spec.marks }
    {
        self.spec.marks.len()
    }

    /// The node type of the name, `None` exactly where no node type has it.
    pub fn node_named(&self, name: &str) -> Option<TypeId>
        ensures place { result ≡ place_of name.now (names_of_nodes self.now.spec) }
        ensures inside { IfSome result (λ k. k < length self.now.spec.nodes) }
    {
        self.node_names.place(name)
    }

    /// The mark type of the name, `None` exactly where no mark type has it.
    pub fn mark_named(&self, name: &str) -> Option<MarkId>
        ensures place { result ≡ place_of name.now (names_of_marks self.now.spec) }
        ensures inside { IfSome result (λ m. m < length self.now.spec.marks) }
    {
        self.mark_names.place(name)
    }

    /// The name of the node type, by which it is found again.
    pub fn node_name(&self, kind: TypeId) -> &str
        requires { kind < length self.now.spec.nodes }
        ensures name { result.now ≡ (node_at self.now.spec kind).name }
        ensures found { place_of result.now (names_of_nodes self.now.spec) ≡ Some kind }
    {
        self.name_of_node(kind)
    }

    fn name_of_node(&self, kind: TypeId) -> &str
        requires { kind < length self.now.spec.nodes }
        ensures { result.now ≡ (node_at self.now.spec kind).name }
    {
        self.spec.nodes.as_slice()[kind].name.as_str()
    }

    /// The name of the mark type, by which it is found again.
    pub fn mark_name(&self, mark: MarkId) -> &str
        requires { mark < length self.now.spec.marks }
        ensures name { result.now ≡ (mark_at self.now.spec mark).name }
        ensures found { place_of result.now (names_of_marks self.now.spec) ≡ Some mark }
    {
        self.name_of_mark(mark)
    }

    fn name_of_mark(&self, mark: MarkId) -> &str
        requires { mark < length self.now.spec.marks }
        ensures { result.now ≡ (mark_at self.now.spec mark).name }
    {
        self.spec.marks.as_slice()[mark].name.as_str()
    }

    /// The automaton of the type's content: a list of types leads to a valid end exactly where it fits the content.
    /// ProseMirror: `NodeType.contentMatch`.
    pub fn auto(&self, kind: TypeId) -> &Auto
        requires { kind < length self.now.spec.nodes }
        ensures entry { result.now ≡ slice_index_or self.now.autos kind result.now }
        ensures runs { Runs (node_at self.now.spec kind).content result.now }
    {
        &self.autos.as_slice()[kind]
    }

    /// The automaton of each type's content.
    pub fn autos(&self) -> &[Auto]
        ensures { result.now ≡ self.now.autos }
    {
        self.autos.as_slice()
    }

    /// Whether the type is inline. The type of texts is.
    /// ProseMirror: `NodeType.isInline`.
    pub fn is_inline(&self, kind: TypeId) -> bool
        requires { kind < length self.now.spec.nodes }
        ensures { result ≡ inline_of (node_at self.now.spec kind) }
    {
        self.spec.nodes.as_slice()[kind].is_inline()
    }

    /// Whether nodes of the type have no content: its content expression is empty.
    /// ProseMirror: `NodeType.isLeaf`.
    pub fn is_leaf(&self, kind: TypeId) -> bool
        requires { kind < length self.now.spec.nodes }
        ensures { result ≡ leaf_of (node_at self.now.spec kind) }
    {
        self.spec.nodes.as_slice()[kind].is_leaf()
    }

    /// Whether nodes of the type are to be treated as one thing: it is a leaf, or its spec says so.
    /// ProseMirror: `NodeType.isAtom`.
    pub fn is_atom(&self, kind: TypeId) -> bool
        requires { kind < length self.now.spec.nodes }
        ensures { result ≡ atom_of (node_at self.now.spec kind) }
    {
        let node = &self.spec.nodes.as_slice()[kind];
        node.is_leaf() || node.atom
    }

    /// For each type whether it is generatable.
    pub fn generatable(&self) -> &[bool]
        ensures table { result.now ≡ self.now.generatable }
        ensures types { result.now ≡ map can_be_made self.now.spec.nodes }
    {
        self.generatable.as_slice()
    }

    /// Whether the type may be put around others: it is no leaf, and each of its attributes has a default.
    pub fn may_wrap(&self, kind: TypeId) -> bool
        requires { kind < length self.now.spec.nodes }
        ensures { result ≡ can_wrap (node_at self.now.spec kind) }
    {
        self.may_wrap.as_slice()[kind]
    }

    /// For each type whether it may be put around others.
    pub fn wrappers(&self) -> &[bool]
        ensures { result.now ≡ map can_wrap self.now.spec.nodes }
    {
        self.may_wrap.as_slice()
    }

    /// Whether the children of a node of the type `parent` may have marks of the type `mark`.
    /// ProseMirror: `NodeType.allowsMarkType`.
    pub fn allows(&self, parent: TypeId, mark: MarkId) -> bool
        requires { parent < length self.now.spec.nodes }
        ensures { result ≡ slice_index_or (allowed_row self.now.spec (node_at self.now.spec parent)) mark false }
    {
        let row = self.allowed.as_slice()[parent].as_slice();
        mark < row.len() && row[mark]
    }

    /// Whether text typed at the end of such a mark has it too.
    pub fn inclusive(&self, mark: MarkId) -> bool
        requires { mark < length self.now.spec.marks }
        ensures { result ≡ is_inclusive (mark_at self.now.spec mark) }
    {
        self.spec.marks.as_slice()[mark].inclusive
    }

    /// Whether nodes of the two types may be joined: they are of one type, or some type may stand first in both. It takes no
    /// memory.
    /// ProseMirror: `NodeType.compatibleContent`.
    pub fn compatible(&self, a: TypeId, b: TypeId) -> bool
        requires first { a < length self.now.spec.nodes }
        requires second { b < length self.now.spec.nodes }
        ensures { result ≡ compatible (documents_of self.now.spec) a b }
    {
        a == b || self.auto(a).compatible(self.auto(b))
    }

    /// The greatest size of a document in tokens: 500,000 in version 1, and 1,000,000 in version 2. It takes no memory.
    #[tactic(auto, unfolding(crate::specs::Documents::documents_of))]
    pub fn max_size(&self) -> usize
        ensures size { result ≡ max_size (documents_of self.now.spec) }
        ensures small { result ≤ 1000000 }
    {
        if self.spec.version == 1 {
            500_000
        } else {
            1_000_000
        }
    }

    /// Which mark types exclude which.
    pub fn rules(&self) -> &MarkRules
        ensures { result.now ≡ exclude_table self.now.spec }
    {
        &self.rules
    }
}
