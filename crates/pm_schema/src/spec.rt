//! What a schema is built from.
ghost use Rattle.std.specs.Prelude.{◌≡◌};
ghost use Rattle.pm_schema.specs.Types.{is_leaf, is_text, is_inline};
ghost use Rattle.pm_schema.specs.Made.{needs_attrs, can_be_made, can_wrap};

use crate::declared::AttrSpecs;
use pm_auto::Expr;
use pm_list::Listed;
use pm_value::{Kinds, Text, Value};

/// An attribute that a type declares. Where it has no default, each node or mark of the type has to give a value.
/// ProseMirror: `AttributeSpec`.
#[derive(Drop)]
pub struct AttrSpec {
    pub name: Text,
    pub default: Option<Value>,
    /// The kinds of values that it may have, any where it is absent. A default has to be of one of them.
    pub validate: Option<Kinds>,
}

/// A node type.
/// ProseMirror: `NodeSpec`.
#[derive(Drop)]
pub struct NodeSpec {
    pub name: Text,
    /// What its children may be.
    pub content: Expr,
    pub groups: Listed<Text>,
    /// The marks that its children may have: `_` for all, else names of mark types and of their groups with blanks between.
    /// Where it is absent, inline content has all marks and other content none.
    pub marks: Option<Text>,
    pub inline: bool,
    pub atom: bool,
    pub attrs: AttrSpecs,
}

/// A mark type.
/// ProseMirror: `MarkSpec`.
#[derive(Drop)]
pub struct MarkSpec {
    pub name: Text,
    pub attrs: AttrSpecs,
    /// Whether text typed at the end of such a mark has it too.
    pub inclusive: bool,
    /// The mark types that it excludes, written like `marks` of a node type. Where it is absent, it excludes its own type.
    pub excludes: Option<Text>,
    pub groups: Listed<Text>,
}

/// The types of a schema in their order, and the name of the top node's type.
/// ProseMirror: `SchemaSpec`.
#[derive(Drop)]
pub struct SchemaSpec {
    pub nodes: Listed<NodeSpec>,
    pub marks: Listed<MarkSpec>,
    pub top: Text,
    /// The version of the session file, 1 or 2. It decides how many tokens a document may have.
    pub version: u32,
}

impl NodeSpec {
    /// Whether its content expression is empty.
    pub fn is_leaf(&self) -> bool
        ensures { result ≡ is_leaf self.now }
    {
        match self.content {
            Expr::Empty => true,
            _ => false,
        }
    }

    /// Whether it is the type of texts.
    pub fn is_text(&self) -> bool
        ensures { result ≡ is_text self.now }
    {
        self.name.as_str() == "text"
    }

    /// Whether its nodes stand among texts. The type of texts is inline in any case.
    pub fn is_inline(&self) -> bool
        ensures { result ≡ is_inline self.now }
    {
        self.is_text() || self.inline
    }

    /// Whether it has an attribute without default.
    pub fn needs_attrs(&self) -> bool
        ensures { result ≡ needs_attrs self.now }
    {
        self.attrs.as_slice().iter().any(|a| a.default.is_none())
    }

    /// Whether its nodes can be made by themselves, where their content can: it isn't the type of texts, and each of its
    /// attributes has a default.
    pub fn can_be_made(&self) -> bool
        ensures { result ≡ can_be_made self.now }
    {
        !self.is_text() && !self.needs_attrs()
    }

    /// Whether its nodes may be put around others: it is no leaf, and each of its attributes has a default.
    pub fn can_wrap(&self) -> bool
        ensures { result ≡ can_wrap self.now }
    {
        !self.is_leaf() && !self.needs_attrs()
    }
}
