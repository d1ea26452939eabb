//! Node types as they are read, before their content, and the contents that were read.
use pm_auto::Expr;
use pm_list::Listed;
use pm_schema::AttrSpecs;
use pm_value::Text;

/// A node type whose content is still a text.
#[derive(Drop)]
pub(crate) struct NodeText {
    pub name: Text,
    pub content: Text,
    pub groups: Listed<Text>,
    pub marks: Option<Text>,
    pub inline: bool,
    pub atom: bool,
    pub attrs: AttrSpecs,
}

/// A text that was read, and the content that it says.
#[derive(Drop)]
pub(crate) struct Known {
    pub text: Text,
    pub content: Expr,
}
