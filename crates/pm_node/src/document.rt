//! Documents.
ghost use Rattle.std.specs.Prelude.{◌≡◌, length, IfOk};
ghost use Rattle.pm_node.specs.Documents.{content_tokens, doc_of, doc_with};

use crate::fragment::MAX_TOKENS;
use crate::node::{Body, Fragment, Node};
use pm_attrs::Attrs;
use pm_auto::TypeId;
use pm_marks::{MarkSet, Same};
use std::alloc::{AllocError, AllocFailed, Global};
use std::marker::Model;
use std::sync::Arc;

/// A document, which contracts see as the type, attributes and marks of its top node and the tokens of its content. The
/// content is always a fragment. Its nodes are shared, so that a copy copies none.
#[derive(Drop)]
pub struct Document {
    top: Arc<Node, Global>,
}

impl Model for Document {
    ghost use Rattle.std.specs.Arc.{arc_value};
    ghost use Rattle.pm_tokens.specs.Tokens.{Doc};
    ghost use Rattle.pm_node.specs.Codes.{doc_code};
    ghost use Rattle.pm_node.specs.Documents.{doc_of, IsParent};

    ghost Value = { Doc };

    ghost coded = { doc_code };

    ghost view = { λ d. doc_of (arc_value d.top) };

    ghost invariant = { λ d. IsParent (arc_value d.top).body };
}

impl Document {
    /// The document with this top node. A text has its units as its content, and a leaf has none. A text of 2^32 units or
    /// more has no room in a document, which is answered as running out of memory.
    pub fn new(alloc: Global, top: Node) -> Result<Document, AllocError>
        ensures { IfOk result (λ d. d ≡ doc_of top) }
    {
        let Node {
            kind,
            attrs,
            marks,
            body,
        } = top;
        let content = content_in(alloc, &marks, body)?;
        let top = Node {
            kind,
            attrs,
            marks,
            body: Body::Children(content),
        };
        Ok(Document {
            top: Arc::new(alloc, top)?,
        })
    }

    /// The document with the type, attributes and marks of a node and this content.
    pub fn with_content(
        alloc: Global,
        top: &Node,
        content: Fragment,
    ) -> Result<Document, AllocError>
        ensures { IfOk result (λ d. d ≡ doc_with top.now content) }
    {
        let top = Node {
            kind: top.kind,
            attrs: top.attrs.copy(alloc)?,
            marks: top.marks.copy(alloc)?,
            body: Body::Children(content),
        };
        Document::new(alloc, top)
    }

    /// The top node, whose body is a fragment. It takes no memory.
    pub fn top(&self) -> &Node
        ensures { doc_of result.now ≡ self.now }
    {
        &self.top
    }

    /// The type of the top node. It takes no memory.
    pub fn kind(&self) -> TypeId
        ensures { result ≡ self.now.kind }
    {
        self.top.kind
    }

    /// The attributes of the top node. It takes no memory.
    pub fn attrs(&self) -> &Attrs
        ensures { result.now ≡ self.now.attrs }
    {
        &self.top.attrs
    }

    /// The marks of the top node. It takes no memory.
    pub fn marks(&self) -> &MarkSet<Attrs>
        ensures { result.now ≡ self.now.marks }
    {
        &self.top.marks
    }

    /// The nodes in the top node. It takes no memory.
    pub fn content(&self) -> &Fragment
        ensures { result.now ≡ self.now.tokens }
    {
        match &self.top.body {
            Body::Children(content) => content,
            _ => unreachable!(),
        }
    }

    /// The number of tokens of the content, which is the last position. It takes no memory.
    pub fn size(&self) -> usize
        ensures { result ≡ length self.now.tokens }
    {
        self.content().size()
    }

    /// The same document, which shares its nodes with this one.
    pub fn copy(&self) -> Result<Document, AllocError>
        ensures { IfOk result (λ d. d ≡ self.now) }
    {
        Ok(Document {
            top: Arc::try_clone(&self.top)?,
        })
    }
}

/// The content of a node with these marks and this body.
fn content_in(alloc: Global, marks: &MarkSet<Attrs>, body: Body) -> Result<Fragment, AllocError>
    ensures { IfOk result (λ f. f ≡ content_tokens marks.now body) }
{
    match body {
        Body::Text(units) => {
            if units.len() > MAX_TOKENS {
                return Err(AllocError);
            }
            Fragment::from_text(alloc, marks, &units)
        }
        Body::Leaf => Ok(Fragment::new(alloc)),
        Body::Children(content) => Ok(content),
    }
}
