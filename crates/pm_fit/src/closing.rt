//! The nodes that close an empty slice.
ghost use Rattle.std.specs.Prelude.{◌≡◌, ◌+◌, ◌-◌, ◌*◌, ◌≤◌, ◌<◌, ◌^◌, ◌++◌, length, map, [], ◌∷◌, IfOk, IfSome, OnOk, option_map};
ghost use Rattle.pm_tokens.specs.Tokens.{Open, Close};
ghost use Rattle.pm_tokens.specs.Scan.{depth_at};
ghost use Rattle.pm_tokens.specs.Faults.{Valid};
ghost use Rattle.pm_schema.specs.Documents.{documents_of};
ghost use Rattle.pm_fit.specs.Fitteds.{step_in, Makes};
ghost use Rattle.pm_fit.specs.Candidates.{falling, hollow, closing_at};
ghost use Rattle.pm_fit.specs.Firsts.{IsFirst};

use crate::fitted::Fitted;
use crate::target::Target;
use pm_marks::Same;
use pm_node::{Body, Fragment, Node};
use pm_resolve::Place;
use std::alloc::{AllocError, Global};
use std::sync::Arc;

/// Appends the nodes around the place below the depth to what is there, without content, each in the one before.
pub fn push_hollow(
    alloc: Global,
    place: &Place<'_>,
    depth: usize,
    made: &mut Fragment,
) -> Result<(), AllocError>
    requires within { depth ≤ depth_at place.now.doc.tokens place.now.pos }
    requires room { length made.old + 2 * (depth_at place.now.doc.tokens place.now.pos - depth) < 2 ^ 32 }
    ensures { OnOk result (made.new ≡ made.old ++ hollow place.now.doc place.now.pos depth (depth_at place.now.doc.tokens place.now.pos - depth)) }
{
    if depth == place.depth() {
        return Ok(());
    }
    let head = place.node(depth + 1);
    let mut content = Fragment::new(alloc);
    push_hollow(alloc, place, depth + 1, &mut content)?;
    push_around(alloc, head, content, made)
}

/// Appends a node with the head of another one around the content, to what is there.
fn push_around(
    alloc: Global,
    head: &Node,
    content: Fragment,
    made: &mut Fragment,
) -> Result<(), AllocError>
    requires { length made.old + (length content + 2) < 2 ^ 32 }
    ensures { OnOk result (made.new ≡ made.old ++ Open head.now.kind head.now.attrs head.now.marks ∷ (content ++ Close ∷ [])) }
{
    let _ = content.size();
    let node = Node {
        kind: head.kind,
        attrs: head.attrs.copy(alloc)?,
        marks: head.marks.copy(alloc)?,
        body: Body::Children(content),
    };
    made.push(alloc, Arc::new(alloc, node)?)
}

impl Target<'_> {
    /// The first step that fits of those that close the nodes around `left` and open those around `right`, below a depth that
    /// falls from `least + more` to `least`.
    pub fn fit_closing(
        &self,
        alloc: Global,
        left: &Place<'_>,
        right: &Place<'_>,
        least: usize,
        more: usize,
    ) -> Result<Option<Fitted>, AllocError>
        requires valid { Valid (documents_of self.now.schema.now.spec) self.now.doc.now }
        requires start_in { left.now.doc ≡ self.now.doc.now }
        requires start { left.now.pos ≡ self.now.from }
        requires end_in { right.now.doc ≡ self.now.doc.now }
        requires end { right.now.pos ≡ self.now.to }
        requires left_depth { least + more ≤ depth_at self.now.doc.now.tokens self.now.from }
        requires right_depth { least + more ≤ depth_at self.now.doc.now.tokens self.now.to }
        ensures step { IfOk result (λ o. IsFirst self.now.schema.now self.now.doc.now self.now.from self.now.to
            (map (λ i. closing_at self.now.doc.now self.now.from self.now.to (least + i)) (falling more)) (option_map step_in o)) }
        ensures makes { IfOk result (λ o. IfSome o (Makes (documents_of self.now.schema.now.spec) self.now.doc.now)) }
    {
        if let Some(fitted) = self.try_closing(alloc, left, right, least + more)? {
            return Ok(Some(fitted));
        }
        if more == 0 {
            return Ok(None);
        }
        self.fit_closing(alloc, left, right, least, more - 1)
    }

    /// The step that closes the nodes around `left` and opens those around `right`, below the depth.
    fn try_closing(
        &self,
        alloc: Global,
        left: &Place<'_>,
        right: &Place<'_>,
        depth: usize,
    ) -> Result<Option<Fitted>, AllocError>
        requires valid { Valid (documents_of self.now.schema.now.spec) self.now.doc.now }
        requires start_in { left.now.doc ≡ self.now.doc.now }
        requires start { left.now.pos ≡ self.now.from }
        requires end_in { right.now.doc ≡ self.now.doc.now }
        requires end { right.now.pos ≡ self.now.to }
        requires left_depth { depth ≤ depth_at self.now.doc.now.tokens self.now.from }
        requires right_depth { depth ≤ depth_at self.now.doc.now.tokens self.now.to }
        ensures step { IfOk result (λ o. IsFirst self.now.schema.now self.now.doc.now self.now.from self.now.to
            (closing_at self.now.doc.now self.now.from self.now.to depth ∷ []) (option_map step_in o)) }
        ensures makes { IfOk result (λ o. IfSome o (Makes (documents_of self.now.schema.now.spec) self.now.doc.now)) }
    {
        let mut content = Fragment::new(alloc);
        push_hollow(alloc, left, depth, &mut content)?;
        push_hollow(alloc, right, depth, &mut content)?;
        self.try_sides(alloc, &content, left.depth() - depth, right.depth() - depth)
    }
}
