//! Peeling a content.
ghost use Rattle.std.specs.Prelude.{◌≡◌, true, false, IfSome, IsNone};
ghost use Rattle.pm_fit.specs.Candidates.{can_be_peeled, inside};

use pm_node::{Body, Fragment};

/// The content of the one node that a content is. None where it isn't exactly one node, or that is a text, a leaf or empty. It
/// takes no memory.
pub fn peel(content: &Fragment) -> Option<&Fragment>
    ensures can { IfSome result (λ _. can_be_peeled content.now ≡ true) }
    ensures inner { IfSome result (λ inner. inner.now ≡ inside content.now) }
    ensures cannot { IsNone result → can_be_peeled content.now ≡ false }
{
    let children = content.children();
    if children.len() != 1 {
        return None;
    }
    match &children.get(0).body {
        Body::Children(inner) => {
            if inner.size() == 0 {
                return None;
            }
            Some(inner)
        }
        _ => None,
    }
}
