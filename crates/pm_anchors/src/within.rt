//! Anchors within a document.
ghost use Rattle.std.specs.Prelude.{◌≡◌, ◌↔◌, true};
ghost use Rattle.pm_client.specs.Cursors.{AreWithin};

use pm_client::Cursor;

/// Whether each anchor is a position of a document of this size, in tokens.
pub fn are_within(anchors: &[Cursor], size: usize) -> bool
    ensures { (result ≡ true) ↔ AreWithin size anchors.now }
{
    for anchor in anchors {
        if anchor.pos > size as u64 {
            return false;
        }
    }
    true
}
