//! Anchors over steps.
ghost use Rattle.std.specs.Prelude.{◌≡◌, ◌≤◌, All, IfOk};
ghost use Rattle.pm_map.specs.Moves.{kept_at};
ghost use Rattle.pm_anchors.specs.Anchors.{MayFollow, places};

use crate::leading::lead_all;
use pm_authority::Named;
use pm_change::Change;
use pm_client::Cursor;
use pm_map::Moved;
use std::alloc::{AllocError, Global};

/// Where each anchor of the document before the steps stands in the one after them, in the order of the anchors. It goes by its
/// side over the map of each step in turn, and no map is the mirror of another. `deleted`: a step took out the token on the
/// anchor's side; `across` and `after` tell of the tokens on both sides and of the one after. `recover` is None.
///
/// The steps must apply one after another to a good document, and the anchors must be positions of it. This takes a time of the
/// number of steps times that of anchors, and no memory but the result's.
/// ProseMirror: `Mapping.mapResult`.
pub fn anchored<C: Change>(
    alloc: Global,
    steps: &[Named<C>],
    anchors: &[Cursor],
) -> Result<Vec<Moved>, AllocError>
    requires { MayFollow C.means steps.now anchors.now }
    ensures places { IfOk result (λ v. v.items ≡ places C.means steps.now anchors.now) }
    // They are positions of the document after the steps.
    ensures within { IfOk result (λ v. (f : MayFollow C.means steps.now anchors.now) → All (λ m. m.pos ≤ C.means.size f.after) v.items) }
{
    let mut led = Vec::with_capacity(alloc, anchors.len())?;
    for anchor in anchors {
        led.push(still(anchor.pos))?;
    }
    for step in steps {
        let map = step.change.step_map();
        lead_all(&map, anchors, led.as_mut_slice());
    }
    Ok(led)
}

/// A position over no map.
fn still(pos: u64) -> Moved
    ensures { result ≡ kept_at pos }
{
    Moved {
        pos,
        deleted: false,
        across: false,
        after: false,
        recover: None,
    }
}
