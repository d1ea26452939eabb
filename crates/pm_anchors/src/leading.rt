//! Anchors over the map of one step.
ghost use Rattle.std.specs.Prelude.{◌≡◌, ◌<◌, ◌^◌, length};
ghost use Rattle.pm_map.specs.Through.{joined};
ghost use Rattle.pm_anchors.specs.Leading.{led, HaveRoom};

use pm_client::Cursor;
use pm_map::{Moved, StepMap};

/// Leads places, one for each anchor, over a map by the anchors' sides.
pub fn lead_all(map: &StepMap, anchors: &[Cursor], places: &mut [Moved])
    requires each { length anchors.now ≡ length places.old }
    requires room { HaveRoom map.now anchors.now places.old }
    ensures { places.new ≡ led map.now anchors.now places.old }
{
    for i in 0..anchors.len() {
        let so = places[i];
        let m = map.map(so.pos, anchors[i].side);
        places[i] = join(so, m);
    }
}

/// A place after a map, with what the map did added to what earlier ones did.
fn join(so: Moved, m: Moved) -> Moved
    ensures { result ≡ joined so m }
{
    Moved {
        pos: m.pos,
        deleted: so.deleted || m.deleted,
        across: so.across || m.across,
        after: so.after || m.after,
        recover: None,
    }
}
