//! Serials in order.
ghost use Rattle.std.specs.Prelude.{◌≡◌, ◌≤◌, length, IfOk};
ghost use Rattle.std.specs.List.{insert};
ghost use Rattle.pm_client.specs.Serials.{put, merged};

use pm_list::Listed;
use std::alloc::{AllocError, Global};

/// The serials of both lists, the lowest first. Those of the first list are in order.
pub fn merge(alloc: Global, dropped: &[u64], more: &[u64]) -> Result<Listed<u64>, AllocError>
    ensures { IfOk result (λ l. l ≡ merged dropped.now more.now) }
{
    let mut all = Vec::from_slice(alloc, dropped)?;
    for serial in more {
        let at = place_of(all.as_slice(), *serial);
        all.insert(at, *serial)?;
    }
    Ok(Listed::from_vec(all))
}

/// Where a serial belongs among these, which are in order.
fn place_of(serials: &[u64], serial: u64) -> usize
    ensures within { result ≤ length serials.now }
    ensures place { insert serials.now result serial ≡ put serial serials.now }
{
    let mut i = 0;
    for other in serials {
        if serial <= *other {
            return i;
        }
        i += 1;
    }
    i
}
