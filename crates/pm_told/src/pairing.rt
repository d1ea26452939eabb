//! Which steps that the view is shown are mirrors of each other.
ghost use Rattle.std.specs.Prelude.{◌≡◌, ◌+◌, ◌<◌, ◌^◌, ◌==◌, ◌&&◌, nat_lt, length, drop, map, reverse, slice_get, IfOk};
ghost use Rattle.pm_told.specs.Showing.{pairs_of, sum, is_next};

use pm_apply::DocChange;
use pm_authority::Named;
use std::alloc::{AllocError, Global};

/// For each pending step that was kept, and that is taken back by one step: the place of this among the steps shown, and the place
/// of its carried form. `sizes` has by how many steps each pending step is taken back, the last one's first; the first carried
/// step stands at the place `first`.
pub fn pairs_of(
    alloc: Global,
    sizes: &[usize],
    pending: &[Named<DocChange>],
    kept: &[Named<DocChange>],
    back: usize,
    first: usize,
) -> Result<Vec<(u64, u64)>, AllocError>
    requires sizes { length sizes.now ≡ length pending.now }
    requires back { back ≡ sum sizes.now }
    requires first { first + length kept.now < 2 ^ 64 }
    ensures { IfOk result (λ v. v.items ≡ pairs_of pending.now (reverse sizes.now) kept.now first) }
{
    let mut pairs = Vec::new(alloc);
    let mut place = back;
    let mut count = 0;
    for (i, step) in pending.iter().enumerate() {
        let size = sizes[sizes.len() - 1 - i];
        place -= size;
        if is_next(kept, count, step) {
            if size == 1 {
                pairs.push((place as u64, (first + count) as u64))?;
            }
            count += 1;
        }
    }
    Ok(pairs)
}

/// Whether the step at the place among those kept comes of this pending one.
fn is_next(kept: &[Named<DocChange>], place: usize, step: &Named<DocChange>) -> bool
    ensures { result ≡ is_next (drop place kept.now) step.now }
{
    place < kept.len() && kept[place].name.serial == step.name.serial
}
