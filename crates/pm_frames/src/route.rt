//! Positions over a mapping that grows at both ends, by the way that is faster for so many steps.

use crate::frames::Frames;
use crate::growing::Growing;
use pm_map::{Mapping, Moved, Positions, Side, StepMap};
use std::alloc::{AllocError, Global};

/// What tells where positions go while pending steps are carried over foreign ones: for few steps a mapping, over whose maps
/// each position goes one by one, and for many frames. Both tell the same.
#[derive(Drop, Debug)]
pub enum Route {
    Maps(Mapping),
    Composed(Frames),
}

impl Positions for Route {
    ghost use Rattle.pm_frames.specs.declared.route.Route.TheVariants.{Maps, Composed};
    ghost use Rattle.pm_frames.specs.Routes.{Guides};

    ghost leads = { Guides };

    fn place(&self, pos: u64, side: Side) -> Moved {
        match self {
            Route::Maps(maps) => maps.place(pos, side),
            Route::Composed(frames) => frames.place(pos, side),
        }
    }

    ghost fits = { elim [
      | Maps maps ↦ λ ms n k h. (h.paired, h.fits)
      | Composed frames ↦ λ ms n k h. (h.reads.before.paired, h.fits)
    ] };
}

impl Growing for Route {
    fn for_steps(alloc: Global, foreign: usize, pending: usize) -> Route {
        if is_short(foreign, pending) {
            Route::Maps(Mapping::for_steps(alloc, foreign, pending))
        } else {
            Route::Composed(Frames::for_steps(alloc, foreign, pending))
        }
    }

    fn push(&mut self, alloc: Global, map: &StepMap) -> Result<(), AllocError> {
        match self {
            Route::Maps(maps) => Growing::push(maps, alloc, map),
            Route::Composed(frames) => Growing::push(frames, alloc, map),
        }
    }

    fn put_front(&mut self, alloc: Global, front: &StepMap) -> Result<(), AllocError> {
        match self {
            Route::Maps(maps) => Growing::put_front(maps, alloc, front),
            Route::Composed(frames) => Growing::put_front(frames, alloc, front),
        }
    }

    fn enclose(
        &mut self,
        alloc: Global,
        front: &StepMap,
        behind: &StepMap,
    ) -> Result<(), AllocError> {
        match self {
            Route::Maps(maps) => Growing::enclose(maps, alloc, front, behind),
            Route::Composed(frames) => Growing::enclose(frames, alloc, front, behind),
        }
    }
}

/// Whether going over each map costs less than composing frames. By measure composing costs as much as 220 maps for each foreign
/// step, and for each pending one as much as 75 where letters are typed, and 250 where steps are scattered: 120 lies between.
fn is_short(foreign: usize, pending: usize) -> bool {
    let each = pending.saturating_mul(pending.saturating_add(foreign));
    let composed = pending
        .saturating_mul(120)
        .saturating_add(foreign.saturating_mul(220));
    each < composed
}
