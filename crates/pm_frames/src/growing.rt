//! What tells positions over a mapping that grows at both ends.
ghost use Rattle.std.specs.Prelude.{ℕ, ◌<◌, ◌^◌, [], OnOk};
ghost use Rattle.pm_map.specs.Through.{SameShape};
ghost use Rattle.pm_frames.specs.Courses.{AreSmall};
ghost use Rattle.pm_frames.specs.Growing.{HasPushed, HasFronted, HasEnclosed};

use crate::frames::Frames;
use pm_map::{Mapping, Positions, StepMap};
use std::alloc::{AllocError, Global};

/// A value that tells where positions go over a mapping, and to which maps are added. Each call does to the mapping for which
/// the value stands what the call of its name does to a `Mapping`.
pub trait Growing: Positions {
    /// The mapping without maps, which so many foreign maps are to follow, and then so many pending ones to stand around. The
    /// numbers may decide how the mapping is kept, and change nothing of what is told. It takes no memory until a map comes.
    fn for_steps(alloc: Global, foreign: usize, pending: usize) -> Self
        ensures { (n : ℕ) → n < 2 ^ 32 → Self.leads result [] n n };

    /// A map more after the others, in no pair.
    fn push(&mut self, alloc: Global, map: &StepMap) -> Result<(), AllocError>
        requires { AreSmall map.now }
        ensures { OnOk result (HasPushed Self.leads self.old map.now self.new) };

    /// A map more before the others, in no pair.
    fn put_front(&mut self, alloc: Global, front: &StepMap) -> Result<(), AllocError>
        requires { AreSmall front.now }
        ensures { OnOk result (HasFronted Self.leads self.old front.now self.new) };

    /// A map more before the others, and its mirror after them.
    fn enclose(
        &mut self,
        alloc: Global,
        front: &StepMap,
        behind: &StepMap,
    ) -> Result<(), AllocError>
        requires front { AreSmall front.now }
        requires behind { AreSmall behind.now }
        requires shape { SameShape front.now behind.now }
        ensures { OnOk result (HasEnclosed Self.leads self.old front.now behind.now self.new) };
}

impl Growing for Frames {
    fn for_steps(alloc: Global, _foreign: usize, _pending: usize) -> Frames {
        Frames::new(alloc)
    }

    fn push(&mut self, alloc: Global, map: &StepMap) -> Result<(), AllocError> {
        Frames::push(self, alloc, map)
    }

    fn put_front(&mut self, alloc: Global, front: &StepMap) -> Result<(), AllocError> {
        Frames::put_front(self, alloc, front)
    }

    fn enclose(
        &mut self,
        alloc: Global,
        front: &StepMap,
        behind: &StepMap,
    ) -> Result<(), AllocError> {
        Frames::enclose(self, alloc, front, behind)
    }
}

impl Growing for Mapping {
    fn for_steps(alloc: Global, _foreign: usize, _pending: usize) -> Mapping {
        Mapping::new(alloc)
    }

    fn push(&mut self, _alloc: Global, map: &StepMap) -> Result<(), AllocError> {
        Mapping::push(self, map.copy())?;
        self.paired();
        Ok(())
    }

    fn put_front(&mut self, _alloc: Global, front: &StepMap) -> Result<(), AllocError> {
        Mapping::put_front(self, front.copy())?;
        self.paired();
        Ok(())
    }

    fn enclose(
        &mut self,
        _alloc: Global,
        front: &StepMap,
        behind: &StepMap,
    ) -> Result<(), AllocError> {
        Mapping::enclose(self, front.copy(), behind.copy())?;
        self.paired();
        Ok(())
    }
}
