//! What a step does with a mark.
ghost use Rattle.std.specs.Prelude.{◌≡◌, IfOk};
ghost use Rattle.pm_step.specs.Steps.{opposite};

use pm_attrs::Attrs;
use pm_marks::Mark;
use std::alloc::{AllocError, Global};

/// A mark that is added, or taken away.
#[derive(Drop)]
pub enum Marking {
    Add(Mark<Attrs>),
    Remove(Mark<Attrs>),
}

impl Marking {
    /// A marking equal to this one.
    pub fn copy(&self, alloc: Global) -> Result<Marking, AllocError>
        ensures { IfOk result (λ m. m ≡ self.now) }
    {
        match self {
            Marking::Add(mark) => Ok(Marking::Add(mark.copy(alloc)?)),
            Marking::Remove(mark) => Ok(Marking::Remove(mark.copy(alloc)?)),
        }
    }

    /// The marking that does the other thing with the same mark.
    pub fn opposite(&self, alloc: Global) -> Result<Marking, AllocError>
        ensures { IfOk result (λ m. m ≡ opposite self.now) }
    {
        match self {
            Marking::Add(mark) => Ok(Marking::Remove(mark.copy(alloc)?)),
            Marking::Remove(mark) => Ok(Marking::Add(mark.copy(alloc)?)),
        }
    }
}
