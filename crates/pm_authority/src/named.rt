//! Steps with their names.
ghost use Rattle.std.specs.Prelude.{◌≡◌, IfOk};

use pm_change::{Change, Name};
use pm_list::Listed;
use std::alloc::{AllocError, Global};

/// A step as the log holds it: a change with its name.
#[derive(Drop, Debug)]
pub struct Named<C> {
    pub name: Name,
    pub change: C,
}

impl<C: Change> Named<C> {
    /// A step equal to this one.
    pub fn copy(&self, alloc: Global) -> Result<Named<C>, AllocError>
        ensures { IfOk result (λ n. n ≡ self.now) }
    {
        Ok(Named {
            name: self.name,
            change: self.change.copy(alloc)?,
        })
    }
}

/// Steps equal to these, in the same order.
pub fn copy_steps<C: Change>(
    alloc: Global,
    steps: &[Named<C>],
) -> Result<Listed<Named<C>>, AllocError>
    ensures { IfOk result (λ l. l ≡ steps.now) }
{
    let mut copies = Listed::from_vec(Vec::with_capacity(alloc, steps.len())?);
    for step in steps {
        copies.push(step.copy(alloc)?)?;
    }
    Ok(copies)
}
