//! Old steps that are let go.
ghost use Rattle.std.specs.Prelude.{◌≡◌, ◌≤◌, length, IfOk, OnOk, OnErr, string_bytes, drop};
ghost use Rattle.pm_archive.specs.Archives.{IsArchive};
ghost use Rattle.pm_archive.specs.Answers.{forgotten};

use crate::archive::Archive;
use crate::texts::{from_text, version_text};
use pm_apply::DocChange;
use pm_authority::Named;
use pm_list::Listed;
use std::alloc::{AllocError, Global};
use std::mem;

impl Archive {
    /// Lets go what lies before the version. All that takes memory is made before anything changes.
    pub(crate) fn forget(&mut self, alloc: Global, version: u32) -> Result<String, AllocError>
        requires { IsArchive self.old }
        ensures text { IfOk result (λ s. string_bytes s ≡ (forgotten self.old version).0) }
        ensures after { OnOk result (self.new ≡ (forgotten self.old version).1) }
        ensures err { OnErr result (self.new ≡ self.old) }
        ensures kept { IsArchive self.new }
    {
        if version < self.from {
            return from_text(alloc, self.from);
        }
        if u64::from(version) > self.version() {
            return version_text(alloc, self.version());
        }
        let text = from_text(alloc, version)?;
        let first = self.old_doc(alloc, version)?;
        let_go(alloc, &mut self.log, (version - self.from) as usize);
        self.first = first;
        self.from = version;
        Ok(text)
    }
}

/// Lets the first steps go, and the room that they took.
fn let_go(alloc: Global, log: &mut Listed<Named<DocChange>>, count: usize)
    requires { count ≤ length log.old }
    ensures { log.new ≡ drop count log.old }
{
    log.drop_front(count);
    let mut rest = mem::replace(log, Listed::new(alloc)).into_vec();
    rest.shrink_to_fit();
    *log = Listed::from_vec(rest);
}
