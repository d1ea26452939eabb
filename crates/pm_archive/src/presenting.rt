//! Submissions.
ghost use Rattle.std.specs.Prelude.{◌≡◌, ◌+◌, ◌<◌, ◌≤◌, ◌^◌, length, false, None, IfOk, OnOk, OnErr, string_bytes, take, if◌then◌else◌};
ghost use Rattle.std.specs.List.{list_any};
ghost use Rattle.std.specs.Str.{bytes_eq};
ghost use Rattle.pm_schema.specs.Names.{place_of};
ghost use Rattle.pm_talk.specs.Live.{named, some_steps};
ghost use Rattle.pm_archive.specs.declared.presenting.TheConstants.{MAX_IDS};
ghost use Rattle.pm_archive.specs.Archives.{IsArchive, with_authority};
ghost use Rattle.pm_archive.specs.Answers.{presented_at, submitted};
ghost use Rattle.pm_archive.specs.Presenting.{Tells};

use crate::archive::Archive;
use crate::texts::{accepted_text, version_text};
use pm_apply::DocChange;
use pm_authority::{Name, Named, Refusal, apply_all};
use pm_change::{Change, Failed};
use pm_head::Code;
use pm_list::Listed;
use pm_talk::{ClientIds, fault_text, refused_text};
use std::alloc::{AllocError, Global};

/// The greatest number of IDs.
pub(crate) const MAX_IDS: usize = 4_294_967_295;

/// What a submission is told.
#[derive(Drop)]
pub(crate) struct Told {
    /// The answer's line.
    pub text: String,
    /// Whether a step was accepted.
    pub accepted: bool,
}

impl Archive {
    /// The answer to a submission.
    pub(crate) fn submit(
        &mut self,
        alloc: Global,
        version: u32,
        id: &str,
        steps: &[DocChange],
    ) -> Result<String, AllocError>
        requires { IsArchive self.old }
        ensures text { IfOk result (λ s. string_bytes s ≡ (submitted self.old version id.now steps.now).0) }
        ensures after { OnOk result (self.new ≡ (submitted self.old version id.now steps.now).1) }
        ensures err { OnErr result (self.new ≡ self.old) }
        ensures kept { IsArchive self.new }
    {
        match self.ids.place(id) {
            Some(number) => {
                let told = self.present(alloc, number as u32, version, steps)?;
                Ok(told.text)
            }
            None => if self.ids.len() < MAX_IDS {
                self.submit_first(alloc, version, id, steps)
            } else {
                fault_text(alloc, Code::BadClients)
            },
        }
    }

    /// The answer to a submission of a client whose ID is not there yet. It is taken up where a step is accepted.
    fn submit_first(
        &mut self,
        alloc: Global,
        version: u32,
        id: &str,
        steps: &[DocChange],
    ) -> Result<String, AllocError>
        requires kept { IsArchive self.old }
        requires absent { place_of id.now self.old.ids ≡ None }
        requires new { list_any (bytes_eq id.now) self.old.ids ≡ false }
        requires room { length self.old.ids < MAX_IDS }
        ensures text { IfOk result (λ s. string_bytes s ≡ (submitted self.old version id.now steps.now).0) }
        ensures after { OnOk result (self.new ≡ (submitted self.old version id.now steps.now).1) }
        ensures err { OnErr result (self.new ≡ self.old) }
        ensures kept { IsArchive self.new }
    {
        let number = self.ids.len();
        self.ids.add(alloc, id)?;
        match self.present(alloc, number as u32, version, steps) {
            Ok(Told { text, accepted }) => {
                keep_last(&mut self.ids, number, accepted);
                Ok(text)
            }
            Err(AllocError) => {
                self.ids.truncate(number);
                Err(AllocError)
            }
        }
    }

    /// Presents steps of the client with this number. All that takes memory is made before anything changes.
    fn present(
        &mut self,
        alloc: Global,
        client: u32,
        version: u32,
        steps: &[DocChange],
    ) -> Result<Told, AllocError>
        requires { IsArchive self.old }
        ensures told { IfOk result (λ t. Tells t self.old.from (presented_at self.old version (named client (version + 1) steps.now)).0) }
        ensures after { OnOk result (self.new ≡ with_authority self.old (presented_at self.old version (named client (version + 1) steps.now)).1 self.old.ids) }
        ensures err { OnErr result (self.new ≡ self.old) }
        ensures kept { IsArchive self.new }
    {
        let own = self.version();
        if u64::from(version) != own {
            return Ok(Told {
                text: version_text(alloc, own)?,
                accepted: false,
            });
        }
        let all = named(alloc, client, u64::from(version) + 1, steps)?;
        match apply_all(alloc, self.schema.get(), &self.doc, all.as_slice()) {
            Ok(doc) => {
                let text = accepted_text(alloc, own, all.len() as u64)?;
                let accepted = some_steps(all.len() as u64);
                self.log.append(all)?;
                self.doc = doc;
                Ok(Told { text, accepted })
            }
            Err(Failed::Reason(Refusal { index, reason })) => Ok(Told {
                text: refused_text(alloc, index, &reason)?,
                accepted: false,
            }),
            Err(Failed::NoMemory) => Err(AllocError),
        }
    }
}

/// Whether that is any step.
fn some_steps(count: u64) -> bool
    ensures { result ≡ some_steps count }
{
    count > 0
}

/// Lets all IDs but the first `count` go, unless the last is kept.
fn keep_last(ids: &mut ClientIds, count: usize, kept: bool)
    ensures { ids.new ≡ (if kept then ids.old else take count ids.old) }
{
    if !kept {
        ids.truncate(count);
    }
}

/// The steps with their names: the client's number, and serials from `first` on.
fn named(
    alloc: Global,
    client: u32,
    first: u64,
    steps: &[DocChange],
) -> Result<Listed<Named<DocChange>>, AllocError>
    requires { first ≤ 2 ^ 32 }
    ensures { IfOk result (λ l. l ≡ named client first steps.now) }
{
    let mut all = Listed::new(alloc);
    for (i, step) in steps.iter().enumerate() {
        all.push(Named {
            name: Name {
                client,
                serial: first + i as u64,
            },
            change: step.copy(alloc)?,
        })?;
    }
    Ok(all)
}
