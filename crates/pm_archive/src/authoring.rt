//! Who put the document's tokens in.
ghost use Rattle.std.specs.Prelude.{◌≡◌, ◌≤◌, ◌++◌, false, None, IfOk, OnOk, string_bytes};
ghost use Rattle.serde_json.specs.Written.{comma_if};
ghost use Rattle.pm_archive.specs.Archives.{IsArchive, version_of};
ghost use Rattle.pm_archive.specs.Authoring.{authored_text, run_text, run_items, authors_text, led_authors_text};
ghost use Rattle.pm_archive.specs.Answers.{doc_at, entries_from, asked_authors_text};

use crate::archive::Archive;
use crate::texts::{from_text, version_text};
use crate::writing::{push_item, push_version};
use pm_authors::{Run, authors};
use pm_change::Name;
use pm_talk::ClientIds;
use std::alloc::{AllocError, Global};

impl Archive {
    /// Who put the document's tokens in since the version.
    pub(crate) fn tell_authors(&self, alloc: Global, from: u32) -> Result<String, AllocError>
        requires { IsArchive self.now }
        ensures { IfOk result (λ s. string_bytes s ≡ asked_authors_text self.now from) }
    {
        if from < self.from {
            return from_text(alloc, self.from);
        }
        if u64::from(from) > self.version() {
            return version_text(alloc, self.version());
        }
        self.tell_kept_authors(alloc, from)
    }

    /// The same of a version that is kept.
    fn tell_kept_authors(&self, alloc: Global, from: u32) -> Result<String, AllocError>
        requires good { IsArchive self.now }
        requires kept { self.now.from ≤ from }
        requires behind { from ≤ version_of self.now }
        ensures { IfOk result (λ s. string_bytes s ≡ led_authors_text (version_of self.now) self.now.ids (entries_from self.now from None) (doc_at self.now from)) }
    {
        let doc = self.old_doc(alloc, from)?;
        let entries = self.entries_from(from, None);
        let runs = authors(alloc, entries, doc.size())?;
        authors_text(alloc, &self.ids, runs.as_slice(), self.version())
    }
}

/// The runs of the document at the version.
fn authors_text(
    alloc: Global,
    ids: &ClientIds,
    runs: &[Run],
    version: u64,
) -> Result<String, AllocError>
    ensures { IfOk result (λ s. string_bytes s ≡ authors_text ids.now runs.now version) }
{
    let mut text = String::new(alloc);
    text.push_str("{\"authors\":[")?;
    push_runs(alloc, &mut text, ids, runs)?;
    push_version(&mut text, version)?;
    Ok(text)
}

/// Appends runs to the text, and the end of their list.
fn push_runs(
    alloc: Global,
    text: &mut String,
    ids: &ClientIds,
    runs: &[Run],
) -> Result<(), AllocError>
    ensures { OnOk result (string_bytes text.new ≡ string_bytes text.old ++ run_items false ids.now runs.now) }
{
    let mut later = false;
    for run in runs {
        push_run(alloc, text, ids, later, run)?;
        later = true;
    }
    text.push_str("]")
}

/// Appends a run, the first one of a list or a later one.
fn push_run(
    alloc: Global,
    text: &mut String,
    ids: &ClientIds,
    later: bool,
    run: &Run,
) -> Result<(), AllocError>
    ensures { OnOk result (string_bytes text.new ≡ string_bytes text.old ++ (comma_if later ++ run_text ids.now run.now)) }
{
    let item = authored_text(alloc, ids, run.count, run.author)?;
    push_item(text, later, item.as_str())
}

/// So many tokens of an author.
fn authored_text(
    alloc: Global,
    ids: &ClientIds,
    size: u64,
    author: Option<Name>,
) -> Result<String, AllocError>
    ensures { IfOk result (λ s. string_bytes s ≡ authored_text ids.now size author) }
{
    match author {
        Some(name) => {
            let id = ids.id(name.client as usize);
            let version = name.serial;
            format!(in alloc; "{{\"clientID\":{id},\"size\":{size},\"version\":{version}}}")
        }
        None => format!(in alloc; "{{\"size\":{size}}}"),
    }
}
