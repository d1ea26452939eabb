//! Taking an authority's answer.
ghost use Rattle.std.specs.Prelude.{◌≡◌, ◌≤◌, ◌<◌, ◌+◌, ◌-◌, ◌^◌, length, drop, [], IfOk, OnOk, OnErr, string_bytes};
ghost use Rattle.pm_apply.specs.Changes.{meaning};
ghost use Rattle.pm_authority.specs.Runs.{changes_of};
ghost use Rattle.pm_change.specs.Changes.{fold};
ghost use Rattle.pm_editor.specs.Editors.{IsEditor, given_answer, accepted_answer, entries_answer, past_answer, middle_answer, front};

use crate::editor::Editor;
use pm_apply::DocChange;
use pm_asked::Given;
use pm_remote::{ReceiveError, confirm, receive};
use pm_talk::refused_text;
use pm_told::{
    OTHER, brought_text, confirmed_text, gap_text, kept_text, look_ahead, own_text, push_copies,
    stale_text,
};
use std::alloc::{AllocError, Global};

impl Editor {
    /// Takes what an authority answered. The text that tells what came of it is there before anything changes, so that running
    /// out of memory changes nothing.
    pub(crate) fn take(&mut self, alloc: Global, given: &Given) -> Result<String, AllocError>
        requires { IsEditor self.old }
        ensures text { IfOk result (λ s. string_bytes s ≡ (given_answer self.old given.now).0) }
        ensures after { OnOk result (self.new ≡ (given_answer self.old given.now).1) }
        ensures err { OnErr result (self.new ≡ self.old) }
        ensures good { IsEditor self.new }
    {
        match given {
            Given::Accepted { count, from } => {
                self.accept(alloc, u64::from(*count), u64::from(*from))
            }
            Given::Entries {
                own,
                steps,
                version,
            } => self.enter(alloc, own.as_slice(), steps.as_slice(), u64::from(*version)),
            Given::Kept => kept_text(alloc, self.client.pending().len()),
        }
    }

    /// So many steps stand in the log from this place on.
    fn accept(&mut self, alloc: Global, count: u64, from: u64) -> Result<String, AllocError>
        requires small { count < 2 ^ 32 }
        requires few { from < 2 ^ 32 }
        requires good { IsEditor self.old }
        ensures text { IfOk result (λ s. string_bytes s ≡ (accepted_answer self.old count from).0) }
        ensures after { OnOk result (self.new ≡ (accepted_answer self.old count from).1) }
        ensures err { OnErr result (self.new ≡ self.old) }
        ensures good { IsEditor self.new }
    {
        let version = self.client.version();
        if from + count <= version {
            return stale_text(alloc, version);
        }
        if from != version || count > self.client.pending().len() as u64 {
            return gap_text(alloc, version);
        }
        let text = confirmed_text(alloc, count, from + count)?;
        confirm(alloc, &self.schema, &mut self.client, count)?;
        Ok(text)
    }

    /// These entries of the log end at this place.
    fn enter(
        &mut self,
        alloc: Global,
        owners: &[bool],
        steps: &[DocChange],
        end: u64,
    ) -> Result<String, AllocError>
        requires small { end < 2 ^ 32 }
        requires good { IsEditor self.old }
        ensures text { IfOk result (λ s. string_bytes s ≡ (entries_answer self.old owners.now steps.now end).0) }
        ensures after { OnOk result (self.new ≡ (entries_answer self.old owners.now steps.now end).1) }
        ensures err { OnErr result (self.new ≡ self.old) }
        ensures good { IsEditor self.new }
    {
        let version = self.client.version();
        if end <= version {
            return stale_text(alloc, version);
        }
        let since = begins(end, steps.len());
        if since > version {
            return gap_text(alloc, version);
        }
        let skipped = (version - since) as usize;
        let unseen = owners_from(owners, skipped);
        let own = front(unseen, self.client.pending().len());
        let place = skipped + own;
        let count = steps.len();
        if place < count {
            self.enter_others(alloc, skipped, own, &steps[place..], end)
        } else {
            self.enter_own(alloc, own, end)
        }
    }

    /// The entries past the version are the client's first pending steps, so many.
    fn enter_own(&mut self, alloc: Global, own: usize, end: u64) -> Result<String, AllocError>
        requires some { 0 < own }
        requires within { own ≤ length self.old.client.pending }
        requires good { IsEditor self.old }
        ensures text { IfOk result (λ s. string_bytes s ≡ (past_answer self.old 0 own [] end).0) }
        ensures after { OnOk result (self.new ≡ (past_answer self.old 0 own [] end).1) }
        ensures err { OnErr result (self.new ≡ self.old) }
        ensures good { IsEditor self.new }
    {
        let text = own_text(alloc, &self.schema, own, self.client.cursors(), end)?;
        confirm(alloc, &self.schema, &mut self.client, own as u64)?;
        Ok(text)
    }

    /// The entries past the version are the client's first pending steps, so many, and these of others.
    fn enter_others(
        &mut self,
        alloc: Global,
        skipped: usize,
        own: usize,
        foreign: &[DocChange],
        end: u64,
    ) -> Result<String, AllocError>
        requires some { 0 < length foreign.now }
        requires within { own ≤ length self.old.client.pending }
        requires skipped { skipped < 2 ^ 32 }
        requires good { IsEditor self.old }
        ensures text { IfOk result (λ s. string_bytes s ≡ (past_answer self.old skipped own foreign.now end).0) }
        ensures after { OnOk result (self.new ≡ (past_answer self.old skipped own foreign.now end).1) }
        ensures err { OnErr result (self.new ≡ self.old) }
        ensures good { IsEditor self.new }
    {
        let later = &self.client.pending()[own..];
        let seen = match look_ahead(alloc, &self.schema, &self.client, own, foreign) {
            Ok(seen) => seen,
            Err(ReceiveError::Refused { index, reason }) => {
                return refused_text(alloc, (skipped + own) as u64 + index, &reason);
            }
            Err(ReceiveError::NoMemory) => return Err(AllocError),
        };
        let text = brought_text(alloc, &self.schema, later, own, foreign, &seen, end)?;
        let mut copies = Vec::new(alloc);
        push_copies(alloc, &mut copies, foreign)?;
        match receive(
            alloc,
            &self.schema,
            &mut self.client,
            OTHER,
            own as u64,
            copies,
        ) {
            Ok(_) => Ok(text),
            // The steps apply, as was found before.
            Err(
                ReceiveError::Refused {
                    index: _,
                    reason: _,
                },
            ) => unreachable!(),
            Err(ReceiveError::NoMemory) => Err(AllocError),
        }
    }
}

/// Where in the log so many entries begin that end here. A version says no less than their number.
fn begins(end: u64, count: usize) -> u64
    ensures { result ≡ end - count }
{
    end.saturating_sub(count as u64)
}

/// Those from this place on; none past the end.
fn owners_from(owners: &[bool], place: usize) -> &[bool]
    ensures { result.now ≡ drop place owners.now }
{
    let count = owners.len();
    if place < count { &owners[place..] } else { &[] }
}

/// How many of these are true at the front, at most so many.
fn front(owners: &[bool], most: usize) -> usize
    ensures front { result ≡ front owners.now most }
    ensures within { result ≤ length owners.now }
    ensures most { result ≤ most }
{
    let mut count = 0;
    for own in owners {
        if !*own || count == most {
            return count;
        }
        count += 1;
    }
    count
}
