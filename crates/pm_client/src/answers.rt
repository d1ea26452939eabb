//! Taking answers.
ghost use Rattle.std.specs.Prelude.{◌≡◌, ◌↔◌, ◌+◌, ◌-◌, ◌<◌, ◌≤◌, ◌^◌, List, length, take, Some, Ok, IfOk, IfSome, OnOk, OnErr};
ghost use Rattle.pm_authority.specs.Runs.{AllApply};
ghost use Rattle.pm_authority.specs.declared.named.Named.{Named};
ghost use Rattle.pm_authority.specs.declared.message.Answer.TheVariants.{Accepted, Entries};
ghost use Rattle.pm_client.specs.Clients.{answer_at, taken, taken_at, rest_taken, confirmed_first, own_run, carried_history};
ghost use Rattle.pm_client.specs.Causes.{IsTaken};
ghost use Rattle.pm_client.specs.TokenNames.{KeepsTokens};
ghost use Rattle.pm_client.specs.Kins.{Kin, Stands};
ghost use Rattle.pm_client.specs.Leads.{Leads};
ghost use Rattle.pm_client.specs.Plans.{carried_out, MayCarryOut, Meets, MayConfirm, Fits, Reaches};

use crate::client::Client;
use crate::cursors::move_all;
use crate::making::step_maps;
use crate::naming::own_steps;
use crate::plan::Plan;
use crate::rebasing::{Rebaser, rebase_over};
use crate::serials::merge;
use crate::taken::Taken;
use pm_authority::{Answer, Named, apply_all};
use pm_change::{Change, Failed};
use pm_history::{Branches, Item, tie};
use pm_list::Listed;
use pm_map::StepMap;
use std::alloc::{AllocError, Global};

impl<C: Change> Client<C> {
    /// Takes the answer of this number, which was kept. `Refused` comes exactly for `WrongVersion` and `StepRefused`,
    /// `Stale` exactly where an `Accepted` or `Entries` holds nothing past the version, and `Confirmed` exactly where what it
    /// holds past the version is own steps alone. Else it is `Rebased`: the leading own steps are confirmed, others' steps
    /// are applied to the base, and each later pending step is carried over the maps back of those before it, others' maps
    /// and the maps of those kept so far. It is kept where something of it is left that applies; else its serial is among
    /// `dropped` from now on. Each cursor goes through that whole mapping by its side. Only `Confirmed` and `Rebased` change
    /// the client, and running out of memory does not.
    ///
    /// Under the rules that are lent the client must stand to a log. Each call keeps this.
    /// ProseMirror: `receiveTransaction`.
    pub fn take(&mut self, alloc: Global, rules: &C::Rules, i: u64) -> Result<Taken, AllocError>
        requires kept { (0 < i) × (i ≤ length self.old.answers) }
        requires stands { Stands C.means rules.now self.old }
        ensures takes { IfOk result (λ t. (t, self.new) ≡ taken_at C.means rules.now self.old i) }
        ensures err { OnErr result (self.new ≡ self.old) }
        // To what log the client stood, it stands.
        ensures kin { (first : C.Doc) (log : List (Named C)) → Kin C.means rules.now first log self.old
            → Kin C.means rules.now first log self.new }
        // A cursor with side `After` that stood before a token stands before it, where that is still there.
        ensures tokens { OnOk result ((first : C.Doc) (log : List (Named C)) → Kin C.means rules.now first log self.old
            → KeepsTokens C.means log self.old self.new (C.means.size self.old.base)) }
        // Of the answer of this number, each thing is told exactly where its cause holds.
        ensures causes { (answer : _) (t : _) → answer_at self.old i ≡ Some answer
            → IfOk result (λ told. (told ≡ t) ↔ IsTaken C.means rules.now self.old answer t) }
    {
        self.take_given(alloc, rules, i, None)
    }

    /// Takes the answer of this number, as `take` does, where the document is in hand that the answer's entries lead to. Then
    /// no step of theirs is applied a second time. Other answers lead to no document, and `end` is dropped.
    ///
    /// Where the answer is entries, the client must stand to a log that they end, and that gives the document.
    pub fn take_to(
        &mut self,
        alloc: Global,
        rules: &C::Rules,
        i: u64,
        end: C::Doc,
    ) -> Result<Taken, AllocError>
        requires kept { (0 < i) × (i ≤ length self.old.answers) }
        requires stands { Stands C.means rules.now self.old }
        requires leads { Leads C.means rules.now self.old i end }
        ensures takes { IfOk result (λ t. (t, self.new) ≡ taken_at C.means rules.now self.old i) }
        ensures err { OnErr result (self.new ≡ self.old) }
        // To what log the client stood, it stands.
        ensures kin { (first : C.Doc) (log : List (Named C)) → Kin C.means rules.now first log self.old
            → Kin C.means rules.now first log self.new }
        // A cursor with side `After` that stood before a token stands before it, where that is still there.
        ensures tokens { OnOk result ((first : C.Doc) (log : List (Named C)) → Kin C.means rules.now first log self.old
            → KeepsTokens C.means log self.old self.new (C.means.size self.old.base)) }
        // Of the answer of this number, each thing is told exactly where its cause holds.
        ensures causes { (answer : _) (t : _) → answer_at self.old i ≡ Some answer
            → IfOk result (λ told. (told ≡ t) ↔ IsTaken C.means rules.now self.old answer t) }
    {
        self.take_given(alloc, rules, i, Some(end))
    }

    /// Takes the answer of this number, to this document where one is in hand.
    fn take_given(
        &mut self,
        alloc: Global,
        rules: &C::Rules,
        i: u64,
        end: Option<C::Doc>,
    ) -> Result<Taken, AllocError>
        requires kept { (0 < i) × (i ≤ length self.old.answers) }
        requires stands { Stands C.means rules.now self.old }
        requires leads { IfSome end (Leads C.means rules.now self.old i) }
        ensures takes { IfOk result (λ t. (t, self.new) ≡ taken_at C.means rules.now self.old i) }
        ensures err { OnErr result (self.new ≡ self.old) }
    {
        let plan = self.plan(alloc, rules, i, end)?;
        self.carry_out(alloc, plan)
    }

    /// What taking the answer of this number is to do.
    fn plan(
        &self,
        alloc: Global,
        rules: &C::Rules,
        i: u64,
        end: Option<C::Doc>,
    ) -> Result<Plan<C>, AllocError>
        requires kept { (0 < i) × (i ≤ length self.now.answers) }
        requires stands { Stands C.means rules.now self.now }
        requires leads { IfSome end (Leads C.means rules.now self.now i) }
        ensures plan { IfOk result (λ p. carried_out self.now p ≡ taken_at C.means rules.now self.now i) }
        ensures may { IfOk result (MayCarryOut self.now) }
    {
        let answer = &self.answers.as_slice()[i as usize - 1];
        self.plan_for(alloc, rules, answer, end)
    }

    /// What taking this answer is to do. What its entries hold past the version leads to `end`, where that is in hand.
    fn plan_for(
        &self,
        alloc: Global,
        rules: &C::Rules,
        answer: &Answer<C>,
        end: Option<C::Doc>,
    ) -> Result<Plan<C>, AllocError>
        requires meets { Meets C.means rules.now self.now answer.now }
        requires reaches { IfSome end (Reaches C.means rules.now self.now answer.now) }
        ensures plan { IfOk result (λ p. carried_out self.now p ≡ taken C.means rules.now self.now answer.now) }
        ensures may { IfOk result (MayCarryOut self.now) }
    {
        match answer {
            Answer::Accepted { from, count } => self.plan_accepted(alloc, rules, *from, *count),
            Answer::Entries { since, entries } => {
                self.plan_entries(alloc, rules, *since, entries.as_slice(), end)
            }
            Answer::WrongVersion { length: _ } => Ok(Plan::TellRefused),
            Answer::StepRefused {
                index: _,
                reason: _,
            } => Ok(Plan::TellRefused),
        }
    }

    /// What taking an `Accepted` is to do: past the version it holds the first pending steps, or nothing.
    fn plan_accepted(
        &self,
        alloc: Global,
        rules: &C::Rules,
        from: u64,
        count: u64,
    ) -> Result<Plan<C>, AllocError>
        requires { Meets C.means rules.now self.now (Accepted from count) }
        ensures plan { IfOk result (λ p. carried_out self.now p ≡ taken C.means rules.now self.now (Accepted from count)) }
        ensures may { IfOk result (MayCarryOut self.now) }
    {
        if count <= self.version - from {
            return Ok(Plan::PassOver);
        }
        self.plan_confirm(alloc, rules, count as usize)
    }

    /// What taking entries is to do. Those before the version are passed over.
    fn plan_entries(
        &self,
        alloc: Global,
        rules: &C::Rules,
        since: u64,
        entries: &[Named<C>],
        end: Option<C::Doc>,
    ) -> Result<Plan<C>, AllocError>
        requires meets { Meets C.means rules.now self.now (Entries since entries.now) }
        requires reaches { IfSome end (Reaches C.means rules.now self.now (Entries since entries.now)) }
        ensures plan { IfOk result (λ p. carried_out self.now p ≡ taken C.means rules.now self.now (Entries since entries.now)) }
        ensures may { IfOk result (MayCarryOut self.now) }
    {
        let skipped = self.version - since;
        if entries.len() as u64 <= skipped {
            return Ok(Plan::PassOver);
        }
        self.plan_rest(alloc, rules, &entries[skipped as usize..], end)
    }

    /// What taking the entries past the version is to do.
    fn plan_rest(
        &self,
        alloc: Global,
        rules: &C::Rules,
        rest: &[Named<C>],
        end: Option<C::Doc>,
    ) -> Result<Plan<C>, AllocError>
        requires fits { Fits C.means rules.now self.now rest.now }
        requires leads { IfSome end (AllApply C.means rules.now self.now.base rest.now) }
        ensures plan { IfOk result (λ p. carried_out self.now p ≡ rest_taken C.means rules.now self.now rest.now (own_run self.now.name rest.now)) }
        ensures may { IfOk result (MayCarryOut self.now) }
    {
        let own = own_steps(self.name, rest);
        if own == rest.len() {
            return self.plan_confirm(alloc, rules, own);
        }
        let base = reach(alloc, rules, &self.base, rest, end)?;
        let later = &self.pending.as_slice()[own..];
        let rebasing = rebase_over(alloc, rules, &base, &rest[own..], later)?;
        Ok(Plan::Rebase {
            own: own as u64,
            foreign: step_maps(alloc, &rest[own..])?,
            base,
            dropped: merge(alloc, self.dropped.as_slice(), rebasing.dropped.as_slice())?,
            cursors: move_all(alloc, self.cursors.as_slice(), &rebasing.route)?,
            rebasing,
        })
    }

    /// The plan that confirms the first pending steps.
    fn plan_confirm(
        &self,
        alloc: Global,
        rules: &C::Rules,
        own: usize,
    ) -> Result<Plan<C>, AllocError>
        requires { MayConfirm C.means rules.now self.now own }
        ensures plan { IfOk result (λ p. carried_out self.now p ≡ confirmed_first C.means rules.now self.now own) }
        ensures may { IfOk result (MayCarryOut self.now) }
    {
        Ok(Plan::Confirm {
            own: own as u64,
            base: self.base_behind(alloc, rules, own)?,
        })
    }

    /// The document after the first pending steps. After all of them it is the client's own.
    fn base_behind(&self, alloc: Global, rules: &C::Rules, own: usize) -> Result<C::Doc, AllocError>
        requires { MayConfirm C.means rules.now self.now own }
        ensures { IfOk result (AllApply C.means rules.now self.now.base (take own self.now.pending)) }
    {
        if own == self.pending.len() {
            return C::copy_doc(alloc, &self.doc);
        }
        advance(alloc, rules, &self.base, &self.pending.as_slice()[..own])
    }

    /// Carries a plan out, and tells what it did. Out of memory, the client is as it was.
    fn carry_out(&mut self, alloc: Global, plan: Plan<C>) -> Result<Taken, AllocError>
        requires { MayCarryOut self.old plan }
        ensures does { IfOk result (λ t. (t, self.new) ≡ carried_out self.old plan) }
        ensures err { OnErr result (self.new ≡ self.old) }
    {
        match plan {
            Plan::PassOver => Ok(Taken::Stale),
            Plan::TellRefused => Ok(Taken::Refused),
            Plan::Confirm { own, base } => {
                self.version += own;
                self.base = base;
                self.pending.drop_front(own as usize);
                Ok(Taken::Confirmed { own })
            }
            Plan::Rebase {
                own,
                foreign,
                base,
                rebasing,
                dropped,
                cursors,
            } => {
                let Rebaser {
                    doc,
                    route: _,
                    kept,
                    items,
                    dropped: lost,
                } = rebasing;
                let others = foreign.len() as u64;
                let gone = self.pending.len() - own as usize;
                carry_history(alloc, &mut self.history, gone, foreign, items)?;
                self.version += own + others;
                self.base = base;
                self.doc = doc;
                self.pending = kept;
                self.dropped = dropped;
                self.cursors = cursors;
                Ok(Taken::Rebased {
                    own,
                    foreign: others,
                    dropped: lost.len() as u64,
                })
            }
        }
    }
}

/// Puts foreign steps with these maps, and the steps kept, in place of the last items of a history, or of all where fewer are
/// left. Each step kept undoes what it did before. Out of memory, the history is as it was.
fn carry_history<C: Change>(
    alloc: Global,
    history: &mut Branches<C>,
    gone: usize,
    foreign: Vec<StepMap>,
    kept: Listed<Item<C>>,
) -> Result<(), AllocError>
    ensures carried { OnOk result (history.new ≡ carried_history history.old gone foreign.items kept) }
    ensures err { OnErr result (history.new ≡ history.old) }
{
    let at = history.items().len().saturating_sub(gone);
    let tied = tie(kept.into_vec(), &history.items()[at..]);
    history.rebased(alloc, gone, foreign, tied)
}

/// The document after steps that are known to apply: this one, where it is in hand.
fn reach<C: Change>(
    alloc: Global,
    rules: &C::Rules,
    doc: &C::Doc,
    steps: &[Named<C>],
    end: Option<C::Doc>,
) -> Result<C::Doc, AllocError>
    requires good { C.means.is_good rules.now doc.now }
    requires applies { ((end : C.Doc) × AllApply C.means rules.now doc.now steps.now end) }
    requires leads { IfSome end (AllApply C.means rules.now doc.now steps.now) }
    ensures { IfOk result (AllApply C.means rules.now doc.now steps.now) }
{
    match end {
        Some(end) => Ok(end),
        None => advance(alloc, rules, doc, steps),
    }
}

/// The document after steps that are known to apply.
fn advance<C: Change>(
    alloc: Global,
    rules: &C::Rules,
    doc: &C::Doc,
    steps: &[Named<C>],
) -> Result<C::Doc, AllocError>
    requires good { C.means.is_good rules.now doc.now }
    requires applies { ((end : C.Doc) × AllApply C.means rules.now doc.now steps.now end) }
    ensures { IfOk result (AllApply C.means rules.now doc.now steps.now) }
{
    match apply_all(alloc, rules, doc, steps) {
        Ok(end) => Ok(end),
        Err(Failed::NoMemory) => Err(AllocError),
        Err(Failed::Reason(_)) => unreachable!(),
    }
}
