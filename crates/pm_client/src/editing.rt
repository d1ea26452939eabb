//! Making steps.
ghost use Rattle.std.specs.Prelude.{◌≡◌, ◌<◌, List, length, Some, Ok, IfOk, IfErr, IfSome, OnOk, OnErr};
ghost use Rattle.pm_change.specs.Changes.{fold};
ghost use Rattle.pm_authority.specs.declared.named.Named.{Named};
ghost use Rattle.pm_client.specs.Clients.{edited, IsRefusal};
ghost use Rattle.pm_client.specs.Cursors.{AreWithin};
ghost use Rattle.pm_client.specs.Kins.{Kin};
ghost use Rattle.pm_client.specs.TokenNames.{KeepsTokens};

use crate::client::Client;
use crate::cursors::move_all;
use crate::failing::EditError;
use crate::making::{Made, make_to};
use crate::naming::name_steps;
use crate::rebasing::maps_over;
use pm_authority::Refusal;
use pm_change::{Change, Failed};
use pm_history::MadeBy;
use std::alloc::{AllocError, Global};

impl<C: Change> Client<C> {
    /// Makes these steps, one after another, on the client's document, and tells their number. They are pending under the
    /// next serials, and each cursor goes through their maps by its side. They join the last event to undo where that is open
    /// and has this event number; else they are a new one. Nothing can be redone then. `Refused` comes exactly where one of
    /// them does not apply, and names the first. Then, and out of memory, the client is as it was. There is no serial
    /// past 2^64 - 1: asked for one, the client answers `NoMemory`.
    ///
    /// There must be at least one step. The client's document must be good under these rules, and its cursors within it, as
    /// they are where it stands to a log.
    pub fn edit(
        &mut self,
        alloc: Global,
        rules: &C::Rules,
        steps: Vec<C>,
        event: Option<u32>,
    ) -> Result<u64, EditError<C::Reason>>
        requires some { 0 < length steps.items }
        requires good { C.means.is_good rules.now self.old.doc }
        requires cursors { AreWithin (C.means.size self.old.doc) self.old.cursors }
        ensures count { IfOk result (λ n. n ≡ length steps.items) }
        ensures made { IfOk result (λ n. edited C.means rules.now self.old steps.items event ≡ Ok self.new) }
        ensures refused { IfErr result (IsRefusal C.means rules.now (edited C.means rules.now self.old steps.items event)) }
        ensures err { OnErr result (self.new ≡ self.old) }
        // What this asks of the client holds after it too.
        ensures stays_good { C.means.is_good rules.now self.new.doc }
        ensures stay_within { AreWithin (C.means.size self.new.doc) self.new.cursors }
        // To what log the client stood, it stands.
        ensures kin { (first : C.Doc) (log : List (Named C)) → Kin C.means rules.now first log self.old
            → Kin C.means rules.now first log self.new }
        // A cursor with side `After` that stood before a token stands before it, where that is still there.
        ensures tokens { OnOk result ((first : C.Doc) (log : List (Named C)) → Kin C.means rules.now first log self.old
            → KeepsTokens C.means log self.old self.new (C.means.size self.old.base)) }
    {
        self.edit_given(alloc, rules, steps, None, event)
    }

    /// Makes these steps, as `edit` does, where the document is in hand that they lead to. Where it is one step, it is not
    /// applied a second time.
    ///
    /// There must be at least one step. Applied to the client's document, one after another, the steps must give `end`.
    pub fn edit_to(
        &mut self,
        alloc: Global,
        rules: &C::Rules,
        steps: Vec<C>,
        end: C::Doc,
        event: Option<u32>,
    ) -> Result<u64, EditError<C::Reason>>
        requires some { 0 < length steps.items }
        requires good { C.means.is_good rules.now self.old.doc }
        requires cursors { AreWithin (C.means.size self.old.doc) self.old.cursors }
        requires leads { fold C.means rules.now self.old.doc steps.items ≡ Some end }
        ensures count { IfOk result (λ n. n ≡ length steps.items) }
        ensures made { IfOk result (λ n. edited C.means rules.now self.old steps.items event ≡ Ok self.new) }
        ensures refused { IfErr result (IsRefusal C.means rules.now (edited C.means rules.now self.old steps.items event)) }
        ensures err { OnErr result (self.new ≡ self.old) }
        // What this asks of the client holds after it too.
        ensures stays_good { C.means.is_good rules.now self.new.doc }
        ensures stay_within { AreWithin (C.means.size self.new.doc) self.new.cursors }
        // To what log the client stood, it stands.
        ensures kin { (first : C.Doc) (log : List (Named C)) → Kin C.means rules.now first log self.old
            → Kin C.means rules.now first log self.new }
        // A cursor with side `After` that stood before a token stands before it, where that is still there.
        ensures tokens { OnOk result ((first : C.Doc) (log : List (Named C)) → Kin C.means rules.now first log self.old
            → KeepsTokens C.means log self.old self.new (C.means.size self.old.base)) }
    {
        self.edit_given(alloc, rules, steps, Some(end), event)
    }

    /// Makes these steps, which lead to this document where one is in hand.
    fn edit_given(
        &mut self,
        alloc: Global,
        rules: &C::Rules,
        steps: Vec<C>,
        end: Option<C::Doc>,
        event: Option<u32>,
    ) -> Result<u64, EditError<C::Reason>>
        requires good { C.means.is_good rules.now self.old.doc }
        requires cursors { AreWithin (C.means.size self.old.doc) self.old.cursors }
        requires leads { IfSome end (λ d. fold C.means rules.now self.old.doc steps.items ≡ Some d) }
        ensures count { IfOk result (λ n. n ≡ length steps.items) }
        ensures made { IfOk result (λ n. edited C.means rules.now self.old steps.items event ≡ Ok self.new) }
        ensures refused { IfErr result (IsRefusal C.means rules.now (edited C.means rules.now self.old steps.items event)) }
        ensures err { OnErr result (self.new ≡ self.old) }
    {
        let count = steps.len() as u64;
        let serial = self.serials.checked_add(1).ok_or(AllocError)?;
        let serials = self.serials.checked_add(count).ok_or(AllocError)?;
        let added = name_steps(alloc, self.name, serial, steps)?;
        match make_to(alloc, rules, &self.doc, added.as_slice(), end) {
            Ok(made) => {
                let Made { doc, items } = made;
                let maps = maps_over(alloc, added.as_slice())?;
                let cursors = move_all(alloc, self.cursors.as_slice(), &maps)?;
                let made_by = MadeBy::Edit { event, first: true };
                let before = self.pending.len();
                self.pending.append(added)?;
                if let Err(AllocError) = self.history.note_all(alloc, items, made_by) {
                    self.pending.truncate(before);
                    return Err(EditError::NoMemory);
                }
                self.doc = doc;
                self.serials = serials;
                self.cursors = cursors;
                Ok(count)
            }
            Err(Failed::Reason(Refusal { index, reason })) => {
                Err(EditError::Refused { index, reason })
            }
            Err(Failed::NoMemory) => Err(EditError::NoMemory),
        }
    }
}
