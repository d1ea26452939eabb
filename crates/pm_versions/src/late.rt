//! Rooms that clients enter late.
ghost use Rattle.std.specs.Prelude.{◌≡◌, ◌<◌, ◌≤◌, ℕ, [], ◌++◌, length, take, Bool, false, vec_len, IfOk, OnOk, OnErr};
ghost use Rattle.pm_authority.specs.Runs.{AllApply};
ghost use Rattle.pm_session.specs.Events.{State, state_of, played};
ghost use Rattle.pm_session.specs.Refusals.{EditorGetsNoRefusal, NoEditorRefused};
ghost use Rattle.pm_session.specs.Restoring.{Restores};
ghost use Rattle.pm_session.specs.Sessions.{settled};
ghost use Rattle.pm_session.specs.Sounds.{Sound, AllCaughtUp};
ghost use Rattle.pm_session.specs.Standing.{CursorsStay};
ghost use Rattle.pm_session.specs.Suits.{enters};
ghost use Rattle.pm_versions.specs.Checkpoints.{IsVersions};
ghost use Rattle.pm_versions.specs.Late.{IsLate, IsEditorIdle, SuitsLate, entered, late_played, LeftByLate, LeftByLateSettle, HasFront};
ghost use Rattle.pm_versions.specs.LateSessions.{LateLinesSuit, LeftByLateLines, late_session, AllHold, AllAsPulled};
ghost use Rattle.pm_versions.specs.Pulled.{AsPulled, EntersNew, entered_with, pulled_line};

use crate::at::AtError;
use crate::steps::{Steps, applied};
use crate::versions::Versions;
use pm_authority::Named;
use pm_change::Change;
use pm_client::Client;
use pm_session::{Line, Maker, Member, Outcome, Room};
use std::alloc::{AllocError, Global};
use std::marker::Brand;
use std::sync::ledger::{Blank, Ledger};

/// A room, and the versions of its log.
#[derive(Drop)]
pub struct LateRoom<C: Change> {
    room: Room<C>,
    versions: Versions<C>,
}

impl<C: Change> LateRoom<C> {
    /// A room with an empty log, and versions without a step that begin with the room's first document.
    pub fn new(room: Room<C>, versions: Versions<C>) -> LateRoom<C>
        requires log { room.authority.log ≡ [] }
        requires steps { versions.log ≡ [] }
        requires first { versions.first ≡ room.authority.first }
        ensures room { result.room ≡ room }
        ensures kept { (rules : C.Rules) → Sound C.means rules (state_of room) → IsVersions C.means rules versions → IsLate C.means rules result }
    {
        LateRoom { room, versions }
    }

    /// The room.
    pub fn room(&self) -> &Room<C>
        ensures { result.now ≡ self.now.room }
    {
        &self.room
    }

    /// The versions of the room's log. After running out of memory they may be those of a front of it.
    pub fn versions(&self) -> &Versions<C>
        ensures { result.now ≡ self.now.versions }
    {
        &self.versions
    }

    /// Plays a line, which must suit the room. By `Enter` an editor that has drawn no serial and composed no message is put at
    /// the log's end, with the document there. Every other line is played as `Room::play` says. Running out of memory leaves
    /// the room as before, or as `Room::play` says, or after the line.
    pub fn play<K: Maker<C>>(
        &mut self,
        alloc: Global,
        rules: &C::Rules,
        maker: &K,
        line: &Line<K::Op, C>,
    ) -> Result<Outcome<C>, AllocError>
        requires kept { IsLate C.means rules.now self.old }
        requires suits { SuitsLate (state_of self.old.room) line.now }
        ensures plays { IfOk result (λ o. (o, state_of self.new.room) ≡ late_played C.means rules.now (K.makes maker.now rules.now) (state_of self.old.room) line.now) }
        ensures unrefused { IfOk result (λ o. EditorGetsNoRefusal line.now.act o) }
        ensures left { OnErr result (LeftByLate C.means rules.now (K.makes maker.now rules.now) (state_of self.old.room) line.now (state_of self.new.room)) }
        ensures kept { IsLate C.means rules.now self.new }
        ensures reached { OnOk result (self.new.versions.log ≡ self.new.room.authority.log) }
        ensures cursors { OnOk result (enters line.now.act ≡ false → CursorsStay C.means (state_of self.old.room) (state_of self.new.room)) }
        ensures restores { OnOk result (enters line.now.act ≡ false → Restores C.means rules.now (state_of self.old.room) line.now (state_of self.new.room)) }
        // A room in which who entered had pulled instead, as new clients, stays one by the line that has a pull in place of `Enter`.
        ensures pulled { OnOk result ((has_entered : ℕ → Bool) (t : State C C.Rules C.Doc C.Reason) → EntersNew has_entered (state_of self.old.room) line.now
            → AsPulled has_entered (state_of self.old.room) t
            → AsPulled (entered_with has_entered line.now) (state_of self.new.room) (played C.means rules.now (K.makes maker.now rules.now) t (pulled_line has_entered line.now)).1) }
    {
        self.reach(alloc, rules)?;
        let outcome = if line.act.enters() {
            self.enter(alloc, rules, line.client)?
        } else {
            self.room.play(alloc, rules, maker, line)?
        };
        self.reach(alloc, rules)?;
        Ok(outcome)
    }

    /// Plays lines in order, and tells what became of each. Each must suit the room as the lines before it leave it, and who enters
    /// has no earlier line. Running out of memory leaves the room after the lines that were played, and the next as `play`
    /// says.
    pub fn play_all<K: Maker<C>>(
        &mut self,
        alloc: Global,
        rules: &C::Rules,
        maker: &K,
        lines: &[Line<K::Op, C>],
    ) -> Result<Vec<Outcome<C>>, AllocError>
        requires kept { IsLate C.means rules.now self.old }
        requires suit { LateLinesSuit (state_of self.old.room) lines.now }
        ensures outcomes { IfOk result (λ v. v.items ≡ (late_session C.means rules.now (K.makes maker.now rules.now) (state_of self.old.room) lines.now).0) }
        ensures each { IfOk result (λ v. vec_len v ≡ length lines.now) }
        ensures unrefused { IfOk result (λ v. NoEditorRefused lines.now v.items) }
        ensures room { OnOk result (state_of self.new.room ≡ (late_session C.means rules.now (K.makes maker.now rules.now) (state_of self.old.room) lines.now).1) }
        ensures left { OnErr result (LeftByLateLines C.means rules.now (K.makes maker.now rules.now) (state_of self.old.room) lines.now (state_of self.new.room)) }
        ensures kept { IsLate C.means rules.now self.new }
        ensures reached { OnOk result (self.new.versions.log ≡ self.new.room.authority.log) }
        ensures holds { OnOk result (AllHold C.means rules.now (K.makes maker.now rules.now) (state_of self.old.room) lines.now) }
        ensures pulled { OnOk result (AllAsPulled C.means rules.now (K.makes maker.now rules.now) (state_of self.old.room) lines.now) }
    {
        let mut outcomes = Vec::new(alloc);
        self.reach(alloc, rules)?;
        for line in lines {
            outcomes.push(self.play(alloc, rules, maker, line)?)?;
        }
        Ok(outcomes)
    }

    /// Settles the room as `Room::settle` says. Running out of memory leaves the room as before, or as `Room::settle` says,
    /// or settled.
    pub fn settle(&mut self, alloc: Global, rules: &C::Rules) -> Result<(), AllocError>
        requires { IsLate C.means rules.now self.old }
        ensures settles { OnOk result (state_of self.new.room ≡ settled C.means rules.now (state_of self.old.room)) }
        ensures caught_up { OnOk result (AllCaughtUp (state_of self.new.room)) }
        ensures left { OnErr result (LeftByLateSettle C.means rules.now (state_of self.old.room) (state_of self.new.room)) }
        ensures kept { IsLate C.means rules.now self.new }
        ensures reached { OnOk result (self.new.versions.log ≡ self.new.room.authority.log) }
    {
        self.reach(alloc, rules)?;
        self.room.settle(alloc, rules)?;
        self.reach(alloc, rules)
    }

    /// The client enters.
    fn enter(
        &mut self,
        alloc: Global,
        rules: &C::Rules,
        client: u32,
    ) -> Result<Outcome<C>, AllocError>
        requires kept { IsLate C.means rules.now self.old }
        requires reached { self.old.versions.log ≡ self.old.room.authority.log }
        requires idle { IsEditorIdle (state_of self.old.room) client }
        ensures enters { IfOk result (λ o. (o, state_of self.new.room) ≡ entered (state_of self.old.room) client) }
        ensures err { OnErr result (self.new ≡ self.old) }
        ensures kept { IsLate C.means rules.now self.new }
    {
        let version = self.room.authority().log().len() as u64;
        let doc = document_at::<C, Brand>(Blank::new(1), alloc, rules, &self.versions, version)?;
        let member = Client::entered(alloc, client, version, doc)?;
        self.room.replace_member(client, Member::Editor(member));
        Ok(Outcome::Entered { version })
    }

    /// Pushes the entries of the room's log that the versions lack, each with the document that it gives. Running out of
    /// memory leaves some of them pushed.
    fn reach(&mut self, alloc: Global, rules: &C::Rules) -> Result<(), AllocError>
        requires { IsLate C.means rules.now self.old }
        ensures room { self.new.room ≡ self.old.room }
        ensures kept { IsLate C.means rules.now self.new }
        ensures reached { OnOk result (self.new.versions.log ≡ self.new.room.authority.log) }
    {
        let _length = self.room.authority().log().len();
        let missing = &self.room.authority().log()[self.versions.log().len()..];
        follow(alloc, rules, &mut self.versions, missing)
    }
}

/// Pushes these steps, each with the document that it gives. Running out of memory leaves some of them pushed.
fn follow<C: Change>(
    alloc: Global,
    rules: &C::Rules,
    versions: &mut Versions<C>,
    steps: &[Named<C>],
) -> Result<(), AllocError>
    requires kept { IsVersions C.means rules.now versions.old }
    requires applies { ((end : C.Doc) × AllApply C.means rules.now versions.old.doc steps.now end) }
    ensures kept { IsVersions C.means rules.now versions.new }
    ensures first { versions.new.first ≡ versions.old.first }
    ensures reached { OnOk result (versions.new.log ≡ versions.old.log ++ steps.now) }
    ensures front { HasFront versions.old.log steps.now versions.new.log }
{
    for step in steps {
        let after = applied(alloc, &step.change, rules, versions.doc())?;
        versions.push(alloc, rules, step, &after)?;
    }
    Ok(())
}

/// The document after the first n steps, of which there are so many, where nobody counts.
fn document_at<C: Change, L: Ledger>(
    blank: Blank,
    alloc: Global,
    rules: &C::Rules,
    versions: &Versions<C>,
    n: u64,
) -> Result<C::Doc, AllocError>
    requires name { blank.name ≡ L.name }
    requires parts { blank.parts ≡ L.parts }
    requires one { 0 < blank.parts }
    requires kept { IsVersions C.means rules.now versions.now }
    requires within { n ≤ length versions.now.log }
    ensures { IfOk result (AllApply C.means rules.now versions.now.first (take n versions.now.log)) }
{
    let mut steps: Steps<L> = Steps::open(blank);
    match versions.at(alloc, rules, n, &mut steps) {
        Ok(doc) => Ok(doc),
        Err(AtError::NoMemory) => Err(AllocError),
        Err(AtError::Past { length: _ }) => unreachable!(),
    }
}
