//! A room: an authority and its members.
ghost use Rattle.std.specs.Prelude.{◌≡◌, ◌≤◌, ◌<◌, ◌+◌, ℕ, length, slice_get, take, vec_len, Some, IfOk, OnErr, OnOk};
ghost use Rattle.pm_client.specs.declared.taken.MessageKind.TheVariants.{Ask};
ghost use Rattle.pm_session.specs.Events.{state_of, placed, by_member, member_exchanges, played};
ghost use Rattle.pm_session.specs.Idle.{IsIdleAt};
ghost use Rattle.pm_session.specs.Members.{name_of};
ghost use Rattle.pm_session.specs.Left.{LeftByLine, LeftByLines, LeftByExchange, LeftBringing, LeftPulling, LeftBySettle};
ghost use Rattle.pm_session.specs.Restoring.{Restores};
ghost use Rattle.pm_session.specs.Answers.{ExchangeHolds};
ghost use Rattle.pm_session.specs.Sessions.{new_member, opened, session, exchanged, brought_up, in_turn, settled};
ghost use Rattle.pm_session.specs.Refusals.{EditorGetsNoRefusal, NoEditorRefused};
ghost use Rattle.pm_session.specs.Sounds.{Sound, AllCaughtUp, NamesDiffer};
ghost use Rattle.pm_session.specs.Standing.{CursorsStay};
ghost use Rattle.pm_session.specs.declared.line.Line.{Line};
ghost use Rattle.pm_session.specs.declared.member.Member.{Member};
ghost use Rattle.pm_session.specs.Suits.{SuitsRoom, LinesSuit};

use crate::acting::act_at;
use crate::exchange::exchange_at;
use crate::line::Line;
use crate::maker::Maker;
use crate::member::Member;
use crate::outcome::Outcome;
use pm_authority::Authority;
use pm_change::Change;
use pm_client::{Client, MessageKind};
use std::alloc::{AllocError, Global};

/// An authority and its members, member i at place i.
#[derive(Drop)]
pub struct Room<C: Change> {
    authority: Authority<C>,
    members: Vec<Member<C>>,
}

impl<C: Change> Room<C> {
    /// A room at this document, with an empty log and as many members as `raw` has places. `raw` says of each whether it is a
    /// raw client, which has drawn no serial, or else an editor, which is at version 0.
    pub fn new(
        alloc: Global,
        rules: &C::Rules,
        doc: C::Doc,
        raw: &[bool],
    ) -> Result<Room<C>, AllocError>
        requires good { C.means.is_good rules.now doc }
        requires few { length raw.now ≤ 32 }
        ensures opens { IfOk result (λ r. state_of r ≡ opened doc raw.now) }
        ensures sound { IfOk result (λ r. Sound C.means rules.now (state_of r)) }
    {
        let _rules = rules;
        let mut members = Vec::new(alloc);
        for is_raw in raw {
            let name = members.len() as u32;
            members.push(new_member(alloc, &doc, name, *is_raw)?)?;
        }
        Ok(Room {
            authority: Authority::new(alloc, doc)?,
            members,
        })
    }

    /// A room of these members at this authority. Member i must be named i. The calls that are lent rules ask that the members
    /// stand to the authority's log.
    pub fn of(members: Vec<Member<C>>, authority: Authority<C>) -> Room<C>
        requires { (i : ℕ) (x : Member C C.Rules C.Doc C.Reason) → slice_get members.items i ≡ Some x → name_of x ≡ i }
        ensures { state_of result ≡ record { authority = authority; members = members.items } }
    {
        Room { authority, members }
    }

    /// The authority.
    pub fn authority(&self) -> &Authority<C>
        ensures { result.now ≡ self.now.authority }
    {
        &self.authority
    }

    /// The members, member i at place i.
    pub fn members(&self) -> &[Member<C>]
        ensures { result.now ≡ self.now.members.items }
    {
        self.members.as_slice()
    }

    /// Puts a member in the place of this client, which has drawn no serial and composed no message. The member must be named
    /// by the client's number.
    pub fn replace_member(&mut self, client: u32, member: Member<C>)
        requires idle { IsIdleAt (state_of self.old) client }
        requires named { name_of member ≡ client }
        ensures { state_of self.new ≡ placed (state_of self.old) client self.old.authority member }
    {
        let place = &mut self.members[client as usize];
        *place = member;
    }

    /// Plays a line, which must suit the room: its member is there, a raw client forges and an editor does not, and the
    /// message or the answer that the line names is there. Running out of memory leaves the first parts of its act done and
    /// the others not.
    pub fn play<K: Maker<C>>(
        &mut self,
        alloc: Global,
        rules: &C::Rules,
        maker: &K,
        line: &Line<K::Op, C>,
    ) -> Result<Outcome<C>, AllocError>
        requires sound { Sound C.means rules.now (state_of self.old) }
        requires suits { SuitsRoom (state_of self.old) line.now }
        ensures plays { IfOk result (λ o. (o, state_of self.new) ≡ played C.means rules.now (K.makes maker.now rules.now) (state_of self.old) line.now) }
        // No message of an editor is refused for a step, whatever raw clients forge.
        ensures unrefused { IfOk result (λ o. EditorGetsNoRefusal line.now.act o) }
        ensures left { OnErr result (LeftByLine C.means rules.now (state_of self.old) line.now (state_of self.new)) }
        ensures sound { Sound C.means rules.now (state_of self.new) }
        ensures names { NamesDiffer self.new.authority.log }
        // Each cursor with side `After` stays before its token.
        ensures cursors { CursorsStay C.means (state_of self.old) (state_of self.new) }
        // An undo or a redo, also of a numbered event, with nothing changed since gives the earlier document back.
        ensures restores { OnOk result (Restores C.means rules.now (state_of self.old) line.now (state_of self.new)) }
    {
        let member = &mut self.members[line.client as usize];
        act_at(alloc, rules, maker, &mut self.authority, member, line)
    }

    /// Plays lines in order, and tells what became of each. Each must suit the room as the lines before it leave it.
    /// Running out of memory leaves the room after the lines that were played, and after the first parts of the next.
    pub fn play_all<K: Maker<C>>(
        &mut self,
        alloc: Global,
        rules: &C::Rules,
        maker: &K,
        lines: &[Line<K::Op, C>],
    ) -> Result<Vec<Outcome<C>>, AllocError>
        requires sound { Sound C.means rules.now (state_of self.old) }
        requires suit { LinesSuit (state_of self.old) lines.now }
        ensures outcomes { IfOk result (λ v. v.items ≡ (session C.means rules.now (K.makes maker.now rules.now) (state_of self.old) lines.now).0) }
        ensures each { IfOk result (λ v. vec_len v ≡ length lines.now) }
        ensures unrefused { IfOk result (λ v. NoEditorRefused lines.now v.items) }
        ensures room { OnOk result (state_of self.new ≡ (session C.means rules.now (K.makes maker.now rules.now) (state_of self.old) lines.now).1) }
        ensures left { OnErr result (LeftByLines C.means rules.now (K.makes maker.now rules.now) (state_of self.old) lines.now (state_of self.new)) }
        ensures sound { Sound C.means rules.now (state_of self.new) }
        ensures names { NamesDiffer self.new.authority.log }
        // So it is from the room after each number of lines to the next.
        ensures cursors { OnOk result ((k : ℕ) → CursorsStay C.means
            (session C.means rules.now (K.makes maker.now rules.now) (state_of self.old) (take k lines.now)).1
            (session C.means rules.now (K.makes maker.now rules.now) (state_of self.old) (take (k + 1) lines.now)).1) }
        ensures restores { OnOk result ((k : ℕ) (line : Line K.Op C) → slice_get lines.now k ≡ Some line → Restores C.means rules.now
            (session C.means rules.now (K.makes maker.now rules.now) (state_of self.old) (take k lines.now)).1 line
            (session C.means rules.now (K.makes maker.now rules.now) (state_of self.old) (take (k + 1) lines.now)).1) }
    {
        let mut outcomes = Vec::new(alloc);
        for line in lines {
            outcomes.push(self.play(alloc, rules, maker, line)?)?;
        }
        Ok(outcomes)
    }

    /// Each editor in turn asks for what is past its version and submits what is pending; then each asks again. Raw clients
    /// are passed by. Running out of memory leaves the room after the exchanges that were done, and after the first parts of
    /// the next.
    pub fn settle(&mut self, alloc: Global, rules: &C::Rules) -> Result<(), AllocError>
        requires { Sound C.means rules.now (state_of self.old) }
        ensures settles { OnOk result (state_of self.new ≡ settled C.means rules.now (state_of self.old)) }
        // Each editor has then the whole log and nothing pending, and its document is the authority's.
        ensures caught_up { OnOk result (AllCaughtUp (state_of self.new)) }
        ensures left { OnErr result (LeftBySettle C.means rules.now (state_of self.old) (state_of self.new)) }
        ensures sound { Sound C.means rules.now (state_of self.new) }
        ensures names { NamesDiffer self.new.authority.log }
    {
        self.bring_up_all(alloc, rules)?;
        self.pull_all(alloc, rules)
    }

    /// Each editor in turn asks and submits.
    fn bring_up_all(&mut self, alloc: Global, rules: &C::Rules) -> Result<(), AllocError>
        requires { Sound C.means rules.now (state_of self.old) }
        ensures brings { OnOk result (state_of self.new ≡ in_turn (brought_up C.means rules.now) 0 (length self.old.members.items) (state_of self.old)) }
        ensures left { OnErr result (LeftBringing C.means rules.now (state_of self.old) (state_of self.new)) }
        ensures members { length self.new.members.items ≡ length self.old.members.items }
        ensures sound { Sound C.means rules.now (state_of self.new) }
    {
        for member in 0..self.members.len() {
            let _outcome = self.exchange(alloc, rules, member, MessageKind::Ask)?;
            let _outcome = self.exchange(alloc, rules, member, MessageKind::Submit)?;
        }
        Ok(())
    }

    /// Each editor in turn asks.
    fn pull_all(&mut self, alloc: Global, rules: &C::Rules) -> Result<(), AllocError>
        requires { Sound C.means rules.now (state_of self.old) }
        ensures pulls { OnOk result (state_of self.new ≡ in_turn (exchanged C.means rules.now Ask) 0 (length self.old.members.items) (state_of self.old)) }
        ensures left { OnErr result (LeftPulling C.means rules.now (state_of self.old) (state_of self.new)) }
        ensures sound { Sound C.means rules.now (state_of self.new) }
    {
        for member in 0..self.members.len() {
            let _outcome = self.exchange(alloc, rules, member, MessageKind::Ask)?;
        }
        Ok(())
    }

    /// The editor at this place composes a message of this kind, presents it, and keeps and takes the answer. A raw client
    /// does nothing, and the outcome is `NotThere`. Running out of memory leaves the first of these parts done and the
    /// others not.
    pub fn exchange(
        &mut self,
        alloc: Global,
        rules: &C::Rules,
        member: usize,
        kind: MessageKind,
    ) -> Result<Outcome<C>, AllocError>
        requires sound { Sound C.means rules.now (state_of self.old) }
        requires within { member < length self.old.members.items }
        ensures exchanges { IfOk result (λ o. (o, state_of self.new) ≡ by_member (state_of self.old) member (member_exchanges C.means rules.now self.old.authority kind)) }
        ensures holds { OnOk result (ExchangeHolds C.means rules.now kind member (state_of self.old) (state_of self.new)) }
        ensures left { OnErr result (LeftByExchange C.means rules.now kind member (state_of self.old) (state_of self.new)) }
        ensures members { length self.new.members.items ≡ length self.old.members.items }
        ensures sound { Sound C.means rules.now (state_of self.new) }
        ensures names { NamesDiffer self.new.authority.log }
    {
        let member = &mut self.members[member];
        exchange_at(alloc, rules, &mut self.authority, member, kind)
    }
}

/// The member of this name that is new at this document.
fn new_member<C: Change>(
    alloc: Global,
    doc: &C::Doc,
    name: u32,
    is_raw: bool,
) -> Result<Member<C>, AllocError>
    ensures { IfOk result (λ x. x ≡ new_member doc.now name is_raw) }
{
    if is_raw {
        return Ok(Member::Raw { name, serial: 0 });
    }
    Ok(Member::Editor(Client::new(alloc, name, C::copy_doc(alloc, doc)?)?))
}
