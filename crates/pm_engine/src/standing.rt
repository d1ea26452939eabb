//! Calls of a client that stands to the log of an authority in the same program.
ghost use Rattle.std.specs.Prelude.{◌≡◌, ◌↔◌, ◌<◌, ◌≤◌, [], false, Ok, Err, Some, None, IfOk, IfErr, OnOk, OnErr, length};
ghost use Rattle.pm_authority.specs.Kept.{IsKept};
ghost use Rattle.pm_client.specs.Causes.{IsTaken};
ghost use Rattle.pm_client.specs.Clients.{edited, undone_last, undone_event, answer_at, taken_at, IsRefusal};
ghost use Rattle.pm_client.specs.Kins.{Kin};
ghost use Rattle.pm_client.specs.TokenNames.{KeepsTokens};
ghost use Rattle.pm_client.specs.Undoings.{GivesBack, TurnsOver};
ghost use Rattle.pm_client.specs.declared.client.Client.{Client};
ghost use Rattle.pm_client.specs.declared.failing.UndoError.TheVariants.{NothingToUndo};
ghost use Rattle.pm_client.specs.declared.taken.Taken.{Taken};
ghost use Rattle.pm_client.specs.declared.taken.Taken.TheVariants.{Refused};
ghost use Rattle.pm_history.specs.declared.turn.Turn.TheVariants.{Undo, UndoEvent};
ghost use Rattle.pm_history.specs.Turns.{any_numbered};
ghost use Rattle.pm_session.specs.Hosts.{EndsWith};
ghost use Rattle.pm_engine.specs.Exchanges.{answered, keeper, Exchanged, LeftExchanging, SubmitsOld};

use pm_authority::Authority;
use pm_change::Change;
use pm_client::{Client, EditError, MessageKind, Taken, UndoError};
use std::alloc::{AllocError, Global};

/// Makes these steps on the client's document, as `Client::edit` does, in an event of their own. The client must stand to
/// the authority's log, and goes on standing to it. There must be at least one step. It tells the number of steps. `Refused`
/// comes exactly where one of the steps does not apply, and names the first. Then, and out of memory, the client is as it
/// was.
pub fn edit<C: Change>(
    alloc: Global,
    rules: &C::Rules,
    authority: &Authority<C>,
    client: &mut Client<C>,
    steps: Vec<C>,
) -> Result<u64, EditError<C::Reason>>
    requires stands { Kin C.means rules.now authority.now.first authority.now.log client.old }
    requires some { 0 < length steps.items }
    ensures count { IfOk result (λ n. n ≡ length steps.items) }
    ensures made { IfOk result (λ n. edited C.means rules.now client.old steps.items None ≡ Ok client.new) }
    ensures refused { IfErr result (IsRefusal C.means rules.now (edited C.means rules.now client.old steps.items None)) }
    ensures err { OnErr result (client.new ≡ client.old) }
    ensures stands { Kin C.means rules.now authority.now.first authority.now.log client.new }
    // A cursor with side `After` that stood before a token stands before it, where that is still there.
    ensures tokens { OnOk result (KeepsTokens C.means authority.now.log client.old client.new (C.means.size client.old.base)) }
    ensures name { client.new.name ≡ client.old.name }
{
    let _ = authority.log();
    client.edit(alloc, rules, steps, None)
}

/// Undoes the client's last event, as `Client::undo` does, and tells by how many steps. The client must stand to the
/// authority's log, and goes on standing to it. `NothingToUndo` comes exactly where there is no event to undo. Then, and for
/// running out of memory, the client is as it was.
/// ProseMirror: `undo`.
pub fn undo<C: Change>(
    alloc: Global,
    rules: &C::Rules,
    authority: &Authority<C>,
    client: &mut Client<C>,
) -> Result<u64, UndoError>
    requires { Kin C.means rules.now authority.now.first authority.now.log client.old }
    ensures undone { IfOk result (λ n. undone_last C.means rules.now client.old ≡ Some (n, client.new)) }
    ensures nothing { (result ≡ Err NothingToUndo) ↔ (client.old.history.undo ≡ []) }
    ensures err { OnErr result (client.new ≡ client.old) }
    ensures stands { Kin C.means rules.now authority.now.first authority.now.log client.new }
    // Where nothing has changed since the event, its earlier document is given back.
    ensures restores { OnOk result ((kin : Kin C.means rules.now authority.now.first authority.now.log client.old)
        → GivesBack C.means rules.now Undo client.old authority.now.first kin.timeline client.new.doc) }
    // It is the undo of the event over the client's whole timeline.
    ensures whole { IfOk result (λ n. (kin : Kin C.means rules.now authority.now.first authority.now.log client.old)
        → TurnsOver C.means rules.now Undo client.old authority.now.first kin.timeline n client.new) }
    // A cursor with side `After` that stood before a token stands before it, where that is still there.
    ensures tokens { OnOk result (KeepsTokens C.means authority.now.log client.old client.new (C.means.size client.old.base)) }
    ensures name { client.new.name ≡ client.old.name }
{
    // A log that is held has a length of 64 bits.
    let _length = authority.log().len();
    client.undo(alloc, rules)
}

/// Undoes the last of the client's events to undo that has this number, as `Client::undo_event` does, amid whatever came since,
/// and tells by how many steps. The client must stand to the authority's log, and goes on standing to it. `NothingToUndo` comes
/// exactly where no event to undo has the number. Then, and out of memory, the client is as it was.
pub fn undo_event<C: Change>(
    alloc: Global,
    rules: &C::Rules,
    authority: &Authority<C>,
    client: &mut Client<C>,
    number: u32,
) -> Result<u64, UndoError>
    requires { Kin C.means rules.now authority.now.first authority.now.log client.old }
    ensures undone { IfOk result (λ n. undone_event C.means rules.now client.old number ≡ Some (n, client.new)) }
    ensures nothing { (result ≡ Err NothingToUndo) ↔ (any_numbered number client.old.history.undo ≡ false) }
    ensures err { OnErr result (client.new ≡ client.old) }
    ensures stands { Kin C.means rules.now authority.now.first authority.now.log client.new }
    // Where nothing has changed since the event, its earlier document is given back.
    ensures restores { OnOk result ((kin : Kin C.means rules.now authority.now.first authority.now.log client.old)
        → GivesBack C.means rules.now (UndoEvent number) client.old authority.now.first kin.timeline client.new.doc) }
    // It is the undo of the event over the client's whole timeline.
    ensures whole { IfOk result (λ n. (kin : Kin C.means rules.now authority.now.first authority.now.log client.old)
        → TurnsOver C.means rules.now (UndoEvent number) client.old authority.now.first kin.timeline n client.new) }
    // A cursor with side `After` that stood before a token stands before it, where that is still there.
    ensures tokens { OnOk result (KeepsTokens C.means authority.now.log client.old client.new (C.means.size client.old.base)) }
    ensures name { client.new.name ≡ client.old.name }
{
    // A log that is held has a length of 64 bits.
    let _length = authority.log().len();
    client.undo_event(alloc, rules, number)
}

/// One exchange: the client composes a message of this kind, the authority answers it, and the client keeps the answer and
/// takes it. The client must stand to the authority's log. It goes on standing to it, and so does each client of another
/// name, whatever comes. `Refused` is told exactly of a submission at a version that is not the log's length: ask, and submit
/// again. What else is told is as `Client::take` tells it of the authority's answer. Running out of memory leaves the first
/// of these parts done and the others not.
/// ProseMirror: `sendableSteps`, and then `receiveTransaction`.
pub fn exchange<C: Change>(
    alloc: Global,
    rules: &C::Rules,
    authority: &mut Authority<C>,
    client: &mut Client<C>,
    kind: MessageKind,
) -> Result<Taken, AllocError>
    requires kept { IsKept C.means rules.now authority.old }
    requires stands { Kin C.means rules.now authority.old.first authority.old.log client.old }
    ensures exchanged { IfOk result (λ told. Exchanged C.means rules.now authority.old client.old kind told authority.new client.new) }
    ensures left { OnErr result (LeftExchanging C.means rules.now authority.old client.old kind authority.new client.new) }
    // Of the authority's answer, each thing is told exactly where its cause holds.
    ensures causes { (t : Taken) → IfOk result (λ told. (told ≡ t)
        ↔ IsTaken C.means rules.now (keeper C.means rules.now authority.old client.old kind) (answered C.means rules.now authority.old client.old kind).0 t) }
    ensures refused { IfOk result (λ told. (told ≡ Refused) ↔ SubmitsOld authority.old client.old kind) }
    ensures kept { IsKept C.means rules.now authority.new }
    ensures stands { Kin C.means rules.now authority.new.first authority.new.log client.new }
    ensures others { (d : Client C C.Rules C.Doc C.Reason) → (client.old.name ≡ d.name → ⊥)
        → Kin C.means rules.now authority.old.first authority.old.log d → Kin C.means rules.now authority.new.first authority.new.log d }
    ensures name { client.new.name ≡ client.old.name }
{
    let number = client.compose(alloc, kind)?;
    let answer = authority.present(alloc, rules, client.name(), client.message_at(number))?;
    let kept = client.keep(answer)?;
    take_last(alloc, rules, authority, client, kept)
}

/// The client takes the answer of this number, the last that this authority gave. Its entries lead to the authority's document.
fn take_last<C: Change>(
    alloc: Global,
    rules: &C::Rules,
    authority: &Authority<C>,
    client: &mut Client<C>,
    number: u64,
) -> Result<Taken, AllocError>
    requires kept { IsKept C.means rules.now authority.now }
    requires stands { Kin C.means rules.now authority.now.first authority.now.log client.old }
    requires number { (0 < number) × (number ≤ length client.old.answers) }
    requires last { EndsWith authority.now.log (answer_at client.old number) }
    ensures takes { IfOk result (λ told. (told, client.new) ≡ taken_at C.means rules.now client.old number) }
    ensures err { OnErr result (client.new ≡ client.old) }
    ensures causes { (answer : _) (t : Taken) → answer_at client.old number ≡ Some answer
        → IfOk result (λ told. (told ≡ t) ↔ IsTaken C.means rules.now client.old answer t) }
{
    // A log that is held has a length of 64 bits.
    let _length = authority.log().len();
    let end = C::copy_doc(alloc, authority.doc())?;
    client.take_to(alloc, rules, number, end)
}
