//! Acts of an editor that present a message.
ghost use Rattle.std.specs.Prelude.{◌≡◌, ◌<◌, ◌≤◌, length, Some, IfOk, OnErr};
ghost use Rattle.pm_authority.specs.declared.message.Message.{Message};
ghost use Rattle.pm_authority.specs.declared.message.Answer.{Answer};
ghost use Rattle.pm_authority.specs.Kept.{IsKept};
ghost use Rattle.pm_client.specs.Clients.{message_of, message_at, answer_at, taken_at};
ghost use Rattle.pm_session.specs.Events.{told, keeps, exchanges, member_exchanges};
ghost use Rattle.pm_session.specs.Hosts.{EndsWith};
ghost use Rattle.pm_session.specs.Left.{LeftPresenting, LeftExchanging, LeftByMember, AuthorityTells};
ghost use Rattle.pm_session.specs.Refusals.{RefusesNoStep, GetsNoRefusal};
ghost use Rattle.pm_session.specs.Sounds.{EditorStands, MemberStands};
ghost use Rattle.pm_session.specs.declared.member.Member.TheVariants.{Editor};

use crate::host::Host;
use crate::member::Member;
use crate::outcome::{AnswerSummary, Outcome};
use pm_authority::{Answer, Authority};
use pm_change::{Change, NoStep};
use pm_client::{Client, MessageKind, Taken};
use std::alloc::{AllocError, Global};

/// The client presents its message of this number, and keeps the answer. Running out of memory leaves all as it was, or the
/// message presented and the answer not kept.
pub fn present<C: Change, H: Host<C>>(
    alloc: Global,
    rules: &C::Rules,
    host: &mut H,
    client: &mut Client<C>,
    message: u64,
) -> Result<Outcome<C>, AllocError>
    requires served { H.serves host.old rules.now client.old.name }
    requires stands { EditorStands C.means rules.now (H.first host.old) (H.log host.old) client.old }
    requires named { (0 < message) × (message ≤ length client.old.messages) }
    ensures presents { IfOk result (λ o. (x : Message C) × (answer : Answer C C.Rules C.Doc C.Reason)
        × (message_at client.old message ≡ Some x)
        × H.told rules.now host.old client.old.name x answer host.new
        × ((o, client.new) ≡ keeps client.old (Some answer))) }
    ensures err { OnErr result ((x : Message C) × (message_at client.old message ≡ Some x)
        × LeftPresenting (host.new ≡ host.old) (λ m answer. H.told rules.now host.old client.old.name m answer host.new) x client.old (Editor client.new)) }
    ensures unrefused { IfOk result GetsNoRefusal }
    ensures stands { EditorStands C.means rules.now (H.first host.new) (H.log host.new) client.new }
    ensures stays { H.stays host.old host.new }
    ensures first { H.first host.new ≡ H.first host.old }
    ensures served { H.serves host.new rules.now client.old.name }
{
    let answer = host.present(alloc, rules, client.name(), client.message_at(message))?;
    let told = told(&answer);
    let _number = client.keep(answer)?;
    Ok(Outcome::Answered { told })
}

/// The client composes a message of this kind, presents it and keeps the answer, and takes it unless it is lost. Want of
/// memory leaves the first of these parts done and the others not.
pub fn exchange<C: Change, H: Host<C>>(
    alloc: Global,
    rules: &C::Rules,
    host: &mut H,
    client: &mut Client<C>,
    kind: MessageKind,
    lost: bool,
) -> Result<Outcome<C>, AllocError>
    requires served { H.serves host.old rules.now client.old.name }
    requires stands { EditorStands C.means rules.now (H.first host.old) (H.log host.old) client.old }
    ensures exchanges { IfOk result (λ o. (answer : Answer C C.Rules C.Doc C.Reason)
        × H.told rules.now host.old client.old.name (message_of client.old kind) answer host.new
        × ((o, client.new) ≡ exchanges C.means rules.now client.old kind lost (Some answer))) }
    ensures err { OnErr result (LeftExchanging (host.new ≡ host.old) (λ message answer. H.told rules.now host.old client.old.name message answer host.new) kind client.old (Editor client.new)) }
    ensures unrefused { IfOk result GetsNoRefusal }
    ensures stands { EditorStands C.means rules.now (H.first host.new) (H.log host.new) client.new }
    ensures stays { H.stays host.old host.new }
    ensures first { H.first host.new ≡ H.first host.old }
    ensures served { H.serves host.new rules.now client.old.name }
{
    let message = client.compose(alloc, kind)?;
    let answer = host.present(alloc, rules, client.name(), client.message_at(message))?;
    let told = told(&answer);
    let number = client.keep(answer)?;
    if lost {
        return Ok(Outcome::Exchanged { told, taken: None });
    }
    let taken = take_last(alloc, rules, host, client, number)?;
    Ok(Outcome::Exchanged {
        told,
        taken: Some(taken),
    })
}

/// The client takes the answer of this number, which this host gave last. The document that the host has at hand is what the
/// answer's entries lead to.
fn take_last<C: Change, H: Host<C>>(
    alloc: Global,
    rules: &C::Rules,
    host: &H,
    client: &mut Client<C>,
    number: u64,
) -> Result<Taken, AllocError>
    requires served { H.serves host.now rules.now client.old.name }
    requires stands { EditorStands C.means rules.now (H.first host.now) (H.log host.now) client.old }
    requires kept { (0 < number) × (number ≤ length client.old.answers) }
    requires last { EndsWith (H.log host.now) (answer_at client.old number) }
    ensures takes { IfOk result (λ t. (t, client.new) ≡ taken_at C.means rules.now client.old number) }
    ensures err { OnErr result (client.new ≡ client.old) }
{
    match host.end(alloc, rules, client.name())? {
        Some(end) => client.take_to(alloc, rules, number, end),
        None => client.take(alloc, rules, number),
    }
}

/// The answer, as an outcome tells it. No editor's submission is refused for a step.
fn told<C: Change>(answer: &Answer<C>) -> AnswerSummary<C>
    requires { RefusesNoStep answer.now }
    ensures { result ≡ told answer.now }
{
    match answer {
        Answer::Accepted { from, count } => AnswerSummary::Accepted {
            from: *from,
            count: *count,
        },
        Answer::WrongVersion { length } => AnswerSummary::Version { length: *length },
        Answer::StepRefused {
            index: _,
            reason: _,
        } => unreachable!(),
        Answer::Entries { since, entries } => AnswerSummary::Entries {
            since: *since,
            count: entries.len() as u64,
        },
    }
}

/// The member exchanges a message of this kind with this authority; a raw client does nothing.
pub fn exchange_at<C: Change>(
    alloc: Global,
    rules: &C::Rules,
    authority: &mut Authority<C>,
    member: &mut Member<C>,
    kind: MessageKind,
) -> Result<Outcome<C>, AllocError>
    requires kept { IsKept C.means rules.now authority.old }
    requires stands { MemberStands C.means rules.now authority.old.first authority.old.log member.old }
    ensures exchanges { IfOk result (λ o. (o, authority.new, member.new) ≡ member_exchanges C.means rules.now authority.old kind member.old) }
    ensures left { OnErr result (LeftByMember (authority.new ≡ authority.old) (AuthorityTells C.means rules.now authority.old authority.new) kind member.old member.new) }
{
    // A log that is held has a length of 64 bits.
    let _length = authority.log().len();
    match member {
        Member::Editor(client) => exchange(alloc, rules, authority, client, kind, false),
        Member::Raw { name: _, serial: _ } => Ok(Outcome::NoStep(NoStep::NotThere)),
    }
}
