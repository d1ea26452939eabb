//! What raw clients send.
ghost use Rattle.std.specs.Prelude.{◌≡◌, ◌+◌, ◌<◌, ◌^◌, length, Some, IfOk, OnErr};
ghost use Rattle.pm_authority.specs.declared.message.Message.TheVariants.{Submit};
ghost use Rattle.pm_authority.specs.declared.message.Answer.{Answer};
ghost use Rattle.pm_client.specs.Clients.{named};
ghost use Rattle.pm_session.specs.Hosts.{IsAnswered};
ghost use Rattle.pm_session.specs.Events.{told, draws};
ghost use Rattle.pm_session.specs.declared.member.Member.TheVariants.{Raw};

use crate::host::Host;
use crate::outcome::{AnswerSummary, Outcome};
use pm_authority::{Answer, Message, Name, Named};
use pm_change::Change;
use pm_list::Listed;
use std::alloc::{AllocError, Global};

/// The raw client of this name presents a submission of these steps at this version, under its name and its next serials.
/// They are drawn also where the submission is refused. Running out of memory leaves all as it was, and so does a serial
/// that would pass 64 bits.
pub fn forge<C: Change, H: Host<C>>(
    alloc: Global,
    rules: &C::Rules,
    host: &mut H,
    name: u32,
    serial: &mut u64,
    version: u64,
    steps: &[C],
) -> Result<Outcome<C>, AllocError>
    requires served { H.serves host.old rules.now name }
    ensures told { IfOk result (λ o. (answer : Answer C C.Rules C.Doc C.Reason)
        × H.told rules.now host.old name (Submit version (named name (serial.old + 1) steps.now)) answer host.new
        × IsAnswered C.means rules.now name (H.first host.old) (H.log host.old) (Submit version (named name (serial.old + 1) steps.now)) answer (H.log host.new)
        × ((o, Raw name serial.new) ≡ draws name serial.old (length steps.now) (Some answer))) }
    ensures err { OnErr result ((host.new ≡ host.old) × (serial.new ≡ serial.old)) }
    ensures stays { H.stays host.old host.new }
    ensures first { H.first host.new ≡ H.first host.old }
    ensures served { H.serves host.new rules.now name }
{
    let Some(last) = serial.checked_add(steps.len() as u64) else {
        return Err(AllocError);
    };
    let steps = named_copies(alloc, name, *serial, steps)?;
    let message = Message::Submit { version, steps };
    let answer = host.present(alloc, rules, name, &message)?;
    *serial = last;
    Ok(Outcome::Answered { told: told(answer) })
}

/// Copies of these steps under names of this client, with the serials after `serial`.
fn named_copies<C: Change>(
    alloc: Global,
    client: u32,
    serial: u64,
    steps: &[C],
) -> Result<Listed<Named<C>>, AllocError>
    requires { serial + length steps.now < 2 ^ 64 }
    ensures { IfOk result (λ l. l ≡ named client (serial + 1) steps.now) }
{
    let mut all = Listed::new(alloc);
    let mut last = serial;
    for change in steps {
        last += 1;
        all.push(Named {
            name: Name {
                client,
                serial: last,
            },
            change: change.copy(alloc)?,
        })?;
    }
    Ok(all)
}

/// The answer, as an outcome tells it.
fn told<C: Change>(answer: Answer<C>) -> AnswerSummary<C>
    ensures { result ≡ told answer }
{
    match answer {
        Answer::Accepted { from, count } => AnswerSummary::Accepted { from, count },
        Answer::WrongVersion { length } => AnswerSummary::Version { length },
        Answer::StepRefused { index, reason } => AnswerSummary::Refused { index, reason },
        Answer::Entries { since, entries } => AnswerSummary::Entries {
            since,
            count: entries.len() as u64,
        },
    }
}
