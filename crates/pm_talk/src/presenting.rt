//! Submissions.
ghost use Rattle.std.specs.Prelude.{◌≡◌, ◌+◌, ◌≤◌, ◌^◌, length, IfOk, OnOk, OnErr, string_bytes};
ghost use Rattle.pm_apply.specs.Changes.{meaning};
ghost use Rattle.pm_authority.specs.Kept.{IsKept};
ghost use Rattle.pm_authority.specs.declared.message.Message.TheVariants.{Submit};
ghost use Rattle.pm_authority.specs.Presents.{presented};
ghost use Rattle.pm_talk.specs.Live.{named, some_steps};
ghost use Rattle.pm_talk.specs.Presenting.{Tells};

use crate::texts::{accepted_text, refused_text, version_text};
use pm_apply::DocChange;
use pm_authority::{Answer, Authority, Message, Name, Named};
use pm_change::Change;
use pm_list::Listed;
use pm_schema::Schema;
use std::alloc::{AllocError, Global};

/// What a submission is told.
#[derive(Drop)]
pub(crate) struct Told {
    /// The answer's line.
    pub text: String,
    /// Whether a step was accepted.
    pub accepted: bool,
}

/// Presents steps of the client with this number to the authority. The line for `Accepted` is made before anything changes, so
/// that running out of memory changes nothing.
pub(crate) fn present(
    alloc: Global,
    schema: &Schema,
    authority: &mut Authority<DocChange>,
    client: u32,
    version: u32,
    steps: &[DocChange],
) -> Result<Told, AllocError>
    requires { IsKept meaning schema.now authority.old }
    ensures told { IfOk result (λ t. Tells t (presented meaning schema.now authority.old (Submit version (named client (version + 1) steps.now))).0) }
    ensures after { OnOk result (authority.new ≡ (presented meaning schema.now authority.old (Submit version (named client (version + 1) steps.now))).1) }
    ensures err { OnErr result (authority.new ≡ authority.old) }
    ensures kept { IsKept meaning schema.now authority.new }
{
    let version = u64::from(version);
    let steps = named(alloc, client, version + 1, steps)?;
    let accepted = accepted_text(alloc, version, steps.len() as u64)?;
    let message = Message::Submit { version, steps };
    match authority.present(alloc, schema, client, &message)? {
        Answer::Accepted { from: _, count } => Ok(Told {
            text: accepted,
            accepted: some_steps(count),
        }),
        Answer::WrongVersion { length } => Ok(Told {
            text: version_text(alloc, length)?,
            accepted: false,
        }),
        Answer::StepRefused { index, reason } => Ok(Told {
            text: refused_text(alloc, index, &reason)?,
            accepted: false,
        }),
        // It comes to no submission.
        Answer::Entries {
            since: _,
            entries: _,
        } => unreachable!(),
    }
}

/// Whether that is any step.
fn some_steps(count: u64) -> bool
    ensures { result ≡ some_steps count }
{
    count > 0
}

/// The steps with their names: the client's number, and serials from `first` on.
fn named(
    alloc: Global,
    client: u32,
    first: u64,
    steps: &[DocChange],
) -> Result<Listed<Named<DocChange>>, AllocError>
    requires { first ≤ 2 ^ 32 }
    ensures { IfOk result (λ l. l ≡ named client first steps.now) }
{
    let mut all = Listed::new(alloc);
    for (i, step) in steps.iter().enumerate() {
        all.push(Named {
            name: Name {
                client,
                serial: first + i as u64,
            },
            change: step.copy(alloc)?,
        })?;
    }
    Ok(all)
}
