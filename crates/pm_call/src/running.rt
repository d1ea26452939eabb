//! Sessions whose clients have threads of their own.
ghost use Rattle.std.specs.Prelude.{◌≡◌, ◌++◌, ℕ, List, flat_map, codes, decimal, string_bytes, IfOk, OnOk};
ghost use Rattle.pm_report.specs.Words.{line};
ghost use Rattle.pm_call.specs.Finding.{found_of, FoundHolds};
ghost use Rattle.pm_call.specs.Output.{IsTextOf, status_for};
ghost use Rattle.pm_call.specs.Running.{IsRun, order_line};
ghost use Rattle.pm_script.specs.Held.{Holds};

use crate::answer::{Answer, refusal};
use crate::call::Status;
use crate::files::FileForm;
use crate::finding::Found;
use pm_apply::DocChange;
use pm_head::{ClientEntry, Form, Head, raw_flags};
use pm_io::Gate;
use pm_making::EditMaker;
use pm_ops::Op;
use pm_report::{Numbered, client_lines, report, with_numbers};
use pm_script::Session;
use pm_session::{Line, Outcome};
use pm_workers::{Crew, Threaded, play_on_threads};
use std::alloc::{AllocError, Global};
use std::sync::Wait;
use std::thread::Threads;

/// The answer of `run` to what an input was found to be.
pub fn answer_on_threads<G, T>(
    alloc: Global,
    crew: &Crew<EditMaker, G, T>,
    found: Found,
) -> Result<Answer, AllocError>
where
    G: Gate + Sync,
    T: Threads + Wait + Sync,
    requires { FoundHolds (FileForm.OneRoom Form.Plain) found }
    ensures text { IfOk result (λ a. IsTextOf Command.Run (found_of found) (string_bytes a.text)) }
    ensures says { IfOk result (λ a. a.status ≡ status_for (found_of found)) }
{
    match found {
        Found::IsSession(session) => Ok(Answer {
            status: Status::Done,
            text: run(alloc, crew, session)?,
        }),
        Found::AreRooms(rooms) => {
            drop(rooms);
            unreachable!()
        }
        Found::Refused(refused) => refusal(alloc, refused),
    }
}

/// The order of a session's lines and its report, where each client's lines are played by a thread of its own.
fn run<G, T>(
    alloc: Global,
    crew: &Crew<EditMaker, G, T>,
    session: Session,
) -> Result<String, AllocError>
where
    G: Gate + Sync,
    T: Threads + Wait + Sync,
    requires { Holds session }
    ensures { IfOk result (λ s. IsRun session (string_bytes s)) }
{
    let Session { head, lines } = session;
    let Head {
        schema,
        doc,
        clients,
    } = head;
    let raw = raw_flags(alloc, clients.as_slice())?;
    let played = play_on_threads(alloc, crew, schema, doc, &raw, lines.into_vec())?;
    told(alloc, clients.as_slice(), played)
}

/// The line `order`, and the report of a session that was played.
pub fn told(
    alloc: Global,
    entries: &[ClientEntry],
    played: Threaded<DocChange, Op>,
) -> Result<String, AllocError>
    requires { Sound meaning played.rules (state_of played.room) }
    ensures { IfOk result (λ s. IsTold entries.now played.rules played.lines.items played.outcomes.items (state_of played.room) (string_bytes s)) }
{
    let Threaded {
        rules: schema,
        order,
        lines,
        outcomes,
        mut room,
    } = played;
    drop(order);
    let outcomes = in_file_order(alloc, lines.as_slice(), outcomes)?;
    let standing = client_lines(alloc, &schema, entries, room.members())?;
    room.settle(alloc, &schema)?;
    let mut text = order_line(alloc, lines.as_slice())?;
    text.push_str(report(alloc, &schema, entries, &outcomes, standing.as_str(), &room)?.as_str())?;
    Ok(text)
}

ghost use Rattle.pm_apply.specs.Changes.{meaning};
ghost use Rattle.pm_session.specs.Events.{state_of};
ghost use Rattle.pm_session.specs.Sounds.{Sound};
ghost use Rattle.pm_call.specs.Running.{IsTold, InFileOrder};

/// The outcomes of these lines in the order of the lines' numbers.
fn in_file_order(
    alloc: Global,
    lines: &[Line<Op, DocChange>],
    outcomes: Vec<Outcome<DocChange>>,
) -> Result<Vec<Numbered>, AllocError>
    ensures { IfOk result (λ v. InFileOrder lines.now outcomes.items v.items) }
{
    let mut told = with_numbers(alloc, lines, outcomes)?;
    told.sort_by_key(|outcome| outcome.number)?;
    Ok(told)
}

/// The line `order`, with the numbers of these lines.
fn order_line(alloc: Global, lines: &[Line<Op, DocChange>]) -> Result<String, AllocError>
    ensures { IfOk result (λ s. string_bytes s ≡ order_line lines.now) }
{
    let mut text = String::from_str(alloc, "order")?;
    push_numbers(alloc, &mut text, lines)?;
    text.push('\n')?;
    Ok(text)
}

/// Appends the number of each line to the text, a blank before each.
fn push_numbers(
    alloc: Global,
    text: &mut String,
    lines: &[Line<Op, DocChange>],
) -> Result<(), AllocError>
    ensures { OnOk result (string_bytes text.new ≡ string_bytes text.old ++ number_words lines.now) }
{
    for line in lines {
        text.push_str(number_word(alloc, line.number)?.as_str())?;
    }
    Ok(())
}

ghost use Rattle.std.specs.Prelude.{◌∷◌};
ghost use Rattle.pm_call.specs.Running.{number_words};

/// A blank and the number.
pub fn number_word(alloc: Global, number: u32) -> Result<String, AllocError>
    ensures { IfOk result (λ s. string_bytes s ≡ 32 ∷ decimal number) }
{
    format!(in alloc; " {number}")
}

use crate::words::Command;
