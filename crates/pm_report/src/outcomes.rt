//! What became of a line, in words.
ghost use Rattle.std.specs.Prelude.{◌≡◌, ◌++◌, codes, decimal, IfOk, OnOk, string_bytes};
ghost use Rattle.pm_report.specs.Words.{◌&◌, line};
ghost use Rattle.pm_report.specs.Outcomes.{reason_text, refused_text, told_text, taken_text, end_text, outcome_text, with_numbers, outcome_lines};

use pm_apply::DocChange;
use pm_change::NoStep;
use pm_client::Taken;
use pm_meaning::Reason;
use pm_ops::Op;
use pm_session::{AnswerSummary, Line, Outcome};
use std::alloc::{AllocError, Global};

/// What became of a line, with the number of the line in its file, from 1.
#[derive(Drop)]
pub struct Numbered {
    pub number: u32,
    pub outcome: Outcome<DocChange>,
}

/// The outcomes of these lines in their order, each with its line's number. There is one for each line.
pub fn with_numbers(
    alloc: Global,
    lines: &[Line<Op, DocChange>],
    outcomes: Vec<Outcome<DocChange>>,
) -> Result<Vec<Numbered>, AllocError>
    ensures { IfOk result (λ v. v.items ≡ with_numbers lines.now outcomes.items) }
{
    let mut told = Vec::with_capacity(alloc, lines.len())?;
    let mut rest = outcomes.into_iter();
    for line in lines {
        let Some(outcome) = rest.next() else {
            return Ok(told);
        };
        told.push(Numbered {
            number: line.number,
            outcome,
        })?;
    }
    Ok(told)
}

/// Appends the number of each outcome's line and what it says to the text.
pub(crate) fn push_outcomes(text: &mut String, outcomes: &[Numbered]) -> Result<(), AllocError>
    ensures { OnOk result (string_bytes text.new ≡ string_bytes text.old ++ outcome_lines outcomes.now) }
{
    for outcome in outcomes {
        push_numbered(text, outcome)?;
    }
    Ok(())
}

fn push_numbered(text: &mut String, of: &Numbered) -> Result<(), AllocError>
    ensures { OnOk result (string_bytes text.new ≡ string_bytes text.old ++ line (decimal of.now.number & outcome_text of.now.outcome)) }
{
    write!(text, "{} ", of.number)?;
    push_outcome(text, &of.outcome)?;
    text.push_str("\n")
}

/// What became of a line.
fn push_outcome(text: &mut String, outcome: &Outcome<DocChange>) -> Result<(), AllocError>
    ensures { OnOk result (string_bytes text.new ≡ string_bytes text.old ++ outcome_text outcome.now) }
{
    match outcome {
        Outcome::Made { count } => write!(text, "made {count}"),
        Outcome::Nothing => text.push_str("nothing"),
        Outcome::NoStep(NoStep::Range) => text.push_str("no range"),
        Outcome::NoStep(NoStep::NotThere) => text.push_str("no place"),
        Outcome::NoStep(NoStep::NoFit) => text.push_str("no fit"),
        Outcome::Refused { index, reason } => push_refused(text, *index, reason),
        Outcome::CursorAt { pos } => write!(text, "cursor {pos}"),
        Outcome::Composed { number } => write!(text, "composed {number}"),
        Outcome::Answered { told } => push_told(text, told),
        Outcome::Took { taken } => push_taken(text, *taken),
        Outcome::Exchanged { told, taken } => push_exchanged(text, told, *taken),
        Outcome::Entered { version } => write!(text, "entered {version}"),
    }
}

fn push_exchanged(
    text: &mut String,
    told: &AnswerSummary<DocChange>,
    taken: Option<Taken>,
) -> Result<(), AllocError>
    ensures { OnOk result (string_bytes text.new ≡ string_bytes text.old ++ (told_text told.now ++ codes ";" & end_text taken)) }
{
    push_told(text, told)?;
    text.push_str("; ")?;
    push_end(text, taken)
}

fn push_told(text: &mut String, told: &AnswerSummary<DocChange>) -> Result<(), AllocError>
    ensures { OnOk result (string_bytes text.new ≡ string_bytes text.old ++ told_text told.now) }
{
    match told {
        AnswerSummary::Accepted { from, count } => write!(text, "accepted {from} {count}"),
        AnswerSummary::Version { length } => write!(text, "version {length}"),
        AnswerSummary::Refused { index, reason } => push_refused(text, *index, reason),
        AnswerSummary::Entries { since, count } => write!(text, "entries {since} {count}"),
    }
}

/// What became of an exchange's answer.
fn push_end(text: &mut String, taken: Option<Taken>) -> Result<(), AllocError>
    ensures { OnOk result (string_bytes text.new ≡ string_bytes text.old ++ end_text taken) }
{
    match taken {
        None => text.push_str("lost"),
        Some(taken) => push_taken(text, taken),
    }
}

fn push_taken(text: &mut String, taken: Taken) -> Result<(), AllocError>
    ensures { OnOk result (string_bytes text.new ≡ string_bytes text.old ++ taken_text taken) }
{
    match taken {
        Taken::Confirmed { own } => write!(text, "confirmed {own}"),
        Taken::Rebased {
            own,
            foreign,
            dropped,
        } => write!(text, "rebased {own} {foreign} {dropped}"),
        Taken::Stale => text.push_str("stale"),
        Taken::Refused => text.push_str("kept"),
    }
}

fn push_refused(text: &mut String, index: u64, reason: &Reason) -> Result<(), AllocError>
    ensures { OnOk result (string_bytes text.new ≡ string_bytes text.old ++ refused_text index reason.now) }
{
    write!(text, "refused {index} ")?;
    push_reason(text, reason)
}

/// The number of a reason, and the place of a fault.
fn push_reason(text: &mut String, reason: &Reason) -> Result<(), AllocError>
    ensures { OnOk result (string_bytes text.new ≡ string_bytes text.old ++ reason_text reason.now) }
{
    match reason {
        Reason::Range => text.push_str("1"),
        Reason::Structure => text.push_str("2"),
        Reason::Gap => text.push_str("3"),
        Reason::Depth => text.push_str("4"),
        Reason::Pair => text.push_str("5"),
        Reason::Join => text.push_str("6"),
        Reason::Large => text.push_str("7"),
        Reason::Deep => text.push_str("8"),
        Reason::Content { at } => write!(text, "9 {at}"),
        Reason::NoNode => text.push_str("10"),
        Reason::NoAttribute => text.push_str("11"),
        Reason::BadValue => text.push_str("12"),
        Reason::NotInSchema => text.push_str("13"),
    }
}
