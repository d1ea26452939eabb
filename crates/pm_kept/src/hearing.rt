//! Lines that come together.
ghost use Rattle.std.specs.Prelude.{◌≡◌, ◌++◌, [], List, ℕ, true};
ghost use Rattle.pm_journal.specs.Lines.{IsLine};
ghost use Rattle.pm_kept.specs.Kept.{held_lines, AreHeld};
ghost use Rattle.pm_kept.specs.Runs.{Told, HearsAll, TakesFurther};
ghost use Rattle.pm_kept.specs.Said.{said};

use crate::answers::{Answer, Answers};
use crate::keepable::Keepable;
use crate::kept::take;
use pm_journal::Group;
use pm_serve::{LineReader, Reply};
use std::alloc::{AllocError, Global};

/// Where this many bytes are held no further line is taken, for each that is heard copies them.
const ENOUGH: usize = 16_384;

/// Tells the service the line that came, and those that wait behind it, with no read. What they are answered comes to the answers, those
/// that are accepted are held. Says whether further lines are answered.
pub(crate) fn hear_all<S: Keepable>(
    alloc: Global,
    service: &mut S,
    held: &mut Option<Group>,
    lines: &mut LineReader,
    answers: &mut Answers,
) -> bool
    requires good { S.means.good service.old }
    requires held { AreHeld held.old }
    requires line { IsLine lines.old.line }
    requires none { said answers.old ≡ [] }
    requires last { answers.old.last ≡ Answer.None }
    ensures hears { HearsAll S.means service.old service.new lines.old.line lines.old.unread lines.new.unread held.old held.new (said answers.new) result }
    ensures good { S.means.good service.new }
    ensures held { AreHeld held.new }
{
    let mut more = hear(alloc, service, held, lines.line.bytes(), answers);
    while more && take_further(held, lines, answers) {
        more = hear(alloc, service, held, lines.line.bytes(), answers);
    }
    more
}

/// Tells the service a line. Says whether further lines are answered.
fn hear<S: Keepable>(
    alloc: Global,
    service: &mut S,
    held: &mut Option<Group>,
    line: &[u8],
    answers: &mut Answers,
) -> bool
    requires good { S.means.good service.old }
    requires held { AreHeld held.old }
    requires line { IsLine line.now }
    requires last { answers.old.last ≡ Answer.None }
    ensures told { (text : List ℕ) × (new : List (List ℕ)) × Told S.means service.old line.now text result service.new new
        × (said answers.new ≡ said answers.old ++ text) × (held_lines held.new ≡ held_lines held.old ++ new) }
    ensures good { S.means.good service.new }
    ensures held { AreHeld held.new }
{
    match take(alloc, service, held, line) {
        Ok(reply) => {
            let Reply { text, more } = reply;
            answers.put(Answer::Text(text));
            more
        }
        Err(AllocError) => {
            answers.put(Answer::NoMemory);
            true
        }
    }
}

/// Takes a further line, where one waits whole and there is room for it. Nothing is read.
fn take_further(held: &Option<Group>, lines: &mut LineReader, answers: &mut Answers) -> bool
    ensures takes { TakesFurther result lines.old.unread lines.new.unread lines.new.line }
    ensures said { said answers.new ≡ said answers.old }
    ensures last { result ≡ true → answers.new.last ≡ Answer.None }
{
    !is_enough(held) && answers.join() && answers.are_few() && lines.take_waiting()
}

/// Whether so much is held that no further line is taken.
fn is_enough(held: &Option<Group>) -> bool {
    match held {
        Some(group) => group.text.len() >= ENOUGH,
        None => false,
    }
}
