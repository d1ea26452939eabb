//! Sessions played in file order, with the lines told that undid an event that lies apart.
ghost use Rattle.std.specs.Prelude.{◌≡◌, ◌++◌, string_bytes, IfOk, OnOk};
ghost use Rattle.pm_call.specs.Selecting.{IsSelected, apart_line, words_of};
ghost use Rattle.pm_script.specs.Held.{Holds};

use crate::replaying::{open, report_of};
use crate::running::number_word;
use pm_making::EditMaker;
use pm_script::Session;
use pm_selective::play_all;
use std::alloc::{AllocError, Global};

/// The line `apart` and the report of a session, whose lines are played in file order.
pub fn select(alloc: Global, session: &Session) -> Result<String, AllocError>
    requires { Holds session.now }
    ensures { IfOk result (λ s. IsSelected session.now (string_bytes s)) }
{
    let schema = &session.head.schema;
    let lines = session.lines.as_slice();
    let mut room = open(alloc, session)?;
    let played = play_all(alloc, &mut room, schema, &EditMaker, lines)?;
    let mut text = apart_line(alloc, &played.apart)?;
    text.push_str(report_of(alloc, session, room, played.outcomes)?.as_str())?;
    Ok(text)
}

/// The line `apart` with these numbers.
fn apart_line(alloc: Global, numbers: &[u32]) -> Result<String, AllocError>
    ensures { IfOk result (λ s. string_bytes s ≡ apart_line numbers.now) }
{
    let mut text = String::from_str(alloc, "apart")?;
    push_numbers(alloc, &mut text, numbers)?;
    text.push('\n')?;
    Ok(text)
}

/// Appends each number to the text, a blank before each.
fn push_numbers(alloc: Global, text: &mut String, numbers: &[u32]) -> Result<(), AllocError>
    ensures { OnOk result (string_bytes text.new ≡ string_bytes text.old ++ words_of numbers.now) }
{
    for number in numbers {
        text.push_str(number_word(alloc, *number)?.as_str())?;
    }
    Ok(())
}
