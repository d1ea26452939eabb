//! Turns as op lines.
ghost use Rattle.std.specs.Prelude.{◌≡◌, ◌<◌, ◌∷◌, [], IfOk, string_bytes};
ghost use Rattle.pm_gen.specs.Lines.{turn_line, text_line, delete_line, split_line, mark_line, mark_name, push_line, bare_line};
ghost use Rattle.pm_gen.specs.Turns.{IsTyped};

use crate::turns::Turn;
use std::alloc::{AllocError, Global};

/// The op line of a client's turn, with its LF. Keys stand in byte order.
pub(crate) fn turn_line(alloc: Global, client: u32, turn: &Turn) -> Result<String, AllocError>
    requires { IsTyped turn.now }
    ensures { IfOk result (λ s. string_bytes s ≡ turn_line client turn.now) }
{
    match turn {
        Turn::Text { at, letter } => typed_line(alloc, client, *at, char::from(*letter)),
        Turn::Delete { from, to } => delete_line(alloc, client, *from, *to),
        Turn::Split { at } => split_line(alloc, client, *at),
        Turn::AddMark { from, to, strong } => {
            mark_line(alloc, client, *from, *to, mark_name(*strong))
        }
        Turn::Undo => bare_line(alloc, client, "undo"),
        Turn::Redo => bare_line(alloc, client, "redo"),
        Turn::Push { lost } => push_line(alloc, client, *lost),
        Turn::Pull => bare_line(alloc, client, "pull"),
    }
}

fn typed_line(alloc: Global, client: u32, at: u64, letter: char) -> Result<String, AllocError>
    requires { letter < 128 }
    ensures { IfOk result (λ s. string_bytes s ≡ text_line client at (letter ∷ [])) }
{
    let text = letter_text(alloc, letter)?;
    text_line(alloc, client, at, text.as_str())
}

#[tactic(auto, using(std::proofs::lemmas::Str::encode_ascii))]
fn letter_text(alloc: Global, letter: char) -> Result<String, AllocError>
    requires { letter < 128 }
    ensures { IfOk result (λ s. string_bytes s ≡ letter ∷ []) }
{
    let mut text = String::new(alloc);
    text.push(letter)?;
    Ok(text)
}

fn text_line(alloc: Global, client: u32, at: u64, text: &str) -> Result<String, AllocError>
    ensures { IfOk result (λ s. string_bytes s ≡ text_line client at text.now) }
{
    format!(in alloc;
        "{{\"c\":\"c{client}\",\"from\":{at},\"op\":\"text\",\"text\":\"{text}\",\"to\":{at}}}\n"
    )
}

fn delete_line(alloc: Global, client: u32, from: u64, to: u64) -> Result<String, AllocError>
    ensures { IfOk result (λ s. string_bytes s ≡ delete_line client from to) }
{
    format!(in alloc; "{{\"c\":\"c{client}\",\"from\":{from},\"op\":\"delete\",\"to\":{to}}}\n")
}

fn split_line(alloc: Global, client: u32, at: u64) -> Result<String, AllocError>
    ensures { IfOk result (λ s. string_bytes s ≡ split_line client at) }
{
    format!(in alloc; "{{\"c\":\"c{client}\",\"op\":\"split\",\"pos\":{at}}}\n")
}

fn mark_line(
    alloc: Global,
    client: u32,
    from: u64,
    to: u64,
    mark: &str,
) -> Result<String, AllocError>
    ensures { IfOk result (λ s. string_bytes s ≡ mark_line client from to mark.now) }
{
    format!(in alloc;
        "{{\"c\":\"c{client}\",\"from\":{from},\"mark\":{{\"type\":\"{mark}\"}},\"op\":\"addmark\",\"to\":{to}}}\n"
    )
}

fn mark_name(strong: bool) -> &'static str
    ensures { result.now ≡ mark_name strong }
{
    if strong { "strong" } else { "em" }
}

/// A push, whose answer may be lost.
fn push_line(alloc: Global, client: u32, lost: bool) -> Result<String, AllocError>
    ensures { IfOk result (λ s. string_bytes s ≡ push_line client lost) }
{
    if lost {
        format!(in alloc; "{{\"c\":\"c{client}\",\"lost\":true,\"op\":\"push\"}}\n")
    } else {
        bare_line(alloc, client, "push")
    }
}

/// The line of an op that has no further member.
fn bare_line(alloc: Global, client: u32, op: &str) -> Result<String, AllocError>
    ensures { IfOk result (λ s. string_bytes s ≡ bare_line client op.now) }
{
    format!(in alloc; "{{\"c\":\"c{client}\",\"op\":\"{op}\"}}\n")
}
