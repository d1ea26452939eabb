//! The lines of an input, and the JSON value of a line.
ghost use Rattle.std.specs.Prelude.{◌≡◌, ◌<◌, [], ◌∷◌, ◌==◌, length, position, option_map, MatchOption, IfOk, IfSome, Some, Ok};
ghost use Rattle.json.specs.Value.{value_view};
ghost use Rattle.serde_json.specs.Data.{Data};
ghost use Rattle.serde_json.specs.Read.{of_json, read};
ghost use Rattle.serde_json.specs.View.{view};
ghost use Rattle.pm_head.specs.Answers.{Gives};
ghost use Rattle.pm_head.specs.Lines.{lines_of, json_of, json_line};

use crate::code::Code;
use crate::fault::LineError;
use json::{Scratch, Value as Tree};
use pm_json::tree_in;
use serde_json::Value;
use std::alloc::{AllocError, Global};
use std::str;

/// The greatest number of bytes of a line, its LF not counted.
const MAX_LINE: usize = 1_048_576;

const LF: u8 = b'\n';

/// The first line, and what follows its LF. There is none in an empty input. It takes no memory.
pub fn first_line(bytes: &[u8]) -> Option<(&[u8], &[u8])>
    ensures lines { MatchOption result (bytes.now ≡ []) (λ p. lines_of bytes.now ≡ p.0.now ∷ lines_of p.1.now) }
    ensures shorter { MatchOption result (bytes.now ≡ []) (λ p. length p.1.now < length bytes.now) }
{
    if bytes.is_empty() {
        return None;
    }
    match end_of_line(bytes) {
        Some(i) => Some((&bytes[..i], &bytes[i + 1..])),
        None => Some((bytes, &[])),
    }
}

/// The place of the first LF.
fn end_of_line(bytes: &[u8]) -> Option<usize>
    ensures { result ≡ position (λ b. b == 10) bytes.now }
{
    bytes.iter().position(|b| *b == LF)
}

/// The JSON value of a text, `None` where it is not UTF-8 or no JSON.
pub fn json_of(alloc: Global, text: &[u8]) -> Result<Option<Value>, AllocError>
    ensures { IfOk result (λ o. option_map view o ≡ json_of text.now) }
{
    match Value::from_slice(alloc, text) {
        Ok(value) => Ok(Some(value)),
        Err(e) => if e.is_memory() {
            Err(AllocError)
        } else {
            Ok(None)
        },
    }
}

/// The JSON value of a line: `LineTooLong` where the line passes 1,048,576 bytes, `NotJson` where it is not UTF-8 or no JSON.
#[tactic(auto, unfolding(crate::specs::Lines::json_line))]
pub fn json_line(alloc: Global, line: &[u8]) -> Result<Value, LineError>
    ensures { Gives view result (json_line line.now) }
{
    if line.len() > MAX_LINE {
        return Err(LineError::Code(Code::LineTooLong));
    }
    match json_of(alloc, line)? {
        Some(value) => Ok(value),
        None => Err(LineError::Code(Code::NotJson)),
    }
}

/// The tree that the line writes, where it is read without a value of the whole line; `None` says nothing of the line.
pub fn tree_line<'a>(
    alloc: Global,
    line: &'a [u8],
    scratch: &'a mut Scratch,
) -> Result<Option<Tree<'a>>, AllocError>
    ensures { IfOk result (λ o. IfSome o (λ t. (d : Data) → of_json (value_view t) ≡ Some d → json_line line.now ≡ Ok d)) }
{
    match line_text(line) {
        Some(text) => tree_in(alloc, text, scratch),
        None => Ok(None),
    }
}

/// The text of a line that is short enough and UTF-8. A value that the text writes is the line's.
fn line_text(line: &[u8]) -> Option<&str>
    ensures { IfSome result (λ t. (d : Data) → read t.now ≡ Some d → json_line line.now ≡ Ok d) }
{
    if line.len() > MAX_LINE {
        return None;
    }
    match str::from_utf8(line) {
        Ok(text) => Some(text),
        Err(_) => None,
    }
}
