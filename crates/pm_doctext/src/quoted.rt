//! Strings of JSON.
ghost use Rattle.std.specs.Prelude.{◌≡◌, [], ◌∷◌, ◌++◌, true, false, OnOk, string_bytes};
ghost use Rattle.json.specs.Print.{escape, escape_byte, quoted};
ghost use Rattle.pm_text.specs.Units.{utf8};
ghost use Rattle.pm_tokens.specs.Scan.{part};

use pm_node::Units;
use serde_json::Value as Json;
use std::alloc::{AllocError, Global};

/// Appends a word to the text, as a string of JSON: in quotes, with the shortest escapes.
pub(crate) fn push_quoted(alloc: Global, text: &mut String, word: &str) -> Result<(), AllocError>
    ensures { OnOk result (string_bytes text.new ≡ string_bytes text.old ++ quoted word.now) }
{
    if is_plain(word) {
        push_plain(text, word)
    } else {
        push_escaped(alloc, text, word)
    }
}

/// The same of a word that has nothing to escape.
fn push_plain(text: &mut String, word: &str) -> Result<(), AllocError>
    requires { escape word.now ≡ word.now }
    ensures { OnOk result (string_bytes text.new ≡ string_bytes text.old ++ quoted word.now) }
{
    text.push_str("\"")?;
    text.push_str(word)?;
    text.push_str("\"")
}

/// The same of any word.
fn push_escaped(alloc: Global, text: &mut String, word: &str) -> Result<(), AllocError>
    ensures { OnOk result (string_bytes text.new ≡ string_bytes text.old ++ quoted word.now) }
{
    let value = Json::try_from_str(alloc, word)?;
    let quoted = value.to_string(alloc)?;
    text.push_str(quoted.as_str())
}

/// Whether a word has nothing to escape. Each byte is looked at, without a way out, so that many are looked at together.
fn is_plain(word: &str) -> bool
    ensures { result ≡ true → escape word.now ≡ word.now }
{
    let mut any = false;
    for byte in word.as_bytes() {
        any |= is_escaped(*byte);
    }
    !any
}

/// Whether an escape stands for the byte: for a quote, a backslash and what is below a blank.
#[tactic(auto, unfolding(json::specs::Print::escape_byte))]
fn is_escaped(byte: u8) -> bool
    ensures { result ≡ false → escape_byte byte ≡ byte ∷ [] }
{
    byte < 32 || byte == 34 || byte == 92
}

/// Appends the text that the units from..to spell to the text, as a string of JSON, with U+FFFD for each unit of no pair.
pub(crate) fn push_units(
    alloc: Global,
    text: &mut String,
    units: &Units,
    from: usize,
    to: usize,
) -> Result<(), AllocError>
    ensures { OnOk result (string_bytes text.new ≡ string_bytes text.old ++ quoted (utf8 (part from to units.now))) }
{
    let word = units.part_text(alloc, from, to)?;
    push_quoted(alloc, text, word.as_str())
}
