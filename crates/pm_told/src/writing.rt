//! Lists of numbers and of steps in the text of an answer.
ghost use Rattle.std.specs.Prelude.{◌≡◌, ◌++◌, false, codes, decimal, OnOk, string_bytes};
ghost use Rattle.serde_json.specs.Written.{comma_if, compact_text};
ghost use Rattle.pm_stepjson.specs.Writing.{step_written};
ghost use Rattle.pm_told.specs.Texts.{numbers_text, changes_text, pairs_text};

use pm_apply::DocChange;
use pm_schema::Schema;
use pm_stepjson::step_text;
use std::alloc::{AllocError, Global};

/// Appends a list of numbers, with its brackets.
pub fn push_numbers(text: &mut String, numbers: &[u64]) -> Result<(), AllocError>
    ensures { OnOk result (string_bytes text.new ≡ string_bytes text.old ++ numbers_text numbers.now) }
{
    text.push_str("[")?;
    let mut later = false;
    for number in numbers {
        push_number(text, later, *number)?;
        later = true;
    }
    text.push_str("]")
}

/// Appends a number of a list, the first one or a later one.
fn push_number(text: &mut String, later: bool, number: u64) -> Result<(), AllocError>
    ensures { OnOk result (string_bytes text.new ≡ string_bytes text.old ++ (comma_if later ++ decimal number)) }
{
    if later {
        text.push_str(",")?;
    }
    write!(text, "{number}")
}

/// Appends a list of steps, with its brackets.
pub fn push_changes(
    alloc: Global,
    schema: &Schema,
    text: &mut String,
    steps: &[DocChange],
) -> Result<(), AllocError>
    ensures { OnOk result (string_bytes text.new ≡ string_bytes text.old ++ changes_text schema.now.spec steps.now) }
{
    text.push_str("[")?;
    let mut later = false;
    for step in steps {
        push_change(alloc, schema, text, later, step)?;
        later = true;
    }
    text.push_str("]")
}

/// Appends a step of a list, the first one or a later one.
fn push_change(
    alloc: Global,
    schema: &Schema,
    text: &mut String,
    later: bool,
    step: &DocChange,
) -> Result<(), AllocError>
    ensures { OnOk result (string_bytes text.new ≡ string_bytes text.old ++ (comma_if later ++ compact_text (step_written schema.now.spec step.now))) }
{
    let written = step_text(alloc, schema, step.step())?;
    if later {
        text.push_str(",")?;
    }
    text.push_str(written.as_str())
}

/// Appends a list of pairs of numbers, with its brackets.
pub fn push_pairs(text: &mut String, pairs: &[(u64, u64)]) -> Result<(), AllocError>
    ensures { OnOk result (string_bytes text.new ≡ string_bytes text.old ++ pairs_text pairs.now) }
{
    text.push_str("[")?;
    let mut later = false;
    for pair in pairs {
        push_pair(text, later, pair.0, pair.1)?;
        later = true;
    }
    text.push_str("]")
}

/// Appends a pair of a list, the first one or a later one.
fn push_pair(text: &mut String, later: bool, a: u64, b: u64) -> Result<(), AllocError>
    ensures { OnOk result (string_bytes text.new ≡ string_bytes text.old ++ (comma_if later ++ (codes "[" ++ (decimal a ++ (codes "," ++ (decimal b ++ codes "]")))))) }
{
    if later {
        text.push_str(",")?;
    }
    write!(text, "[{a},{b}]")
}
