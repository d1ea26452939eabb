//! Lists of numbers as JSON texts.
ghost use Rattle.std.specs.Prelude.{◌≡◌, ◌++◌, map, decimal, false, IfOk, OnOk, string_bytes};
ghost use Rattle.serde_json.specs.Written.{comma_if, items_text};
ghost use Rattle.pm_authority.specs.declared.named.Named.{Named};
ghost use Rattle.pm_report.specs.Words.{◌&◌, list_text, number_items};
ghost use Rattle.pm_report.specs.Report.{serial_of, place_of};

use pm_apply::DocChange;
use pm_authority::Named;
use pm_client::Cursor;
use std::alloc::{AllocError, Global};

/// Appends a blank and the serials of steps, as a list, to the text.
pub(crate) fn push_serials(
    alloc: Global,
    text: &mut String,
    steps: &[Named<DocChange>],
) -> Result<(), AllocError>
    ensures { OnOk result (string_bytes text.new ≡ string_bytes text.old & list_text (map serial_of steps.now)) }
{
    let serials = serials_of(alloc, steps)?;
    push_numbers(text, &serials)
}

/// The serials of steps, whatever these change.
fn serials_of<C>(alloc: Global, steps: &[Named<C>]) -> Result<Vec<u64>, AllocError>
    ensures { IfOk result (λ v. v.items ≡ map (λ (n : Named C). n.name.serial) steps.now) }
{
    steps.iter().map(|step| step.name.serial).collect(alloc)
}

/// Appends a blank and the positions of cursors, as a list, to the text.
pub(crate) fn push_cursors(
    alloc: Global,
    text: &mut String,
    cursors: &[Cursor],
) -> Result<(), AllocError>
    ensures { OnOk result (string_bytes text.new ≡ string_bytes text.old & list_text (map place_of cursors.now)) }
{
    let places = places_of(alloc, cursors)?;
    push_numbers(text, &places)
}

fn places_of(alloc: Global, cursors: &[Cursor]) -> Result<Vec<u64>, AllocError>
    ensures { IfOk result (λ v. v.items ≡ map place_of cursors.now) }
{
    cursors.iter().map(|cursor| cursor.pos).collect(alloc)
}

/// Appends a blank and numbers, as a list, to the text.
pub(crate) fn push_numbers(text: &mut String, numbers: &[u64]) -> Result<(), AllocError>
    ensures { OnOk result (string_bytes text.new ≡ string_bytes text.old & list_text numbers.now) }
{
    text.push_str(" [")?;
    push_items(text, numbers)
}

/// The numbers of a list, and its end.
fn push_items(text: &mut String, numbers: &[u64]) -> Result<(), AllocError>
    ensures { OnOk result (string_bytes text.new ≡ string_bytes text.old ++ items_text false (number_items numbers.now)) }
{
    let mut later = false;
    for number in numbers {
        push_number(text, later, *number)?;
        later = true;
    }
    text.push_str("]")
}

/// A number, which is the first one of a list or a later one.
fn push_number(text: &mut String, later: bool, number: u64) -> Result<(), AllocError>
    ensures { OnOk result (string_bytes text.new ≡ string_bytes text.old ++ (comma_if later ++ decimal number)) }
{
    if later {
        write!(text, ",{number}")
    } else {
        write!(text, "{number}")
    }
}
