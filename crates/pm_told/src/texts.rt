//! The texts of answers that hold numbers alone: each a line of compact JSON, whose keys stand in byte order.
ghost use Rattle.std.specs.Prelude.{◌≡◌, IfOk, string_bytes};
ghost use Rattle.pm_told.specs.Texts.{entered_text, none_text, no_event_text, unmade_text, cursor_text, ask_text, stale_text, gap_text, kept_text, confirmed_text};

use pm_change::NoStep;
use pm_meaning::Reason;
use pm_talk::{fault_place, reason_number};
use std::alloc::{AllocError, Global};

/// The answer to lines 1 to 3: how many tokens the document's content has, and the version.
pub fn entered_text(alloc: Global, size: usize, version: u32) -> Result<String, AllocError>
    ensures { IfOk result (λ s. string_bytes s ≡ entered_text size version) }
{
    format!(in alloc; "{{\"size\":{size},\"version\":{version}}}\n")
}

/// No step was made, for this reason.
pub fn none_text(alloc: Global, reason: NoStep) -> Result<String, AllocError>
    ensures { IfOk result (λ s. string_bytes s ≡ none_text reason) }
{
    match reason {
        NoStep::Range => String::from_str(alloc, "{\"none\":\"range\"}\n"),
        NoStep::NotThere => String::from_str(alloc, "{\"none\":\"place\"}\n"),
        NoStep::NoFit => String::from_str(alloc, "{\"none\":\"fit\"}\n"),
    }
}

/// There is no event to undo or to redo.
pub fn no_event_text(alloc: Global) -> Result<String, AllocError>
    ensures { IfOk result (λ s. string_bytes s ≡ no_event_text) }
{
    String::from_str(alloc, "{\"none\":\"event\"}\n")
}

/// The step of an edit does not apply: the reason by its number, with the place of the fault where it is `Content`.
pub fn unmade_text(alloc: Global, reason: &Reason) -> Result<String, AllocError>
    ensures { IfOk result (λ s. string_bytes s ≡ unmade_text reason.now) }
{
    let number = reason_number(reason);
    match fault_place(reason) {
        None => format!(in alloc; "{{\"refused\":{{\"reason\":{number}}}}}\n"),
        Some(at) => format!(in alloc; "{{\"refused\":{{\"at\":{at},\"reason\":{number}}}}}\n"),
    }
}

/// A cursor was set: its place among the cursors, and its position.
pub fn cursor_text(alloc: Global, place: usize, pos: u64) -> Result<String, AllocError>
    ensures { IfOk result (λ s. string_bytes s ≡ cursor_text place pos) }
{
    format!(in alloc; "{{\"cursor\":{place},\"pos\":{pos}}}\n")
}

/// The message that asks for what is past the version.
pub fn ask_text(alloc: Global, version: u64) -> Result<String, AllocError>
    ensures { IfOk result (λ s. string_bytes s ≡ ask_text version) }
{
    format!(in alloc; "{{\"message\":{{\"op\":\"since\",\"version\":{version}}}}}\n")
}

/// The answer that was taken holds nothing past the version.
pub fn stale_text(alloc: Global, version: u64) -> Result<String, AllocError>
    ensures { IfOk result (λ s. string_bytes s ≡ stale_text version) }
{
    format!(in alloc; "{{\"stale\":{version}}}\n")
}

/// The answer that was taken does not follow the version.
pub fn gap_text(alloc: Global, version: u64) -> Result<String, AllocError>
    ensures { IfOk result (λ s. string_bytes s ≡ gap_text version) }
{
    format!(in alloc; "{{\"gap\":{version}}}\n")
}

/// The submission came to nothing, and so many steps stay pending.
pub fn kept_text(alloc: Global, pending: usize) -> Result<String, AllocError>
    ensures { IfOk result (λ s. string_bytes s ≡ kept_text pending) }
{
    format!(in alloc; "{{\"kept\":{pending}}}\n")
}

/// The first pending steps are confirmed: how many, and the version after them.
pub fn confirmed_text(alloc: Global, count: u64, version: u64) -> Result<String, AllocError>
    ensures { IfOk result (λ s. string_bytes s ≡ confirmed_text count version) }
{
    format!(in alloc; "{{\"confirmed\":{count},\"version\":{version}}}\n")
}
