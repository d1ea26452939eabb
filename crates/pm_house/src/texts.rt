//! The texts of the house's own answers: each a line of compact JSON, whose keys stand in byte order.
ghost use Rattle.std.specs.Prelude.{◌≡◌, IfOk, string_bytes};
ghost use Rattle.pm_house.specs.Texts.{lack_text, named_text, closed_text};

use std::alloc::{AllocError, Global};

/// What there is none of.
#[derive(Clone, Copy, Debug, PartialEq, Eq)]
pub(crate) enum Lack {
    /// No open document of this name.
    Document,
    /// No schema of this name.
    Schema,
    /// No closed document of this name: it is open.
    Closed,
    /// No room for one more.
    Room,
}

/// The answer that there is none of it.
pub(crate) fn lack_text(alloc: Global, lack: Lack) -> Result<String, AllocError>
    ensures { IfOk result (λ s. string_bytes s ≡ lack_text lack) }
{
    match lack {
        Lack::Document => String::from_str(alloc, "{\"none\":\"document\"}\n"),
        Lack::Schema => String::from_str(alloc, "{\"none\":\"schema\"}\n"),
        Lack::Closed => String::from_str(alloc, "{\"none\":\"closed\"}\n"),
        Lack::Room => String::from_str(alloc, "{\"none\":\"room\"}\n"),
    }
}

/// The answer to a line that gives a schema this name.
pub(crate) fn named_text(alloc: Global, name: &str) -> Result<String, AllocError>
    ensures { IfOk result (λ s. string_bytes s ≡ named_text name.now) }
{
    format!(in alloc; "{{\"schema\":\"{name}\"}}\n")
}

/// The answer to a line that closes the document of this name.
pub(crate) fn closed_text(alloc: Global, name: &str) -> Result<String, AllocError>
    ensures { IfOk result (λ s. string_bytes s ≡ closed_text name.now) }
{
    format!(in alloc; "{{\"closed\":\"{name}\"}}\n")
}
