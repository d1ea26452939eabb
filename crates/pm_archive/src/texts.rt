//! The texts of answers: each a line of compact JSON, whose keys stand in byte order.
ghost use Rattle.std.specs.Prelude.{◌≡◌, IfOk, string_bytes};
ghost use Rattle.pm_talk.specs.Texts.{accepted_text, version_text};
ghost use Rattle.pm_archive.specs.Texts.{opened_text, from_text};

use std::alloc::{AllocError, Global};

/// The answer to a line that opens a document: how many tokens its content has, and its version.
pub fn opened_text(alloc: Global, size: usize, version: u32) -> Result<String, AllocError>
    ensures { IfOk result (λ s. string_bytes s ≡ opened_text size version) }
{
    format!(in alloc; "{{\"size\":{size},\"version\":{version}}}\n")
}

/// What lies before this version was let go.
pub(crate) fn from_text(alloc: Global, from: u32) -> Result<String, AllocError>
    ensures { IfOk result (λ s. string_bytes s ≡ from_text from) }
{
    format!(in alloc; "{{\"from\":{from}}}\n")
}

/// Steps were accepted: how many, and from which place of the log on they stand.
pub(crate) fn accepted_text(alloc: Global, from: u64, count: u64) -> Result<String, AllocError>
    ensures { IfOk result (λ s. string_bytes s ≡ accepted_text from count) }
{
    format!(in alloc; "{{\"accepted\":{{\"count\":{count},\"from\":{from}}}}}\n")
}

/// A version is not the document's, which this tells.
pub(crate) fn version_text(alloc: Global, version: u64) -> Result<String, AllocError>
    ensures { IfOk result (λ s. string_bytes s ≡ version_text version) }
{
    format!(in alloc; "{{\"version\":{version}}}\n")
}
