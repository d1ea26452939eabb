//! The texts of answers: each a line of compact JSON, whose keys stand in byte order.
ghost use Rattle.std.specs.Prelude.{◌≡◌, ◌++◌, codes, decimal, IfOk, OnOk, string_bytes};
ghost use Rattle.pm_talk.specs.Texts.{no_memory, fault_text, opening_fault_text, opened_text, accepted_text, version_text, refused_text};

use pm_head::Code;
use pm_meaning::Reason;
use std::alloc::{AllocError, Global};

/// What a line is answered for which there is no memory. It takes none.
pub fn no_memory() -> &'static [u8]
    ensures { result.now ≡ no_memory }
{
    "{\"fault\":\"memory\"}\n".as_bytes()
}

/// The answer to a line with a fault.
pub fn fault_text(alloc: Global, code: Code) -> Result<String, AllocError>
    ensures { IfOk result (λ s. string_bytes s ≡ fault_text code) }
{
    let number = code.number();
    format!(in alloc; "{{\"fault\":{number}}}\n")
}

/// The answer to a fault of line 1 or 2.
pub fn opening_fault_text(alloc: Global, code: Code, line: u32) -> Result<String, AllocError>
    ensures { IfOk result (λ s. string_bytes s ≡ opening_fault_text code line) }
{
    let number = code.number();
    format!(in alloc; "{{\"fault\":{number},\"line\":{line}}}\n")
}

/// The answer to lines 1 and 2: how many tokens the first document's content has, and the version.
pub(crate) fn opened_text(alloc: Global, size: usize) -> Result<String, AllocError>
    ensures { IfOk result (λ s. string_bytes s ≡ opened_text size) }
{
    format!(in alloc; "{{\"size\":{size},\"version\":0}}\n")
}

/// Steps were accepted: how many, and from which place of the log on they stand.
pub(crate) fn accepted_text(alloc: Global, from: u64, count: u64) -> Result<String, AllocError>
    ensures { IfOk result (λ s. string_bytes s ≡ accepted_text from count) }
{
    format!(in alloc; "{{\"accepted\":{{\"count\":{count},\"from\":{from}}}}}\n")
}

/// The version of a submission is not the log's length, which this tells.
pub(crate) fn version_text(alloc: Global, length: u64) -> Result<String, AllocError>
    ensures { IfOk result (λ s. string_bytes s ≡ version_text length) }
{
    format!(in alloc; "{{\"version\":{length}}}\n")
}

/// A step does not apply: its place in the submission, counted from 0, and the reason by its number, with the place of the
/// fault where it is `Content`.
pub fn refused_text(alloc: Global, index: u64, reason: &Reason) -> Result<String, AllocError>
    ensures { IfOk result (λ s. string_bytes s ≡ refused_text index reason.now) }
{
    let number = reason_number(reason);
    match fault_place(reason) {
        None => format!(in alloc; "{{\"refused\":{{\"index\":{index},\"reason\":{number}}}}}\n"),
        Some(at) => format!(in alloc;
            "{{\"refused\":{{\"at\":{at},\"index\":{index},\"reason\":{number}}}}}\n"
        ),
    }
}

ghost use Rattle.pm_talk.specs.Texts.{reason_number, fault_place};

/// Where the fault is, where the reason is a fault of content.
pub fn fault_place(reason: &Reason) -> Option<usize>
    ensures { result ≡ fault_place reason.now }
{
    match reason {
        Reason::Content { at } => Some(*at),
        Reason::Range
        | Reason::Structure
        | Reason::Gap
        | Reason::Depth
        | Reason::Pair
        | Reason::Join
        | Reason::Large
        | Reason::Deep
        | Reason::NoNode
        | Reason::NoAttribute
        | Reason::BadValue
        | Reason::NotInSchema => None,
    }
}

/// The number by which a report tells a reason.
pub fn reason_number(reason: &Reason) -> u32
    ensures { result ≡ reason_number reason.now }
{
    match reason {
        Reason::Range => 1,
        Reason::Structure => 2,
        Reason::Gap => 3,
        Reason::Depth => 4,
        Reason::Pair => 5,
        Reason::Join => 6,
        Reason::Large => 7,
        Reason::Deep => 8,
        Reason::Content { at: _ } => 9,
        Reason::NoNode => 10,
        Reason::NoAttribute => 11,
        Reason::BadValue => 12,
        Reason::NotInSchema => 13,
    }
}
