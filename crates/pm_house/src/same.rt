//! Houses compared.
ghost use Rattle.std.specs.Prelude.{◌≡◌, IfOk};
ghost use Rattle.std.specs.Cmp.Lexicographic.{pointwise};
ghost use Rattle.pm_archive.specs.Same.{same_archive};
ghost use Rattle.pm_house.specs.Same.{same_kind, same_house};

use crate::house::House;
use crate::kind::Kind;
use pm_archive::Archive;
use std::alloc::{AllocError, Global};

impl House {
    /// Whether the other house is the same: its schemas by name and text, and its documents, each by `Archive::is_same`, all in the same
    /// order. The error is running out of memory.
    pub fn is_same(&self, alloc: Global, other: &House) -> Result<bool, AllocError>
        ensures { IfOk result (λ is. is ≡ same_house self.now other.now) }
    {
        if !same_kinds(self.schemas.as_slice(), other.schemas.as_slice()) {
            return Ok(false);
        }
        same_archives(alloc, self.documents.as_slice(), other.documents.as_slice())
    }
}

/// Whether both are the same schemas under the same names, in the same order.
fn same_kinds(kinds: &[Kind], others: &[Kind]) -> bool
    ensures { result ≡ pointwise same_kind kinds.now others.now }
{
    if kinds.len() != others.len() {
        return false;
    }
    for i in 0..kinds.len() {
        if !same_kind(&kinds[i], &others[i]) {
            return false;
        }
    }
    true
}

/// Whether both have the same name and the same text.
fn same_kind(kind: &Kind, other: &Kind) -> bool
    ensures { result ≡ same_kind kind.now other.now }
{
    kind.name.as_str() == other.name.as_str() && kind.text.as_str() == other.text.as_str()
}

/// Whether both are the same documents in the same order.
fn same_archives(
    alloc: Global,
    archives: &[Archive],
    others: &[Archive],
) -> Result<bool, AllocError>
    ensures { IfOk result (λ is. is ≡ pointwise same_archive archives.now others.now) }
{
    if archives.len() != others.len() {
        return Ok(false);
    }
    for i in 0..archives.len() {
        if !archives[i].is_same(alloc, &others[i])? {
            return Ok(false);
        }
    }
    Ok(true)
}
