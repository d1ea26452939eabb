//! What is counted of a house, to tell whether a line changed it.
ghost use Rattle.std.specs.Prelude.{◌≡◌};
ghost use Rattle.pm_house.specs.Marks.{sizes_of, same_sizes, same_mark};

use pm_archive::Archive;

/// How many schemas and documents there are, and the sizes of the document that a line names, where it was before the line.
#[derive(Clone, Copy, Debug, PartialEq, Eq)]
pub(crate) struct Mark {
    pub schemas: usize,
    pub documents: usize,
    pub at: Option<Sizes>,
}

/// The first kept version of a document, and how many entries its log has.
#[derive(Clone, Copy, Debug, PartialEq, Eq)]
pub(crate) struct Sizes {
    pub from: u32,
    pub entries: usize,
}

/// The sizes of a document.
pub(crate) fn sizes_of(archive: &Archive) -> Sizes
    ensures { result ≡ sizes_of archive.now }
{
    Sizes {
        from: archive.from,
        entries: archive.log.len(),
    }
}

/// Whether two marks are the same.
pub(crate) fn is_same(one: Mark, other: Mark) -> bool
    ensures { result ≡ same_mark one other }
{
    one.schemas == other.schemas
        && one.documents == other.documents
        && is_same_size(one.at, other.at)
}

/// Whether two documents have the same sizes, or there is none.
fn is_same_size(one: Option<Sizes>, other: Option<Sizes>) -> bool
    ensures { result ≡ same_sizes one other }
{
    match (one, other) {
        (Some(a), Some(b)) => a.from == b.from && a.entries == b.entries,
        (None, None) => true,
        _ => false,
    }
}
