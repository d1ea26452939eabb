//! Where positions of the document at a version stand in the document at a later one.
ghost use Rattle.std.specs.Prelude.{◌≡◌, ◌-◌, ◌≤◌, ◌++◌, false, codes, decimal, Some, IfOk, OnOk, string_bytes};
ghost use Rattle.serde_json.specs.Written.{comma_if};
ghost use Rattle.pm_archive.specs.Archives.{IsArchive, version_of};
ghost use Rattle.pm_archive.specs.Mapping.{all_within, moved_text, place_items, place_text, places_text};
ghost use Rattle.pm_archive.specs.Answers.{doc_at, entries_from, mapped_text};

use crate::archive::Archive;
use crate::texts::{from_text, version_text};
use crate::writing::{push_item, push_truth, push_version};
use pm_anchors::{anchored, are_within};
use pm_change::NoStep;
use pm_client::Cursor;
use pm_map::Moved;
use pm_told::none_text;
use std::alloc::{AllocError, Global};

impl Archive {
    /// Where positions of the document at the version `from` stand in the one at the version `to`, each by its side.
    pub(crate) fn map_positions(
        &self,
        alloc: Global,
        from: u32,
        to: u32,
        anchors: &[Cursor],
    ) -> Result<String, AllocError>
        requires { IsArchive self.now }
        ensures { IfOk result (λ s. string_bytes s ≡ mapped_text self.now from to anchors.now) }
    {
        if from < self.from {
            return from_text(alloc, self.from);
        }
        if u64::from(to) > self.version() {
            return version_text(alloc, self.version());
        }
        if to < from {
            return none_text(alloc, NoStep::Range);
        }
        self.map_kept(alloc, from, to, anchors)
    }

    /// The same of versions that are kept, and in order.
    fn map_kept(
        &self,
        alloc: Global,
        from: u32,
        to: u32,
        anchors: &[Cursor],
    ) -> Result<String, AllocError>
        requires good { IsArchive self.now }
        requires kept { self.now.from ≤ from }
        requires order { from ≤ to }
        requires behind { to ≤ version_of self.now }
        ensures { IfOk result (λ s. string_bytes s ≡ moved_text to (entries_from self.now from (Some (to - from))) anchors.now (doc_at self.now from)) }
    {
        let doc = self.old_doc(alloc, from)?;
        if !all_within(anchors, doc.size()) {
            return none_text(alloc, NoStep::Range);
        }
        let entries = self.entries_from(from, Some(to - from));
        let places = anchored(alloc, entries, anchors)?;
        places_text(alloc, places.as_slice(), to)
    }
}

/// Whether each is a position of a document of this size.
fn all_within(anchors: &[Cursor], size: usize) -> bool
    ensures { result ≡ all_within size anchors.now }
{
    are_within(anchors, size)
}

/// Positions in the document at the version.
fn places_text(alloc: Global, places: &[Moved], version: u32) -> Result<String, AllocError>
    ensures { IfOk result (λ s. string_bytes s ≡ places_text places.now version) }
{
    let mut text = String::new(alloc);
    text.push_str("{\"positions\":[")?;
    push_places(alloc, &mut text, places)?;
    push_version(&mut text, u64::from(version))?;
    Ok(text)
}

/// Appends positions to the text, and the end of their list.
fn push_places(alloc: Global, text: &mut String, places: &[Moved]) -> Result<(), AllocError>
    ensures { OnOk result (string_bytes text.new ≡ string_bytes text.old ++ place_items false places.now) }
{
    let mut later = false;
    for place in places {
        push_place(alloc, text, later, place)?;
        later = true;
    }
    text.push_str("]")
}

/// Appends a position, the first one of a list or a later one.
fn push_place(
    alloc: Global,
    text: &mut String,
    later: bool,
    place: &Moved,
) -> Result<(), AllocError>
    ensures { OnOk result (string_bytes text.new ≡ string_bytes text.old ++ (comma_if later ++ place_text place.now)) }
{
    let item = place_text(alloc, place)?;
    push_item(text, later, item.as_str())
}

/// A position, and whether the token on its side was taken out.
fn place_text(alloc: Global, place: &Moved) -> Result<String, AllocError>
    ensures { IfOk result (λ s. string_bytes s ≡ place_text place.now) }
{
    let mut text = front_text(alloc, place.pos)?;
    push_truth(&mut text, place.deleted)?;
    text.push_str("]")?;
    Ok(text)
}

/// A position, up to what follows it.
fn front_text(alloc: Global, pos: u64) -> Result<String, AllocError>
    ensures { IfOk result (λ s. string_bytes s ≡ codes "[" ++ (decimal pos ++ codes ",")) }
{
    format!(in alloc; "[{pos},")
}
