//! The open documents.
ghost use Rattle.std.specs.Prelude.{◌≡◌, ◌<◌, ◌≤◌, ◌++◌, ◌∷◌, [], ℕ, length, false, is_some, All, Some, IfOk, IfSome, OnOk, OnErr, slice_get, slice_set, remove, string_bytes};
ghost use Rattle.std.specs.List.{list_any};
ghost use Rattle.std.specs.Str.{bytes_eq};
ghost use Rattle.serde_json.specs.View.{view};
ghost use Rattle.pm_schema.specs.Names.{place_of};
ghost use Rattle.pm_archive.specs.declared.archive.Archive.{Archive as AnArchive};
ghost use Rattle.pm_archive.specs.Archives.{IsArchive};
ghost use Rattle.pm_archive.specs.Answers.{answered};
ghost use Rattle.pm_house.specs.Found.{names_of};

use crate::names::Names;
use pm_archive::Archive;
use pm_order::DocWord;
use serde_json::Value;
use std::alloc::{AllocError, Global};
use std::marker::Model;

/// The open documents in the order in which they were opened, each found by its name. A contract sees the list of them.
#[derive(Drop)]
pub struct Documents {
    names: Names,
    archives: Vec<Archive>,
}

impl Model for Documents {
    ghost use Rattle.std.specs.Prelude.{◌≡◌, List};
    ghost use Rattle.std.specs.Coded.{coded_list};
    ghost use Rattle.pm_archive.specs.declared.archive.Archive.{Archive};
    ghost use Rattle.pm_archive.specs.contracts.archive.Archive as archive_row;

    ghost Value = { List Archive };

    ghost coded = { coded_list archive_row.the_row.coded };

    ghost use Rattle.pm_house.specs.Found.{names_of};

    ghost view = { λ d. d.archives.items };

    ghost invariant = { λ d. d.names ≡ names_of d.archives.items };
}

impl Documents {
    /// No document. It takes no memory.
    pub fn new(alloc: Global) -> Documents
        ensures { result ≡ [] }
    {
        Documents {
            names: Names::new(alloc),
            archives: Vec::new(alloc),
        }
    }

    /// All documents.
    pub fn as_slice(&self) -> &[Archive]
        ensures { result.now ≡ self.now }
    {
        self.archives.as_slice()
    }

    /// The place of the document with this name. It takes no memory.
    pub fn place(&self, name: &str) -> Option<usize>
        ensures place { result ≡ place_of name.now (names_of self.now) }
        ensures has { is_some result ≡ list_any (bytes_eq name.now) (names_of self.now) }
        ensures within { IfSome result (λ n. n < length self.now) }
    {
        self.names.place(name)
    }

    /// Puts a document behind the last one, of whose name there is none. Out of memory, all stays as it was.
    pub fn add(&mut self, alloc: Global, archive: Archive) -> Result<(), AllocError>
        requires { list_any (bytes_eq archive.name) (names_of self.old) ≡ false }
        ensures ok { OnOk result (self.new ≡ self.old ++ archive ∷ []) }
        ensures err { OnErr result (self.new ≡ self.old) }
    {
        let place = self.archives.len();
        self.names.add(alloc, archive.name.as_str())?;
        match self.archives.push(archive) {
            Ok(()) => Ok(()),
            Err(_) => {
                self.names.truncate(place);
                Err(AllocError)
            }
        }
    }

    /// Takes the document at the place out. Those behind it move up.
    pub fn remove(&mut self, place: usize)
        requires { place < length self.old }
        ensures { self.new ≡ remove self.old place }
    {
        self.names.remove(place);
        let _archive = self.archives.remove(place);
    }

    /// The answer of the document at the place to a line of this word. Out of memory changes nothing.
    pub fn answer(
        &mut self,
        alloc: Global,
        place: usize,
        word: DocWord,
        json: &Value,
    ) -> Result<String, AllocError>
        requires inside { place < length self.old }
        requires good { All IsArchive self.old }
        ensures text { (a : AnArchive) → slice_get self.old place ≡ Some a → IfOk result (λ s. string_bytes s ≡ (answered a word (view json.now)).0) }
        ensures after { (a : AnArchive) → slice_get self.old place ≡ Some a → OnOk result (self.new ≡ slice_set self.old place (answered a word (view json.now)).1) }
        ensures err { OnErr result (self.new ≡ self.old) }
        ensures good { All IsArchive self.new }
    {
        let archive = &mut self.archives[place];
        archive.answer(alloc, word, json)
    }
}
