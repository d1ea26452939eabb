//! The IDs of clients, with their numbers.
ghost use Rattle.std.specs.Prelude.{◌≡◌, ◌≤◌, ◌<◌, ◌++◌, ◌∷◌, [], length, take, false, is_some, IfSome, OnOk, OnErr};
ghost use Rattle.std.specs.List.{list_any};
ghost use Rattle.std.specs.Str.{bytes_eq};
ghost use Rattle.pm_talk.specs.Ids.{id_at};
ghost use Rattle.pm_talk.specs.declared.ids.TheConstants.{MAX_IDS};
ghost use Rattle.pm_schema.specs.Names.{place_of};

use indexmap::IndexSet;
use std::alloc::{AllocError, Global};
use std::marker::Model;

/// The greatest number of IDs.
pub(crate) const MAX_IDS: usize = 4_294_967_295;

/// The IDs of clients in order, none of them twice, each as its JSON text and found by a hash. An ID's number is its place,
/// counted from 0. A contract sees the list of the texts.
#[derive(Drop)]
pub struct ClientIds {
    ids: IndexSet<String>,
}

impl Model for ClientIds {
    ghost use Rattle.std.specs.Prelude.{◌≤◌, ℕ, List, map, length, string_bytes};
    ghost use Rattle.pm_talk.specs.declared.ids.TheConstants.{MAX_IDS};

    ghost Value = { List (List ℕ) };

    ghost view = { λ t. map string_bytes t.ids.keys };

    ghost invariant = { λ t. length t.ids.keys ≤ MAX_IDS };
}

impl ClientIds {
    /// No IDs. It takes no memory.
    pub fn new(alloc: Global) -> ClientIds
        ensures { result ≡ [] }
    {
        ClientIds {
            ids: IndexSet::new(alloc),
        }
    }

    /// How many IDs there are.
    pub fn len(&self) -> usize
        ensures len { result ≡ length self.now }
        ensures few { result ≤ MAX_IDS }
    {
        self.ids.len()
    }

    /// The place of an ID, if it is there. It takes no memory.
    pub fn place(&self, id: &str) -> Option<usize>
        ensures place { result ≡ place_of id.now self.now }
        ensures has { is_some result ≡ list_any (bytes_eq id.now) self.now }
        ensures within { IfSome result (λ n. n < MAX_IDS) }
    {
        self.ids.get_index_of(id)
    }

    /// The ID at the place; beyond the last the text is empty. It takes no memory.
    pub fn id(&self, place: usize) -> &str
        ensures { result.now ≡ id_at self.now place }
    {
        match self.ids.get_index(place) {
            Some(id) => id.as_str(),
            None => "",
        }
    }

    /// Appends an ID that is not there. Out of memory, the list stays as it was.
    pub fn add(&mut self, alloc: Global, id: &str) -> Result<(), AllocError>
        requires new { list_any (bytes_eq id.now) self.old ≡ false }
        requires room { length self.old < MAX_IDS }
        ensures ok { OnOk result (self.new ≡ self.old ++ id.now ∷ []) }
        ensures err { OnErr result (self.new ≡ self.old) }
    {
        self.ids.insert(String::from_str(alloc, id)?)?;
        Ok(())
    }

    /// Lets all IDs but the first `count` go.
    pub fn truncate(&mut self, count: usize)
        ensures { self.new ≡ take count self.old }
    {
        self.ids.truncate(count);
    }
}
