//! Names in order, each found by a hash.
ghost use Rattle.std.specs.Prelude.{◌≡◌, ◌<◌, ◌++◌, ◌∷◌, [], length, slice_get, false, Some, OnOk};
ghost use Rattle.std.specs.List.{list_any};
ghost use Rattle.std.specs.Str.{bytes_eq};
ghost use Rattle.pm_schema.specs.Names.{place_of};

use indexmap::IndexSet;
use std::alloc::{AllocError, Global};
use std::marker::Model;

/// Names in order, none of them twice. A contract sees the list of the names.
#[derive(Drop)]
pub struct Names {
    names: IndexSet<String>,
}

impl Model for Names {
    ghost use Rattle.std.specs.Prelude.{ℕ, List, map, string_bytes};

    ghost Value = { List (List ℕ) };

    ghost view = { λ t. map string_bytes t.names.keys };
}

impl Names {
    /// No names. It takes no memory.
    pub fn new(alloc: Global) -> Names
        ensures { result ≡ [] }
    {
        Names {
            names: IndexSet::new(alloc),
        }
    }

    /// The place of the name. It takes no memory.
    pub fn place(&self, name: &str) -> Option<usize>
        ensures { result ≡ place_of name.now self.now }
    {
        self.names.get_index_of(name)
    }

    /// Whether the name is there. It takes no memory.
    pub fn has(&self, name: &str) -> bool
        ensures { result ≡ list_any (bytes_eq name.now) self.now }
    {
        self.names.contains(name)
    }

    /// The name at the place. It takes no memory.
    pub fn name(&self, place: usize) -> &str
        requires { place < length self.now }
        ensures { slice_get self.now place ≡ Some result.now }
    {
        match self.names.get_index(place) {
            Some(name) => name.as_str(),
            None => "",
        }
    }

    /// Appends a name that is not there.
    pub fn add(&mut self, alloc: Global, name: &str) -> Result<(), AllocError>
        requires { list_any (bytes_eq name.now) self.old ≡ false }
        ensures { OnOk result (self.new ≡ self.old ++ name.now ∷ []) }
    {
        self.names.insert(String::from_str(alloc, name)?)?;
        Ok(())
    }
}
