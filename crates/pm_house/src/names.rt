//! Names in order, each found by a hash.
ghost use Rattle.std.specs.Prelude.{◌≡◌, ◌<◌, ◌++◌, ◌∷◌, [], length, false, is_some, take, IfSome, OnOk, OnErr};
ghost use Rattle.std.specs.Prelude.{remove};
ghost use Rattle.std.specs.List.{list_any};
ghost use Rattle.std.specs.Str.{bytes_eq};
ghost use Rattle.pm_schema.specs.Names.{place_of};

use indexmap::IndexSet;
use std::alloc::{AllocError, Global};
use std::marker::Model;

/// Names in order, none of them twice. A contract sees the list of the names.
#[derive(Drop)]
pub(crate) struct Names {
    names: IndexSet<String>,
}

impl Model for Names {
    ghost use Rattle.std.specs.Prelude.{ℕ, List, map, string_bytes};

    ghost Value = { List (List ℕ) };

    ghost view = { λ t. map string_bytes t.names.keys };
}

impl Names {
    /// No names. It takes no memory.
    pub(crate) fn new(alloc: Global) -> Names
        ensures { result ≡ [] }
    {
        Names {
            names: IndexSet::new(alloc),
        }
    }

    /// The place of the name. It takes no memory.
    pub(crate) fn place(&self, name: &str) -> Option<usize>
        ensures place { result ≡ place_of name.now self.now }
        ensures has { is_some result ≡ list_any (bytes_eq name.now) self.now }
        ensures within { IfSome result (λ n. n < length self.now) }
    {
        self.names.get_index_of(name)
    }

    /// Appends a name that is not there. Out of memory, the list stays as it was.
    pub(crate) fn add(&mut self, alloc: Global, name: &str) -> Result<(), AllocError>
        requires { list_any (bytes_eq name.now) self.old ≡ false }
        ensures ok { OnOk result (self.new ≡ self.old ++ name.now ∷ []) }
        ensures err { OnErr result (self.new ≡ self.old) }
    {
        self.names.insert(String::from_str(alloc, name)?)?;
        Ok(())
    }

    /// Takes the name at the place out. Those behind it move up.
    pub(crate) fn remove(&mut self, place: usize)
        ensures { self.new ≡ remove self.old place }
    {
        let _name = self.names.shift_remove_index(place);
    }

    /// Lets all names but the first `count` go.
    pub(crate) fn truncate(&mut self, count: usize)
        ensures { self.new ≡ take count self.old }
    {
        self.names.truncate(count);
    }
}
