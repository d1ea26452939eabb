//! The attributes that a type declares.
ghost use Rattle.std.specs.Prelude.{◌≡◌, [], ◌∷◌, true, length, IfOk};
ghost use Rattle.pm_schema.specs.AttrNames.{AreInOrder};
ghost use Rattle.pm_schema.specs.Defaults.{is_kind_of_default, have_kinds};

use crate::spec::AttrSpec;
use pm_list::Listed;
use std::alloc::{AllocError, Global};
use std::marker::Model;

/// The attributes that a type declares, in strict byte order of their names: no name stands twice. Each default is of a kind
/// that its attribute names. A contract sees the list of them.
#[derive(Drop)]
pub struct AttrSpecs {
    list: Listed<AttrSpec>,
}

impl Model for AttrSpecs {
    ghost use Rattle.std.specs.Prelude.{List};
    ghost use Rattle.std.specs.Coded.{coded_list};
    ghost use Rattle.pm_schema.specs.declared.spec.AttrSpec.{AttrSpec};
    ghost use Rattle.pm_schema.specs.contracts.spec.AttrSpec as attr_spec;

    ghost Value = { List AttrSpec };

    ghost coded = { coded_list attr_spec.the_row.coded };

    ghost view = { λ a. a.list };

    ghost use Rattle.std.specs.Prelude.{◌≡◌, true};
    ghost use Rattle.pm_schema.specs.AttrNames.{AreInOrder};
    ghost use Rattle.pm_schema.specs.Defaults.{have_kinds};

    ghost invariant = { λ a. AreInOrder a.list × (have_kinds a.list ≡ true) };
}

impl AttrSpecs {
    /// No attributes. It takes no memory.
    #[tactic(auto, using(crate::proofs::Sorted::sorted))]
    pub fn new(alloc: Global) -> AttrSpecs
        ensures { result ≡ [] }
    {
        AttrSpecs {
            list: Listed::new(alloc),
        }
    }

    /// One attribute, whose default has to be of a kind that it names.
    #[tactic(auto, using(crate::proofs::Sorted::sorted))]
    pub fn one(alloc: Global, attr: AttrSpec) -> Result<AttrSpecs, AllocError>
        requires { is_kind_of_default attr.validate attr.default ≡ true }
        ensures { IfOk result (λ l. l ≡ attr ∷ []) }
    {
        let mut list = Listed::new(alloc);
        list.push(attr)?;
        Ok(AttrSpecs { list })
    }

    /// These attributes, which have to stand in strict byte order of their names, each with a default of a kind that it names.
    /// It takes no memory.
    pub fn from_list(list: Listed<AttrSpec>) -> AttrSpecs
        requires sorted { AreInOrder list }
        requires kinds { have_kinds list ≡ true }
        ensures { result ≡ list }
    {
        AttrSpecs { list }
    }

    /// The attributes, lent as a slice. It takes no memory.
    pub fn as_slice(&self) -> &[AttrSpec]
        ensures attrs { result.now ≡ self.now }
        ensures sorted { AreInOrder self.now }
        ensures kinds { have_kinds self.now ≡ true }
    {
        self.list.as_slice()
    }
}
