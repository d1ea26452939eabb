//! Node types and mark types, and the attributes that they declare.
ghost use Rattle.std.specs.Prelude.{◌≡◌, ◌<◌, true, length, map, position, slice_index_or, IfSome};
ghost use Rattle.std.specs.Str.{bytes_eq};
ghost use Rattle.pm_value.specs.Views.{plain};
ghost use Rattle.pm_value.specs.Kinds.{is_allowed};
ghost use Rattle.pm_tokens.specs.Schemas.{attr_place};
ghost use Rattle.pm_schema.specs.Types.{declared};
ghost use Rattle.pm_schema.specs.Defaults.{have_kinds};
ghost use Rattle.pm_schema.specs.Attrs.{IsType, attrs_of, no_attr};
ghost use Rattle.pm_schema.specs.AttrNames.{AreInOrder};

use crate::schema::Schema;
use crate::spec::AttrSpec;
use pm_auto::TypeId;
use pm_marks::MarkId;
use pm_value::{Kinds, Value};

/// A node type or a mark type.
#[derive(Clone, Copy, Debug, PartialEq, Eq)]
pub enum AnyType {
    Node(TypeId),
    Mark(MarkId),
}

impl Schema {
    /// How many attributes the type declares, which stand in strict byte order of their names. It takes no memory.
    pub fn attr_count(&self, kind: AnyType) -> usize
        requires { IsType self.now.spec kind }
        ensures count { result ≡ length (attrs_of self.now.spec kind) }
        ensures sorted { AreInOrder (attrs_of self.now.spec kind) }
    {
        self.attrs(kind).len()
    }

    /// The name of attribute `i` of the type, counted from 0 in byte order of the names. It takes no memory.
    pub fn attr_name(&self, kind: AnyType, i: usize) -> &str
        requires known { IsType self.now.spec kind }
        requires inside { i < length (attrs_of self.now.spec kind) }
        ensures { result.now ≡ (slice_index_or (attrs_of self.now.spec kind) i no_attr).name }
    {
        self.attrs(kind)[i].name.as_str()
    }

    /// The place of the attribute of this name among those that the type declares, counted from 0 in byte order of the names.
    /// `None` exactly where the type declares none. It takes no memory.
    pub fn attr_place(&self, kind: AnyType, name: &str) -> Option<usize>
        requires { IsType self.now.spec kind }
        ensures place { result ≡ attr_place name.now (map declared (attrs_of self.now.spec kind)) }
        ensures inside { IfSome result (λ i. i < length (attrs_of self.now.spec kind)) }
    {
        place_among(self.attrs(kind), name)
    }

    /// Whether attribute `i` of the type may have the value by its kind: any value where the attribute names no kinds. How deep
    /// the value nests is not asked. It takes no memory.
    pub fn attr_allows(&self, kind: AnyType, i: usize, value: &Value) -> bool
        requires known { IsType self.now.spec kind }
        requires inside { i < length (attrs_of self.now.spec kind) }
        ensures { result ≡ is_allowed (slice_index_or (attrs_of self.now.spec kind) i no_attr).validate (plain value.now) }
    {
        Kinds::allow(self.attrs(kind)[i].validate, value)
    }

    /// The attributes that the type declares.
    pub(crate) fn attrs(&self, kind: AnyType) -> &[AttrSpec]
        requires { IsType self.now.spec kind }
        ensures attrs { result.now ≡ attrs_of self.now.spec kind }
        ensures sorted { AreInOrder (attrs_of self.now.spec kind) }
        ensures kinds { have_kinds (attrs_of self.now.spec kind) ≡ true }
    {
        match kind {
            AnyType::Node(kind) => self.spec.nodes.as_slice()[kind].attrs.as_slice(),
            AnyType::Mark(mark) => self.spec.marks.as_slice()[mark].attrs.as_slice(),
        }
    }
}

/// The place of the attribute of this name.
fn place_among(attrs: &[AttrSpec], name: &str) -> Option<usize>
    ensures place { result ≡ attr_place name.now (map declared attrs.now) }
    ensures inside { IfSome result (λ i. i < length attrs.now) }
{
    first_place(attrs, name)
}

fn first_place(attrs: &[AttrSpec], name: &str) -> Option<usize>
    ensures place { result ≡ position (λ a. bytes_eq name.now a.name) attrs.now }
    ensures inside { IfSome result (λ i. i < length attrs.now) }
{
    attrs.iter().position(|a| name == a.name.as_str())
}
