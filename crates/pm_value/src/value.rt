//! Values of attributes.
ghost use Rattle.std.specs.Prelude.{◌≡◌, ◌<◌, ◌↔◌, [], length, slice_index_or, IsTrue};
ghost use Rattle.pm_value.specs.Plain.{null};
ghost use Rattle.pm_value.specs.Views.{plain, plains, field_pairs};
ghost use Rattle.pm_value.specs.Kept.{AreSorted};

use crate::text::Text;
use std::marker::Model;

/// A value of an attribute: null, a truth value, a whole number, a text, a list, or an object.
#[cycle(value)]
#[derive(Drop)]
pub enum Value {
    Null,
    Bool(bool),
    Int(i64),
    Text(Text),
    Items(Items),
    Fields(Fields),
}

/// A list of values, which a contract sees as the list of plain values.
#[cycle(value)]
#[derive(Drop)]
pub struct Items {
    values: Vec<Value>,
}

impl Model for Items {
    ghost use Rattle.std.specs.Prelude.{List, suc};
    ghost use Rattle.pm_value.specs.Plain.{Plain, plains_of, plains_depth};
    ghost use Rattle.pm_value.specs.Codes.{plain_code};
    ghost use Rattle.std.specs.Coded.{coded_list};

    ghost Value = { List Plain };

    ghost coded = { coded_list plain_code };

    ghost use Rattle.pm_value.specs.Views.{plains};

    ghost view = { λ a. plains a.values.items };

    ghost size = { λ vs. suc (plains_depth (plains_of vs)) };

    ghost use Rattle.pm_value.specs.Falls.{items_fall};

    ghost size_decreases = { λ a h. items_fall a.values.items };
}

/// A name and its value.
#[cycle(value)]
#[derive(Drop)]
pub struct Field {
    pub name: Text,
    pub value: Value,
}

/// The fields of an object in byte order of their names, which a contract sees as the list of names and plain values.
#[cycle(value)]
#[derive(Drop)]
pub struct Fields {
    fields: Vec<Field>,
}

impl Model for Fields {
    ghost use Rattle.std.specs.Prelude.{List, ℕ, suc, map};
    ghost use Rattle.pm_value.specs.Plain.{Plain, plains_of, plains_depth};
    ghost use Rattle.pm_value.specs.Codes.{plain_code};
    ghost use Rattle.std.specs.Coded.{coded_list, coded×, coded_ℕ};

    ghost Value = { List (List ℕ × Plain) };

    ghost coded = { coded_list (coded× (coded_list coded_ℕ) plain_code) };

    ghost use Rattle.pm_value.specs.Views.{field_pairs};

    ghost view = { λ a. field_pairs a.fields.items };

    ghost use Rattle.pm_value.specs.Kept.{AreSorted};

    ghost invariant = { λ a. AreSorted (field_pairs a.fields.items) };

    ghost size = { λ fs. suc (plains_depth (plains_of (map (λ f. f.1) fs))) };

    ghost use Rattle.pm_value.specs.Falls.{fields_fall};

    ghost size_decreases = { λ a h. fields_fall a.fields.items };
}

impl Items {
    /// The list of these values. It takes no memory.
    pub fn new(values: Vec<Value>) -> Items
        ensures { result ≡ plains values.items }
    {
        Items { values }
    }

    /// The values in order. It takes no memory.
    pub fn as_slice(&self) -> &[Value]
        ensures { plains result.now ≡ self.now }
    {
        self.values.as_slice()
    }
}

impl Fields {
    pub(crate) fn new(fields: Vec<Field>) -> Fields
        requires { AreSorted (field_pairs fields.items) }
        ensures { result ≡ field_pairs fields.items }
    {
        Fields { fields }
    }

    /// The fields in strict byte order of their names: no name stands twice. It takes no memory.
    pub fn as_slice(&self) -> &[Field]
        ensures fields { field_pairs result.now ≡ self.now }
        ensures sorted { AreSorted self.now }
    {
        self.fields.as_slice()
    }

    /// The number of fields. It takes no memory.
    pub fn len(&self) -> usize
        ensures { result ≡ length self.now }
    {
        self.fields.len()
    }

    /// Whether there is no field.
    pub fn is_empty(&self) -> bool
        ensures { IsTrue result ↔ (self.now ≡ []) }
    {
        self.fields.is_empty()
    }

    /// The name of field `i`, counted from 0. It takes no memory.
    pub fn name(&self, i: usize) -> &str
        requires { i < length self.now }
        ensures { result.now ≡ (slice_index_or self.now i (result.now, null)).0 }
    {
        self.fields[i].name.as_str()
    }

    /// The value of field `i`, counted from 0. It takes no memory.
    pub fn value(&self, i: usize) -> &Value
        requires { i < length self.now }
        ensures { plain result.now ≡ (slice_index_or self.now i ([], plain result.now)).1 }
    {
        &self.fields[i].value
    }
}
