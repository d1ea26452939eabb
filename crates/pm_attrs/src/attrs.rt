//! Attributes.
ghost use Rattle.std.specs.Prelude.{◌≡◌, ◌↔◌, ◌<◌, length, slice_set, IsTrue, IfOk};
ghost use Rattle.pm_value.specs.Plain.{plains_of};
ghost use Rattle.pm_value.specs.Views.{plain, plains};
ghost use Rattle.pm_value.specs.Equal.{same_values};
ghost use Rattle.pm_attrs.specs.Attrs.{same_attrs};

use pm_marks::Same;
use pm_value::{Items, Value};
use std::alloc::{AllocError, Global};
use std::marker::Model;

/// The values of the attributes that a type declares, in byte order of their names. A contract sees the list of plain
/// values.
#[derive(Drop)]
pub struct Attrs {
    values: Items,
}

impl Model for Attrs {
    ghost use Rattle.std.specs.Prelude.{List};
    ghost use Rattle.std.specs.Coded.{coded_list};
    ghost use Rattle.pm_value.specs.Plain.{Plain};
    ghost use Rattle.pm_value.specs.Codes.{plain_code};

    ghost Value = { List Plain };

    ghost coded = { coded_list plain_code };

    ghost view = { λ a. a.values };
}

impl Attrs {
    /// The attributes with these values, in byte order of their names. It takes no memory.
    pub fn new(values: Vec<Value>) -> Attrs
        ensures { result ≡ plains values.items }
    {
        Attrs {
            values: Items::new(values),
        }
    }

    /// The values, in byte order of their names. It takes no memory.
    pub fn values(&self) -> &[Value]
        ensures { plains result.now ≡ self.now }
    {
        self.values.as_slice()
    }

    /// These attributes with `value` at place `i`, counted from 0.
    pub fn with_value(&self, alloc: Global, i: usize, value: &Value) -> Result<Attrs, AllocError>
        requires { i < length self.now }
        ensures { IfOk result (λ a. a ≡ slice_set self.now i (plain value.now)) }
    {
        let mut values = copy_values(alloc, self.values())?;
        values[i] = value.copy(alloc)?;
        Ok(Attrs::new(values))
    }
}

impl Same for Attrs {
    ghost use Rattle.pm_attrs.specs.Attrs.{same_attrs};
    ghost use Rattle.pm_attrs.specs.Lawful.{same_attrs-decides};

    ghost equal = { same_attrs };

    /// Whether both have the same values in the same order. It takes no memory.
    fn same(&self, other: &Attrs) -> bool {
        same_values(self.values(), other.values())
    }

    /// Attributes equal to these.
    fn copy(&self, alloc: Global) -> Result<Attrs, AllocError> {
        Ok(Attrs {
            values: self.values.copy(alloc)?,
        })
    }

    ghost is_equality = { same_attrs-decides };
}

fn copy_values(alloc: Global, values: &[Value]) -> Result<Vec<Value>, AllocError>
    ensures { IfOk result (λ v. v.items ≡ values.now) }
{
    let mut copies = Vec::new(alloc);
    for value in values {
        copies.push(value.copy(alloc)?)?;
    }
    Ok(copies)
}

#[tactic(auto, unfolding(pm_value::specs::Equal::same_values))]
fn same_values(left: &[Value], right: &[Value]) -> bool
    ensures { result ≡ same_values (plains_of (plains left.now)) (plains_of (plains right.now)) }
{
    if left.len() != right.len() {
        return false;
    }
    for i in 0..left.len() {
        if !left[i].same(&right[i]) {
            return false;
        }
    }
    true
}
