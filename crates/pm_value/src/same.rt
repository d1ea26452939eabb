//! Equality of values.
ghost use Rattle.std.specs.Prelude.{◌≡◌, ◌↔◌, IsTrue};
ghost use Rattle.pm_value.specs.Plain.{plains_of};
ghost use Rattle.pm_value.specs.Views.{plain, plains, field_pairs};
ghost use Rattle.pm_value.specs.Equal.{same_value, same_values, same_pairs};
ghost use Rattle.pm_value.specs.Lawful.{value-lawful};
ghost use Rattle.std.specs.Cmp.{partial_equiv_from_equiv};

use crate::value::{Field, Value};

impl Value {
    /// Whether both values are equal: of one kind, with equal parts. It takes no memory.
    pub fn same(&self, other: &Value) -> bool
        ensures same { result ≡ same_value (plain self.now) (plain other.now) }
        ensures equality { IsTrue result ↔ (self.now ≡ other.now) }
    {
        same_value(self, other)
    }
}

impl PartialEq for Value {
    ghost eq = { λ a b. same_value (plain a) (plain b) };

    ghost laws = { partial_equiv_from_equiv value-lawful };

    fn eq(&self, other: &Value) -> bool {
        same_value(self, other)
    }
}

impl Eq for Value {
    ghost laws = { value-lawful };
}

#[cycle(same)]
#[tactic(auto, unfolding(crate::specs::Equal::same_value))]
fn same_value(left: &Value, right: &Value) -> bool
    ensures { result ≡ same_value (plain left.now) (plain right.now) }
{
    match (left, right) {
        (Value::Null, Value::Null) => true,
        (Value::Bool(a), Value::Bool(b)) => *a == *b,
        (Value::Int(a), Value::Int(b)) => *a == *b,
        (Value::Text(a), Value::Text(b)) => a.as_str() == b.as_str(),
        (Value::Items(a), Value::Items(b)) => same_values(a.as_slice(), b.as_slice()),
        (Value::Fields(a), Value::Fields(b)) => same_fields(a.as_slice(), b.as_slice()),
        _ => false,
    }
}

#[cycle(same)]
#[tactic(auto, unfolding(crate::specs::Equal::same_values))]
fn same_values(left: &[Value], right: &[Value]) -> bool
    ensures { result ≡ same_values (plains_of (plains left.now)) (plains_of (plains right.now)) }
{
    if left.len() != right.len() {
        return false;
    }
    for i in 0..left.len() {
        if !same_value(&left[i], &right[i]) {
            return false;
        }
    }
    true
}

#[cycle(same)]
#[tactic(auto, unfolding(crate::specs::Equal::same_values))]
fn same_fields(left: &[Field], right: &[Field]) -> bool
    ensures { result ≡ same_pairs (field_pairs left.now) (field_pairs right.now) }
{
    if left.len() != right.len() {
        return false;
    }
    for i in 0..left.len() {
        let field = &left[i];
        let other = &right[i];
        if field.name.as_str() != other.name.as_str() {
            return false;
        }
        if !same_value(&field.value, &other.value) {
            return false;
        }
    }
    true
}
