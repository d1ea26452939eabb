//! How deep values of attributes nest.
ghost use Rattle.std.specs.Prelude.{◌≤◌, ◌↔◌, map, IsTrue};
ghost use Rattle.pm_value.specs.Plain.{depth, plains_of, plains_depth};
ghost use Rattle.pm_value.specs.Views.{plain, plains, field_pairs};

use pm_value::{Field, Value};

/// Whether the value nests at most `levels` lists and objects.
#[cycle(values)]
pub(crate) fn value_is_within(value: &Value, levels: usize) -> bool
    ensures { IsTrue result ↔ (depth (plain value.now) ≤ levels) }
{
    match value {
        Value::Items(items) => levels > 0 && values_are_within(items.as_slice(), levels - 1),
        Value::Fields(fields) => levels > 0 && fields_are_within(fields.as_slice(), levels - 1),
        _ => true,
    }
}

/// Whether each of the values nests at most `levels` lists and objects.
#[cycle(values)]
pub(crate) fn values_are_within(values: &[Value], levels: usize) -> bool
    ensures { IsTrue result ↔ (plains_depth (plains_of (plains values.now)) ≤ levels) }
{
    for value in values {
        if !value_is_within(value, levels) {
            return false;
        }
    }
    true
}

#[cycle(values)]
fn fields_are_within(fields: &[Field], levels: usize) -> bool
    ensures { IsTrue result ↔ (plains_depth (plains_of (map (λ f. f.1) (field_pairs fields.now))) ≤ levels) }
{
    for field in fields {
        if !value_is_within(&field.value, levels) {
            return false;
        }
    }
    true
}
