//! Copies of values.
ghost use Rattle.std.specs.Prelude.{◌≡◌, IfOk};

use crate::value::{Field, Fields, Items, Value};
use std::alloc::{AllocError, Global};

impl Value {
    /// A value equal to this one.
    pub fn copy(&self, alloc: Global) -> Result<Value, AllocError>
        ensures { IfOk result (λ v. v ≡ self.now) }
    {
        copy_value(alloc, self)
    }
}

impl Items {
    /// A list equal to this one.
    pub fn copy(&self, alloc: Global) -> Result<Items, AllocError>
        ensures { IfOk result (λ v. v ≡ self.now) }
    {
        Ok(Items::new(copy_values(alloc, self.as_slice())?))
    }
}

impl Fields {
    /// Fields equal to these.
    pub fn copy(&self, alloc: Global) -> Result<Fields, AllocError>
        ensures { IfOk result (λ v. v ≡ self.now) }
    {
        Ok(Fields::new(copy_fields(alloc, self.as_slice())?))
    }
}

#[cycle(copy)]
fn copy_value(alloc: Global, value: &Value) -> Result<Value, AllocError>
    ensures { IfOk result (λ v. v ≡ value.now) }
{
    match value {
        Value::Null => Ok(Value::Null),
        Value::Bool(truth) => Ok(Value::Bool(*truth)),
        Value::Int(n) => Ok(Value::Int(*n)),
        Value::Text(text) => Ok(Value::Text(text.copy(alloc)?)),
        Value::Items(items) => {
            let values = copy_values(alloc, items.as_slice())?;
            Ok(Value::Items(Items::new(values)))
        }
        Value::Fields(fields) => {
            let fields = copy_fields(alloc, fields.as_slice())?;
            Ok(Value::Fields(Fields::new(fields)))
        }
    }
}

#[cycle(copy)]
fn copy_values(alloc: Global, values: &[Value]) -> Result<Vec<Value>, AllocError>
    ensures { IfOk result (λ v. v.items ≡ values.now) }
{
    let mut copies = Vec::new(alloc);
    for value in values {
        copies.push(copy_value(alloc, value)?)?;
    }
    Ok(copies)
}

#[cycle(copy)]
fn copy_fields(alloc: Global, fields: &[Field]) -> Result<Vec<Field>, AllocError>
    ensures { IfOk result (λ v. v.items ≡ fields.now) }
{
    let mut copies = Vec::new(alloc);
    for field in fields {
        let name = field.name.copy(alloc)?;
        let value = copy_value(alloc, &field.value)?;
        copies.push(Field { name, value })?;
    }
    Ok(copies)
}
