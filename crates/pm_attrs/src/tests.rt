//! Each call once, with ample memory.
use crate::Attrs;
use pm_marks::Same;
use pm_value::Value;
use std::test::Fail;

#[test]
fn a_new_value_stands_at_its_place(rt: HostRuntime) -> Result<(), Fail> {
    let alloc = rt.alloc();
    let attrs = Attrs::new(vec![in alloc; Value::Int(1), Value::Null]?);
    assert!(rt; attrs.values().len() == 2);
    let changed = attrs.with_value(alloc, 1, &Value::Bool(true))?;
    assert!(rt; changed.values() == [Value::Int(1), Value::Bool(true)].as_slice());
    assert!(rt; !changed.same(&attrs));
    let copy = changed.copy(alloc)?;
    assert!(rt; copy.same(&changed));
    Ok(())
}
