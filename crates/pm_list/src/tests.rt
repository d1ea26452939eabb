//! Each call once, with ample memory.
use crate::Listed;
use std::alloc::AllocError;

#[test]
fn grows_and_shrinks(rt: HostRuntime) -> Result<(), AllocError> {
    let alloc = rt.alloc();
    let mut list: Listed<u8> = Listed::new(alloc);
    assert!(rt; list.is_empty());
    list.push(1)?;
    list.push(2)?;
    list.append(Listed::from_vec(vec![in alloc; 3, 4]?))?;
    assert!(rt; list.len() == 4);
    assert!(rt; list.as_slice() == [1, 2, 3, 4].as_slice());
    list.drop_front(1);
    assert!(rt; list.as_slice() == [2, 3, 4].as_slice());
    let mut other = Listed::from_vec(list.into_vec());
    assert!(rt; !other.is_empty());
    assert!(rt; other.pop() == Some(4));
    other.replace_last(1, Listed::from_vec(vec![in alloc; 5, 6]?))?;
    assert!(rt; other.as_slice() == [2, 5, 6].as_slice());
    other.truncate(1);
    assert!(rt; other.as_slice() == [2].as_slice());
    other.clear();
    assert!(rt; other.is_empty());
    Ok(())
}
