//! The bytes of a session that is made from a number, as a program of its own makes them by the definition.
use pm_gen::generate;
use std::test::Fail;

#[test]
fn a_large_session_is_its_numbers_bytes(rt: HostRuntime) -> Result<(), Fail> {
    let alloc = rt.alloc();
    let session = generate(alloc, 4, 2500, 1)?;
    let mut lines: u64 = 0;
    let mut sum: u64 = 0;
    for byte in session.as_bytes() {
        if *byte == b'\n' {
            lines = lines.wrapping_add(1);
        }
        sum = sum.wrapping_mul(31).wrapping_add(u64::from(*byte));
    }
    assert!(rt; lines == 10_003);
    assert!(rt; session.len() == 397_937);
    assert!(rt; sum == 2_220_186_135_078_608_157);
    Ok(())
}
