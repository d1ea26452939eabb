//! A disk in memory that stops at each of its calls.
use crate::{Group, Journal, Recovered, is_blank, recover};
use sqlite_disk::{Crash, Disk, Fuse, Memory};
use std::alloc::Global;
use std::test::Fail;

#[test]
fn lines_outlive_a_crash_at_each_call(rt: HostRuntime) -> Result<(), Fail> {
    let alloc = rt.alloc();
    let opening = Group::of(alloc, b"{\"nodes\":[]}")?.with(alloc, b"null")?;
    for calls in 0..14u64 {
        let mut disk = Fuse::new(Memory::new(alloc), calls);
        let mut journal = Journal::blank(disk);
        let began = journal.begin(&opening).is_ok();
        let told = began && journal.append(b"").is_ok();
        let Journal { mut disk, .. } = journal;
        disk.crash();
        let count = match recover(alloc, &mut disk) {
            Ok(found) => found.lines.len(),
            Err(_) => 0,
        };
        // Two at once, and then one more; each that was told is there.
        assert!(rt; count == 0 || count == 2 || count == 3);
        assert!(rt; !began || count >= 2);
        assert!(rt; !told || count == 3);
    }
    Ok(())
}
