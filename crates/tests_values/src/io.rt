//! Sinks in memory with too little room, or that fail at a call of a given number, and the texts of errors.
use pm_io::{MemSink, ReadError, SureSink, WriteFault, write_all};
use std::alloc::{AllocError, Global};
use std::test::Fail;

/// What a second write tells, and the bytes that two writes leave in a sink with so much room, whose call of this number
/// fails.
fn written_twice(
    alloc: Global,
    room: usize,
    fail: u64,
) -> Result<(Result<(), WriteFault>, Vec<u8>), AllocError> {
    let mut sink = MemSink::new(alloc, room, vec![in alloc; fail; 1]?)?;
    let _first = write_all(&mut sink, b"abc");
    let told = write_all(&mut sink, b"def");
    Ok((told, Vec::from_slice(alloc, sink.written())?))
}

/// The room of a sink, the call that fails, and what is told and written.
const WRITES: [(usize, u64, Result<(), WriteFault>, &str); 6] = [
    (9, 9, Ok(()), "abcdef"),
    (6, 9, Ok(()), "abcdef"),
    (5, 9, Err(WriteFault), "abc"),
    (9, 1, Ok(()), "def"),
    (9, 2, Err(WriteFault), "abc"),
    (0, 9, Err(WriteFault), ""),
];

#[test]
fn an_output_is_written_up_to_the_first_fault(rt: HostRuntime) -> Result<(), Fail> {
    let alloc = rt.alloc();
    for (room, fail, told, want) in &WRITES {
        let (found, bytes) = written_twice(alloc, *room, *fail)?;
        assert!(rt;
            found == *told && bytes.as_slice() == want.as_bytes(),
            "{room} {fail}"
        );
    }
    Ok(())
}

#[test]
fn a_sure_sink_tells_of_too_little_room_at_the_end(rt: HostRuntime) -> Result<(), Fail> {
    let mut sink = SureSink::new(rt.alloc(), 4)?;
    assert!(rt; write_all(&mut sink, b"abc") == Ok(()));
    assert!(rt; sink.written() == Some(b"abc".as_slice()));
    for more in &[b"de".as_slice(), b"f".as_slice()] {
        assert!(rt; write_all(&mut sink, more) == Ok(()));
        assert!(rt; sink.written() == None);
    }
    Ok(())
}

/// Errors of reading, and their texts.
const TEXTS: [(ReadError, &str); 3] = [
    (ReadError::ReadFault, "read fault"),
    (ReadError::TooLong, "too long"),
    (ReadError::NoMemory, "no memory"),
];

#[test]
fn errors_have_their_texts(rt: HostRuntime) -> Result<(), Fail> {
    let alloc = rt.alloc();
    for (error, want) in &TEXTS {
        assert_eq!(rt; format!(in alloc; "{error}")?.as_str(), *want);
    }
    assert_eq!(rt; format!(in alloc; "{WriteFault}")?.as_str(), "write fault");
    Ok(())
}
