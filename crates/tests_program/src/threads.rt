//! Clients have threads of their own.
use crate::ends::words;
use pm_call::{Status, run};
use pm_io::{Gate, MemSink, SureSource};
use std::sync::Wait;
use std::sync::atomic::{AtomicBool, AtomicU32, Ordering};
use std::test::Fail;
use std::thread::{self, Threads};

// Two clients, each with two exchanges.
const TWO: &str =
    r#"{"nodes":[{"name":"doc","content":"paragraph+"},{"name":"paragraph","content":"text*"},{"name":"text"}]}
{"type":"doc","content":[{"type":"paragraph","content":[{"type":"text","text":"ab"}]}]}
["a","b"]
{"c":"a","op":"push"}
{"c":"b","op":"push"}
{"c":"a","op":"push"}
{"c":"b","op":"push"}
"#;

// Two people in two rooms, each with an exchange in either. The second room lists them the other way round.
const HALL: &str = r#"["x","y"]
{"nodes":[{"name":"doc","content":"paragraph+"},{"name":"paragraph","content":"text*"},{"name":"text"}]}
{"type":"doc","content":[{"type":"paragraph","content":[{"type":"text","text":"ab"}]}]}
["a","b"]
{"nodes":[{"name":"doc","content":"paragraph+"},{"name":"paragraph","content":"text*"},{"name":"text"}]}
{"type":"doc","content":[{"type":"paragraph","content":[{"type":"text","text":"cd"}]}]}
["b","a"]
{"room":"x","c":"a","op":"push"}
{"room":"x","c":"b","op":"push"}
{"room":"y","c":"a","op":"push"}
{"room":"y","c":"b","op":"push"}
"#;

// The word, the file, who is held back, for whom, and with what the output begins then.
const HELD: [(&str, &str, u32, u32, &str); 4] = [
    ("run", TWO, 1, 0, "order 4 "),
    ("run", TWO, 0, 1, "order 5 "),
    ("runrooms", HALL, 1, 0, "room x\norder 8 9\n"),
    ("runrooms", HALL, 0, 1, "room x\norder 9 8\n"),
];

// How many turns a call is held back at most.
const TURNS: u32 = 1_000_000;

// A gate that holds the first call of one client back until another client comes with its second, so that the other's first
// call was answered by then.
#[derive(Drop)]
struct HoldsBack {
    held: u32,
    other: u32,
    asked: AtomicU32,
    has_come: AtomicBool,
    is_late: AtomicBool,
}

impl HoldsBack {
    fn new(held: u32, other: u32) -> HoldsBack {
        HoldsBack {
            held,
            other,
            asked: AtomicU32::new(0),
            has_come: AtomicBool::new(false),
            is_late: AtomicBool::new(false),
        }
    }

    // Waits for the other client, yielding once a turn.
    fn wait(&self) {
        for _ in 0..TURNS {
            if self.has_come.load(Ordering::SeqCst) {
                return;
            }
            thread::yield_now();
        }
        self.is_late.store(true, Ordering::SeqCst);
    }
}

impl Gate for HoldsBack {
    fn before(&self, client: u32, nth: u32) {
        self.asked.fetch_add(1, Ordering::SeqCst);
        if (client, nth) == (self.other, 1) {
            self.has_come.store(true, Ordering::SeqCst);
        }
        if (client, nth) == (self.held, 0) {
            self.wait();
        }
    }
}

// Whether the word does with the file what it should, and the output begins so.
fn begins<T: AllocGlobal + Threads + Wait + Sync>(
    rt: &T,
    word: &str,
    file: &str,
    gate: &HoldsBack,
    front: &str,
) -> Result<bool, Fail> {
    let alloc = rt.alloc();
    let words = words(rt, word)?;
    let mut source = SureSource::new(Vec::from_slice(alloc, file.as_bytes())?);
    let mut sink = MemSink::new(alloc, 1000, Vec::new(alloc))?;
    let status = run(alloc, rt, &words, &mut source, &mut sink, gate);
    Ok(status == Status::Done && sink.written().starts_with(front.as_bytes()))
}

// Whichever client is held back, the other has a thread of its own: its line is the first of the order. So it is with two people
// in rooms: their numbers are those of their first appearance, and their calls are counted over all rooms. The gate was asked for
// all four calls, and held none of them to its limit.
#[test]
fn clients_have_threads_of_their_own(rt: HostRuntime) -> Result<(), Fail> {
    for (word, file, held, other, front) in HELD {
        let gate = HoldsBack::new(held, other);
        assert!(rt; begins(&rt, word, file, &gate, front)?);
        assert_eq!(rt; gate.asked.load(Ordering::SeqCst), 4);
        assert!(rt; !gate.is_late.load(Ordering::SeqCst));
    }
    Ok(())
}
