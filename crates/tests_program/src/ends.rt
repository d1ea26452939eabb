//! Words of no form, and a read or a write that fails.
use pm_call::{Status, run};
use pm_io::{MemSource, OpenGate, Put, Sink};
use std::sync::Wait;
use std::test::Fail;
use std::thread::Threads;

// A sink that takes five bytes at a call, and fails at the call of this number.
#[derive(Drop)]
struct Fives {
    bytes: Vec<u8>,
    calls: u64,
    fail: u64,
    faults: u64,
}

impl Sink for Fives {
    ghost use Rattle.std.specs.Prelude.{None};

    ghost written = { λ s. None };

    ghost faults = { λ s. s.faults };

    fn write(&mut self, from: &[u8]) -> Put {
        self.calls = self.calls.saturating_add(1);
        let n = from.len().min(5);
        if self.calls == self.fail || self.bytes.extend_from_slice(&from[..n]).is_err() {
            self.faults = self.faults.saturating_add(1);
            return Put::Failed;
        }
        Put::Took(n)
    }
}

// A schema, a paragraph "ab", one client, a letter put first, and a push.
const SESSION: &str =
    r#"{"nodes":[{"name":"doc","content":"paragraph+"},{"name":"paragraph","content":"text*"},{"name":"text"}]}
{"type":"doc","content":[{"type":"paragraph","content":[{"type":"text","text":"ab"}]}]}
["a"]
{"c":"a","op":"step","step":{"stepType":"replace","from":1,"to":1,"slice":{"content":[{"type":"text","text":"x"}]}}}
{"c":"a","op":"push"}
"#;

// What `replay` writes of it.
const REPORT: &str = r#"4 made 1
5 accepted 0 1; confirmed 1
client a 1 [] [] [] {"content":[{"content":[{"text":"xab","type":"text"}],"type":"paragraph"}],"type":"doc"}
log 1
1 a 1 {"from":1,"slice":{"content":[{"text":"x","type":"text"}]},"stepType":"replace","to":1}
settled a 1 [] []
final {"content":[{"content":[{"text":"xab","type":"text"}],"type":"paragraph"}],"type":"doc"}
"#;

// The words, the number of the read that fails, the status, how many bytes are written, and with what they begin. The second
// read is the last, which finds the end. Wrong words are told before anything is read, and `gen` reads nothing.
const ENDS: [(&str, u64, Status, usize, &str); 32] = [
    ("", 1, Status::Usage, 0, ""),
    ("replay x", 1, Status::Usage, 0, ""),
    ("run x", 1, Status::Usage, 0, ""),
    ("gen 0 1 1", 1, Status::Usage, 0, ""),
    ("gen 1 1", 1, Status::Usage, 0, ""),
    ("gen 1 1 1 1", 1, Status::Usage, 0, ""),
    ("--help", 1, Status::Usage, 0, ""),
    ("late 1", 1, Status::Usage, 0, ""),
    ("runrooms x", 1, Status::Usage, 0, ""),
    ("at", 1, Status::Usage, 0, ""),
    ("at x", 1, Status::Usage, 0, ""),
    ("at 18446744073709551616", 1, Status::Usage, 0, ""),
    (
        "gen 1 0 7",
        1,
        Status::Done,
        42,
        "gen 1 0 7\nlines 0\nlog 0\ndropped 0\nsize 12\n",
    ),
    ("check", 1, Status::ReadFault, 0, ""),
    ("check", 2, Status::ReadFault, 0, ""),
    ("check", 3, Status::Done, 7, "ok 2 4\n"),
    ("replay", 1, Status::ReadFault, 0, ""),
    ("replay", 2, Status::ReadFault, 0, ""),
    ("replay", 3, Status::Done, 359, REPORT),
    ("select", 2, Status::ReadFault, 0, ""),
    ("select", 3, Status::Done, 365, "apart\n4 made 1\n"),
    ("late", 2, Status::ReadFault, 0, ""),
    ("late", 3, Status::Done, 359, REPORT),
    ("at 0", 2, Status::ReadFault, 0, ""),
    (
        "at 00",
        3,
        Status::Done,
        93,
        "at 0 {\"content\":[{\"content\":[{\"text\":\"ab\",",
    ),
    ("at 2", 3, Status::Done, 7, "past 1\n"),
    ("run", 1, Status::ReadFault, 0, ""),
    ("run", 2, Status::ReadFault, 0, ""),
    ("run", 3, Status::Done, 369, "order 4 5\n4 made 1\n"),
    ("runrooms", 1, Status::ReadFault, 0, ""),
    ("runrooms", 2, Status::ReadFault, 0, ""),
    ("runrooms", 3, Status::SessionRefused, 12, "refused 1 6\n"),
];

// The words of a text, which blanks part.
pub(crate) fn words(rt: &impl AllocGlobal, text: &str) -> Result<Vec<String>, Fail> {
    let mut words = Vec::new(rt.alloc());
    for word in text.split_whitespace() {
        words.push(String::from_str(rt.alloc(), word)?)?;
    }
    Ok(words)
}

// What these words do with the source: the status. The clauses of `run` end here.
fn ran<T: AllocGlobal + Threads + Wait + Sync>(
    rt: &T,
    given: &str,
    source: &mut MemSource,
    sink: &mut Fives,
) -> Result<Status, Fail> {
    let words = words(rt, given)?;
    Ok(run(rt.alloc(), rt, &words, source, sink, &OpenGate))
}

// What these words do with the session, where this read and this call of the sink fail, which takes five bytes at a call: the
// status, how many bytes were written, and whether they and these agree as far as both go.
fn ends<T: AllocGlobal + Threads + Wait + Sync>(
    rt: &T,
    given: &str,
    failing_read: u64,
    failing_call: u64,
    whole: &str,
) -> Result<(Status, usize, bool), Fail> {
    let alloc = rt.alloc();
    let bytes = Vec::from_slice(alloc, SESSION.as_bytes())?;
    let mut source = MemSource::new(bytes, vec![in alloc; failing_read; 1]?);
    let mut sink = Fives {
        bytes: Vec::new(alloc),
        calls: 0,
        fail: failing_call,
        faults: 0,
    };
    let status = ran(rt, given, &mut source, &mut sink)?;
    let (written, whole) = (sink.bytes.as_slice(), whole.as_bytes());
    let agrees = whole.starts_with(written) || written.starts_with(whole);
    Ok((status, written.len(), agrees))
}

#[test]
fn words_and_failing_reads_are_told(rt: HostRuntime) -> Result<(), Fail> {
    for (given, failing_read, want, size, front) in ENDS {
        let (status, written, agrees) = ends(&rt, given, failing_read, 0, front)?;
        assert!(rt; status == want && written == size && agrees);
    }
    Ok(())
}

// At whichever call the sink fails, it has taken five bytes at each call before.
#[test]
fn a_sink_that_fails_keeps_a_front(rt: HostRuntime) -> Result<(), Fail> {
    for call in 0..72usize {
        let (status, written, agrees) = ends(&rt, "replay", 9, call as u64 + 1, REPORT)?;
        assert!(rt; status == Status::WriteFault && written == 5 * call && agrees);
    }
    Ok(())
}
