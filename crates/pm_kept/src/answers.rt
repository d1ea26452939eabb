//! Answers that are not yet written.
ghost use Rattle.std.specs.Prelude.{◌≡◌, ◌++◌, [], true, OnOk, OnErr};
ghost use Rattle.pm_io.specs.Faults.{Rose};
ghost use Rattle.pm_io.specs.Moves.{Adds};
ghost use Rattle.pm_serve.specs.Serves.{FrontWritten};
ghost use Rattle.pm_kept.specs.Said.{last_said, said};

use pm_io::{Sink, WriteFault, write_all};
use pm_talk::no_memory;
use std::alloc::Global;

/// Where answers have this many bytes they are written before a further line is taken.
const MANY: usize = 65_536;

/// What a line is answered.
#[derive(Drop)]
pub(crate) enum Answer {
    /// Nothing.
    None,
    /// This text.
    Text(String),
    /// That there was no memory for it.
    NoMemory,
}

impl Answer {
    /// Its bytes.
    fn bytes(&self) -> &[u8]
        ensures { result.now ≡ last_said self.now }
    {
        match self {
            Answer::None => "".as_bytes(),
            Answer::Text(text) => text.as_bytes(),
            Answer::NoMemory => no_memory(),
        }
    }
}

/// Answers one behind another.
#[derive(Drop)]
pub(crate) struct Answers {
    /// All but the last.
    pub text: Vec<u8>,
    /// The last, for which no further memory is needed.
    pub last: Answer,
}

impl Answers {
    /// No answers.
    pub fn new(alloc: Global) -> Answers
        ensures said { said result ≡ [] }
        ensures last { result.last ≡ Answer.None }
    {
        Answers {
            text: Vec::new(alloc),
            last: Answer::None,
        }
    }

    /// Joins the last answer to the others, so that another may come behind it. Without memory for that nothing changes.
    pub fn join(&mut self) -> bool
        ensures said { said self.new ≡ said self.old }
        ensures last { result ≡ true → self.new.last ≡ Answer.None }
    {
        if self.text.extend_from_slice(self.last.bytes()).is_err() {
            return false;
        }
        self.last = Answer::None;
        true
    }

    /// Whether they are so short that a further line may be taken before they are written.
    pub fn are_few(&self) -> bool {
        self.text.len() < MANY
    }

    /// Puts an answer behind the others.
    pub fn put(&mut self, answer: Answer)
        requires { self.old.last ≡ Answer.None }
        ensures { said self.new ≡ said self.old ++ last_said answer }
    {
        self.last = answer;
    }

    /// Writes them.
    pub fn write<W: Sink>(&self, sink: &mut W) -> Result<(), WriteFault>
        ensures all { OnOk result (Adds (W.written sink.old) (W.written sink.new) (said self.now)) }
        ensures no_fault { OnOk result (W.faults sink.new ≡ W.faults sink.old) }
        ensures front { OnErr result (FrontWritten (said self.now) (W.written sink.old) (W.written sink.new)) }
        ensures fault { OnErr result (Rose (W.faults sink.old) (W.faults sink.new)) }
    {
        match write_all(sink, &self.text) {
            Ok(()) => write_all(sink, self.last.bytes()),
            Err(WriteFault) => Err(WriteFault),
        }
    }
}
