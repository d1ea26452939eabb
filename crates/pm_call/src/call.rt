//! The top call: words and a source in, a status and a sink out.
ghost use Rattle.std.specs.Prelude.{◌≡◌, ◌⊎◌, ◌↔◌, ℕ, List, None, Some, map, string_bytes};
ghost use Rattle.std.specs.Io.KnownBytes.{IsAtEnd};
ghost use Rattle.pm_io.specs.Faults.{Rose};
ghost use Rattle.pm_gen.specs.declared.asking.Asked.{Asked};
ghost use Rattle.pm_call.specs.Words.{command_of, plain_command_of};
ghost use Rattle.pm_call.specs.Files.{file_of, form_of, ReadsInput};
ghost use Rattle.pm_call.specs.Output.{IsAnswer, Answered, AnswersRead, IsPastLimit};
ghost use Rattle.pm_call.specs.Cases.{Tells, IsByCase};
ghost use Rattle.pm_call.specs.Sounds.{AllSound};
ghost use Rattle.pm_call.specs.LateSounds.{AllLateSound};
ghost use Rattle.pm_call.specs.RoomSounds.{AllRoomsSound, AllRoomsApart};
ghost use Rattle.pm_call.specs.Headline.{Silent, number_of};

use crate::obeying::{obey, obey_any};
use crate::words::{Command, command_of, plain_command_of};
use pm_io::{Gate, Sink, Source};
use pm_making::EditMaker;
use pm_workers::Crew;
use std::alloc::Global;
use std::sync::Wait;
use std::thread::Threads;

/// How a call ended.
#[derive(Clone, Copy, Debug, PartialEq, Eq)]
pub enum Status {
    /// The whole output was written.
    Done,
    /// The file is no session, which the line written says.
    SessionRefused,
    /// The words are none of the forms. Nothing was read or written.
    Usage,
    /// A read failed. Nothing was written.
    ReadFault,
    /// A write failed. A front of the output was written.
    WriteFault,
    /// There was no memory. Nothing was written.
    NoMemory,
}

impl Status {
    /// The number with which the program ends: 0 to 5, in the order above.
    pub fn number(self) -> u8
        ensures { result ≡ number_of self }
    {
        match self {
            Status::Done => 0,
            Status::SessionRefused => 1,
            Status::Usage => 2,
            Status::ReadFault => 3,
            Status::WriteFault => 4,
            Status::NoMemory => 5,
        }
    }
}

/// Does what the words say. A session that `run` names is played with a thread for each client, raw clients too, and the rooms that
/// `runrooms` names with one for each person. The gate is asked before each message that a line presents: with the client's number,
/// or the person's, and the count of its calls so far. All other words are done as by `plain`. Under `run` and `runrooms` it may
/// wait, and returns if the threads do.
#[tactic(auto, using(crate::proofs::Reports::all_sound, crate::proofs::LateReports::all_late_sound, crate::proofs::RoomReports::all_rooms_sound, crate::proofs::RoomReports::all_rooms_apart))]
pub fn run<R: Source, W: Sink, G: Gate + Sync, T: Threads + Wait + Sync>(
    alloc: Global,
    rt: &T,
    words: &[String],
    source: &mut R,
    sink: &mut W,
    gate: &G,
) -> Status
    // Usage, exactly by the words.
    ensures usage { (result ≡ Status.Usage) ↔ (command_of (map string_bytes words.now) ≡ None) }
    // Nothing is read for wrong words, and nothing written without an answer.
    ensures unread { result ≡ Status.Usage → (R.left source.new ≡ R.left source.old)
        × (R.faults source.new ≡ R.faults source.old) × (W.faults sink.new ≡ W.faults sink.old) }
    ensures silent { Silent result (W.written sink.old) (W.written sink.new) }
    // The output of the words and the input, and nothing else. The status says whether the input is a session.
    ensures output { (asked : Command) (input : List ℕ) → command_of (map string_bytes words.now) ≡ Some asked
        → R.left source.old ≡ Some input
        → Answered asked input result (W.written sink.old) (W.written sink.new) }
    // A theorem on what a session is: every room of every session is sound. With `output` it speaks of what was written.
    ensures sound { (input : List ℕ) → AllSound input }
    // The same of every session that clients may enter late, and that a late client is as one that pulled all.
    ensures late_sound { (input : List ℕ) → AllLateSound input }
    // The same of each room of every file of many, and that its session is that of the room's own lines.
    ensures rooms_sound { (input : List ℕ) → AllRoomsSound input }
    ensures rooms_apart { (input : List ℕ) → AllRoomsApart input }
    // Faults only where they rose.
    ensures read_fault { result ≡ Status.ReadFault → Rose (R.faults source.old) (R.faults source.new) }
    ensures write_fault { result ≡ Status.WriteFault → Rose (W.faults sink.old) (W.faults sink.new) }
    // With any other status no read failed, and no write.
    ensures no_read_fault { (result ≡ Status.ReadFault) ⊎ (R.faults source.new ≡ R.faults source.old) }
    ensures no_write_fault { (result ≡ Status.WriteFault) ⊎ (W.faults sink.new ≡ W.faults sink.old) }
    // With an answer the input was read to its end. Of an input past the limit one byte more than the limit was read.
    ensures read_whole { (asked : Command) → command_of (map string_bytes words.now) ≡ Some asked → ReadsInput asked
        → result ≡ Status.Done → IsAtEnd (R.left source.new) }
    ensures read_enough { (asked : Command) → command_of (map string_bytes words.now) ≡ Some asked → ReadsInput asked
        → result ≡ Status.SessionRefused
        → IsAtEnd (R.left source.new) ⊎ IsPastLimit (R.left source.old) (R.left source.new) }
    // `gen` reads nothing.
    ensures made { (asked : Command) → command_of (map string_bytes words.now) ≡ Some asked
        → ReadsInput asked ⊎ ((R.left source.new ≡ R.left source.old) × (R.faults source.new ≡ R.faults source.old)) }
    // Where no fault rose, the output and its status, or running out of memory.
    ensures complete { (asked : Command) → command_of (map string_bytes words.now) ≡ Some asked
        → ¬ Rose (R.faults source.old) (R.faults source.new)
        → ¬ Rose (W.faults sink.old) (W.faults sink.new)
        → IsAnswer result ⊎ (result ≡ Status.NoMemory) }
    // The status tells what the file is that is played, also where a fault rose: 1 is never that of a session, 0 never that of
    // any other.
    ensures tells { (asked : Command) (input : List ℕ) → command_of (map string_bytes words.now) ≡ Some asked
        → R.left source.old ≡ Some input → Tells (form_of asked) (file_of asked input) result }
    // By case, where no fault rose: for a session the whole output, for any other file its refusal, or running out of memory.
    ensures by_case { (asked : Command) (input : List ℕ) → command_of (map string_bytes words.now) ≡ Some asked
        → R.left source.old ≡ Some input
        → ¬ Rose (R.faults source.old) (R.faults source.new)
        → ¬ Rose (W.faults sink.old) (W.faults sink.new)
        → IsByCase (form_of asked) (file_of asked input) result }
    // With an answer, what was written is the output for the bytes that were read, also of a source that does not tell them.
    ensures answers { (asked : Command) → command_of (map string_bytes words.now) ≡ Some asked → IsAnswer result
        → AnswersRead asked result (R.left source.old) (R.left source.new) (W.written sink.old) (W.written sink.new) }
    // The file that `gen` makes is a session, so that no line of it is refused.
    ensures session { (numbers : Asked) → command_of (map string_bytes words.now) ≡ Some (Command.Gen numbers)
        → result ≡ Status.SessionRefused → ⊥ }
{
    let Some(command) = command_of(words) else {
        return Status::Usage;
    };
    let crew = Crew {
        rt,
        maker: &EditMaker,
        gate,
    };
    obey_any(alloc, command, &crew, source, sink)
}

/// Does what the words say, without threads: to it the words `run` and `runrooms` are none of the forms. It returns for every input.
#[tactic(auto, using(crate::proofs::Reports::all_sound, crate::proofs::LateReports::all_late_sound, crate::proofs::RoomReports::all_rooms_sound, crate::proofs::RoomReports::all_rooms_apart))]
pub fn plain<R: Source, W: Sink>(
    alloc: Global,
    words: &[String],
    source: &mut R,
    sink: &mut W,
) -> Status
    // Usage, exactly by the words.
    ensures usage { (result ≡ Status.Usage) ↔ (plain_command_of (map string_bytes words.now) ≡ None) }
    // Nothing is read for wrong words, and nothing written without an answer.
    ensures unread { result ≡ Status.Usage → (R.left source.new ≡ R.left source.old)
        × (R.faults source.new ≡ R.faults source.old) × (W.faults sink.new ≡ W.faults sink.old) }
    ensures silent { Silent result (W.written sink.old) (W.written sink.new) }
    // The output of the words and the input, and nothing else. The status says whether the input is a session.
    ensures output { (asked : Command) (input : List ℕ) → plain_command_of (map string_bytes words.now) ≡ Some asked
        → R.left source.old ≡ Some input
        → Answered asked input result (W.written sink.old) (W.written sink.new) }
    // A theorem on what a session is: every room of every session is sound. With `output` it speaks of what was written.
    ensures sound { (input : List ℕ) → AllSound input }
    // The same of every session that clients may enter late, and that a late client is as one that pulled all.
    ensures late_sound { (input : List ℕ) → AllLateSound input }
    // The same of each room of every file of many, and that its session is that of the room's own lines.
    ensures rooms_sound { (input : List ℕ) → AllRoomsSound input }
    ensures rooms_apart { (input : List ℕ) → AllRoomsApart input }
    // Faults only where they rose.
    ensures read_fault { result ≡ Status.ReadFault → Rose (R.faults source.old) (R.faults source.new) }
    ensures write_fault { result ≡ Status.WriteFault → Rose (W.faults sink.old) (W.faults sink.new) }
    // With any other status no read failed, and no write.
    ensures no_read_fault { (result ≡ Status.ReadFault) ⊎ (R.faults source.new ≡ R.faults source.old) }
    ensures no_write_fault { (result ≡ Status.WriteFault) ⊎ (W.faults sink.new ≡ W.faults sink.old) }
    // With an answer the input was read to its end. Of an input past the limit one byte more than the limit was read.
    ensures read_whole { (asked : Command) → plain_command_of (map string_bytes words.now) ≡ Some asked → ReadsInput asked
        → result ≡ Status.Done → IsAtEnd (R.left source.new) }
    ensures read_enough { (asked : Command) → plain_command_of (map string_bytes words.now) ≡ Some asked → ReadsInput asked
        → result ≡ Status.SessionRefused
        → IsAtEnd (R.left source.new) ⊎ IsPastLimit (R.left source.old) (R.left source.new) }
    // `gen` reads nothing.
    ensures made { (asked : Command) → plain_command_of (map string_bytes words.now) ≡ Some asked
        → ReadsInput asked ⊎ ((R.left source.new ≡ R.left source.old) × (R.faults source.new ≡ R.faults source.old)) }
    // Where no fault rose, the output and its status, or running out of memory.
    ensures complete { (asked : Command) → plain_command_of (map string_bytes words.now) ≡ Some asked
        → ¬ Rose (R.faults source.old) (R.faults source.new)
        → ¬ Rose (W.faults sink.old) (W.faults sink.new)
        → IsAnswer result ⊎ (result ≡ Status.NoMemory) }
    // The status tells what the file is that is played, also where a fault rose: 1 is never that of a session, 0 never that of
    // any other.
    ensures tells { (asked : Command) (input : List ℕ) → plain_command_of (map string_bytes words.now) ≡ Some asked
        → R.left source.old ≡ Some input → Tells (form_of asked) (file_of asked input) result }
    // By case, where no fault rose: for a session the whole output, for any other file its refusal, or running out of memory.
    ensures by_case { (asked : Command) (input : List ℕ) → plain_command_of (map string_bytes words.now) ≡ Some asked
        → R.left source.old ≡ Some input
        → ¬ Rose (R.faults source.old) (R.faults source.new)
        → ¬ Rose (W.faults sink.old) (W.faults sink.new)
        → IsByCase (form_of asked) (file_of asked input) result }
    // With an answer, what was written is the output for the bytes that were read, also of a source that does not tell them.
    ensures answers { (asked : Command) → plain_command_of (map string_bytes words.now) ≡ Some asked → IsAnswer result
        → AnswersRead asked result (R.left source.old) (R.left source.new) (W.written sink.old) (W.written sink.new) }
    // The file that `gen` makes is a session, so that no line of it is refused.
    ensures session { (numbers : Asked) → plain_command_of (map string_bytes words.now) ≡ Some (Command.Gen numbers)
        → result ≡ Status.SessionRefused → ⊥ }
{
    let Some(command) = plain_command_of(words) else {
        return Status::Usage;
    };
    obey(alloc, command, source, sink)
}
