//! A command obeyed: its file read or made, and its answer written.
ghost use Rattle.std.specs.Prelude.{◌≡◌, ◌⊎◌, string_bytes};
ghost use Rattle.pm_io.specs.Faults.{Rose};
ghost use Rattle.pm_call.specs.Headline.{Writes, Agrees};
ghost use Rattle.pm_call.specs.Obeyed.{Obeyed};
ghost use Rattle.pm_call.specs.Output.{IsAnswer};
ghost use Rattle.pm_call.specs.Words.{IsBounded};

use crate::answer::{Answer, answer_to};
use crate::call::Status;
use crate::files::FileForm;
use crate::finding::{found_for, found_in};
use crate::running::answer_on_threads;
use crate::running_rooms::answer_rooms_on_threads;
use crate::words::Command;
use pm_head::Form;
use pm_io::{Gate, ReadError, Sink, Source, write_all};
use pm_making::EditMaker;
use pm_workers::Crew;
use std::alloc::{AllocError, Global};
use std::sync::Wait;
use std::thread::Threads;

/// Obeys a command that takes no threads.
pub fn obey<R: Source, W: Sink>(
    alloc: Global,
    command: Command,
    source: &mut R,
    sink: &mut W,
) -> Status
    requires alone { command ≡ Command.Run → ⊥ }
    requires apart { command ≡ Command.RunRooms → ⊥ }
    requires bounded { IsBounded command }
    ensures { Obeyed command result (R.left source.old) (R.left source.new) (R.faults source.old) (R.faults source.new)
        (W.written sink.old) (W.written sink.new) (W.faults sink.old) (W.faults sink.new) }
{
    let found = match found_for(alloc, command, source) {
        Ok(found) => found,
        Err(ReadError::ReadFault) => return Status::ReadFault,
        Err(_) => return Status::NoMemory,
    };
    match answer_to(alloc, command, &found) {
        Ok(answer) => deliver(sink, &answer),
        Err(AllocError) => Status::NoMemory,
    }
}

/// Obeys a command, by threads where it takes them.
pub fn obey_any<R: Source, W: Sink, G: Gate + Sync, T: Threads + Wait + Sync>(
    alloc: Global,
    command: Command,
    crew: &Crew<EditMaker, G, T>,
    source: &mut R,
    sink: &mut W,
) -> Status
    requires { IsBounded command }
    ensures { Obeyed command result (R.left source.old) (R.left source.new) (R.faults source.old) (R.faults source.new)
        (W.written sink.old) (W.written sink.new) (W.faults sink.old) (W.faults sink.new) }
{
    match command {
        Command::Run => obey_on_threads(alloc, crew, source, sink),
        Command::RunRooms => obey_rooms_on_threads(alloc, crew, source, sink),
        Command::Check
        | Command::Replay
        | Command::Select
        | Command::Gen(_)
        | Command::Late
        | Command::At(_)
        | Command::Rooms => obey(alloc, command, source, sink),
    }
}

/// Obeys the word `run`: plays the session that a source gives, with a thread for each client.
fn obey_on_threads<R: Source, W: Sink, G: Gate + Sync, T: Threads + Wait + Sync>(
    alloc: Global,
    crew: &Crew<EditMaker, G, T>,
    source: &mut R,
    sink: &mut W,
) -> Status
    ensures { Obeyed Command.Run result (R.left source.old) (R.left source.new) (R.faults source.old) (R.faults source.new)
        (W.written sink.old) (W.written sink.new) (W.faults sink.old) (W.faults sink.new) }
{
    let found = match found_in(alloc, FileForm::OneRoom(Form::Plain), source) {
        Ok(found) => found,
        Err(ReadError::ReadFault) => return Status::ReadFault,
        Err(_) => return Status::NoMemory,
    };
    match answer_on_threads(alloc, crew, found) {
        Ok(answer) => deliver(sink, &answer),
        Err(AllocError) => Status::NoMemory,
    }
}

/// Obeys the word `runrooms`: plays the rooms that a source gives, with a thread for each person.
fn obey_rooms_on_threads<R: Source, W: Sink, G: Gate + Sync, T: Threads + Wait + Sync>(
    alloc: Global,
    crew: &Crew<EditMaker, G, T>,
    source: &mut R,
    sink: &mut W,
) -> Status
    ensures { Obeyed Command.RunRooms result (R.left source.old) (R.left source.new) (R.faults source.old) (R.faults source.new)
        (W.written sink.old) (W.written sink.new) (W.faults sink.old) (W.faults sink.new) }
{
    let found = match found_in(alloc, FileForm::ManyRooms, source) {
        Ok(found) => found,
        Err(ReadError::ReadFault) => return Status::ReadFault,
        Err(_) => return Status::NoMemory,
    };
    match answer_rooms_on_threads(alloc, crew, found) {
        Ok(answer) => deliver(sink, &answer),
        Err(AllocError) => Status::NoMemory,
    }
}

/// Writes an answer.
fn deliver<W: Sink>(sink: &mut W, answer: &Answer) -> Status
    requires { IsAnswer answer.now.status }
    ensures writes { Writes result (W.written sink.old) (W.written sink.new) (string_bytes answer.now.text) }
    ensures agrees { Agrees result answer.now.status }
    ensures fault { result ≡ Status.WriteFault → Rose (W.faults sink.old) (W.faults sink.new) }
    ensures no_fault { (result ≡ Status.WriteFault) ⊎ (W.faults sink.new ≡ W.faults sink.old) }
    ensures no_usage { result ≡ Status.Usage → ⊥ }
    ensures no_read { result ≡ Status.ReadFault → ⊥ }
    ensures memory { result ≡ Status.NoMemory → ⊥ }
{
    match write_all(sink, answer.text.as_bytes()) {
        Ok(()) => answer.status,
        Err(_) => Status::WriteFault,
    }
}
