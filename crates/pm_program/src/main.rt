//! Plays a session of ProseMirror documents that is read from standard input, and writes its report.
//!
//! `main` calls `run` of pm_call and ends with the number of its status.
//!
//! Proved: nothing but that `main` is safe and, where the top call returns, ends. That the program ends with the number
//! is in no clause.
#![tactic(auto)]

use pm_call::{Status, run};
use pm_io::{OpenGate, StdSink, StdSource};
use std::alloc::{AllocError, Global};
use std::process::ExitCode;
use std::rt::Env;
use std::{env, io};

/// Runs the words of the command line over standard input and output. It tells a status from 2 to 5
/// by one line on standard error, and ends with the status's number.
fn main(rt: HostRuntime) -> io::Result<ExitCode> {
    let alloc = rt.alloc();
    let mut source = StdSource::new(rt.stdin());
    let mut sink = StdSink::new(rt.stdout());
    let status = match words_of(&rt) {
        Ok(words) => run(alloc, &rt, &words, &mut source, &mut sink, &OpenGate),
        Err(e) if e.kind() == io::ErrorKind::OutOfMemory => Status::NoMemory,
        // A word that is no text is none of the forms.
        Err(_) => Status::Usage,
    };
    // Where standard error takes nothing, the number still tells.
    let _told = match status {
        Status::Done | Status::SessionRefused => Ok(()),
        Status::Usage => eprintln!(rt;
            "usage: check | replay | run | gen CLIENTS LINES NUMBER | rooms | runrooms | late | at VERSION | select"
        ),
        Status::ReadFault => eprintln!(rt; "read fault"),
        Status::WriteFault => eprintln!(rt; "write fault"),
        Status::NoMemory => eprintln!(rt; "no memory"),
    };
    Ok(ExitCode::from(status.number()))
}

/// The words after the program's name.
fn words_of(rt: &(impl Env + AllocGlobal)) -> io::Result<Vec<String>> {
    let mut words = Vec::new(rt.alloc());
    for word in env::args(rt)?.skip(1) {
        words.push(word)?;
    }
    Ok(words)
}
