//! An authority that answers lines: an editor's server writes messages to standard input, and reads the answers from standard
//! output. With `many` it is a house of many documents, with `new FILE` or `open FILE` what it accepts is kept in a file, and with
//! `work N` in front of these words the steps of a submission go over at most so many tokens. With `many pack OLD NEW` the house of one
//! file comes into another, without what was closed or let go.
#![tactic(auto)]

mod call;
mod filling;
mod house_lines;
mod keeping;
mod limited;
mod limited_many;
mod many;
mod packing;
mod status;
mod words;

use call::run;
use keeping::{FileStatus, run_new, run_open};
use packing::{PackStatus, run_pack};
use pm_house::LimitedHouse;
use pm_io::{StdSink, StdSource};
use pm_kept::Keepable;
use pm_talk::Limited;
use sqlite_std_file::{OpenError, Start, Unknown};
use status::Status;
use std::process::ExitCode;
use std::rt::Env;
use std::{env, fs, io};
use words::{Task, Wanted, wanted_of};

/// Answers the lines of standard input on standard output. With no words it keeps them in memory; `new FILE` and `open FILE` keep
/// each that is accepted in the file before it is answered; with `many` in front each line says to which document it speaks; with `work N`
/// in front of all of them submissions have a limit of work. `many pack OLD NEW` reads no line. It tells a status from 2 on by one line
/// on standard error, and ends with the status's number.
fn main(rt: HostRuntime) -> io::Result<ExitCode> {
    let status = match words_of(&rt) {
        Ok(words) => {
            let Wanted { limit, task } = wanted_of(&words);
            match task {
                Task::New(path) => return over_file::<Limited, _>(&rt, path, true, limit, Unknown),
                Task::Open(path) => {
                    return over_file::<Limited, _>(&rt, path, false, limit, Unknown);
                }
                Task::ManyNew(path) => {
                    return over_file::<LimitedHouse, _>(&rt, path, true, limit, Unknown);
                }
                Task::ManyOpen(path) => {
                    return over_file::<LimitedHouse, _>(&rt, path, false, limit, Unknown);
                }
                Task::ManyPack(old, new) => return pack_file(&rt, old, new, Unknown, Unknown),
                Task::One | Task::Many | Task::Other => in_memory(&rt, &words, task, limit),
            }
        }
        Err(e) if e.kind() == io::ErrorKind::OutOfMemory => Status::NoMemory,
        // A word that is no text is a word.
        Err(_) => Status::Usage,
    };
    tell(&rt, status);
    Ok(ExitCode::from(status.number()))
}

/// The call without a file, or for words that ask nothing that there is.
fn in_memory(rt: &HostRuntime, words: &[String], task: Task<'_>, limit: Option<u64>) -> Status {
    let mut source = StdSource::new(rt.stdin());
    let mut sink = StdSink::new(rt.stdout());
    match (task, limit) {
        (Task::Many, None) => many::run(rt.alloc(), &mut source, &mut sink),
        (Task::Many, Some(limit)) => {
            limited_many::run(rt.alloc(), limit, &mut source, &mut sink)
        }
        (Task::One, Some(limit)) => limited::run(rt.alloc(), limit, &mut source, &mut sink),
        _ => run(rt.alloc(), words, &mut source, &mut sink),
    }
}

/// Tells how a call ended, where it is a status from 2 on. Where standard error takes nothing, the number still tells.
fn tell(rt: &HostRuntime, status: Status) {
    let _told = match status {
        Status::Done | Status::Refused => Ok(()),
        Status::Usage => eprintln!(rt;
            "usage: pm_live or pm_live many, new FILE or open FILE behind it to keep a file, work N in front for a limit; or pm_live many pack OLD NEW"
        ),
        Status::ReadFault => eprintln!(rt; "read fault"),
        Status::WriteFault => eprintln!(rt; "write fault"),
        Status::NoMemory => eprintln!(rt; "no memory"),
        Status::Spent => eprintln!(rt; "too many lines"),
    };
}

/// The call over a file, by a talk or a house.
fn over_file<S: Keepable, B: Start>(
    rt: &HostRuntime,
    path: &str,
    is_new: bool,
    limit: Option<u64>,
    start: B,
) -> io::Result<ExitCode> {
    // Opening makes a file that is missing.
    if !is_new && fs::metadata(rt, path).is_err() {
        let _told = eprintln!(rt; "no file");
        return Ok(ExitCode::from(7));
    }
    let files = match sqlite_std_file::open(rt, path, start) {
        Ok(files) => files,
        Err(error) => return Ok(not_taken(rt, "", error)),
    };
    let mut source = StdSource::new(rt.stdin());
    let mut sink = StdSink::new(rt.stdout());
    let ended = if is_new {
        run_new::<S, _, _, _>(rt.alloc(), files.db, limit, &mut source, &mut sink)
    } else {
        run_open::<S, _, _, _>(rt.alloc(), files.db, limit, &mut source, &mut sink)
    };
    tell_file(rt, ended.status);
    Ok(ExitCode::from(ended.status.number()))
}

/// The call that packs a file into another. It makes the second where it is missing.
fn pack_file<B: Start, C: Start>(
    rt: &HostRuntime,
    old: &str,
    new: &str,
    old_start: B,
    new_start: C,
) -> io::Result<ExitCode> {
    // Opening makes a file that is missing.
    if fs::metadata(rt, old).is_err() {
        let _told = eprintln!(rt; "no file");
        return Ok(ExitCode::from(7));
    }
    let old = match sqlite_std_file::open(rt, old, old_start) {
        Ok(files) => files,
        Err(error) => return Ok(not_taken(rt, "", error)),
    };
    let new = match sqlite_std_file::open(rt, new, new_start) {
        Ok(files) => files,
        Err(error) => return Ok(not_taken(rt, "NEW: ", error)),
    };
    let mut sink = StdSink::new(rt.stdout());
    let ended = run_pack(rt.alloc(), old.db, new.db, &mut sink);
    tell_pack(rt, ended.status);
    Ok(ExitCode::from(ended.status.number()))
}

/// Tells why a file was not taken, with words in front that say which, and the number for that.
fn not_taken(rt: &HostRuntime, which: &str, error: OpenError) -> ExitCode {
    match error {
        OpenError::Busy => {
            let _told = eprintln!(rt; "{which}busy");
            ExitCode::from(8)
        }
        OpenError::OutOfMemory => {
            let _told = eprintln!(rt; "no memory");
            ExitCode::from(5)
        }
        OpenError::Io(_) | OpenError::HotJournal => {
            let _told = eprintln!(rt; "{which}{error}");
            ExitCode::from(7)
        }
    }
}

/// Tells how a call over a file ended.
fn tell_file(rt: &HostRuntime, status: FileStatus) {
    match status {
        FileStatus::Served(status) => tell(rt, status),
        FileStatus::DiskFault => {
            let _told = eprintln!(rt; "disk fault");
        }
        FileStatus::FileIsThere => {
            let _told = eprintln!(rt; "the file is there");
        }
        FileStatus::NotOurs => {
            let _told = eprintln!(rt; "no file of pm_live");
        }
        FileStatus::NotAccepted(line) => {
            let _told = eprintln!(rt; "line {line}");
        }
    }
}

/// Tells how packing ended.
fn tell_pack(rt: &HostRuntime, status: PackStatus) {
    match status {
        PackStatus::Packed => {}
        PackStatus::WriteFault => tell(rt, Status::WriteFault),
        PackStatus::NoMemory => tell(rt, Status::NoMemory),
        PackStatus::DiskFault => {
            let _told = eprintln!(rt; "NEW: disk fault");
        }
        PackStatus::FileIsThere => tell_file(rt, FileStatus::FileIsThere),
        PackStatus::NotPacked => {
            let _told = eprintln!(rt; "not packed");
        }
        PackStatus::NotOpened(status) => tell_file(rt, status),
    }
}

/// The words after the program's name.
fn words_of(rt: &(impl Env + AllocGlobal)) -> io::Result<Vec<String>> {
    let mut words = Vec::new(rt.alloc());
    for word in env::args(rt)?.skip(1) {
        words.push(word)?;
    }
    Ok(words)
}
