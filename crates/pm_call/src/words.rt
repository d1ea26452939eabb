//! The words of the command line.
ghost use Rattle.std.specs.Prelude.{◌≡◌, map, string_bytes, IfSome};
ghost use Rattle.pm_call.specs.Files.{form_of};
ghost use Rattle.pm_call.specs.Words.{command_named, at_named, gen_named, command_of, without_threads, plain_command_of, IsBounded};

use crate::files::FileForm;
use pm_gen::{Asked, asked_of, number_of};
use pm_head::Form;

/// What the words ask for.
#[derive(Clone, Copy, Debug, PartialEq, Eq)]
pub enum Command {
    /// Reads a session, and writes how many op lines it has and how large its first document is.
    Check,
    /// Plays a session with its lines in file order, and writes the report.
    Replay,
    /// Plays a session as `replay` does, and writes at which lines it undid an event that lies apart, and the report.
    Select,
    /// Plays a session with a thread for each client, and writes the order of its lines and the report.
    Run,
    /// Makes a session from a number, plays it with its lines in file order, and writes a summary. Nothing is read.
    Gen(Asked),
    /// Plays a session that clients may enter late, as `replay` does, and writes the report.
    Late,
    /// Plays such a session, and writes the document after the first steps of the log, so many.
    At(u64),
    /// Plays the rooms of a file of many with their lines in file order, and writes each room's report.
    Rooms,
    /// Plays the rooms of a file of many with a thread for each person, and writes for each room the order of its lines and its
    /// report.
    RunRooms,
}

impl Command {
    /// The form of the file that the command plays.
    pub fn form(self) -> FileForm
        ensures { result ≡ form_of self }
    {
        match self {
            Command::Late | Command::At(_) => FileForm::OneRoom(Form::Late),
            Command::Rooms | Command::RunRooms => FileForm::ManyRooms,
            Command::Check | Command::Replay | Command::Select | Command::Run | Command::Gen(_) => {
                FileForm::OneRoom(Form::Plain)
            }
        }
    }
}

/// The one word `check`, `replay`, `select`, `run`, `late`, `rooms` or `runrooms`, `at` with a number below 2^64 of one to twenty decimal digits, or
/// `gen` with three numbers that a session may be made from. All other words are none of the forms.
pub fn command_of(words: &[String]) -> Option<Command>
    ensures named { result ≡ command_of (map string_bytes words.now) }
    ensures bounds { IfSome result IsBounded }
{
    match words {
        [word] => command_named(word.as_str()),
        [word, version] => at_named(word.as_str(), version.as_str()),
        [word, clients, rounds, number] => gen_named(
            word.as_str(),
            clients.as_str(),
            rounds.as_str(),
            number.as_str(),
        ),
        _ => None,
    }
}

/// The words but for `run` and `runrooms`, which take threads: they are none of the forms here.
pub fn plain_command_of(words: &[String]) -> Option<Command>
    ensures named { result ≡ plain_command_of (map string_bytes words.now) }
    ensures bounds { IfSome result IsBounded }
{
    without_threads(command_of(words))
}

/// The command, unless it takes threads.
fn without_threads(command: Option<Command>) -> Option<Command>
    requires { IfSome command IsBounded }
    ensures named { result ≡ without_threads command }
    ensures bounds { IfSome result IsBounded }
{
    match command {
        Some(Command::Run | Command::RunRooms) | None => None,
        Some(command) => Some(command),
    }
}

/// The word `gen` with three numbers.
fn gen_named(word: &str, clients: &str, rounds: &str, number: &str) -> Option<Command>
    ensures named { result ≡ gen_named word.now clients.now rounds.now number.now }
    ensures bounds { IfSome result IsBounded }
{
    if word == "gen" {
        Some(Command::Gen(asked_of(clients, rounds, number)?))
    } else {
        None
    }
}

/// The word `at` with a number.
fn at_named(word: &str, version: &str) -> Option<Command>
    ensures named { result ≡ at_named word.now version.now }
    ensures bounds { IfSome result IsBounded }
{
    if word == "at" {
        Some(Command::At(number_of(version)?))
    } else {
        None
    }
}

fn command_named(word: &str) -> Option<Command>
    ensures named { result ≡ command_named word.now }
    ensures bounds { IfSome result IsBounded }
{
    if word == "check" {
        Some(Command::Check)
    } else if word == "replay" {
        Some(Command::Replay)
    } else if word == "select" {
        Some(Command::Select)
    } else if word == "run" {
        Some(Command::Run)
    } else if word == "late" {
        Some(Command::Late)
    } else if word == "rooms" {
        Some(Command::Rooms)
    } else if word == "runrooms" {
        Some(Command::RunRooms)
    } else {
        None
    }
}
