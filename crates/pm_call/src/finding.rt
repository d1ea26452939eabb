//! What an input is: a session, or many rooms, or none.
ghost use Rattle.std.specs.Prelude.{◌≡◌, ◌⊎◌, ℕ, List, IfOk, IsErrOf, Some, Err};
ghost use Rattle.pm_gen.specs.Bounds.{InBounds};
ghost use Rattle.pm_gen.specs.Session.{generated};
ghost use Rattle.std.specs.Io.KnownBytes.{Consumes, IsAtEnd};
ghost use Rattle.pm_io.specs.Faults.{Rose};
ghost use Rattle.pm_head.specs.declared.code.Code.TheVariants.{InputTooLong};
ghost use Rattle.pm_head.specs.Answers.{Reads};
ghost use Rattle.pm_head.specs.Refusals.{refused};
ghost use Rattle.pm_script.specs.Sessions.{SessionIs};
ghost use Rattle.pm_call.specs.Contents.{FileIs};
ghost use Rattle.pm_call.specs.Finding.{found_of, HoldsIn, FoundHolds};
ghost use Rattle.pm_call.specs.Files.{file_of, form_of, ReadsInput};
ghost use Rattle.pm_call.specs.Output.{IsPastLimit};
ghost use Rattle.pm_call.specs.Words.{IsBounded};

use crate::files::FileForm;
use crate::words::Command;
use pm_gen::{Asked, generate};
use pm_head::Form;
use pm_io::{ReadError, Source, read_all};
use pm_script::{
    Code, MAX_INPUT, Refusal, RoomSession, Session, SessionError, read_late, read_rooms,
    read_session,
};
use std::alloc::{AllocError, Global};

/// What an input was found to be.
#[derive(Drop)]
pub enum Found {
    /// A session.
    IsSession(Session),
    /// Many rooms, each with a session.
    AreRooms(Vec<RoomSession>),
    /// Neither: the least faulty line, and the code of its first fault.
    Refused(Refusal),
}

/// What the file is found to be that a command plays: `gen` makes it and reads nothing, and the others read a source.
pub fn found_for<R: Source>(
    alloc: Global,
    command: Command,
    source: &mut R,
) -> Result<Found, ReadError>
    requires { IsBounded command }
    ensures is { IfOk result (λ f. (input : List ℕ) → R.left source.old ≡ Some input → FileIs (form_of command) (file_of command input) (found_of f)) }
    ensures took { IfOk result (λ f. (input : List ℕ) × Consumes (R.left source.old) (R.left source.new) input
        × FileIs (form_of command) (file_of command input) (found_of f)) }
    ensures holds { IfOk result (FoundHolds (form_of command)) }
    ensures fault { IsErrOf result ReadError.ReadFault → Rose (R.faults source.old) (R.faults source.new) }
    ensures no_fault { IsErrOf result ReadError.ReadFault ⊎ (R.faults source.new ≡ R.faults source.old) }
    ensures read { IsErrOf result ReadError.TooLong → ⊥ }
    ensures to_end { ReadsInput command → IfOk result (λ f. IsAtEnd (R.left source.new)
        ⊎ ((found_of f ≡ Err (refused 0 InputTooLong)) × IsPastLimit (R.left source.old) (R.left source.new))) }
    ensures unread { ReadsInput command
        ⊎ ((R.left source.new ≡ R.left source.old) × (R.faults source.new ≡ R.faults source.old)) }
{
    match command {
        Command::Gen(asked) => Ok(found_made(alloc, asked)?),
        Command::Check
        | Command::Replay
        | Command::Select
        | Command::Run
        | Command::Late
        | Command::At(_)
        | Command::Rooms
        | Command::RunRooms => found_in(alloc, command.form(), source),
    }
}

/// What the session file made from these numbers is found to be.
fn found_made(alloc: Global, asked: Asked) -> Result<Found, AllocError>
    requires { InBounds asked.clients asked.rounds }
    ensures is { IfOk result (λ f. FileIs (FileForm.OneRoom Form.Plain) (generated asked.clients asked.rounds asked.number) (found_of f)) }
    ensures holds { IfOk result (FoundHolds (FileForm.OneRoom Form.Plain)) }
{
    let file = generate(alloc, asked.clients, asked.rounds, asked.number)?;
    found_of(alloc, FileForm::OneRoom(Form::Plain), file.as_bytes())
}

/// Reads a source to its end, and says what its bytes are in files of this form. Of an input past the limit one byte more than the limit is read.
pub fn found_in<R: Source>(
    alloc: Global,
    form: FileForm,
    source: &mut R,
) -> Result<Found, ReadError>
    ensures is { IfOk result (λ f. (input : List ℕ) → R.left source.old ≡ Some input → FileIs form input (found_of f)) }
    ensures took { IfOk result (λ f. (input : List ℕ) × Consumes (R.left source.old) (R.left source.new) input
        × FileIs form input (found_of f)) }
    ensures holds { IfOk result (FoundHolds form) }
    ensures fault { IsErrOf result ReadError.ReadFault → Rose (R.faults source.old) (R.faults source.new) }
    ensures no_fault { IsErrOf result ReadError.ReadFault ⊎ (R.faults source.new ≡ R.faults source.old) }
    ensures read { IsErrOf result ReadError.TooLong → ⊥ }
    ensures to_end { IfOk result (λ f. IsAtEnd (R.left source.new)
        ⊎ ((found_of f ≡ Err (refused 0 InputTooLong)) × IsPastLimit (R.left source.old) (R.left source.new))) }
{
    match read_all(alloc, source, MAX_INPUT) {
        Ok(input) => Ok(found_of(alloc, form, &input)?),
        Err(ReadError::TooLong) => Ok(Found::Refused(Refusal {
            line: 0,
            code: Code::InputTooLong,
        })),
        Err(e) => Err(e),
    }
}

/// What an input is in files of this form.
fn found_of(alloc: Global, form: FileForm, input: &[u8]) -> Result<Found, AllocError>
    ensures is { IfOk result (λ f. FileIs form input.now (found_of f)) }
    ensures holds { IfOk result (FoundHolds form) }
{
    match form {
        FileForm::OneRoom(form) => session_in(alloc, form, input),
        FileForm::ManyRooms => rooms_in(alloc, input),
    }
}

/// What an input is as a file of many rooms.
fn rooms_in(alloc: Global, input: &[u8]) -> Result<Found, AllocError>
    ensures is { IfOk result (λ f. FileIs FileForm.ManyRooms input.now (found_of f)) }
    ensures holds { IfOk result (FoundHolds FileForm.ManyRooms) }
{
    match read_rooms(alloc, input) {
        Ok(rooms) => Ok(Found::AreRooms(rooms)),
        Err(SessionError::Refused(refusal)) => Ok(Found::Refused(refusal)),
        Err(SessionError::NoMemory) => Err(AllocError),
    }
}

/// What an input is as a session of this form.
fn session_in(alloc: Global, form: Form, input: &[u8]) -> Result<Found, AllocError>
    ensures is { IfOk result (λ f. FileIs (FileForm.OneRoom form) input.now (found_of f)) }
    ensures holds { IfOk result (FoundHolds (FileForm.OneRoom form)) }
{
    match read(alloc, form, input) {
        Ok(session) => Ok(Found::IsSession(session)),
        Err(SessionError::Refused(refusal)) => Ok(Found::Refused(refusal)),
        Err(SessionError::NoMemory) => Err(AllocError),
    }
}

/// The session that an input is in files of this form.
fn read(alloc: Global, form: Form, input: &[u8]) -> Result<Session, SessionError>
    ensures read { Reads (λ s. s) (SessionIs form input.now) result }
    ensures holds { IfOk result (HoldsIn form) }
{
    match form {
        Form::Plain => read_session(alloc, input),
        Form::Late => read_late(alloc, input),
    }
}
