//! The session that an input is.
ghost use Rattle.std.specs.Prelude.{◌≡◌, ◌≤◌, [], length, IfOk};
ghost use Rattle.pm_head.specs.Lines.{lines_of};
ghost use Rattle.pm_head.specs.Answers.{Reads};
ghost use Rattle.pm_script.specs.Answers.{Gives};
ghost use Rattle.pm_script.specs.Held.{Holds, HoldsLate};
ghost use Rattle.pm_script.specs.Sessions.{at_line, ops_of, behind, SessionOf, SessionIs};

use crate::earlier::Earlier;
use crate::entrants::all_enter;
use crate::lines::op_line;
use pm_apply::DocChange;
use pm_head::{
    ClientEntry, Code, Form, Head, LineError, Refusal, SessionError, first_line, read_head,
};
use pm_list::Listed;
use pm_ops::Op;
use pm_schema::Schema;
use pm_session::Line;
use std::alloc::Global;

/// The greatest number of bytes of an input.
pub const MAX_INPUT: usize = 67_108_864;

/// A session, as its file has it.
#[derive(Drop)]
pub struct Session {
    /// The schema, the first document and the clients.
    pub head: Head,
    /// The op lines in file order, the first of which is line 4.
    pub lines: Listed<Line<Op, DocChange>>,
}

/// The session that an input is.
///
/// # Errors
///
/// The least faulty line with the code of its first fault.
/// - Line 0: `InputTooLong`, where the input passes `MAX_INPUT` bytes.
/// - Lines 1 to 3: those of `read_head`, as of a file in which every client is there from the first line on.
/// - A later line: `TooManyLines`, `LineTooLong`, `NotJson`, `WrongShape`, `UnknownName`, `BadAttribute`, `EmptyText`, `NotASet`,
///   `OpenOrLarge`, `NoSuchMessage` or `OpNotAllowed`.
pub fn read_session(alloc: Global, input: &[u8]) -> Result<Session, SessionError>
    ensures read { Reads (λ s. s) (SessionIs Form.Plain input.now) result }
    ensures holds { IfOk result Holds }
{
    read_in(alloc, Form::Plain, input)
}

/// The session that an input is in which clients may come late, each by an `enter` line of its own; else as `read_session`, with
/// one code more, `WrongEnter`. It comes at line 3 where a late client has no `enter` line, whatever is wrong with the lines
/// after it. It comes at a later line where a late client has not entered and the line doesn't enter, where it enters again,
/// and where another client enters; `OpNotAllowed` is decided before it, and the line's fields are read after it.
pub fn read_late(alloc: Global, input: &[u8]) -> Result<Session, SessionError>
    ensures read { Reads (λ s. s) (SessionIs Form.Late input.now) result }
    ensures holds { IfOk result HoldsLate }
{
    read_in(alloc, Form::Late, input)
}

fn read_in(alloc: Global, form: Form, input: &[u8]) -> Result<Session, SessionError>
    ensures { Reads (λ s. s) (SessionIs form input.now) result }
{
    if input.len() > MAX_INPUT {
        return Err(SessionError::Refused(Refusal {
            line: 0,
            code: Code::InputTooLong,
        }));
    }
    session_of(alloc, form, input)
}

fn session_of(alloc: Global, form: Form, input: &[u8]) -> Result<Session, SessionError>
    ensures { Reads (λ s. s) (SessionOf form (lines_of input.now)) result }
{
    match read_head(alloc, form, input) {
        Ok((head, rest)) => behind(alloc, form, head, rest),
        Err(error) => Err(error),
    }
}

/// The session of a head and the op lines after it.
fn behind(alloc: Global, form: Form, head: Head, input: &[u8]) -> Result<Session, SessionError>
    requires { length head.clients ≤ 32 }
    ensures { Gives (λ s. s) result (behind form head (lines_of input.now)) }
{
    if !all_enter(alloc, head.clients.as_slice(), input)? {
        return Err(SessionError::Refused(Refusal {
            line: 3,
            code: Code::WrongEnter,
        }));
    }
    let lines = ops_from(alloc, form, &head.schema, head.clients.as_slice(), input)?;
    Ok(Session {
        head,
        lines: Listed::from_vec(lines),
    })
}

/// The op lines.
#[tactic(auto, using(pm_list::specs::Readings::fronts), unfolding(crate::specs::Sessions::ops_of, pm_head::specs::Lines::lines_of))]
fn ops_from(
    alloc: Global,
    form: Form,
    schema: &Schema,
    clients: &[ClientEntry],
    input: &[u8],
) -> Result<Vec<Line<Op, DocChange>>, SessionError>
    requires { length clients.now ≤ 32 }
    ensures { Gives (λ v. v.items) result (ops_of form schema.now.spec clients.now [] 4 (lines_of input.now)) }
{
    let mut earlier = Earlier::new(alloc, clients.len())?;
    let mut rest = input;
    let mut number = 4;
    while let Some((line, after)) = first_line(rest) {
        let op = numbered(alloc, form, schema, clients, &earlier, number, line)?;
        earlier.add(op)?;
        rest = after;
        number += 1;
    }
    Ok(earlier.into_lines())
}

ghost use Rattle.std.specs.Prelude.{◌<◌, vec_len};
ghost use Rattle.pm_script.specs.declared.lines.TheConstants.{LAST_LINE};
ghost use Rattle.pm_script.specs.Lines.{op_line};

/// An op line, whose fault tells its number.
fn numbered(
    alloc: Global,
    form: Form,
    schema: &Schema,
    clients: &[ClientEntry],
    earlier: &Earlier,
    number: u32,
    line: &[u8],
) -> Result<Line<Op, DocChange>, SessionError>
    requires composed { vec_len earlier.now.composed ≡ length clients.now }
    requires answered { vec_len earlier.now.answered ≡ length clients.now }
    requires cursors { vec_len earlier.now.cursors ≡ length clients.now }
    requires own { vec_len earlier.now.own ≡ length clients.now }
    requires few { length clients.now ≤ 32 }
    ensures read { Gives (λ l. l) result (at_line number (op_line form schema.now.spec clients.now earlier.now.lines.items number line.now)) }
    ensures number { IfOk result (λ l. number ≤ LAST_LINE) }
    ensures within { IfOk result (λ l. l.client < length clients.now) }
{
    match op_line(alloc, form, schema, clients, earlier, number, line) {
        Ok(op) => Ok(op),
        Err(LineError::Code(code)) => Err(SessionError::Refused(Refusal { line: number, code })),
        Err(LineError::NoMemory) => Err(SessionError::NoMemory),
    }
}
