//! One op line.
ghost use Rattle.std.specs.Prelude.{◌≡◌, ◌≤◌, ◌<◌, length, nat_eq, position, vec_len, IfOk, IfSome};
ghost use Rattle.std.specs.Cmp.Lexicographic.{pointwise};
ghost use Rattle.serde_json.specs.View.{view};
ghost use Rattle.pm_head.specs.Answers.{Gives};
ghost use Rattle.pm_script.specs.Lines.{client_in, word_in, is_raw, is_late, is_due, said, turned, is_there, named, op_in, op_line};

use crate::acts::act_in;
use crate::earlier::Earlier;
use crate::word::Word;
use pm_apply::DocChange;
use pm_head::{ClientEntry, Code, Form, LineError, json_line};
use pm_opjson::text_in;
use pm_ops::Op;
use pm_schema::Schema;
use pm_session::{Act, Line};
use serde_json::Value;
use std::alloc::Global;

/// The number of the last line that may be there.
const LAST_LINE: u32 = 100_003;

/// Op line `number` of a file of this form, after earlier ones; else the code of its first fault. `TooManyLines` is decided
/// first, then what its JSON value is, then the client and the word, `OpNotAllowed`, `WrongEnter`, the codes of its fields, and
/// last `NoSuchMessage`.
#[tactic(auto, unfolding(crate::specs::Lines::op_line))]
pub(crate) fn op_line(
    alloc: Global,
    form: Form,
    schema: &Schema,
    clients: &[ClientEntry],
    earlier: &Earlier,
    number: u32,
    line: &[u8],
) -> Result<Line<Op, DocChange>, LineError>
    requires composed { vec_len earlier.now.composed ≡ length clients.now }
    requires answered { vec_len earlier.now.answered ≡ length clients.now }
    requires cursors { vec_len earlier.now.cursors ≡ length clients.now }
    requires own { vec_len earlier.now.own ≡ length clients.now }
    requires few { length clients.now ≤ 32 }
    ensures read { Gives (λ l. l) result (op_line form schema.now.spec clients.now earlier.now.lines.items number line.now) }
    ensures number { IfOk result (λ l. number ≤ LAST_LINE) }
    ensures within { IfOk result (λ l. l.client < length clients.now) }
{
    if number > LAST_LINE {
        return Err(LineError::Code(Code::TooManyLines));
    }
    let json = json_line(alloc, line)?;
    op_in(alloc, form, schema, clients, earlier, number, &json)
}

/// The op line that a value is.
#[tactic(auto, unfolding(crate::specs::Lines::op_in))]
pub(crate) fn op_in(
    alloc: Global,
    form: Form,
    schema: &Schema,
    clients: &[ClientEntry],
    earlier: &Earlier,
    number: u32,
    json: &Value,
) -> Result<Line<Op, DocChange>, LineError>
    requires composed { vec_len earlier.now.composed ≡ length clients.now }
    requires answered { vec_len earlier.now.answered ≡ length clients.now }
    requires cursors { vec_len earlier.now.cursors ≡ length clients.now }
    requires own { vec_len earlier.now.own ≡ length clients.now }
    requires few { length clients.now ≤ 32 }
    ensures read { Gives (λ l. l) result (op_in form schema.now.spec clients.now earlier.now.lines.items number (view json.now)) }
    ensures within { IfOk result (λ l. l.client < length clients.now) }
{
    let client = client_in(clients, json)?;
    let found = word_in(form, json)?;
    let allowed = said(clients, earlier, client, found)?;
    let word = turned(clients, earlier, client, allowed)?;
    let read = act_in(alloc, schema, word, json)?;
    let act = named(earlier, client, read)?;
    Ok(Line {
        number,
        client: client as u32,
        act,
    })
}

/// The place of the client that `c` names.
fn client_in(clients: &[ClientEntry], json: &Value) -> Result<usize, LineError>
    ensures place { Gives (λ i. i) result (client_in clients.now (view json.now)) }
    ensures within { IfOk result (λ i. i < length clients.now) }
{
    let name = text_in(json, "c")?;
    match place_of(name, clients) {
        Some(i) => Ok(i),
        None => Err(LineError::Code(Code::UnknownName)),
    }
}

#[tactic(auto, using(crate::proofs::Places::places))]
fn place_of(name: &str, clients: &[ClientEntry]) -> Option<usize>
    ensures place { result ≡ position (λ c. pointwise nat_eq name.now c.name) clients.now }
    ensures within { IfSome result (λ i. i < length clients.now) }
{
    clients.iter().position(|c| name == c.name.as_str())
}

/// The word that `op` says.
fn word_in(form: Form, json: &Value) -> Result<Word, LineError>
    ensures { Gives (λ w. w) result (word_in form (view json.now)) }
{
    let text = text_in(json, "op")?;
    match Word::named(form, text) {
        Some(word) => Ok(word),
        None => Err(LineError::Code(Code::UnknownName)),
    }
}

/// Whether the client at this place is raw.
fn is_raw(clients: &[ClientEntry], client: usize) -> bool
    ensures { result ≡ is_raw clients.now client }
{
    match clients.get(client) {
        Some(entry) => entry.raw,
        None => false,
    }
}

/// Whether the client at this place comes late.
fn is_late(clients: &[ClientEntry], client: usize) -> bool
    ensures { result ≡ is_late clients.now client }
{
    match clients.get(client) {
        Some(entry) => entry.late,
        None => false,
    }
}

/// The word, where the client's line may say it.
fn said(
    clients: &[ClientEntry],
    earlier: &Earlier,
    client: usize,
    word: Word,
) -> Result<Word, LineError>
    requires { client < vec_len earlier.now.cursors }
    ensures { Gives (λ w. w) result (said clients.now earlier.now.lines.items client word) }
{
    if word.may_be_said(is_raw(clients, client), earlier.cursors(client)) {
        Ok(word)
    } else {
        Err(LineError::Code(Code::OpNotAllowed))
    }
}

/// The word, where it comes in its turn: a late client's first line enters, and no other line does.
fn turned(
    clients: &[ClientEntry],
    earlier: &Earlier,
    client: usize,
    word: Word,
) -> Result<Word, LineError>
    requires { client < vec_len earlier.now.own }
    ensures { Gives (λ w. w) result (turned clients.now earlier.now.lines.items client word) }
{
    if word.is_in_turn(is_due(clients, earlier, client)) {
        Ok(word)
    } else {
        Err(LineError::Code(Code::WrongEnter))
    }
}

/// Whether the client at this place is due to enter.
fn is_due(clients: &[ClientEntry], earlier: &Earlier, client: usize) -> bool
    requires { client < vec_len earlier.now.own }
    ensures { result ≡ is_due clients.now earlier.now.lines.items client }
{
    is_late(clients, client) && !earlier.has_line(client)
}

/// The act, where the message or the answer that it names is there.
fn named(
    earlier: &Earlier,
    client: usize,
    act: Act<Op, DocChange>,
) -> Result<Act<Op, DocChange>, LineError>
    requires composed { client < vec_len earlier.now.composed }
    requires answered { client < vec_len earlier.now.answered }
    ensures { Gives (λ a. a) result (named earlier.now.lines.items client act) }
{
    if is_there(earlier, client, &act) {
        Ok(act)
    } else {
        Err(LineError::Code(Code::NoSuchMessage))
    }
}

/// Whether the message or the answer that an act names is there. An act that enters names none.
fn is_there(earlier: &Earlier, client: usize, act: &Act<Op, DocChange>) -> bool
    requires composed { client < vec_len earlier.now.composed }
    requires answered { client < vec_len earlier.now.answered }
    ensures { result ≡ is_there earlier.now.lines.items client act.now }
{
    act.enters() || act.names(earlier.composed(client), earlier.answered(client))
}
