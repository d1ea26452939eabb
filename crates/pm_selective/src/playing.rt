//! Lines of a session, played with what is told of an undo of an event that lies apart.
ghost use Rattle.std.specs.Prelude.{◌≡◌, ◌↔◌, ◌+◌, ◌++◌, ℕ, true, if◌then◌else◌, [], ◌∷◌, length, slice_get, take, vec_len, Some, IfOk, OnOk, OnErr};
ghost use Rattle.pm_apply.specs.Changes.{meaning};
ghost use Rattle.pm_meaning.specs.Steps.{Step};
ghost use Rattle.pm_session.specs.declared.line.Act.TheVariants.{UndoEvent};
ghost use Rattle.pm_session.specs.declared.line.Line.{Line};
ghost use Rattle.pm_session.specs.Events.{state_of, played};
ghost use Rattle.pm_session.specs.Left.{LeftByLine, LeftByLines};
ghost use Rattle.pm_session.specs.Refusals.{EditorGetsNoRefusal, NoEditorRefused};
ghost use Rattle.pm_session.specs.Restoring.{Restores};
ghost use Rattle.pm_session.specs.Sessions.{session};
ghost use Rattle.pm_session.specs.Sounds.{Sound, NamesDiffer};
ghost use Rattle.pm_session.specs.Standing.{CursorsStay};
ghost use Rattle.pm_session.specs.Suits.{SuitsRoom, LinesSuit};
ghost use Rattle.pm_selective.specs.Playing.{UndoesApart, LeavesLater, AreApartLines, IsFound, HasMade};

use crate::standing::count_apart;
use pm_apply::DocChange;
use pm_schema::Schema;
use pm_session::{Act, Line, Maker, Member, Outcome, Room};
use std::alloc::{AllocError, Global};

/// What became of a line. `apart`: the line is an undo of a numbered event that was found, the event lies apart in the client's
/// timeline, and every step of the stored inverses was carried and applied.
#[derive(Drop)]
pub struct Played {
    pub outcome: Outcome<DocChange>,
    pub apart: bool,
}

/// What became of lines, in order. `apart`: the numbers, in order, of those that undid an event that lies apart.
#[derive(Drop)]
pub struct PlayedAll {
    pub outcomes: Vec<Outcome<DocChange>>,
    pub apart: Vec<u32>,
}

/// Plays a line as `Room::play` does, and tells whether it undid an event that lies apart. Where it did, the undo left the later
/// steps, carried and spliced in order onto the document before the event. Running out of memory leaves the room as
/// `Room::play` says.
pub fn play<K: Maker<DocChange>>(
    alloc: Global,
    room: &mut Room<DocChange>,
    schema: &Schema,
    maker: &K,
    line: &Line<K::Op, DocChange>,
) -> Result<Played, AllocError>
    requires sound { Sound meaning schema.now (state_of room.old) }
    requires suits { SuitsRoom (state_of room.old) line.now }
    ensures plays { IfOk result (λ p. (p.outcome, state_of room.new) ≡ played meaning schema.now (K.makes maker.now schema.now) (state_of room.old) line.now) }
    // True exactly where the line undid an event that lies apart.
    ensures apart { IfOk result (λ p. (p.apart ≡ true) ↔ UndoesApart schema.now (state_of room.old) line.now p.outcome) }
    // Where it is true, the undo left the later steps.
    ensures leaves { IfOk result (λ p. p.apart ≡ true → LeavesLater schema.now (state_of room.old) line.now (state_of room.new)) }
    ensures unrefused { IfOk result (λ p. EditorGetsNoRefusal line.now.act p.outcome) }
    ensures left { OnErr result (LeftByLine meaning schema.now (state_of room.old) line.now (state_of room.new)) }
    ensures sound { Sound meaning schema.now (state_of room.new) }
    ensures names { NamesDiffer room.new.authority.log }
    ensures cursors { CursorsStay meaning (state_of room.old) (state_of room.new) }
    ensures restores { OnOk result (Restores meaning schema.now (state_of room.old) line.now (state_of room.new)) }
{
    let steps = steps_apart(alloc, room, schema, line)?;
    let outcome = room.play(alloc, schema, maker, line)?;
    let apart = has_made(&outcome, steps);
    Ok(Played { outcome, apart })
}

/// How many steps the event has that the line finds, where it lies apart; else none.
fn steps_apart<O>(
    alloc: Global,
    room: &Room<DocChange>,
    schema: &Schema,
    line: &Line<O, DocChange>,
) -> Result<Option<u64>, AllocError>
    requires sound { Sound meaning schema.now (state_of room.now) }
    requires suits { SuitsRoom (state_of room.now) line.now }
    ensures found { IfOk result (IsFound schema.now (state_of room.now) line.now) }
    ensures err { OnErr result ((number : ℕ) × (line.now.act ≡ UndoEvent number)) }
{
    let _schema = schema;
    let Act::UndoEvent { event } = &line.act else {
        return Ok(None);
    };
    match &room.members()[line.client as usize] {
        Member::Editor(client) => count_apart(alloc, client.history(), *event),
        Member::Raw { name: _, serial: _ } => Ok(None),
    }
}

/// Whether so many steps were made.
fn has_made(outcome: &Outcome<DocChange>, steps: Option<u64>) -> bool
    ensures { (result ≡ true) ↔ HasMade outcome.now steps }
{
    match (outcome, steps) {
        (Outcome::Made { count }, Some(n)) => *count == n,
        _ => false,
    }
}

/// Plays lines in order, each as `play` does. Each must suit the room as the lines before it leave it. Running out of memory
/// leaves the room after the lines that were played, and after the first parts of the next.
pub fn play_all<K: Maker<DocChange>>(
    alloc: Global,
    room: &mut Room<DocChange>,
    schema: &Schema,
    maker: &K,
    lines: &[Line<K::Op, DocChange>],
) -> Result<PlayedAll, AllocError>
    requires sound { Sound meaning schema.now (state_of room.old) }
    requires suit { LinesSuit (state_of room.old) lines.now }
    ensures outcomes { IfOk result (λ p. p.outcomes.items ≡ (session meaning schema.now (K.makes maker.now schema.now) (state_of room.old) lines.now).0) }
    ensures each { IfOk result (λ p. vec_len p.outcomes ≡ length lines.now) }
    ensures apart { IfOk result (λ p. AreApartLines schema.now (K.makes maker.now schema.now) (state_of room.old) lines.now p.apart.items) }
    ensures room { OnOk result (state_of room.new ≡ (session meaning schema.now (K.makes maker.now schema.now) (state_of room.old) lines.now).1) }
    ensures left { OnErr result (LeftByLines meaning schema.now (K.makes maker.now schema.now) (state_of room.old) lines.now (state_of room.new)) }
    ensures sound { Sound meaning schema.now (state_of room.new) }
    ensures unrefused { IfOk result (λ p. NoEditorRefused lines.now p.outcomes.items) }
    ensures names { NamesDiffer room.new.authority.log }
    // So it is from the room after each number of lines to the next.
    ensures cursors { OnOk result ((k : ℕ) → CursorsStay meaning
        (session meaning schema.now (K.makes maker.now schema.now) (state_of room.old) (take k lines.now)).1
        (session meaning schema.now (K.makes maker.now schema.now) (state_of room.old) (take (k + 1) lines.now)).1) }
    ensures restores { OnOk result ((k : ℕ) (line : Line K.Op Step) → slice_get lines.now k ≡ Some line → Restores meaning schema.now
        (session meaning schema.now (K.makes maker.now schema.now) (state_of room.old) (take k lines.now)).1 line
        (session meaning schema.now (K.makes maker.now schema.now) (state_of room.old) (take (k + 1) lines.now)).1) }
{
    let mut outcomes = Vec::new(alloc);
    let mut numbers = Vec::new(alloc);
    for line in lines {
        let played = play(alloc, room, schema, maker, line)?;
        outcomes.push(played.outcome)?;
        note(&mut numbers, line.number, played.apart)?;
    }
    Ok(PlayedAll {
        outcomes,
        apart: numbers,
    })
}

/// One number more, where it is to be noted.
fn note(numbers: &mut Vec<u32>, number: u32, apart: bool) -> Result<(), AllocError>
    ensures { OnOk result (numbers.new.items ≡ numbers.old.items ++ (if apart then number ∷ [] else [])) }
{
    if apart {
        numbers.push(number)?;
    }
    Ok(())
}
