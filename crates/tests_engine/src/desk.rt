//! Two threads put a letter each before one document, at a shared desk.
ghost use Rattle.std.specs.Prelude.{◌≡◌, [], IfOk};
ghost use Rattle.pm_engine.specs.Words.{Valid, documents_of, meaning, IsKept, IsOwn, IsSeatOf, first_seat};

use crate::applying::{BEFORE, SCHEMA, document_of, insertion, schema_of};
use anyhow::Result;
use pm_engine::{
    Answer, Authority, Change, Closed, Desk, DocChange, Document, Listed, Message, Name, Named,
    Request, Schema, Seat, document_text,
};
use std::alloc::{AllocError, Global};
use std::sync::Wait;
use std::thread::{Threads, join_mut};

/// The desk that both share.
struct Room {
    desk: Desk<Authority<DocChange>>,
}

/// A seat, and the step that is submitted at it.
struct Writer {
    seat: Seat<Authority<DocChange>>,
    change: DocChange,
}

/// A submission, at this version, of a client's first step.
fn submission<C: Change>(
    alloc: Global,
    client: u32,
    version: u64,
    change: &C,
) -> Result<Request<C>, AllocError>
    ensures { IfOk result (IsOwn client) }
{
    let name = Name { client, serial: 1 };
    let change = change.copy(alloc)?;
    let mut steps = Listed::new(alloc);
    steps.push(Named { name, change })?;
    Ok(Request {
        client,
        message: Message::Submit { version, steps },
    })
}

/// Submits a step at this version. Without memory nothing is submitted.
fn submit_at<C: Change, R: Wait>(
    alloc: Global,
    rt: &R,
    desk: &Desk<Authority<C>>,
    seat: &mut Seat<Authority<C>>,
    change: &C,
    version: u64,
) -> Option<Answer<C>>
where
    C::Rules: Drop,
    requires { IsSeatOf desk.now seat.old }
    ensures { seat.new ≡ record seat.old { seen = seat.new.seen } }
{
    let request = submission(alloc, seat.number(), version, change).ok()?;
    desk.call(alloc, rt, seat, request).ok()
}

/// Submits, and where the version is old once more at the version that is told. Of two callers none is refused twice.
fn submit<C: Change, R: Wait>(
    alloc: Global,
    rt: &R,
    desk: &Desk<Authority<C>>,
    seat: &mut Seat<Authority<C>>,
    change: &C,
)
where
    C::Rules: Drop,
    requires { IsSeatOf desk.now seat.old }
    ensures { seat.new ≡ record seat.old { seen = seat.new.seen } }
{
    if let Some(Answer::WrongVersion { length }) = submit_at(alloc, rt, desk, seat, change, 0) {
        submit_at(alloc, rt, desk, seat, change, length);
    }
}

impl Writer {
    fn write<R: Wait>(&mut self, alloc: Global, rt: &R, room: &Room)
        requires { IsSeatOf room.now.desk self.old.seat }
        ensures { self.new.seat ≡ record self.old.seat { seen = self.new.seat.seen } }
    {
        submit(alloc, rt, &room.desk, &mut self.seat, &self.change);
    }
}

/// Both write, each in a thread of its own where one can be made.
fn write_both<R: Threads + Wait + Sync>(
    alloc: Global,
    rt: &R,
    room: &Room,
    ann: &mut Writer,
    bob: &mut Writer,
)
    requires ann { IsSeatOf room.now.desk ann.old.seat }
    requires bob { IsSeatOf room.now.desk bob.old.seat }
    ensures ann { ann.new.seat ≡ record ann.old.seat { seen = ann.new.seat.seen } }
    ensures bob { bob.new.seat ≡ record bob.old.seat { seen = bob.new.seat.seen } }
{
    join_mut(
        rt,
        &mut || ann.write(alloc, rt, room),
        &mut || bob.write(alloc, rt, room),
    );
}

/// A desk over this document, its first seat, and one that is split from it.
fn open<C: Change>(
    alloc: Global,
    rules: C::Rules,
    doc: C::Doc,
) -> Result<(Desk<Authority<C>>, Seat<Authority<C>>, Seat<Authority<C>>), AllocError>
where
    C::Rules: Drop,
    requires { C.means.is_good rules doc }
    ensures first { IfOk result (λ r. r.1 ≡ record (first_seat r.0) { splits = 1 }) }
    ensures second { IfOk result (λ r. r.2 ≡ record (first_seat r.0) { number = 1 }) }
{
    let authority = Authority::<C>::new(alloc, doc)?;
    let (desk, mut first) = Desk::new(alloc, rules, authority)?;
    let second = desk.split(&mut first);
    Ok((desk, first, second))
}

/// What the desk leaves, once the second seat is joined to the first.
fn close<C: Change>(
    desk: Desk<Authority<C>>,
    first: Seat<Authority<C>>,
    second: Seat<Authority<C>>,
) -> Closed<Authority<C>>
where
    C::Rules: Drop,
    requires first { first ≡ record (first_seat desk) { splits = 1; seen = first.seen } }
    requires second { IsSeatOf desk second }
    ensures { IsKept C.means result.rules result.machine }
{
    let mut first = first;
    desk.join(&mut first, second);
    desk.close(first)
}

/// What the desk leaves when both have written.
fn written<R: Threads + Wait + Sync>(
    alloc: Global,
    rt: &R,
    room: Room,
    ann: Writer,
    bob: Writer,
) -> Closed<Authority<DocChange>>
    requires ann { ann.seat ≡ record (first_seat room.desk) { splits = 1 } }
    requires bob { bob.seat ≡ record (first_seat room.desk) { number = 1 } }
    ensures { IsKept meaning result.rules result.machine }
{
    let (mut ann, mut bob) = (ann, bob);
    write_both(alloc, rt, &room, &mut ann, &mut bob);
    let Room { desk } = room;
    let Writer {
        seat: first,
        change: _ann,
    } = ann;
    let Writer {
        seat: second,
        change: _bob,
    } = bob;
    close(desk, first, second)
}

/// The step that puts a letter before the text.
fn typed(alloc: Global, schema: &Schema, letter: char) -> Result<DocChange> {
    let step = insertion(alloc, schema, 1, letter)?;
    Ok(DocChange::new(alloc, step)?)
}

/// The steps of Ann and of Bob.
fn letters(alloc: Global, schema: &Schema) -> Result<(DocChange, DocChange)> {
    let ann = typed(alloc, schema, 'A')?;
    let bob = typed(alloc, schema, 'B')?;
    Ok((ann, bob))
}

/// What a desk over this document leaves, at which Ann and Bob have submitted these steps.
fn shared<R: Threads + Wait + Sync>(
    alloc: Global,
    rt: &R,
    schema: Schema,
    doc: Document,
    steps: (DocChange, DocChange),
) -> Result<Closed<Authority<DocChange>>, AllocError>
    requires { Valid (documents_of schema.spec) doc }
    ensures { IfOk result (λ c. IsKept meaning c.rules c.machine) }
{
    let (desk, first, second) = open(alloc, schema, doc)?;
    let ann = Writer {
        seat: first,
        change: steps.0,
    };
    let bob = Writer {
        seat: second,
        change: steps.1,
    };
    Ok(written(alloc, rt, Room { desk }, ann, bob))
}

fn from_texts<R: Threads + Wait + Sync>(
    alloc: Global,
    rt: &R,
) -> Result<Closed<Authority<DocChange>>> {
    let schema = schema_of(alloc, SCHEMA)?;
    let doc = document_of(alloc, &schema, BEFORE)?;
    let steps = letters(alloc, &schema)?;
    Ok(shared(alloc, rt, schema, doc, steps)?)
}

/// What is left where Ann came first, and where Bob did.
const ANN_FIRST: &str =
    r#"{"content":[{"content":[{"text":"BAab","type":"text"}],"type":"paragraph"}],"type":"doc"}"#;

const BOB_FIRST: &str =
    r#"{"content":[{"content":[{"text":"ABab","type":"text"}],"type":"paragraph"}],"type":"doc"}"#;

// Each letter stands at the front when it is put in, and both are there: whoever came second was refused once.
#[test]
fn two_threads_share_a_desk(rt: HostRuntime) -> Result<()> {
    let closed = from_texts(rt.alloc(), &rt)?;
    let left = document_text(rt.alloc(), &closed.rules, closed.machine.doc())?;
    assert!(rt; left.as_str() == ANN_FIRST || left.as_str() == BOB_FIRST);
    Ok(())
}
