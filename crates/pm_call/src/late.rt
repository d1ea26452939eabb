//! Sessions that clients may enter late.
ghost use Rattle.std.specs.Prelude.{◌≡◌, ◌≤◌, ◌<◌, length, string_bytes, IfOk};
ghost use Rattle.pm_tokens.specs.Faults.{Valid};
ghost use Rattle.pm_schema.specs.Documents.{documents_of};
ghost use Rattle.pm_apply.specs.Changes.{meaning};
ghost use Rattle.pm_session.specs.Events.{state_of};
ghost use Rattle.pm_versions.specs.Checkpoints.{IsVersions};
ghost use Rattle.pm_versions.specs.Late.{IsLate};
ghost use Rattle.pm_script.specs.Held.{HoldsLate};
ghost use Rattle.pm_call.specs.Playing.{room_of};
ghost use Rattle.pm_call.specs.LatePlaying.{late_report_of, version_line, past_line, IsTextAt, IsVersionText};

use crate::replaying::open;
use pm_apply::DocChange;
use pm_doctext::push_document;
use pm_making::EditMaker;
use pm_node::Document;
use pm_report::{client_lines, report, with_numbers};
use pm_schema::Schema;
use pm_script::Session;
use pm_versions::{AtError, LateRoom, Steps, Versions};
use std::alloc::{AllocError, Global};
use std::marker::Brand;
use std::sync::ledger::{Blank, Ledger};

/// The report of a session that clients may enter late, whose lines are played in file order.
pub fn replay_late(alloc: Global, session: &Session) -> Result<String, AllocError>
    requires { HoldsLate session.now }
    ensures { IfOk result (λ s. string_bytes s ≡ late_report_of session.now) }
{
    let schema = &session.head.schema;
    let entries = session.head.clients.as_slice();
    let lines = session.lines.as_slice();
    let mut late = open_late(alloc, session)?;
    let outcomes = late.play_all(alloc, schema, &EditMaker, lines)?;
    let outcomes = with_numbers(alloc, lines, outcomes)?;
    let standing = client_lines(alloc, schema, entries, late.room().members())?;
    late.settle(alloc, schema)?;
    report(
        alloc,
        schema,
        entries,
        &outcomes,
        standing.as_str(),
        late.room(),
    )
}

/// The line of version n of such a session: the document after the first n steps of its log, once its editors have settled; or how
/// many steps there are, where there are fewer.
pub fn tell_version(alloc: Global, n: u64, session: &Session) -> Result<String, AllocError>
    requires { HoldsLate session.now }
    ensures { IfOk result (λ s. IsVersionText session.now n (string_bytes s)) }
{
    let schema = &session.head.schema;
    let lines = session.lines.as_slice();
    let mut late = open_late(alloc, session)?;
    let outcomes = late.play_all(alloc, schema, &EditMaker, lines)?;
    drop(outcomes);
    late.settle(alloc, schema)?;
    version_text::<Brand>(Blank::new(1), alloc, schema, late.versions(), n)
}

/// A room at the session's first document, with its clients. Those that come late are editors who have done nothing.
fn open_late(alloc: Global, session: &Session) -> Result<LateRoom<DocChange>, AllocError>
    requires valid { Valid (documents_of session.now.head.schema.spec) session.now.head.doc }
    requires few { length session.now.head.clients ≤ 32 }
    ensures opens { IfOk result (λ l. state_of l.room ≡ room_of session.now) }
    ensures kept { IfOk result (IsLate meaning session.now.head.schema) }
{
    let room = open(alloc, session)?;
    let versions = Versions::new(alloc, session.head.doc.copy()?)?;
    Ok(LateRoom::new(room, versions))
}

/// What is told of version n, where nobody counts the steps that finding it takes.
fn version_text<L: Ledger>(
    blank: Blank,
    alloc: Global,
    schema: &Schema,
    versions: &Versions<DocChange>,
    n: u64,
) -> Result<String, AllocError>
    requires name { blank.name ≡ L.name }
    requires parts { blank.parts ≡ L.parts }
    requires one { 0 < blank.parts }
    requires kept { IsVersions meaning schema.now versions.now }
    ensures { IfOk result (λ s. IsTextAt schema.now versions.now.first versions.now.log n (string_bytes s)) }
{
    let mut steps: Steps<L> = Steps::open(blank);
    match versions.at(alloc, schema, n, &mut steps) {
        Ok(doc) => version_line(alloc, schema, n, &doc),
        Err(AtError::Past { length }) => past_line(alloc, length),
        Err(AtError::NoMemory) => Err(AllocError),
    }
}

/// The line of version n, with its document.
fn version_line(
    alloc: Global,
    schema: &Schema,
    n: u64,
    doc: &Document,
) -> Result<String, AllocError>
    ensures { IfOk result (λ s. string_bytes s ≡ version_line schema.now.spec n doc.now) }
{
    let mut text = format!(in alloc; "at {n} ")?;
    push_document(alloc, schema, &mut text, doc)?;
    text.push('\n')?;
    Ok(text)
}

/// The line that tells how many steps there are.
fn past_line(alloc: Global, length: u64) -> Result<String, AllocError>
    ensures { IfOk result (λ s. string_bytes s ≡ past_line length) }
{
    format!(in alloc; "past {length}\n")
}
