//! A room that is just opened: its members, and the desk at which they play.
ghost use Rattle.std.specs.Prelude.{◌≡◌, ◌<◌, ◌≤◌, length, IfOk};
ghost use Rattle.pm_session.specs.Sessions.{new_member, new_members};
ghost use Rattle.pm_workers.specs.Hired.{AreSeated};

use crate::seating::split_all;
use pm_authority::Authority;
use pm_change::Change;
use pm_client::Client;
use pm_desk::{Desk, Seat};
use pm_session::Member;
use std::alloc::{AllocError, Global};

/// A desk, and the members of a room with their seats, client by client.
#[derive(Drop)]
pub struct Seated<C: Change>
where
    C::Rules: Drop,
{
    pub desk: Desk<Authority<C>>,
    pub members: Vec<Member<C>>,
    pub seats: Vec<Seat<Authority<C>>>,
}

/// A desk over a new authority at this document, which must be good by the rules, with a member and a seat for each client.
/// `raw` says of each client whether it is a raw one. There must be one at least, and 32 at most.
pub fn open_desk<C: Change>(
    alloc: Global,
    rules: C::Rules,
    doc: C::Doc,
    raw: &[bool],
) -> Result<Seated<C>, AllocError>
where
    C::Rules: Drop,
    requires some { 0 < length raw.now }
    requires good { C.means.is_good rules doc }
    requires few { length raw.now ≤ 32 }
    ensures rules { IfOk result (λ s. s.desk.opening.rules ≡ rules) }
    ensures seated { IfOk result (λ s. AreSeated C.means s.desk doc raw.now s.members.items s.seats.items) }
{
    let members = new_members(alloc, &doc, raw)?;
    let authority = Authority::new(alloc, doc)?;
    let (desk, mut first) = Desk::new(alloc, rules, authority)?;
    let mut seats = split_all(alloc, &desk, &mut first, raw.len() as u32 - 1)?;
    seats.insert(0, first)?;
    Ok(Seated {
        desk,
        members,
        seats,
    })
}

/// As many members just come to this document as `raw` has places, named 0, 1, 2 and so on. `raw` says of each whether it is
/// a raw client, or else an editor.
pub fn new_members<C: Change>(
    alloc: Global,
    doc: &C::Doc,
    raw: &[bool],
) -> Result<Vec<Member<C>>, AllocError>
    requires { length raw.now ≤ 32 }
    ensures { IfOk result (λ v. v.items ≡ new_members doc.now 0 raw.now) }
{
    let mut members = Vec::new(alloc);
    for is_raw in raw {
        let name = members.len() as u32;
        members.push(new_member(alloc, doc, name, *is_raw)?)?;
    }
    Ok(members)
}

/// A member just come to this document: a raw client that has drawn no serial, or an editor at version 0.
fn new_member<C: Change>(
    alloc: Global,
    doc: &C::Doc,
    name: u32,
    is_raw: bool,
) -> Result<Member<C>, AllocError>
    ensures { IfOk result (λ x. x ≡ new_member doc.now name is_raw) }
{
    if is_raw {
        return Ok(Member::Raw { name, serial: 0 });
    }
    Ok(Member::Editor(Client::new(alloc, name, C::copy_doc(alloc, doc)?)?))
}
