//! What a member does by a line.
ghost use Rattle.std.specs.List.{AllByRecursion as Each};
ghost use Rattle.std.specs.Prelude.{◌≡◌, true, IfOk, OnErr};
ghost use Rattle.pm_authority.specs.Kept.{IsKept};
ghost use Rattle.pm_session.specs.Events.{acted};
ghost use Rattle.pm_session.specs.Hosts.{Acts};
ghost use Rattle.pm_session.specs.Left.{LeftBy, AuthorityTells};
ghost use Rattle.pm_session.specs.Refusals.{GetsNoRefusal, EditorGetsNoRefusal};
ghost use Rattle.pm_session.specs.Sounds.{IsDrawn, EditorStands, MemberStands};
ghost use Rattle.pm_session.specs.Suits.{is_forge, ActSuits, SuitsMember};
ghost use Rattle.pm_session.specs.declared.member.Member.TheVariants.{Editor, Raw};

use crate::exchange::{exchange, present};
use crate::forge::forge;
use crate::host::Host;
use crate::line::{Act, Line};
use crate::local::{compose, edit, redo, set_cursor, take, undo, undo_event};
use crate::maker::Maker;
use crate::member::Member;
use crate::outcome::Outcome;
use pm_authority::Authority;
use pm_change::Change;
use pm_client::{Client, MessageKind};
use std::alloc::{AllocError, Global};

/// The member does what the line says, and presents its messages to the host. The line must be the member's: the message or
/// the answer that it names must be there, and a raw client does nothing but forge. Running out of memory leaves the first
/// parts of the act done and the others not.
pub fn act<C: Change, K: Maker<C>, H: Host<C>>(
    alloc: Global,
    member: &mut Member<C>,
    rules: &C::Rules,
    maker: &K,
    host: &mut H,
    line: &Line<K::Op, C>,
) -> Result<Outcome<C>, AllocError>
    requires served { H.serves host.old rules.now line.now.client }
    requires suits { SuitsMember member.old line.now }
    requires stands { MemberStands C.means rules.now (H.first host.old) (H.log host.old) member.old }
    // The host is asked once where the act presents a message, and is as before where it presents none. The outcome and the
    // member are those of the one answer that came.
    ensures acts { IfOk result (λ o. Acts C.means rules.now (K.makes maker.now rules.now)
        (host.new ≡ host.old) (λ message answer. H.told rules.now host.old line.now.client message answer host.new) line.now.act member.old o member.new) }
    ensures left { OnErr result (LeftBy (host.new ≡ host.old) (λ message answer. H.told rules.now host.old line.now.client message answer host.new) line.now.act member.old member.new) }
    // No message of an editor is refused for a step.
    ensures unrefused { IfOk result (λ o. EditorGetsNoRefusal line.now.act o) }
    ensures stands { MemberStands C.means rules.now (H.first host.new) (H.log host.new) member.new }
    ensures stays { H.stays host.old host.new }
    ensures first { H.first host.new ≡ H.first host.old }
    ensures served { H.serves host.new rules.now line.now.client }
{
    match member {
        Member::Editor(client) => act_editor(alloc, rules, maker, host, client, &line.act),
        Member::Raw { name, serial } => act_raw(
            alloc, rules, maker, host, *name, serial, &line.act,
        ),
    }
}

/// The editor does this act.
fn act_editor<C: Change, K: Maker<C>, H: Host<C>>(
    alloc: Global,
    rules: &C::Rules,
    maker: &K,
    host: &mut H,
    client: &mut Client<C>,
    act: &Act<K::Op, C>,
) -> Result<Outcome<C>, AllocError>
    requires served { H.serves host.old rules.now client.old.name }
    requires suits { ActSuits (Editor client.old) act.now }
    requires stands { EditorStands C.means rules.now (H.first host.old) (H.log host.old) client.old }
    ensures acts { IfOk result (λ o. Acts C.means rules.now (K.makes maker.now rules.now)
        (host.new ≡ host.old) (λ message answer. H.told rules.now host.old client.old.name message answer host.new) act.now (Editor client.old) o (Editor client.new)) }
    ensures left { OnErr result (LeftBy (host.new ≡ host.old) (λ message answer. H.told rules.now host.old client.old.name message answer host.new) act.now (Editor client.old) (Editor client.new)) }
    ensures unrefused { IfOk result GetsNoRefusal }
    ensures stands { EditorStands C.means rules.now (H.first host.new) (H.log host.new) client.new }
    ensures stays { H.stays host.old host.new }
    ensures first { H.first host.new ≡ H.first host.old }
    ensures served { H.serves host.new rules.now client.old.name }
{
    match act {
        Act::Edit { op, event } => edit(alloc, rules, maker, client, op, *event),
        Act::Undo => undo(alloc, rules, client),
        Act::Redo => redo(alloc, rules, client),
        Act::UndoEvent { event } => undo_event(alloc, rules, client, *event),
        Act::Cursor { pos, side } => set_cursor(client, *pos, *side),
        Act::Submit => compose(alloc, client, MessageKind::Submit),
        Act::Ask => compose(alloc, client, MessageKind::Ask),
        Act::Present { message } => present(alloc, rules, host, client, *message),
        Act::Take { answer } => take(alloc, rules, client, *answer),
        Act::Push { lost } => exchange(alloc, rules, host, client, MessageKind::Submit, *lost),
        Act::Pull { lost } => exchange(alloc, rules, host, client, MessageKind::Ask, *lost),
        Act::Forge {
            version: _,
            steps: _,
        }
        | Act::Enter => unreachable!(),
    }
}

/// The raw client of this name, which has drawn so many serials, does this act.
fn act_raw<C: Change, K: Maker<C>, H: Host<C>>(
    alloc: Global,
    rules: &C::Rules,
    maker: &K,
    host: &mut H,
    name: u32,
    serial: &mut u64,
    act: &Act<K::Op, C>,
) -> Result<Outcome<C>, AllocError>
    requires served { H.serves host.old rules.now name }
    requires suits { is_forge act.now ≡ true }
    requires stands { Each (IsDrawn name serial.old) (H.log host.old) }
    ensures acts { IfOk result (λ o. Acts C.means rules.now (K.makes maker.now rules.now)
        (host.new ≡ host.old) (λ message answer. H.told rules.now host.old name message answer host.new) act.now (Raw name serial.old) o (Raw name serial.new)) }
    ensures left { OnErr result ((host.new ≡ host.old) × (serial.new ≡ serial.old)) }
    ensures stands { Each (IsDrawn name serial.new) (H.log host.new) }
    ensures stays { H.stays host.old host.new }
    ensures first { H.first host.new ≡ H.first host.old }
    ensures served { H.serves host.new rules.now name }
{
    let _maker = maker;
    match act {
        Act::Forge { version, steps } => {
            forge(alloc, rules, host, name, serial, *version, steps.as_slice())
        }
        _ => unreachable!(),
    }
}

/// The member does what the line says, and presents its messages to this authority.
pub fn act_at<C: Change, K: Maker<C>>(
    alloc: Global,
    rules: &C::Rules,
    maker: &K,
    authority: &mut Authority<C>,
    member: &mut Member<C>,
    line: &Line<K::Op, C>,
) -> Result<Outcome<C>, AllocError>
    requires kept { IsKept C.means rules.now authority.old }
    requires suits { SuitsMember member.old line.now }
    requires stands { MemberStands C.means rules.now authority.old.first authority.old.log member.old }
    ensures acts { IfOk result (λ o. (o, authority.new, member.new) ≡ acted C.means rules.now (K.makes maker.now rules.now) authority.old line.now.act member.old) }
    ensures left { OnErr result (LeftBy (authority.new ≡ authority.old) (AuthorityTells C.means rules.now authority.old authority.new) line.now.act member.old member.new) }
    ensures unrefused { IfOk result (λ o. EditorGetsNoRefusal line.now.act o) }
{
    // A log that is held has a length of 64 bits.
    let _length = authority.log().len();
    act(alloc, member, rules, maker, authority, line)
}
