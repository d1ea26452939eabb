//! The library's calls. A handle is passed twice: by value as `of`, and by its storage as `to`, which holds it again afterwards.
ghost use Rattle.std.specs.Prelude.{◌≡◌, ◌++◌, length, min, take, drop, true, false, Some};
ghost use Rattle.pm_talk.specs.declared.talk.Talk.TheVariants as authority;
ghost use Rattle.pm_editor.specs.declared.talk.ClientTalk.TheVariants as client;
ghost use Rattle.pm_house.specs.Houses as house;
ghost use Rattle.pm_c.specs.declared.conversation.Conversation.{Conversation};
ghost use Rattle.pm_c.specs.declared.any_talk.AnyTalk.TheVariants as any;
ghost use Rattle.pm_c.specs.AnyTalks.{is_open, IsGood};
ghost use Rattle.pm_c.specs.Conversations.{answer_of, IsNew, Holds, Told};
ghost use Rattle.pm_c.specs.declared.exports.TheConstants.{VERSION};

use crate::any_talk::AnyTalk;
use crate::conversation::Conversation;
use crate::handle::Handle;
use crate::loose::Loose;
use pm_editor::ClientTalk;
use pm_house::House;
use pm_talk::Talk;
use std::alloc::Global;

/// The version of these calls and of their lines: 10,000 times the major number, 100 times the minor one, and the patch.
const VERSION: u32 = 100;

/// The version of the library.
#[unsafe(no_mangle)]
pub extern "C" fn pm_c_version() -> u32
    ensures { result ≡ VERSION }
{
    VERSION
}

/// Opens an authority's talk, of which no line came, and has `to` hold it; what `to` held before is not looked at. False where there
/// is no memory, and then `to` is as it was.
#[unsafe(no_mangle)]
pub extern "C" fn pm_c_open_authority(alloc: Global, to: &mut Handle) -> bool
    ensures opened { result ≡ true → Holds to.new.value (IsNew (any.Authority authority.AwaitsSchema)) }
    ensures good { result ≡ true → Holds to.new.value (λ c. IsGood c.talk) }
    ensures none { result ≡ false → to.new.value ≡ to.old.value }
{
    open(alloc, AnyTalk::Authority(Talk::AwaitsSchema), to)
}

/// Opens a client's talk, as `pm_c_open_authority` opens an authority's.
#[unsafe(no_mangle)]
pub extern "C" fn pm_c_open_client(alloc: Global, to: &mut Handle) -> bool
    ensures opened { result ≡ true → Holds to.new.value (IsNew (any.Client client.AwaitsSchema)) }
    ensures good { result ≡ true → Holds to.new.value (λ c. IsGood c.talk) }
    ensures none { result ≡ false → to.new.value ≡ to.old.value }
{
    open(alloc, AnyTalk::Client(ClientTalk::AwaitsSchema), to)
}

/// Opens a house of no schemas and no documents, as `pm_c_open_authority` opens an authority's talk. It awaits no lines: the first one
/// asks it something.
#[unsafe(no_mangle)]
pub extern "C" fn pm_c_open_house(alloc: Global, to: &mut Handle) -> bool
    ensures opened { result ≡ true → Holds to.new.value (IsNew (any.House house.empty)) }
    ensures good { result ≡ true → Holds to.new.value (λ c. IsGood c.talk) }
    ensures none { result ≡ false → to.new.value ≡ to.old.value }
{
    open(alloc, AnyTalk::House(House::new(alloc)), to)
}

/// Has `to` hold this talk.
fn open(alloc: Global, talk: AnyTalk, to: &mut Handle) -> bool
    requires { IsGood talk }
    ensures opened { result ≡ true → Holds to.new.value (IsNew talk) }
    ensures good { result ≡ true → Holds to.new.value (λ c. IsGood c.talk) }
    ensures none { result ≡ false → to.new.value ≡ to.old.value }
{
    match Box::new(alloc, Conversation::new(alloc, talk)) {
        Ok(new) => {
            *to = Handle::of(Loose::of(new));
            true
        }
        Err(_) => false,
    }
}

/// Tells the talk a line, without its LF, and gives the number of bytes of the answer, which `pm_c_answer` copies until the next
/// line is told. A line for which there was no memory is answered so, and changes nothing.
#[unsafe(no_mangle)]
pub extern "C" fn pm_c_tell(alloc: Global, of: Handle, to: &mut Handle, line: &[u8]) -> usize
    ghost kept: { Conversation }
    requires holds { of.value ≡ Some kept }
    requires good { IsGood kept.talk }
    ensures told { Holds to.new.value (Told kept line.now) }
    ensures len { Holds to.new.value (λ c. result ≡ length (answer_of c)) }
    ensures good { Holds to.new.value (λ c. IsGood c.talk) }
{
    let mut held = of.into_loose().into_box();
    held.tell(alloc, line);
    let len = held.answer().len();
    *to = Handle::of(Loose::of(held));
    len
}

/// Copies the first bytes of the answer that was given last, as many as the buffer has room for, and gives how many they are. What
/// lies past them in the buffer is unchanged.
#[unsafe(no_mangle)]
pub extern "C" fn pm_c_answer(of: Handle, to: &mut Handle, into: &mut [u8]) -> usize
    ghost kept: { Conversation }
    requires { of.value ≡ Some kept }
    ensures count { result ≡ min (length (answer_of kept)) (length into.old) }
    ensures copied { into.new ≡ take result (answer_of kept) ++ drop result into.old }
    ensures same { to.new.value ≡ Some kept }
{
    let held = of.into_loose().into_box();
    let count = copy_front(held.answer(), into);
    *to = Handle::of(Loose::of(held));
    count
}

/// Copies as many of the first bytes as there is room for, and says how many they are.
fn copy_front(bytes: &[u8], into: &mut [u8]) -> usize
    ensures count { result ≡ min (length bytes.now) (length into.old) }
    ensures copied { into.new ≡ take result bytes.now ++ drop result into.old }
{
    let count = bytes.len().min(into.len());
    into[..count].copy_from_slice(&bytes[..count]);
    count
}

/// Whether the lines that open the talk came, so that each line asks it something.
#[unsafe(no_mangle)]
pub extern "C" fn pm_c_is_open(of: Handle, to: &mut Handle) -> bool
    ghost kept: { Conversation }
    requires { of.value ≡ Some kept }
    ensures open { result ≡ is_open kept.talk }
    ensures same { to.new.value ≡ Some kept }
{
    let held = of.into_loose().into_box();
    let open = held.talk.is_open();
    *to = Handle::of(Loose::of(held));
    open
}

/// Drops the talk, and its memory. The handle's storage must not be passed again.
#[unsafe(no_mangle)]
pub extern "C" fn pm_c_close(of: Handle)
    ghost kept: { Conversation }
    requires { of.value ≡ Some kept }
{
    let _gone = of.into_loose().into_box();
}
