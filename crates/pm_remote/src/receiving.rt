//! Steps of others that came to stand in the log.
ghost use Rattle.std.specs.Prelude.{◌≡◌, ◌≢◌, ℕ, ◌+◌, ◌<◌, ◌≤◌, ◌++◌, List, length, take, drop, Some, IfOk, IfErr, IfSome, OnOk, OnErr};
ghost use Rattle.pm_change.specs.Changes.{fold};
ghost use Rattle.pm_authority.specs.Runs.{changes_of, AllApply};
ghost use Rattle.pm_authority.specs.declared.message.Answer.TheVariants.{Entries};
ghost use Rattle.pm_authority.specs.declared.named.Named.{Named};
ghost use Rattle.pm_client.specs.Clients.{taken};
ghost use Rattle.pm_client.specs.Kins.{Kin, Stands};
ghost use Rattle.pm_client.specs.declared.taken.Taken.TheVariants.{Rebased};
ghost use Rattle.pm_remote.specs.Backs.{backs, IsBack};
ghost use Rattle.pm_remote.specs.Bare.{IsBare};
ghost use Rattle.pm_remote.specs.Hearings.{heard, IsMiddle, IsRefusal};
ghost use Rattle.pm_remote.specs.declared.received.Back.{Back};

use crate::hearing::{News, hear};
use crate::received::{ReceiveError, Received};
use pm_authority::Answer;
use pm_change::Change;
use pm_client::{Client, Taken};
use std::alloc::Global;

/// Takes steps of others: past the client's version stand its first `own` pending steps, and then these, in the log under the
/// name `other`. `own` is a number of steps, and there must be at least one of others'. The later pending steps are carried
/// over these, as `Client::take` does. It tells what takes these back, and how many of them were lost. `Refused` comes
/// exactly where one of others' steps does not apply to the document that those before it give, after the own ones, and
/// names the first. Then, out of memory, and where a place in the log would pass 2^64 - 1, the client is as it was.
///
/// Under the rules that are lent the client must stand to a log, and keep no message and no answer. This stays so.
/// ProseMirror: `receiveTransaction`.
pub fn receive<C: Change>(
    alloc: Global,
    rules: &C::Rules,
    client: &mut Client<C>,
    other: u32,
    own: u64,
    foreign: Vec<C>,
) -> Result<Received<C>, ReceiveError<C::Reason>>
    requires stands { Stands C.means rules.now client.old }
    requires bare { IsBare client.old }
    requires within { own ≤ length client.old.pending }
    requires some { 0 < length foreign.items }
    requires named { other ≢ client.old.name }
    ensures takes { IfOk result (λ r. (Rebased own (length foreign.items) r.dropped, client.new) ≡ taken C.means rules.now client.old (Entries client.old.version (heard client.old other own foreign.items))) }
    ensures version { OnOk result (client.new.version ≡ client.old.version + (own + length foreign.items)) }
    // The log past the old version leads from the old base to the new one.
    ensures applies { OnOk result (AllApply C.means rules.now client.old.base (heard client.old other own foreign.items) client.new.base) }
    // What takes the later pending steps back is the changes that undo each of them, the last one's first.
    ensures back { IfOk result (λ r. (middle : C.Doc) × IsMiddle C.means rules.now client.old own middle
        × IsBack C.means rules.now client.old.doc (backs C.means rules.now middle (changes_of (drop own client.old.pending))) r.back) }
    // Under loose rules it always applies.
    ensures loose { C.means.is_loose rules.now → IfOk result (λ r. (b : Back C) × (r.back ≡ Some b)) }
    // It leads from the old document, with others' steps and the pending ones after it, to the new document.
    ensures leads { IfOk result (λ r. IfSome r.back (λ b.
        fold C.means rules.now client.old.doc (b.steps.items ++ foreign.items ++ changes_of client.new.pending) ≡ Some client.new.doc)) }
    ensures refused { IfErr result (IsRefusal C.means rules.now client.old other own foreign.items) }
    ensures err { OnErr result (client.new ≡ client.old) }
    // The log that it stood to is known to the client's version alone, and goes on by what stands past it.
    ensures kin { OnOk result ((first : C.Doc) (log : List (Named C)) → Kin C.means rules.now first log client.old
        → Kin C.means rules.now first (take client.old.version log ++ heard client.old other own foreign.items) client.new) }
    // What this asks of the client holds after it too.
    ensures stands { Stands C.means rules.now client.new }
    ensures bare { IsBare client.new }
{
    let news = hear(alloc, rules, client, other, own, foreign)?;
    let News { entries, end, back } = news;
    let since = client.version();
    client.keep(Answer::Entries { since, entries })?;
    let outcome = client.take_to(alloc, rules, 1, end);
    client.forget();
    let told = outcome?;
    let dropped = lost(told);
    Ok(Received { back, dropped })
}

/// How many pending steps were lost where others' steps were taken.
fn lost(told: Taken) -> u64
    requires { ((own : ℕ) × (foreign : ℕ) × (dropped : ℕ) × (told ≡ Rebased own foreign dropped)) }
    ensures { (own foreign dropped : ℕ) → told ≡ Rebased own foreign dropped → result ≡ dropped }
{
    match told {
        Taken::Rebased {
            own: _,
            foreign: _,
            dropped,
        } => dropped,
        Taken::Confirmed { own: _ } => unreachable!(),
        Taken::Stale => unreachable!(),
        Taken::Refused => unreachable!(),
    }
}
