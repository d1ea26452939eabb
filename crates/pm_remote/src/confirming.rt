//! Steps of the client's own that came to stand in the log.
ghost use Rattle.std.specs.Prelude.{◌≡◌, ◌+◌, ◌<◌, ◌≤◌, ◌++◌, List, length, take, OnOk, OnErr};
ghost use Rattle.pm_client.specs.Clients.{confirmed_first};
ghost use Rattle.pm_authority.specs.declared.named.Named.{Named};
ghost use Rattle.pm_client.specs.Kins.{Kin, Stands};
ghost use Rattle.pm_client.specs.declared.taken.Taken.TheVariants.{Confirmed};
ghost use Rattle.pm_remote.specs.Bare.{IsBare};

use crate::versions::version_after;
use pm_authority::Answer;
use pm_change::Change;
use pm_client::Client;
use std::alloc::{AllocError, Global};

/// Confirms the first `count` pending steps: they stand in the log, and nothing else past the client's version. `count` is a
/// number of steps, at least one. Out of memory, and where the version would pass 2^64 - 1, the client is as it was.
///
/// Under the rules that are lent the client must stand to a log, and keep no message and no answer. This stays so.
/// ProseMirror: `receiveTransaction`, of own steps alone.
pub fn confirm<C: Change>(
    alloc: Global,
    rules: &C::Rules,
    client: &mut Client<C>,
    count: u64,
) -> Result<(), AllocError>
    requires stands { Stands C.means rules.now client.old }
    requires bare { IsBare client.old }
    requires some { 0 < count }
    requires within { count ≤ length client.old.pending }
    ensures confirms { OnOk result ((Confirmed count, client.new) ≡ confirmed_first C.means rules.now client.old count) }
    ensures version { OnOk result (client.new.version ≡ client.old.version + count) }
    ensures err { OnErr result (client.new ≡ client.old) }
    // The log that it stood to is known to the client's version alone, and goes on by these steps.
    ensures kin { OnOk result ((first : C.Doc) (log : List (Named C)) → Kin C.means rules.now first log client.old
        → Kin C.means rules.now first (take client.old.version log ++ take count client.old.pending) client.new) }
    // What this asks of the client holds after it too.
    ensures stands { Stands C.means rules.now client.new }
    ensures bare { IsBare client.new }
{
    let from = client.version();
    version_after(from, count)?;
    client.keep(Answer::Accepted { from, count })?;
    let told = client.take(alloc, rules, 1);
    client.forget();
    told?;
    Ok(())
}
