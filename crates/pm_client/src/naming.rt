//! Names of a client's steps.
ghost use Rattle.std.specs.Prelude.{◌≡◌, ◌+◌, ◌≤◌, ◌^◌, length, IfOk};
ghost use Rattle.pm_client.specs.Clients.{named, own_run};

use pm_authority::{Name, Named};
use pm_change::Change;
use pm_list::Listed;
use std::alloc::{AllocError, Global};

/// The steps under names of this client, with serials from `serial` on.
pub fn name_steps<C: Change>(
    alloc: Global,
    client: u32,
    serial: u64,
    steps: Vec<C>,
) -> Result<Listed<Named<C>>, AllocError>
    requires { serial + length steps.items ≤ 2 ^ 64 }
    ensures { IfOk result (λ l. l ≡ named client serial steps.items) }
{
    let mut all = Listed::new(alloc);
    let mut done: u64 = 0;
    for change in steps {
        all.push(Named {
            name: Name {
                client,
                serial: serial + done,
            },
            change,
        })?;
        done += 1;
    }
    Ok(all)
}

/// How many steps at the front are this client's.
pub fn own_steps<C: Change>(client: u32, steps: &[Named<C>]) -> usize
    ensures own { result ≡ own_run client steps.now }
    ensures within { result ≤ length steps.now }
{
    let mut own = 0;
    for step in steps {
        if step.name.client != client {
            return own;
        }
        own += 1;
    }
    own
}
