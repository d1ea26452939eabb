//! What a client hears of the log past its version.
ghost use Rattle.std.specs.Prelude.{◌≡◌, ◌+◌, ◌<◌, ◌≤◌, ◌^◌, length, IfOk, IfErr, OnOk};
ghost use Rattle.pm_authority.specs.Runs.{AllApply};
ghost use Rattle.pm_client.specs.Kins.{Stands};
ghost use Rattle.pm_remote.specs.Hearings.{IsRefusal};
ghost use Rattle.pm_remote.specs.Heard.{IsNews};

use crate::backing::take_back;
use crate::received::{Back, ReceiveError};
use crate::versions::version_after;
use pm_authority::{Named, Refusal, apply_all, copy_steps};
use pm_change::{Change, Failed};
use pm_client::Client;
use pm_client::naming::name_steps;
use pm_list::Listed;
use std::alloc::{AllocError, Global};

/// The log past a client's version, the document that it leads to, and what takes the pending steps back that are not in it.
#[derive(Drop)]
pub struct News<C: Change> {
    pub entries: Listed<Named<C>>,
    pub end: C::Doc,
    pub back: Option<Back<C>>,
}

/// What stands past the client's version: its first `own` pending steps, and then these under the name `other`. `Refused`
/// comes exactly where one of these does not apply after those before it, and names the first.
pub fn hear<C: Change>(
    alloc: Global,
    rules: &C::Rules,
    client: &Client<C>,
    other: u32,
    own: u64,
    foreign: Vec<C>,
) -> Result<News<C>, ReceiveError<C::Reason>>
    requires stands { Stands C.means rules.now client.now }
    requires within { own ≤ length client.now.pending }
    requires some { 0 < length foreign.items }
    ensures news { IfOk result (IsNews C.means rules.now client.now other own foreign.items) }
    ensures short { OnOk result (client.now.version + (own + length foreign.items) < 2 ^ 64) }
    ensures refused { IfErr result (IsRefusal C.means rules.now client.now other own foreign.items) }
{
    let passed = version_after(client.version(), own)?;
    version_after(passed, foreign.len() as u64)?;
    let standing = &client.pending()[..own as usize];
    let later = &client.pending()[own as usize..];
    let middle = apply_own(alloc, rules, client.base(), standing)?;
    let others = name_steps(alloc, other, passed + 1, foreign)?;
    let end = match apply_all(alloc, rules, &middle, others.as_slice()) {
        Ok(end) => end,
        Err(Failed::Reason(Refusal { index, reason })) => {
            return Err(ReceiveError::Refused { index, reason });
        }
        Err(Failed::NoMemory) => return Err(ReceiveError::NoMemory),
    };
    let back = take_back(alloc, rules, &middle, later, client.doc())?;
    let mut entries = copy_steps(alloc, standing)?;
    entries.append(others)?;
    Ok(News { entries, end, back })
}

/// The document after the client's own steps, which are known to apply.
fn apply_own<C: Change>(
    alloc: Global,
    rules: &C::Rules,
    base: &C::Doc,
    steps: &[Named<C>],
) -> Result<C::Doc, AllocError>
    requires good { C.means.is_good rules.now base.now }
    requires applies { ((end : C.Doc) × AllApply C.means rules.now base.now steps.now end) }
    ensures { IfOk result (AllApply C.means rules.now base.now steps.now) }
{
    match apply_all(alloc, rules, base, steps) {
        Ok(end) => Ok(end),
        Err(Failed::NoMemory) => Err(AllocError),
        Err(Failed::Reason(_)) => unreachable!(),
    }
}
