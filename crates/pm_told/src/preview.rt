//! What taking others' steps comes to, reckoned before anything changes.
ghost use Rattle.std.specs.Prelude.{◌≡◌, ◌≤◌, ◌<◌, length, IfOk, IfErr};
ghost use Rattle.pm_apply.specs.Changes.{meaning};
ghost use Rattle.pm_client.specs.Kins.{Stands};
ghost use Rattle.pm_remote.specs.Hearings.{IsRefusal};
ghost use Rattle.pm_told.specs.declared.preview.TheConstants.{OTHER};
ghost use Rattle.pm_told.specs.Previews.{IsPreview};

use crate::listing::push_copies;
use pm_apply::DocChange;
use pm_authority::Named;
use pm_client::cursors::move_all;
use pm_client::rebasing::rebase_over;
use pm_client::{Client, Cursor};
use pm_list::Listed;
use pm_meaning::Reason;
use pm_remote::hearing::{News, hear};
use pm_remote::{Back, ReceiveError};
use pm_schema::Schema;
use std::alloc::Global;

/// The name under which others' steps stand.
pub const OTHER: u32 = 1;

/// What taking others' steps comes to: the steps that take the pending ones back, where these apply; the pending steps that are
/// kept, carried; the serials of those that are lost; and the cursors.
#[derive(Drop)]
pub struct Preview {
    pub back: Option<Back<DocChange>>,
    pub kept: Listed<Named<DocChange>>,
    pub dropped: Listed<u64>,
    pub cursors: Listed<Cursor>,
}

/// What it comes to that past the version stand the client's first `own` pending steps and then these of others. `Refused` comes
/// exactly where one of these does not apply, and names the first by its place among them.
pub fn look_ahead(
    alloc: Global,
    schema: &Schema,
    client: &Client<DocChange>,
    own: usize,
    foreign: &[DocChange],
) -> Result<Preview, ReceiveError<Reason>>
    requires stands { Stands meaning schema.now client.now }
    requires named { client.now.name ≡ 0 }
    requires within { own ≤ length client.now.pending }
    requires some { 0 < length foreign.now }
    ensures preview { IfOk result (IsPreview schema.now client.now own foreign.now) }
    ensures refused { IfErr result (IsRefusal meaning schema.now client.now OTHER own foreign.now) }
{
    let mut copies = Vec::new(alloc);
    push_copies(alloc, &mut copies, foreign)?;
    let News { entries, end, back } = hear(alloc, schema, client, OTHER, own as u64, copies)?;
    let others = &entries.as_slice()[own..];
    let later = &client.pending()[own..];
    let rebasing = rebase_over(alloc, schema, &end, others, later)?;
    let cursors = move_all(alloc, client.cursors(), &rebasing.route)?;
    Ok(Preview {
        back,
        kept: rebasing.kept,
        dropped: rebasing.dropped,
        cursors,
    })
}
