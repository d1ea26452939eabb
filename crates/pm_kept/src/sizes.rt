//! Whether a line changed a talk.
ghost use Rattle.std.specs.Prelude.{◌≡◌, ◌&&◌};
ghost use Rattle.pm_kept.specs.Sizes.{HasSizes, changes};

use pm_talk::Talk;

/// How many steps the log has, and how many IDs there are, where lines 1 and 2 came.
#[derive(Clone, Copy, Debug, PartialEq, Eq)]
pub(crate) struct Sizes {
    pub steps: usize,
    pub ids: usize,
}

/// The sizes of a talk.
pub(crate) fn sizes_of(talk: &Talk) -> Option<Sizes>
    ensures { HasSizes result talk.now }
{
    match talk {
        Talk::AwaitsSchema | Talk::AwaitsDocument(_) => None,
        Talk::Open(live) => Some(Sizes {
            steps: live.authority.log().len(),
            ids: live.ids.len(),
        }),
    }
}

/// Whether a line changed the talk, which had these sizes before it. One after which no further line is answered has a fault.
pub(crate) fn is_changed(before: Option<Sizes>, more: bool, talk: &Talk) -> bool
    ensures { (was : Talk) → HasSizes before was → result ≡ (more && changes was talk.now) }
{
    more && changed(before, talk)
}

/// Whether the talk, which had these sizes before a line that was not the last, is another now.
fn changed(before: Option<Sizes>, talk: &Talk) -> bool
    ensures { (was : Talk) → HasSizes before was → result ≡ changes was talk.now }
{
    match (before, sizes_of(talk)) {
        (Some(old), Some(new)) => !(new.steps == old.steps && new.ids == old.ids),
        _ => true,
    }
}
