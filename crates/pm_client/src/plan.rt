//! What taking an answer is to do.
use crate::cursors::Cursor;
use crate::rebasing::Rebaser;
use pm_change::Change;
use pm_list::Listed;
use pm_map::StepMap;

/// What taking an answer is to do, with all that it needs. Doing it takes memory for the history alone.
#[derive(Drop)]
pub enum Plan<C: Change> {
    /// Pass the answer over: it holds nothing past the version.
    PassOver,
    /// Tell that the answer refuses a submission.
    TellRefused,
    /// Confirm the first `own` pending steps, after which the base is this one.
    Confirm {
        own: u64,
        base: C::Doc,
    },
    /// Go on by `own` own steps and by others' with the maps `foreign` to this base. The later pending steps were carried
    /// over others', and these are the serials dropped and the cursors after that.
    Rebase {
        own: u64,
        foreign: Vec<StepMap>,
        base: C::Doc,
        rebasing: Rebaser<C>,
        dropped: Listed<u64>,
        cursors: Listed<Cursor>,
    },
}
