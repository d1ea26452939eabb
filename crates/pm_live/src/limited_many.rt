//! The call for a house whose submissions have a limit of work: a source in, a status and a sink out.
ghost use Rattle.std.specs.Prelude.{◌≡◌, ◌⊎◌, []};
ghost use Rattle.pm_live.specs.Calls.{FaultsAt};
ghost use Rattle.pm_live.specs.Limits.{HousedWithin};

use crate::status::{Status, status_of};
use pm_house::LimitedHouse;
use pm_io::Sink;
use pm_serve::{LineReader, Piecewise, serve};
use std::alloc::Global;

/// Answers the lines of the source as without a limit, but that a submission whose steps go over more than `limit` tokens is told the
/// limit, and changes nothing.
pub fn run<R: Piecewise, W: Sink>(alloc: Global, limit: u64, source: &mut R, sink: &mut W) -> Status
    // Nothing is read or written without memory to begin with.
    ensures silent { result ≡ Status.NoMemory → (R.left source.new ≡ R.left source.old) × (W.written sink.new ≡ W.written sink.old) }
    // Else what was written is the answers to the lines that came, and the status says how it was over.
    ensures output { (result ≡ Status.NoMemory) ⊎ HousedWithin limit result (R.left source.old) (R.left source.new) (W.written sink.old) (W.written sink.new) }
    // Faults exactly where they rose.
    ensures faults { FaultsAt result (R.faults source.old) (R.faults source.new) (W.faults sink.old) (W.faults sink.new) }
{
    let Ok(mut lines) = LineReader::new(alloc) else {
        return Status::NoMemory;
    };
    keep(alloc, limit, &mut lines, source, sink)
}

/// Answers the lines of the source by a house that is empty to begin with.
fn keep<R: Piecewise, W: Sink>(
    alloc: Global,
    limit: u64,
    lines: &mut LineReader,
    source: &mut R,
    sink: &mut W,
) -> Status
    requires { lines.old.unread ≡ [] }
    ensures housed { HousedWithin limit result (R.left source.old) (R.left source.new) (W.written sink.old) (W.written sink.new) }
    ensures faults { FaultsAt result (R.faults source.old) (R.faults source.new) (W.faults sink.old) (W.faults sink.new) }
{
    let mut house = LimitedHouse::new(alloc, Some(limit));
    let served = serve(alloc, &mut house, lines, source, sink);
    status_of(served, true)
}
