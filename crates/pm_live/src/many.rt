//! The call for a house of many documents: a source in, a status and a sink out.
ghost use Rattle.std.specs.Prelude.{◌≡◌, ◌⊎◌, []};
ghost use Rattle.pm_archive.specs.Laws.{AcceptsExactly, ForgetsOnlyBelow};
ghost use Rattle.pm_house.specs.Turns.{AllTold, AllGood, AllAlone, FaultsChangeNothing};
ghost use Rattle.pm_live.specs.Calls.{FaultsAt};
ghost use Rattle.pm_live.specs.Houses.{Housed};

use crate::status::{Status, status_of};
use pm_house::{House, laws};
use pm_io::Sink;
use pm_serve::{LineReader, Piecewise, serve};
use std::alloc::Global;

/// Answers the lines of the source, each of which speaks to a house or to one of its documents.
pub fn run<R: Piecewise, W: Sink>(alloc: Global, source: &mut R, sink: &mut W) -> Status
    // Nothing is read or written without memory to begin with.
    ensures silent { result ≡ Status.NoMemory → (R.left source.new ≡ R.left source.old) × (W.written sink.new ≡ W.written sink.old) }
    // Else what was written is the answers to the lines that came, and the status says how it was over.
    ensures output { (result ≡ Status.NoMemory) ⊎ Housed result (R.left source.old) (R.left source.new) (W.written sink.old) (W.written sink.new) }
    // Theorems on what lines are answered; with `output` they speak of what was written. What is written for lines is their answers,
    // one after another, and each document is always valid.
    ensures told { AllTold }
    ensures good { AllGood }
    // The answers to the lines of one document are those of the document alone, whatever lines of others lie between.
    ensures alone { AllAlone }
    // A submission is accepted exactly where there is room for its ID, its version is the document's and its steps apply.
    ensures accepts { AcceptsExactly }
    // A line that is answered a fault changes nothing.
    ensures faulty { FaultsChangeNothing }
    // To let go what lies before a version changes no later answer of a document but those to lines that ask below it.
    ensures forgets { ForgetsOnlyBelow }
    // Faults exactly where they rose.
    ensures faults { FaultsAt result (R.faults source.old) (R.faults source.new) (W.faults sink.old) (W.faults sink.new) }
{
    laws();
    pm_archive::laws();
    let Ok(mut lines) = LineReader::new(alloc) else {
        return Status::NoMemory;
    };
    keep(alloc, &mut lines, source, sink)
}

/// Answers the lines of the source by a house that is empty to begin with.
fn keep<R: Piecewise, W: Sink>(
    alloc: Global,
    lines: &mut LineReader,
    source: &mut R,
    sink: &mut W,
) -> Status
    requires { lines.old.unread ≡ [] }
    ensures housed { Housed result (R.left source.old) (R.left source.new) (W.written sink.old) (W.written sink.new) }
    ensures faults { FaultsAt result (R.faults source.old) (R.faults source.new) (W.faults sink.old) (W.faults sink.new) }
{
    let mut house = House::new(alloc);
    let served = serve(alloc, &mut house, lines, source, sink);
    status_of(served, true)
}
