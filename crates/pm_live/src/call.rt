//! The top call: words and a source in, a status and a sink out.
ghost use Rattle.std.specs.Prelude.{◌≡◌, ◌≢◌, ◌⊎◌, ◌↔◌, []};
ghost use Rattle.pm_talk.specs.declared.talk.Talk.TheVariants.{AwaitsSchema};
ghost use Rattle.pm_talk.specs.Lines.{AllTalks, AcceptsExactly, FaultsChangeNothing};
ghost use Rattle.pm_talk.specs.Openings.{AllOpened};
ghost use Rattle.pm_live.specs.Calls.{Talked, IsSilent, FaultsAt};

use crate::status::{Status, status_of};
use pm_io::Sink;
use pm_serve::{LineReader, Piecewise, serve};
use pm_talk::{Talk, laws};
use std::alloc::Global;

/// Answers the lines of the source: line 1 is a schema, line 2 the first document, and each later line asks the authority that
/// they open.
pub fn run<R: Piecewise, W: Sink>(
    alloc: Global,
    words: &[String],
    source: &mut R,
    sink: &mut W,
) -> Status
    // Usage, exactly by the words.
    ensures usage { (result ≡ Status.Usage) ↔ (words.now ≢ []) }
    // Nothing is read or written for words, or without memory to begin with.
    ensures silent { IsSilent result → (R.left source.new ≡ R.left source.old) × (W.written sink.new ≡ W.written sink.old) }
    // Else what was written is the answers to the lines that came, and the status says how it was over.
    ensures output { IsSilent result ⊎ Talked result (R.left source.old) (R.left source.new) (W.written sink.old) (W.written sink.new) }
    // Theorems on what lines are answered; with `output` they speak of what was written. A talk in which the authority stands
    // begins with a schema and a document. After them the output is a function of the lines, and the authority is the one after
    // the messages in them; every document is valid.
    ensures opened { AllOpened }
    ensures talks { AllTalks }
    // A submission is accepted exactly where there is room for its ID, its version is the log's length and its steps apply.
    ensures accepts { AcceptsExactly }
    // A line with a fault is answered its code, and changes nothing.
    ensures faulty { FaultsChangeNothing }
    // Faults exactly where they rose.
    ensures faults { FaultsAt result (R.faults source.old) (R.faults source.new) (W.faults sink.old) (W.faults sink.new) }
{
    laws();
    if !words.is_empty() {
        return Status::Usage;
    }
    let Ok(mut lines) = LineReader::new(alloc) else {
        return Status::NoMemory;
    };
    talk(alloc, &mut lines, source, sink)
}

/// Answers the lines of the source from line 1 on. `serve_next` of pm_serve reads a line and writes its answer, and asks for no
/// byte past the line before that (`in_time`).
fn talk<R: Piecewise, W: Sink>(
    alloc: Global,
    lines: &mut LineReader,
    source: &mut R,
    sink: &mut W,
) -> Status
    requires { lines.old.unread ≡ [] }
    ensures talked { Talked result (R.left source.old) (R.left source.new) (W.written sink.old) (W.written sink.new) }
    ensures faults { FaultsAt result (R.faults source.old) (R.faults source.new) (W.faults sink.old) (W.faults sink.new) }
{
    let mut talk = Talk::AwaitsSchema;
    let served = serve(alloc, &mut talk, lines, source, sink);
    status_of(served, talk.is_open())
}
