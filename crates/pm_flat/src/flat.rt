//! A document of one paragraph, and its steps.
use crate::letters::Letters;
use pm_change::{Change, Failed};
use pm_map::{Positions, Side, Span, StepMap};
use std::alloc::{AllocError, Global};

/// The greatest content size of a document, in tokens.
const MAX_SIZE: usize = 500_000;

/// Replaces what stands from `from` to `to` by a text. Positions count tokens: the paragraph's
/// opening is the first, then each unit of its text is one, and its close is the last.
#[derive(Debug, Drop)]
pub struct Replace {
    pub from: u32,
    pub to: u32,
    pub text: Letters,
}

/// Why a step does not apply, in the order in which the reasons are decided.
#[derive(Clone, Copy, Debug, PartialEq, Eq)]
pub enum Reason {
    /// The positions are not in order within the content size.
    Range,
    /// One position is inside the paragraph and the other is not.
    Depth,
    /// The result passes the greatest size.
    Large,
    /// The result is no document: the fault is at this place, 0 for the top node.
    Content { at: u64 },
}

impl Change for Replace {
    ghost use Rattle.pm_flat.specs.Flat.{meaning};
    ghost use Rattle.pm_flat.specs.FlatLaws.{laws};

    type Rules = ();

    type Doc = Letters;

    type Reason = Reason;

    ghost means = { meaning };

    fn apply(&self, alloc: Global, _rules: &(), doc: &Letters) -> Result<Letters, Failed<Reason>> {
        let from = self.from as usize;
        let to = self.to as usize;
        let size = doc.len() + 2;
        if from > to || to > size {
            return Err(Failed::Reason(Reason::Range));
        }
        let inside = is_inside(from, size);
        if inside != is_inside(to, size) {
            return Err(Failed::Reason(Reason::Depth));
        }
        if self.text.len() > MAX_SIZE - (size - (to - from)) {
            return Err(Failed::Reason(Reason::Large));
        }
        if inside {
            return Ok(doc.spliced(alloc, from - 1, to - 1, &self.text)?);
        }
        if from == to && self.text.len() == 0 {
            return Ok(doc.copy(alloc)?);
        }
        Err(Failed::Reason(Reason::Content { at: 0 }))
    }

    fn inverse(
        &self,
        alloc: Global,
        _rules: &(),
        doc: &Letters,
    ) -> Result<Vec<Replace>, AllocError> {
        let back = Replace {
            from: self.from,
            to: self.from + self.text.len() as u32,
            text: taken_out(alloc, doc, self.from, self.to)?,
        };
        Ok(vec![in alloc; back]?)
    }

    fn step_map(&self) -> StepMap {
        let range = Span {
            start: u64::from(self.from),
            old_size: u64::from(self.to - self.from),
            new_size: self.text.len() as u64,
        };
        StepMap::new(Some(range), None, false)
    }

    fn carry<P: Positions>(
        &self,
        alloc: Global,
        positions: &P,
    ) -> Result<Option<Replace>, AllocError> {
        let from = positions.place(u64::from(self.from), Side::After);
        let to = positions.place(u64::from(self.to), Side::Before);
        if from.across && to.across {
            return Ok(None);
        }
        Ok(Some(Replace {
            from: from.pos as u32,
            to: if to.pos < from.pos { from.pos } else { to.pos } as u32,
            text: self.text.copy(alloc)?,
        }))
    }

    fn size(doc: &Letters) -> usize {
        doc.len() + 2
    }

    fn copy(&self, alloc: Global) -> Result<Replace, AllocError> {
        Ok(Replace {
            from: self.from,
            to: self.to,
            text: self.text.copy(alloc)?,
        })
    }

    fn copy_doc(alloc: Global, doc: &Letters) -> Result<Letters, AllocError> {
        doc.copy(alloc)
    }

    ghost laws = { laws };
}

ghost use Rattle.std.specs.Prelude.{◌≡◌, ◌≤◌, ◌<◌, ◌-◌, length, take, drop, IfOk};
ghost use Rattle.pm_flat.specs.Flat.{is_inside};

/// What stands between two positions of a document, which are inside its paragraph where there is something.
fn taken_out(alloc: Global, doc: &Letters, from: u32, to: u32) -> Result<Letters, AllocError>
    requires inside { from < to → (1 ≤ from) × (to - 1 ≤ length doc.now) }
    ensures { IfOk result (λ l. l ≡ take (to - from) (drop (from - 1) doc.now)) }
{
    if from < to {
        doc.part(alloc, from as usize - 1, to as usize - 1)
    } else {
        Letters::new(alloc, "")
    }
}

/// Whether a position is inside the paragraph.
fn is_inside(position: usize, size: usize) -> bool
    ensures { result ≡ is_inside size position }
{
    1 <= position && position < size
}
