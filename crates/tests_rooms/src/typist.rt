//! Who types letters.
use pm_change::MakeError;
use pm_flat::{Letters, Replace};
use pm_session::{Made, Maker};
use std::alloc::Global;

/// Puts letters before a paragraph's text.
pub struct Typist;

impl Maker<Replace> for Typist {
    ghost use Rattle.tests_rooms.specs.Typing.{typed, types};

    type Op = Letters;

    ghost makes = { λ maker rules doc op. typed op };

    fn steps(
        &self,
        alloc: Global,
        _rules: &(),
        _doc: &Letters,
        op: &Letters,
    ) -> Result<Made<Replace>, MakeError> {
        let step = Replace {
            from: 1,
            to: 1,
            text: op.copy(alloc)?,
        };
        Ok(Made {
            steps: vec![in alloc; step]?,
            end: None,
        })
    }

    ghost some = { λ maker rules doc op. types op };
}
