//! The step of an edit, with the document that it makes.
ghost use Rattle.pm_edit.specs.Edits.{Answer};
ghost use Rattle.pm_edit.specs.Ops.{Answers, AnswersEdited};

use pm_change::MakeError;
use pm_node::Document;
use pm_step::Step;

/// The step of an edit, and the document that it makes, where the edit has made it.
#[derive(Drop)]
pub struct Edited {
    pub step: Step,
    pub doc: Option<Document>,
}

/// The same answer without the document.
pub fn step_alone(edited: Result<Edited, MakeError>) -> Result<Step, MakeError>
    ensures { (answer : Answer) → AnswersEdited answer edited → Answers answer result }
{
    match edited {
        Ok(edited) => {
            let Edited { step, doc: _ } = edited;
            Ok(step)
        }
        Err(error) => Err(error),
    }
}
