//! Whether a line changed the house.
ghost use Rattle.std.specs.Prelude.{◌≡◌, ◌≢◌, IfOk, OnErr, MatchBool, codes, string_bytes};
ghost use Rattle.serde_json.specs.View.{view};
ghost use Rattle.pm_opjson.specs.Fields.{text_in};
ghost use Rattle.pm_house.specs.Houses.{IsGood};
ghost use Rattle.pm_house.specs.Marks.{mark_of, sizes_at, IsPlace};
ghost use Rattle.pm_house.specs.Replies.{Replies, OfValue};

use crate::house::{House, faulty};
use crate::mark::{Mark, Sizes, is_same, sizes_of};
use pm_head::{LineError, json_line};
use pm_opjson::text_in;
use serde_json::Value;
use std::alloc::{AllocError, Global};

/// What a line is answered, and whether it changed the house.
#[derive(Drop)]
pub struct Answer {
    pub text: String,
    pub changed: bool,
}

impl House {
    /// The answer to a line, as `tell` gives it, and whether the line changed anything.
    pub fn tell_change(&mut self, alloc: Global, line: &[u8]) -> Result<Answer, AllocError>
        requires { IsGood self.old }
        ensures told { IfOk result (λ a. Replies self.old line.now (string_bytes a.text) self.new) }
        ensures changed { IfOk result (λ a. MatchBool a.changed (self.new ≢ self.old) (self.new ≡ self.old)) }
        ensures err { OnErr result (self.new ≡ self.old) }
        ensures good { IsGood self.new }
    {
        match json_line(alloc, line) {
            Ok(json) => self.answer_change(alloc, &json),
            Err(error) => Ok(Answer {
                text: faulty(alloc, error)?,
                changed: false,
            }),
        }
    }

    /// The answer to a value, and whether it changed anything.
    pub(crate) fn answer_change(
        &mut self,
        alloc: Global,
        json: &Value,
    ) -> Result<Answer, AllocError>
        requires { IsGood self.old }
        ensures told { IfOk result (λ a. OfValue self.old (view json.now) (string_bytes a.text) self.new) }
        ensures changed { IfOk result (λ a. MatchBool a.changed (self.new ≢ self.old) (self.new ≡ self.old)) }
        ensures err { OnErr result (self.new ≡ self.old) }
        ensures good { IsGood self.new }
    {
        let place = self.place_in(json)?;
        let before = self.mark(place);
        let text = self.answer(alloc, json)?;
        let same = is_same(before, self.mark(place));
        Ok(Answer {
            text,
            changed: !same,
        })
    }

    /// The place of the document that the value names, if there is one.
    fn place_in(&self, json: &Value) -> Result<Option<usize>, AllocError>
        ensures { IfOk result (λ place. IsPlace self.now (text_in (codes "in") (view json.now)) place) }
    {
        match text_in(json, "in") {
            Ok(name) => Ok(self.documents.place(name)),
            Err(LineError::Code(_)) => Ok(None),
            Err(LineError::NoMemory) => Err(AllocError),
        }
    }

    /// What is counted of the house, and of the document at the place.
    fn mark(&self, place: Option<usize>) -> Mark
        ensures { result ≡ mark_of self.now place }
    {
        Mark {
            schemas: self.schemas.len(),
            documents: self.documents.as_slice().len(),
            at: self.sizes_at(place),
        }
    }

    /// The sizes of the document at the place, if there is one.
    fn sizes_at(&self, place: Option<usize>) -> Option<Sizes>
        ensures { result ≡ sizes_at self.now place }
    {
        match place {
            Some(place) => match self.documents.as_slice().get(place) {
                Some(archive) => Some(sizes_of(archive)),
                None => None,
            },
            None => None,
        }
    }
}
