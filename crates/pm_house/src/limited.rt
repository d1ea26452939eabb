//! A house whose submissions have a limit of work.
ghost use Rattle.std.specs.Prelude.{◌≡◌, ◌≢◌, Some, IfOk, OnErr, MatchBool, string_bytes};
ghost use Rattle.serde_json.specs.View.{view};
ghost use Rattle.pm_house.specs.Houses.{IsGood, empty};
ghost use Rattle.pm_house.specs.Limits.{ValueBelow, RepliesBelow, IsGoodWithin};

use crate::changing::Answer;
use crate::house::{House, faulty};
use pm_head::json_line;
use pm_talk::limit_text;
use serde_json::Value;
use std::alloc::{AllocError, Global};

/// A house, and how many tokens the steps of one submission may go over, if there is a limit. A submission to an open document that
/// goes over more is answered `{"limit":N}` with the limit, and changes nothing; any other line is answered as without a limit.
#[derive(Drop)]
pub struct LimitedHouse {
    pub house: House,
    pub limit: Option<u64>,
}

impl LimitedHouse {
    /// An empty house with this limit. It takes no memory.
    pub fn new(alloc: Global, limit: Option<u64>) -> LimitedHouse
        ensures empty { result ≡ record { house = empty; limit = limit } }
        ensures good { IsGoodWithin result }
    {
        LimitedHouse {
            house: House::new(alloc),
            limit,
        }
    }

    /// The answer to a line, and whether the line changed anything, as of `House::tell_change` but for the limit. Out of memory changes
    /// nothing.
    pub fn tell_change(&mut self, alloc: Global, line: &[u8]) -> Result<Answer, AllocError>
        requires { IsGoodWithin self.old }
        ensures told { IfOk result (λ a. RepliesBelow self.old.limit self.old.house line.now (string_bytes a.text) self.new.house) }
        ensures limit { self.new.limit ≡ self.old.limit }
        ensures changed { IfOk result (λ a. MatchBool a.changed (self.new ≢ self.old) (self.new ≡ self.old)) }
        ensures err { OnErr result (self.new ≡ self.old) }
        ensures good { IsGoodWithin self.new }
    {
        self.house.tell_within(alloc, self.limit, line)
    }
}

impl House {
    /// The answer to a line, and whether the line changed anything, with a limit of work or none.
    fn tell_within(
        &mut self,
        alloc: Global,
        limit: Option<u64>,
        line: &[u8],
    ) -> Result<Answer, AllocError>
        requires { IsGood self.old }
        ensures told { IfOk result (λ a. RepliesBelow limit self.old line.now (string_bytes a.text) self.new) }
        ensures changed { IfOk result (λ a. MatchBool a.changed (self.new ≢ self.old) (self.new ≡ self.old)) }
        ensures err { OnErr result (self.new ≡ self.old) }
        ensures good { IsGood self.new }
    {
        match limit {
            Some(limit) => self.tell_below(alloc, limit, line),
            None => self.tell_change(alloc, line),
        }
    }

    /// The same where the steps of a submission may go over so many tokens.
    fn tell_below(&mut self, alloc: Global, limit: u64, line: &[u8]) -> Result<Answer, AllocError>
        requires { IsGood self.old }
        ensures told { IfOk result (λ a. RepliesBelow (Some limit) self.old line.now (string_bytes a.text) self.new) }
        ensures changed { IfOk result (λ a. MatchBool a.changed (self.new ≢ self.old) (self.new ≡ self.old)) }
        ensures err { OnErr result (self.new ≡ self.old) }
        ensures good { IsGood self.new }
    {
        match json_line(alloc, line) {
            Ok(json) => self.answer_below(alloc, limit, &json),
            Err(error) => Ok(Answer {
                text: faulty(alloc, error)?,
                changed: false,
            }),
        }
    }

    /// The answer to a value, and whether it changed anything, within the limit.
    fn answer_below(
        &mut self,
        alloc: Global,
        limit: u64,
        json: &Value,
    ) -> Result<Answer, AllocError>
        requires { IsGood self.old }
        ensures told { IfOk result (λ a. ValueBelow limit self.old (view json.now) (string_bytes a.text) self.new) }
        ensures changed { IfOk result (λ a. MatchBool a.changed (self.new ≢ self.old) (self.new ≡ self.old)) }
        ensures err { OnErr result (self.new ≡ self.old) }
        ensures good { IsGood self.new }
    {
        let over = self.is_over(alloc, limit, json)?;
        if over {
            return Ok(Answer {
                text: limit_text(alloc, limit)?,
                changed: false,
            });
        }
        self.answer_change(alloc, json)
    }
}
