//! The house as a service, and one with a limit of work.
use crate::house::House;
use crate::limited::LimitedHouse;
use pm_serve::{Reply, Service};
use pm_talk::no_memory;
use std::alloc::{AllocError, Global};

impl Service for House {
    ghost use Rattle.pm_talk.specs.Texts.{no_memory};
    ghost use Rattle.pm_house.specs.Houses.{IsGood};
    ghost use Rattle.pm_house.specs.Replies.{Serving, last_text};

    ghost good = { IsGood };

    ghost replies = { Serving };

    ghost last = { last_text };

    ghost no_memory = { no_memory };

    fn reply(&mut self, alloc: Global, line: &[u8]) -> Result<Reply, AllocError> {
        Ok(Reply {
            text: self.tell(alloc, line)?,
            more: true,
        })
    }

    fn last(&self) -> &[u8] {
        "".as_bytes()
    }

    fn no_memory(&self) -> &[u8] {
        no_memory()
    }
}

impl Service for LimitedHouse {
    ghost use Rattle.pm_talk.specs.Texts.{no_memory};
    ghost use Rattle.pm_house.specs.Limits.{ServingWithin, IsGoodWithin, last_within};

    ghost good = { IsGoodWithin };

    ghost replies = { ServingWithin };

    ghost last = { last_within };

    ghost no_memory = { no_memory };

    fn reply(&mut self, alloc: Global, line: &[u8]) -> Result<Reply, AllocError> {
        let answer = self.tell_change(alloc, line)?;
        Ok(Reply {
            text: answer.text,
            more: true,
        })
    }

    fn last(&self) -> &[u8] {
        "".as_bytes()
    }

    fn no_memory(&self) -> &[u8] {
        no_memory()
    }
}
