//! A house of many documents, with a limit of work or none, may be kept.
use crate::limited::LimitedHouse;
use pm_kept::{Keepable, Outcome};
use pm_serve::Reply;
use std::alloc::{AllocError, Global};

impl Keepable for LimitedHouse {
    ghost use Rattle.pm_house.specs.Keeping.{house_meaning, house_laws};

    ghost means = { house_meaning };

    fn start(alloc: Global) -> LimitedHouse {
        LimitedHouse::new(alloc, None)
    }

    fn is_begun(&self) -> bool {
        true
    }

    fn hear(&mut self, alloc: Global, line: &[u8]) -> Result<Outcome, AllocError> {
        let answer = self.tell_change(alloc, line)?;
        let reply = Reply {
            text: answer.text,
            more: true,
        };
        Ok(Outcome {
            reply,
            changed: answer.changed,
        })
    }

    fn set_limit(&mut self, limit: Option<u64>) {
        self.limit = limit;
    }

    fn last(&self) -> &[u8] {
        "".as_bytes()
    }

    fn resumed_text(&self, alloc: Global) -> Result<String, AllocError> {
        self.house.statistics(alloc)
    }

    ghost laws = { house_laws };
}
