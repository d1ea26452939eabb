//! A talk with a limit of work may be kept.
use crate::keepable::{Keepable, Outcome};
use crate::sizes::{is_changed, sizes_of};
use pm_talk::{Limited, Talk};
use std::alloc::{AllocError, Global};

impl Keepable for Limited {
    ghost use Rattle.pm_kept.specs.LimitedTalks.{limited_meaning, limited_laws};

    ghost means = { limited_meaning };

    fn start(_alloc: Global) -> Limited {
        Limited::new(None)
    }

    fn is_begun(&self) -> bool {
        self.talk.is_open()
    }

    fn hear(&mut self, alloc: Global, line: &[u8]) -> Result<Outcome, AllocError> {
        let before = sizes_of(&self.talk);
        let reply = self.tell(alloc, line)?;
        let changed = is_changed(before, reply.more, &self.talk);
        Ok(Outcome { reply, changed })
    }

    fn set_limit(&mut self, limit: Option<u64>) {
        self.limit = limit;
    }

    fn last(&self) -> &[u8] {
        self.talk.last_text()
    }

    fn resumed_text(&self, alloc: Global) -> Result<String, AllocError> {
        match &self.talk {
            Talk::AwaitsSchema | Talk::AwaitsDocument(_) => Ok(String::new(alloc)),
            Talk::Open(live) => {
                let size = live.authority.doc().size();
                let version = live.authority.log().len();
                format!(in alloc; "{{\"size\":{size},\"version\":{version}}}\n")
            }
        }
    }

    ghost laws = { limited_laws };
}
