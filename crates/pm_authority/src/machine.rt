//! The authority as a machine, which threads can share.
ghost use Rattle.std.specs.Prelude.{◌≡◌, IfOk};

use crate::authority::Authority;
use crate::message::{Answer, Message};
use pm_change::{Change, Machine};
use std::alloc::{AllocError, Global};

/// What a client asks of the authority: the client's number, and its message.
#[derive(Drop)]
pub struct Request<C> {
    pub client: u32,
    pub message: Message<C>,
}

impl<C: Change> Request<C> {
    /// A request equal to this one.
    pub fn copy(&self, alloc: Global) -> Result<Request<C>, AllocError>
        ensures { IfOk result (λ q. q ≡ self.now) }
    {
        Ok(Request {
            client: self.client,
            message: self.message.copy(alloc)?,
        })
    }
}

impl<C: Change> Machine for Authority<C>
where
    C::Rules: Drop,
{
    ghost use Rattle.std.specs.Prelude.{◌<◌, ◌^◌, length};
    ghost use Rattle.pm_authority.specs.Presents.{presented};
    ghost use Rattle.pm_authority.specs.Kept.{IsKept};
    ghost use Rattle.pm_authority.specs.Requests.{IsOwn};

    type Rules = C::Rules;

    type Request = Request<C>;

    type Reply = Answer<C>;

    ghost next = { λ rules a q. (presented C.means rules a q.message).1 };

    ghost reply = { λ rules a q. (presented C.means rules a q.message).0 };

    ghost good = { λ rules a. IsKept C.means rules a × (length a.log < 2 ^ 64) };

    ghost own = { λ n q. IsOwn n q };

    fn answer(
        &mut self,
        alloc: Global,
        rules: &C::Rules,
        request: &Request<C>,
    ) -> Result<Answer<C>, AllocError> {
        let reply = self.present(alloc, rules, request.client, &request.message)?;
        // A log that is held has a length of 64 bits.
        let _length = self.log().len();
        Ok(reply)
    }
}
