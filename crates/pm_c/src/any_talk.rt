//! A talk of any kind: that of an authority, of a client, or of a house of many documents.
ghost use Rattle.std.specs.Prelude.{◌≡◌, IfOk, OnErr, string_bytes};
ghost use Rattle.pm_c.specs.AnyTalks.{Replies, IsGood, is_open};

use pm_editor::ClientTalk;
use pm_house::House;
use pm_serve::Reply;
use pm_talk::Talk;
use std::alloc::{AllocError, Global};

/// A talk of any kind: that of an authority, of a client, or of a house of many documents.
#[derive(Drop)]
pub enum AnyTalk {
    Authority(Talk),
    Client(ClientTalk),
    House(House),
}

impl AnyTalk {
    /// The answer to a line, and whether further lines are answered. Out of memory changes nothing.
    pub(crate) fn tell(&mut self, alloc: Global, line: &[u8]) -> Result<Reply, AllocError>
        requires { IsGood self.old }
        ensures told { IfOk result (λ r. Replies self.old line.now (string_bytes r.text) r.more self.new) }
        ensures err { OnErr result (self.new ≡ self.old) }
        ensures good { IsGood self.new }
    {
        match self {
            AnyTalk::Authority(talk) => talk.tell(alloc, line),
            AnyTalk::Client(talk) => talk.tell(alloc, line),
            AnyTalk::House(house) => Ok(Reply {
                text: house.tell(alloc, line)?,
                more: true,
            }),
        }
    }

    /// Whether the lines that open it came, so that each line asks it something. A house has none, and is open from the first.
    pub(crate) fn is_open(&self) -> bool
        ensures { result ≡ is_open self.now }
    {
        match self {
            AnyTalk::Authority(talk) => talk.is_open(),
            AnyTalk::Client(talk) => talk.is_open(),
            AnyTalk::House(_) => true,
        }
    }
}
