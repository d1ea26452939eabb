//! A talk, with the answer that it gave last.
ghost use Rattle.std.specs.Prelude.{◌≡◌, []};
ghost use Rattle.pm_c.specs.Conversations.{answer_of, Told};
ghost use Rattle.pm_c.specs.AnyTalks.{IsGood};

use crate::any_talk::AnyTalk;
use pm_serve::Reply;
use pm_talk::no_memory;
use std::alloc::{AllocError, Global};

/// A talk, and the answer that it gave last.
#[derive(Drop)]
pub struct Conversation {
    pub talk: AnyTalk,
    /// None where there was no memory for it.
    pub answer: Option<String>,
}

impl Conversation {
    /// This talk, of which no line came. Its answer is empty.
    pub(crate) fn new(alloc: Global, talk: AnyTalk) -> Conversation
        ensures talk { result.talk ≡ talk }
        ensures answer { answer_of result ≡ [] }
    {
        Conversation {
            talk,
            answer: Some(String::new(alloc)),
        }
    }

    /// Tells the talk a line, and keeps the answer. Out of memory changes nothing but the answer.
    pub(crate) fn tell(&mut self, alloc: Global, line: &[u8])
        requires { IsGood self.old.talk }
        ensures told { Told self.old line.now self.new }
        ensures good { IsGood self.new.talk }
    {
        match self.talk.tell(alloc, line) {
            Ok(Reply { text, more: _ }) => self.answer = Some(text),
            Err(AllocError) => self.answer = None,
        }
    }

    /// The answer that was given last.
    pub(crate) fn answer(&self) -> &[u8]
        ensures { result.now ≡ answer_of self.now }
    {
        match &self.answer {
            Some(text) => text.as_bytes(),
            None => no_memory(),
        }
    }
}
