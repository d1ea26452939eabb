//! The authority.
ghost use Rattle.std.specs.Prelude.{◌≡◌, ◌↔◌, [], IfOk, OnErr, OnOk};
ghost use Rattle.pm_authority.specs.Presents.{presented, submitted, asked};
ghost use Rattle.pm_authority.specs.Causes.{IsAnswer, IsNext};
ghost use Rattle.pm_authority.specs.Kept.{IsKept};

use crate::message::{Answer, Message};
use crate::named::{Named, copy_steps};
use crate::running::{Refusal, apply_all};
use pm_change::{Change, Failed};
use pm_list::Listed;
use std::alloc::{AllocError, Global};

/// The first document, the log of steps since then, and the document that they give.
/// ProseMirror: `Authority` of the guide.
#[derive(Drop)]
pub struct Authority<C: Change> {
    first: C::Doc,
    doc: C::Doc,
    log: Listed<Named<C>>,
}

impl<C: Change> Authority<C> {
    /// An authority with this document and an empty log. It keeps a copy as the first document.
    pub fn new(alloc: Global, doc: C::Doc) -> Result<Authority<C>, AllocError>
        ensures first { IfOk result (λ a. a.first ≡ doc) }
        ensures doc { IfOk result (λ a. a.doc ≡ doc) }
        ensures log { IfOk result (λ a. a.log ≡ []) }
    {
        Ok(Authority {
            first: C::copy_doc(alloc, &doc)?,
            doc,
            log: Listed::new(alloc),
        })
    }

    /// The document that the log begins with.
    pub fn first(&self) -> &C::Doc
        ensures { result.now ≡ self.now.first }
    {
        &self.first
    }

    /// The document after all steps of the log.
    pub fn doc(&self) -> &C::Doc
        ensures { result.now ≡ self.now.doc }
    {
        &self.doc
    }

    /// All accepted steps, the oldest first.
    pub fn log(&self) -> &[Named<C>]
        ensures { result.now ≡ self.now.log }
    {
        self.log.as_slice()
    }

    /// The answer to a message. A submission gets `WrongVersion` exactly where its version is not the log's length; else
    /// `StepRefused` exactly where one of its steps does not apply, by the first one's place, counted from 0, and its
    /// reason. Both change nothing. Else the steps are appended to the log, and the answer is `Accepted`. A request gets
    /// `Entries`, the log from the place on that it names, and changes nothing. Running out of memory changes nothing.
    ///
    /// `_client` is the client that presents the message. The answer does not depend on it; a history of calls records it.
    /// Under the rules that are lent, both documents must be good, and the log's steps must give the document. Each call
    /// keeps this.
    /// ProseMirror: `Authority.receiveSteps` and `Authority.stepsSince` of the guide.
    pub fn present(
        &mut self,
        alloc: Global,
        rules: &C::Rules,
        _client: u32,
        message: &Message<C>,
    ) -> Result<Answer<C>, AllocError>
        requires { IsKept C.means rules.now self.old }
        ensures answer { IfOk result (λ a. a ≡ (presented C.means rules.now self.old message.now).0) }
        ensures after { OnOk result (self.new ≡ (presented C.means rules.now self.old message.now).1) }
        ensures err { OnErr result (self.new ≡ self.old) }
        ensures kept { IsKept C.means rules.now self.new }

        // Each answer comes exactly where its cause holds, and leaves what it says.
        ensures causes { (a : _) → IfOk result (λ given. (given ≡ a)
            ↔ IsAnswer C.means rules.now self.old message.now a) }
        ensures next { IfOk result (λ a. IsNext C.means rules.now self.old message.now a self.new) }
    {
        match message {
            Message::Submit { version, steps } => {
                self.submit(alloc, rules, *version, steps.as_slice())
            }
            Message::Ask { version } => self.entries(alloc, *version),
        }
    }

    /// The answer to a submission. The steps are copied before anything changes, so that running out of memory changes
    /// nothing.
    fn submit(
        &mut self,
        alloc: Global,
        rules: &C::Rules,
        version: u64,
        steps: &[Named<C>],
    ) -> Result<Answer<C>, AllocError>
        requires { IsKept C.means rules.now self.old }
        ensures answer { IfOk result (λ a. a ≡ (submitted C.means rules.now self.old version steps.now).0) }
        ensures after { OnOk result (self.new ≡ (submitted C.means rules.now self.old version steps.now).1) }
        ensures err { OnErr result (self.new ≡ self.old) }
        ensures kept { IsKept C.means rules.now self.new }
    {
        let length = self.log.len() as u64;
        if version != length {
            return Ok(Answer::WrongVersion { length });
        }
        match apply_all(alloc, rules, &self.doc, steps) {
            Ok(doc) => {
                let added = copy_steps(alloc, steps)?;
                self.log.append(added)?;
                self.doc = doc;
                Ok(Answer::Accepted {
                    from: length,
                    count: steps.len() as u64,
                })
            }
            Err(Failed::Reason(Refusal { index, reason })) => {
                Ok(Answer::StepRefused { index, reason })
            }
            Err(Failed::NoMemory) => Err(AllocError),
        }
    }

    /// The log from place `since` on.
    fn entries(&self, alloc: Global, since: u64) -> Result<Answer<C>, AllocError>
        ensures { IfOk result (λ a. a ≡ (asked self.now since).0) }
    {
        let log = self.log.as_slice();
        if since >= log.len() as u64 {
            return Ok(Answer::Entries {
                since,
                entries: Listed::new(alloc),
            });
        }
        Ok(Answer::Entries {
            since,
            entries: copy_steps(alloc, &log[since as usize..])?,
        })
    }
}
