//! Who answers what clients present.
use pm_authority::{Answer, Authority, Message};
use pm_change::Change;
use std::alloc::{AllocError, Global};

/// Answers the messages of clients, as an authority does. It has a log of steps, which others may add to between two calls.
pub trait Host<C: Change> {
    ghost use Rattle.std.specs.Prelude.{◌≡◌, ℕ, List, IfOk, IfSome, OnErr};
    ghost use Rattle.pm_authority.specs.Runs.{AllApply};
    ghost use Rattle.pm_authority.specs.declared.named.Named.{Named};
    ghost use Rattle.pm_authority.specs.declared.message.Message.{Message};
    ghost use Rattle.pm_authority.specs.declared.message.Answer.{Answer};
    ghost use Rattle.pm_authority.specs.Requests.{NamedBy};
    ghost use Rattle.pm_session.specs.Hosts.{IsLog, IsAnswered};

    /// Whether it answers the client of this name, and does so by these rules.
    ghost serves: { Self → C.Rules → ℕ → Type 0 };

    /// The document that its log begins with.
    ghost first: { Self → C.Doc };

    /// All steps that it accepted, the oldest first.
    ghost log: { Self → List (Named C) };

    /// A call that was answered: the rules, the host before it, the client, the message, the answer, and the host after it.
    ghost told: { C.Rules → Self → ℕ → Message C → Answer C C.Rules C.Doc C.Reason → Self → Type 0 };

    /// Of a host before and after a call: what it borrows is what it borrowed.
    ghost stays: { Self → Self → Type 0 };

    /// The answer to this message of this client. Running out of memory leaves the host as it was.
    fn present(
        &mut self,
        alloc: Global,
        rules: &C::Rules,
        client: u32,
        message: &Message<C>,
    ) -> Result<Answer<C>, AllocError>
        requires served { serves self.old rules.now client }
        requires named { NamedBy client message.now }
        ensures told { IfOk result (λ answer. told rules.now self.old client message.now answer self.new) }
        // Others' entries may have come first. Then the answer and the log are those of an authority.
        ensures answered { IfOk result (λ answer. IsAnswered C.means rules.now client (first self.old) (log self.old) message.now answer (log self.new)) }
        ensures err { OnErr result (self.new ≡ self.old) }
        ensures stays { stays self.old self.new }
        ensures first { first self.new ≡ first self.old }
        ensures served { serves self.new rules.now client };

    /// The document that its log gives, where it has it at hand. A host that others call beside may have none.
    fn end(
        &self,
        alloc: Global,
        rules: &C::Rules,
        client: u32,
    ) -> Result<Option<C::Doc>, AllocError>
        requires served { serves self.now rules.now client }
        ensures { IfOk result (λ o. IfSome o (AllApply C.means rules.now (first self.now) (log self.now))) };

    /// Where it serves a client, its log is one by these rules.
    ghost kept: { (host : Self) (rules : C.Rules) (client : ℕ) → serves host rules client → IsLog C.means rules (first host) (log host) };

    /// A host that was not called stays.
    ghost rests: { (host : Self) → stays host host };
}

/// An authority answers each client at once, and nobody else adds to its log.
impl<C: Change> Host<C> for Authority<C> {
    ghost use Rattle.std.specs.Prelude.{◌≡◌, ◌<◌, ◌^◌, length};
    ghost use Rattle.pm_authority.specs.Kept.{IsKept};
    ghost use Rattle.pm_authority.specs.Presents.{presented};

    ghost serves = { λ a rules client. IsKept C.means rules a × (length a.log < 2 ^ 64) };

    ghost first = { λ a. a.first };

    ghost log = { λ a. a.log };

    ghost told = { λ rules a client message answer new. (answer, new) ≡ presented C.means rules a message };

    ghost stays = { λ a new. Unit {0} };

    fn present(
        &mut self,
        alloc: Global,
        rules: &C::Rules,
        client: u32,
        message: &Message<C>,
    ) -> Result<Answer<C>, AllocError> {
        let answer = Authority::present(self, alloc, rules, client, message)?;
        // A log that is held has a length of 64 bits.
        let _length = self.log().len();
        Ok(answer)
    }

    fn end(
        &self,
        alloc: Global,
        _rules: &C::Rules,
        _client: u32,
    ) -> Result<Option<C::Doc>, AllocError> {
        Ok(Some(C::copy_doc(alloc, self.doc())?))
    }

    ghost kept = { λ a rules client s. record { first_good = s.0.first_good; applies = (a.doc, s.0.folded); short = s.1 } };

    ghost rests = { λ a. tt };
}
