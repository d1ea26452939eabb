//! The trait of a machine.
ghost use Rattle.std.specs.Prelude.{◌≡◌, ℕ, IfOk, OnErr};

use std::alloc::{AllocError, Global};

/// A value that answers requests one after another, under rules that are lent to each call.
pub trait Machine: Sized + Drop {
    /// What says which states are good.
    type Rules: Drop;

    /// What is asked.
    type Request: Drop;

    /// What is answered.
    type Reply: Drop;

    // The state after a request, and the reply to it.
    ghost next: { Self.Rules → Self → Self.Request → Self };

    ghost reply: { Self.Rules → Self → Self.Request → Self.Reply };

    // Which states are good under the rules.
    ghost good: { Self.Rules → Self → Type 0 };

    // Which requests the caller with this number may make.
    ghost own: { ℕ → Self.Request → Type 0 };

    /// The reply to a request. Running out of memory leaves the machine as it is. The machine must be good under these rules,
    /// and stays so.
    fn answer(
        &mut self,
        alloc: Global,
        rules: &Self::Rules,
        request: &Self::Request,
    ) -> Result<Self::Reply, AllocError>
        requires { good rules.now self.old }
        ensures good { good rules.now self.new }
        ensures reply { IfOk result (λ r. r ≡ reply rules.now self.old request.now) }
        ensures next { IfOk result (λ _. self.new ≡ next rules.now self.old request.now) }
        ensures err { OnErr result (self.new ≡ self.old) };
}
