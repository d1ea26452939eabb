//! The law that a generated session is a session: `generated_is_session`.
//!
//! Proved: within the limits of pm_gen, whatever the number, the file is a session, and no line of it is refused, so
//! `read_session` answers the session or out of memory. No code but the law.
#![tactic(auto)]

ghost use Rattle.pm_gen.specs.Bounds.{InBounds};
ghost use Rattle.pm_gen.specs.Session.{generated};
ghost use Rattle.pm_gen_laws.specs.Law.{IsSession, IsNeverRefused};

/// The file that `generate` makes is a session, whatever the number: `read_session` never refuses it. The call does nothing; its
/// contract is the law.
pub fn generated_is_session(clients: u32, rounds: u32, number: u64)
    requires { InBounds clients rounds }
    ensures session { IsSession (generated clients rounds number) }
    ensures never_refused { IsNeverRefused (generated clients rounds number) }
{
    let _ = (clients, rounds, number);
}
