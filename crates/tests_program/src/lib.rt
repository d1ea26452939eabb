//! Tests of the top call, and of sessions made from a number: pm_call and pm_gen.
//!
//! They show what no session file does: a read or a write that fails, that clients have threads of their own, and the
//! bytes of a session that is made.
#![tactic(auto)]

#[cfg(test)]
mod ends;
#[cfg(test)]
mod made;
#[cfg(test)]
mod threads;
