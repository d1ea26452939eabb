//! Tests of histories, and of steps that are undone: pm_history.
#![tactic(auto)]

#[cfg(test)]
mod branches;
#[cfg(test)]
mod undoing;
