//! Tests of replacing, fitting and applying: pm_slice, pm_replace, pm_fit, pm_step and pm_apply.
//!
//! They make each call that a program of one's own makes without a session, on one small document, and the steps that no
//! JSON is read as. What they want was worked out by hand from the rules. Sessions show the rest.
#![tactic(auto)]

#[cfg(test)]
mod placing;
