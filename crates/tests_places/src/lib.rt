//! Tests of places: pm_resolve.
#![tactic(auto)]

#[cfg(test)]
mod resolve;
