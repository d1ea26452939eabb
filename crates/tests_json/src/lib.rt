//! Tests of nodes, marks, slices and steps as JSON values: pm_docjson, pm_slicejson and pm_stepjson.
//!
//! A program reads lines and writes texts, and its sessions show what they are. Here the same is a value of serde_json, by
//! the calls that no program makes.
#![tactic(auto)]

#[cfg(test)]
mod written;
