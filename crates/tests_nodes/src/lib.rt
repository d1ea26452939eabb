//! Tests of trees of nodes, and of the first lines of session files: pm_node and pm_head.
#![tactic(auto)]

#[cfg(test)]
mod filled;
#[cfg(test)]
mod node;
