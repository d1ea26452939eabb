//! Tests of schemas that are built of their types, and of those that are loose: pm_schema and pm_loose.
#![tactic(auto)]

#[cfg(test)]
mod built;
#[cfg(test)]
mod loose;
