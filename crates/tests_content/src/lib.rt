//! Tests of content expressions and of their automata: pm_expr and pm_auto.
#![tactic(auto)]

#[cfg(test)]
mod auto;
#[cfg(test)]
mod expr;
