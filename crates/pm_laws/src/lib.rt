//! Laws that close what the clauses of the crates below leave to be read off their definitions. No code but the laws.
//!
//! Proved: no reading of JSON is want of memory; a step's map says what happens to the tokens; no line of a session is
//! told that its schema does not know a step; content is of the grammar's language; line 1 of a file of many rooms
//! lists the rooms; each input is a session or is refused; `select` writes one text, and `run` and `runrooms` one for each
//! order.
#![tactic(auto)]

pub mod laws;
