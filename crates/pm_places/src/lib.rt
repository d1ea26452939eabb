//! Laws of automata, and of what may come first in a node, by place words. No code, and nothing stands on it.
//!
//! The expansion of a content expression writes each repetition out. What comes before or after a part that has no
//! list, as a choice of nothing, is left out of it. Each occurrence of a type in what is left is a place, and places
//! are numbered from the left. A place word is a list in the language of the expansion, read with places for types, so
//! `(1 2)+` with the places 0 and 1 has the place words 0 1, 0 1 0 1 and so on.
//!
//! Proved, of every expression: a list leads to a state exactly where some place word begins with places that spell it;
//! the state has exactly the places that may come next; its edges are their types, each once, in the order of the least
//! place. Where the language is empty there is no place word, and the automaton is a start without edges at which the
//! content may not end.
#![tactic(auto)]

pub mod laws;
#[cfg(test)]
mod tests;
