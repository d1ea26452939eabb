//! Documents as lists of tokens: the readings of such lists, what is valid, slices and splices. Definitions and lemmas
//! alone, no code.
//!
//! The words of every contract about documents are here: `Doc`, `Valid`, `cut` and `splice` over tokens, the children
//! of a node, the depth of a position.
//!
//! As lemmas it is proved that a document is valid where no fault is found and faulty where one is (`valid-fault`,
//! `fault-valid`), that the first fault is there and none before it, and that the children of a node by cases and as
//! they are computed agree.
#![tactic(auto)]
