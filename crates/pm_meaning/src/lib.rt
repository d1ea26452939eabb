//! What each kind of step means on documents seen as token lists, with the laws that it keeps, and why a step may not
//! apply. All but the reasons are definitions and lemmas.
//!
//! The one type of code is `Reason`. The definitions to read first are `outcome`, `inverse`, `step_map` and `carry`.
//!
//! Proved (`laws_by`): the eight kinds of steps keep every law of changes over any schema: valid results, inverses that
//! restore, in a loose schema inverses that apply, maps that fit, carrying.
//!
//! Beyond ProseMirror's reasons stands `NotInSchema`, for steps made by hand that name a type which the schema does not
//! have. Values that are read from JSON under the schema never meet it.
#![tactic(auto)]

mod reason;

pub use reason::Reason;
