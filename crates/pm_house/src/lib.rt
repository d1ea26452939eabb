//! A house of many documents: an authority for servers. A line in, its answer out.
//!
//! The main call is `House::tell`; `House::tell_change` says also whether the line changed anything. A `House` is a `Service` of
//! pm_serve too, and a `LimitedHouse` that and a `Keepable` of pm_kept.
//!
//! Proved: what a line is answered, what the house is then (`Replies`), and whether that is another. Out of memory changes nothing,
//! and each document is always valid (`IsGood`). The answers to the lines of one document are those of that document alone, whatever
//! lines of others lie between (`AllAlone`). A line that is answered a fault changes nothing (`FaultsChangeNothing`).
//! `House::is_same` says whether two houses are the same (`same_house`), also where one was made of the lines of the other.
//!
//! A `LimitedHouse` is a house whose submissions may have a limit of work: one whose steps go over more tokens (`works` of pm_talk) is
//! told the limit, and changes nothing; any other line is answered as by the house (`ServingWithin`).
//!
//! Not proved: that there is memory.
#![tactic(auto)]

mod changing;
mod documents;
mod house;
mod keeping;
mod kind;
mod limited;
mod lines;
mod mark;
mod names;
mod opening;
mod over;
mod same;
mod service;
mod texts;
mod theorems;
mod writing;

pub use changing::Answer;
pub use documents::Documents;
pub use house::House;
pub use kind::Kind;
pub use limited::LimitedHouse;
pub use theorems::laws;
