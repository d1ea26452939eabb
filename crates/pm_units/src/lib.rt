//! Texts of a document, as lists of UTF-16 units.
//!
//! The one type is `Units`. The main calls are `Units::of_text`, `Units::cut`, `Units::append` and `Units::part_text`.
//!
//! Up to 1,024 units lie in one piece of the text's own, more in pieces of 1 to 1,024 units that copies share. Pieces of
//! units below 128 take one byte a unit, others two. A cut and a join copy the pieces at the ends and share the others; two
//! pieces that fit together in one are joined where they meet.
//!
//! Proved: each call has one exact clause over the list of units: which list it gives, which text the units spell, and
//! where the first lone surrogate is. After out of memory a text that was lent is as it was.
//!
//! Not proved: what is shared, how many pieces there are, how many bytes they take, and how long a call takes. A text of
//! 2^32 units or more is refused as if memory had run out.
#![tactic(auto)]

mod form;
mod lone;
mod narrow;
mod parts;
mod piece;
mod pieces;
mod same;
mod texts;
mod units;

pub use units::Units;
