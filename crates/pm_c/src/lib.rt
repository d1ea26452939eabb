//! The library's calls, as C sees them: a talk that C holds by a pointer between calls, a line in and an answer out.
//!
//! The exports are `pm_c_open_authority`, `pm_c_open_client`, `pm_c_open_house`, `pm_c_tell`, `pm_c_answer`, `pm_c_is_open`,
//! `pm_c_close` and `pm_c_version`.
//!
//! Proved: what a handle holds after each call. A line is answered what a `Talk` of pm_talk, a `ClientTalk` of pm_editor or a `House`
//! of pm_house answers it, or that there was no memory for it, and then the talk stands where it stood; of an answer as many bytes are
//! copied as there is room for, and what lies past them in the buffer is unchanged.
//!
//! Not proved: that C meets what each call requires: a handle that holds a talk, as an export left it (`good`), passed by value and
//! by its storage, and used by one call at a time.
#![tactic(auto)]

mod any_talk;
mod conversation;
mod exports;
mod handle;
mod loose;
