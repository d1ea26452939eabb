//! A service that outlives its process: each line that it accepts is in a file before it is answered. What may be kept so is a
//! `Keepable`, such as a talk of pm_talk.
//!
//! The main calls are `open`, which stands behind the lines of a file, `Kept::new`, which begins an empty one, and `serve_kept`, which
//! answers lines. Lines that wait together are a group: those of them that are accepted come into the file at once. A line is accepted
//! where it changed something.
//!
//! Proved: what lines are answered is what the service answers, and an answer is written only once each line of its group that is
//! accepted is on the disk. Where a call of the disk fails, which is counted, a crash leaves the lines from before and all of those
//! of the group or none, and no further line is answered. Of all lines that are served, a crash leaves those that were accepted, in
//! order: each whose answer was begun, and at most those of one more group (`KeptRun`). No byte is asked for while a whole line that
//! came has no answer (`serve_group`). `open` stands behind exactly the lines of the file, writes nothing, and each error of it has its
//! cause (`OpenFails`). Talks that stand behind the same lines stand alike, and so the lines of a talk's file that a crash may leave are
//! always accepted again (`laws`). Out of memory changes nothing.
//!
//! Not proved: what pm_journal and pm_talk do not prove.
#![tactic(auto)]

mod answers;
mod hearing;
mod keepable;
mod kept;
mod opening;
mod serving;
mod sizes;
mod talks;
mod theorems;

pub use keepable::{Keepable, Outcome};
pub use kept::{Kept, disk_fault};
pub use opening::{OpenError, Opened, open};
pub use serving::{serve_group, serve_kept};
pub use theorems::laws;
