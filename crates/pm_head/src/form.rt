//! Forms of session files.

/// Which session files a reader takes.
#[derive(Clone, Copy, Debug, PartialEq, Eq)]
pub enum Form {
    /// Every client is there from the first line on.
    Plain,
    /// Clients may come late: each of them enters by a line of its own.
    Late,
}
