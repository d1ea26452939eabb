//! Names of steps.

/// The name of a step: the client that made it, and that client's serial, counted from 1.
#[derive(Clone, Copy, Debug, PartialEq, Eq)]
pub struct Name {
    pub client: u32,
    pub serial: u64,
}
