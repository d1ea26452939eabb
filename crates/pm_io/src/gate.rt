/// What is asked before a call, so that it can hold the call back until others were made. One gate
/// is shared by all threads.
pub trait Gate {
    /// Comes before a client's next call, with the client's index and the number of the calls
    /// that it has made so far. The call is made when this returns.
    fn before(&self, client: u32, nth: u32);
}

/// The gate that holds no call back.
#[derive(Clone, Copy, Debug, Default, PartialEq, Eq)]
pub struct OpenGate;

impl Gate for OpenGate {
    fn before(&self, _client: u32, _nth: u32) {}
}
