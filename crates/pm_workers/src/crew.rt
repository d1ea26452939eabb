//! What all workers share besides the desk.

/// Who plays a session's lines, on what threads, and who is asked before each call.
pub struct Crew<'a, K, G, R> {
    pub rt: &'a R,
    pub maker: &'a K,
    pub gate: &'a G,
}

impl<K, G, R> Drop for Crew<'_, K, G, R> {
    fn drop(self) {
        let Crew {
            rt: _,
            maker: _,
            gate: _,
        } = self;
    }
}
