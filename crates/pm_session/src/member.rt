//! Who takes part in a session.
ghost use Rattle.std.specs.Prelude.{◌≡◌};
ghost use Rattle.pm_session.specs.Members.{name_of};

use pm_change::Change;
use pm_client::Client;

/// A member of a session: an editor, or a raw client.
#[derive(Drop)]
pub enum Member<C: Change> {
    /// An editor has a document, pending steps, messages, answers, cursors and a history.
    Editor(Client<C>),
    /// A raw client has none of these. It submits steps that it is given, well made or not, as a client would that this
    /// engine did not make. It names them with its own name and with serials, of which it has drawn `serial` so far.
    Raw { name: u32, serial: u64 },
}

impl<C: Change> Member<C> {
    /// The member's name.
    pub fn name(&self) -> u32
        ensures { result ≡ name_of self.now }
    {
        match self {
            Member::Editor(client) => client.name(),
            Member::Raw { name, serial: _ } => *name,
        }
    }
}
