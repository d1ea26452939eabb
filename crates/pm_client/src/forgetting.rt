//! A client that keeps no messages and no answers.
ghost use Rattle.std.specs.Prelude.{◌≡◌, List};
ghost use Rattle.pm_authority.specs.declared.named.Named.{Named};
ghost use Rattle.pm_client.specs.Clients.{forgotten};
ghost use Rattle.pm_client.specs.Kins.{Kin};

use crate::client::Client;
use pm_change::Change;

impl<C: Change> Client<C> {
    /// Drops the messages that were composed and the answers that were kept; their numbers begin at 1 again. It takes no
    /// memory.
    pub fn forget(&mut self)
        ensures forgets { self.new ≡ forgotten self.old }
        // To what log the client stood, it stands.
        ensures kin { (rules : C.Rules) (first : C.Doc) (log : List (Named C)) → Kin C.means rules first log self.old
            → Kin C.means rules first log self.new }
    {
        self.messages.clear();
        self.answers.clear();
    }
}
