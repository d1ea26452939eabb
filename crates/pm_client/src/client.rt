//! A client: its base, what is pending, and its document.
ghost use Rattle.std.specs.List.{AllByRecursion as Each};
ghost use Rattle.std.specs.Prelude.{◌≡◌, ◌+◌, ◌-◌, ◌<◌, ◌≤◌, ◌^◌, List, [], length, Some, IfOk, IfErr, OnOk, OnErr};
ghost use Rattle.pm_authority.specs.Runs.{AllApply};
ghost use Rattle.pm_authority.specs.declared.named.Named.{Named};
ghost use Rattle.pm_client.specs.Clients.{new_client, entered_client, cursor_set, IsCursorRefusal, composed, kept, message_of, message_at};
ghost use Rattle.pm_client.specs.Kins.{AnswerStands, IsForeign, Kin};

use crate::cursors::Cursor;
use crate::failing::CursorError;
use crate::taken::MessageKind;
use pm_authority::{Answer, Message, Named, copy_steps};
use pm_change::Change;
use pm_history::Branches;
use pm_list::Listed;
use pm_map::Side;
use std::alloc::{AllocError, Global};

/// A client. `base` is the document after the first `version` steps of the log, and `doc` is the base after the pending
/// steps. It keeps the messages that it composed and the answers that it was given, each under a number from 1 on. A cursor
/// is a position in the document, in tokens, and a side. `history` stands for the client's timeline: the log's first
/// `version` steps, and then the pending ones.
/// ProseMirror: `collab`, the plugin and its state.
#[derive(Drop)]
pub struct Client<C: Change> {
    pub(crate) name: u32,
    pub(crate) version: u64,
    pub(crate) base: C::Doc,
    pub(crate) doc: C::Doc,
    pub(crate) pending: Listed<Named<C>>,
    pub(crate) messages: Listed<Message<C>>,
    pub(crate) answers: Listed<Answer<C>>,
    pub(crate) serials: u64,
    pub(crate) dropped: Listed<u64>,
    pub(crate) cursors: Listed<Cursor>,
    pub(crate) history: Branches<C>,
}

impl<C: Change> Client<C> {
    /// A client of this name at version 0, with this document and nothing pending. It keeps a copy as its base.
    pub fn new(alloc: Global, name: u32, doc: C::Doc) -> Result<Client<C>, AllocError>
        ensures new { IfOk result (λ c. c ≡ new_client name doc) }
        // Under rules by which the document is good, the client stands to the empty log.
        ensures kin { (rules : C.Rules) → C.means.is_good rules doc → IfOk result (Kin C.means rules doc []) }
    {
        Ok(Client {
            name,
            version: 0,
            base: C::copy_doc(alloc, &doc)?,
            doc,
            pending: Listed::new(alloc),
            messages: Listed::new(alloc),
            answers: Listed::new(alloc),
            serials: 0,
            dropped: Listed::new(alloc),
            cursors: Listed::new(alloc),
            history: Branches::new(alloc),
        })
    }

    /// A client of this name that comes late: at this version, with this document, which is that of the log's first `version`
    /// steps. It has nothing pending, and no message, serial, cursor or event. It keeps a copy of the document as its base.
    pub fn entered(
        alloc: Global,
        name: u32,
        version: u64,
        doc: C::Doc,
    ) -> Result<Client<C>, AllocError>
        ensures entered { IfOk result (λ c. c ≡ entered_client name version doc) }
        // It stands to a log of that length that gives the document, where the log has no step of its name.
        ensures kin { (rules : C.Rules) (first : C.Doc) (log : List (Named C)) → C.means.is_good rules first → AllApply C.means rules first log doc
            → version ≡ length log → Each (IsForeign name) log → IfOk result (Kin C.means rules first log) }
    {
        let mut client = Client::new(alloc, name, doc)?;
        client.version = version;
        Ok(client)
    }

    /// The client's name.
    /// ProseMirror: `clientID`.
    pub fn name(&self) -> u32
        ensures { result ≡ self.now.name }
    {
        self.name
    }

    /// How many steps of the log the base has.
    /// ProseMirror: `getVersion`.
    pub fn version(&self) -> u64
        ensures { result ≡ self.now.version }
    {
        self.version
    }

    /// The document after the first `version` steps of the log.
    pub fn base(&self) -> &C::Doc
        ensures { result.now ≡ self.now.base }
    {
        &self.base
    }

    /// The document after all pending steps.
    pub fn doc(&self) -> &C::Doc
        ensures { result.now ≡ self.now.doc }
    {
        &self.doc
    }

    /// The steps that are not confirmed, the oldest first.
    pub fn pending(&self) -> &[Named<C>]
        ensures { result.now ≡ self.now.pending }
    {
        self.pending.as_slice()
    }

    /// The serials of the steps that were dropped, the lowest first.
    pub fn dropped(&self) -> &[u64]
        ensures { result.now ≡ self.now.dropped }
    {
        self.dropped.as_slice()
    }

    /// The cursors where they stand now, in the order in which they were set.
    pub fn cursors(&self) -> &[Cursor]
        ensures { result.now ≡ self.now.cursors }
    {
        self.cursors.as_slice()
    }

    /// The items that are kept of the client's timeline, and the events that it can undo and redo.
    pub fn history(&self) -> &Branches<C>
        ensures { result.now ≡ self.now.history }
    {
        &self.history
    }

    /// How many messages were composed.
    pub fn composed(&self) -> u64
        ensures { result ≡ length self.now.messages }
    {
        self.messages.len() as u64
    }

    /// How many answers were kept.
    pub fn kept(&self) -> u64
        ensures { result ≡ length self.now.answers }
    {
        self.answers.len() as u64
    }

    /// Sets one cursor more, at this position of the client's document and with this side. `Range` comes exactly where
    /// the position passes the document's size. Then, and out of memory, the client is as it was.
    ///
    /// The document must be smaller than 2^32 tokens, as each good one is.
    pub fn set_cursor(&mut self, pos: u64, side: Side) -> Result<(), CursorError>
        requires { C.means.size self.old.doc < 2 ^ 32 }
        ensures set { OnOk result (self.new ≡ cursor_set self.old pos side) }
        ensures within { OnOk result (pos ≤ C.means.size self.old.doc) }
        ensures refused { IfErr result (IsCursorRefusal (C.means.size self.old.doc) pos) }
        ensures err { OnErr result (self.new ≡ self.old) }
        // To what log the client stood, it stands.
        ensures kin { (rules : C.Rules) (first : C.Doc) (log : List (Named C)) → Kin C.means rules first log self.old
            → Kin C.means rules first log self.new }
    {
        if pos > C::size(&self.doc) as u64 {
            return Err(CursorError::Range);
        }
        self.cursors.push(Cursor { pos, side })?;
        Ok(())
    }

    /// Composes a message of this kind, and tells its number, from 1. Out of memory, the client is as it was.
    /// ProseMirror: `sendableSteps`.
    pub fn compose(&mut self, alloc: Global, kind: MessageKind) -> Result<u64, AllocError>
        ensures number { IfOk result (λ n. n ≡ length self.old.messages + 1) }
        ensures composed { IfOk result (λ n. self.new ≡ composed self.old kind) }
        ensures err { OnErr result (self.new ≡ self.old) }
        // To what log the client stood, it stands.
        ensures kin { (rules : C.Rules) (first : C.Doc) (log : List (Named C)) → Kin C.means rules first log self.old
            → Kin C.means rules first log self.new }
    {
        let message = self.message_of(alloc, kind)?;
        self.messages.push(message)?;
        Ok(self.messages.len() as u64)
    }

    /// The message of this kind.
    fn message_of(&self, alloc: Global, kind: MessageKind) -> Result<Message<C>, AllocError>
        ensures { IfOk result (λ message. message ≡ message_of self.now kind) }
    {
        let version = self.version;
        match kind {
            MessageKind::Submit => Ok(Message::Submit {
                version,
                steps: copy_steps(alloc, self.pending.as_slice())?,
            }),
            MessageKind::Ask => Ok(Message::Ask { version }),
        }
    }

    /// The message of this number, which was composed, lent.
    pub fn message_at(&self, j: u64) -> &Message<C>
        requires { (0 < j) × (j ≤ length self.now.messages) }
        ensures { message_at self.now j ≡ Some result.now }
    {
        &self.messages.as_slice()[j as usize - 1]
    }

    /// A copy of the message of this number, which was composed.
    pub fn message(&self, alloc: Global, j: u64) -> Result<Message<C>, AllocError>
        requires { (0 < j) × (j ≤ length self.now.messages) }
        ensures { IfOk result (λ message. message_at self.now j ≡ Some message) }
    {
        self.message_at(j).copy(alloc)
    }

    /// Keeps an answer, and tells its number, from 1. Out of memory, the client is as it was.
    pub fn keep(&mut self, answer: Answer<C>) -> Result<u64, AllocError>
        ensures number { IfOk result (λ n. n ≡ length self.old.answers + 1) }
        ensures kept { IfOk result (λ n. self.new ≡ kept self.old answer) }
        ensures err { OnErr result (self.new ≡ self.old) }
        // To what log the client stood, it stands, where the answer stands to it too.
        ensures kin { (rules : C.Rules) (first : C.Doc) (log : List (Named C)) (kin : Kin C.means rules first log self.old)
            → AnswerStands log self.old.version kin.standing answer → Kin C.means rules first log self.new }
    {
        self.answers.push(answer)?;
        Ok(self.answers.len() as u64)
    }
}
