//! A room whose op lines are being read.
ghost use Rattle.std.specs.Prelude.{◌≡◌, ◌≤◌, length, vec_len};

use crate::earlier::Earlier;
use crate::lines::op_in;
use crate::rooms::RoomSession;
use crate::session::Session;
use pm_head::{Form, Head, LineError};
use pm_list::Listed;
use pm_value::Text;
use serde_json::Value;
use std::alloc::{AllocError, Global};

/// A room with the op lines that were read of it so far.
#[derive(Drop)]
pub(crate) struct OpenRoom {
    pub name: Text,
    pub head: Head,
    pub earlier: Earlier,
    ghost composed: { vec_len earlier.composed ≡ length head.clients },
    ghost answered: { vec_len earlier.answered ≡ length head.clients },
    ghost cursors: { vec_len earlier.cursors ≡ length head.clients },
    ghost own: { vec_len earlier.own ≡ length head.clients },
    ghost few: { length head.clients ≤ 32 },
}

impl OpenRoom {
    ghost use Rattle.std.specs.Prelude.{◌<◌, ◌+◌, ◌^◌, IfOk, OnOk};
    ghost use Rattle.serde_json.specs.View.{view};
    ghost use Rattle.pm_head.specs.Answers.{Gives};
    ghost use Rattle.pm_script.specs.Rooms.{opened, room_with};
    ghost use Rattle.pm_script.specs.OpenRooms.{room_of};

    /// A room of which no op line was read.
    pub(crate) fn new(alloc: Global, name: &Text, head: Head) -> Result<OpenRoom, AllocError>
        requires { length head.clients ≤ 32 }
        ensures room { IfOk result (λ o. room_of o ≡ opened name.now head) }
        ensures none { IfOk result (λ o. vec_len o.earlier.lines ≡ 0) }
    {
        let earlier = Earlier::new(alloc, head.clients.len())?;
        Ok(OpenRoom {
            name: Text::from_str(alloc, name.as_str())?,
            head,
            earlier,
        })
    }

    /// Adds the op line that a value is.
    pub(crate) fn add(&mut self, alloc: Global, number: u32, json: &Value) -> Result<(), LineError>
        requires { vec_len self.old.earlier.lines < 2 ^ 32 }
        ensures read { Gives (λ u. room_of self.new) result (room_with (room_of self.old) number (view json.now)) }
        ensures len { OnOk result (vec_len self.new.earlier.lines ≡ vec_len self.old.earlier.lines + 1) }
    {
        let schema = &self.head.schema;
        let clients = self.head.clients.as_slice();
        let op = op_in(
            alloc,
            Form::Plain,
            schema,
            clients,
            &self.earlier,
            number,
            json,
        )?;
        self.earlier.add(op)?;
        Ok(())
    }

    /// The room with its session.
    pub(crate) fn into_session(self) -> RoomSession
        ensures { result ≡ room_of self }
    {
        let OpenRoom {
            name,
            head,
            earlier,
        } = self;
        let session = Session {
            head,
            lines: Listed::from_vec(earlier.into_lines()),
        };
        RoomSession { name, session }
    }
}
