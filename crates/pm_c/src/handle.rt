//! What C holds between calls.
ghost use Rattle.std.specs.Prelude.{◌≡◌, Option, Some};
ghost use Rattle.std.specs.Coded.{coded_option};
ghost use Rattle.pm_c.specs.Held.{held};
ghost use Rattle.pm_c.specs.declared.conversation.Conversation.{Conversation};
ghost use Rattle.pm_c.specs.contracts.conversation.Conversation.{the_row};

use crate::conversation::Conversation;
use crate::loose::Loose;
use std::alloc::Global;
use std::marker::Model;

/// What C holds: nothing, or a conversation by its pointer. It takes the bytes of a pointer, which are zero where it holds nothing.
#[repr(C)]
#[derive(Drop)]
pub struct Handle {
    at: *mut u8,
    alloc: Global,
    pub ghost value: { Option Conversation } by { coded_option the_row.coded },
}

impl Model for Handle {
    ghost also_owns = { λ h. held the_row h.alloc h.at h.value };
}

impl Handle {
    /// A handle that holds the box's value.
    pub(crate) fn of(loose: Loose<Conversation, Global>) -> Handle
        ensures { result.value ≡ Some loose.value }
    {
        let Loose { at, alloc } = loose;
        Handle {
            at: at as *mut u8,
            alloc,
        }
    }

    /// The box's pointer, out of a handle that holds one.
    pub(crate) fn into_loose(self) -> Loose<Conversation, Global>
        ghost value: { Conversation }
        requires { self.value ≡ Some value }
        ensures { result.value ≡ value }
    {
        let Handle { at, alloc } = self;
        Loose {
            at: at as *mut Conversation,
            alloc,
        }
    }
}
