//! The IDs of clients in a line that opens a document.
ghost use Rattle.std.specs.Prelude.{[]};
ghost use Rattle.serde_json.specs.View.{view, items_view};
ghost use Rattle.pm_head.specs.Answers.{Gives};
ghost use Rattle.pm_order.specs.Clients.{with_new, id_list, ids_in};

use pm_docjson::field;
use pm_head::{Code, LineError};
use pm_talk::{ClientIds, id_from};
use serde_json::Value;
use std::alloc::Global;

/// The greatest number of IDs.
pub(crate) const MAX_IDS: usize = 4_294_967_295;

/// The list of IDs at `clientIDs`, each as its JSON text; none where it is absent or null. `WrongShape` comes where it is no list, or
/// an item is neither a text nor a whole number, `BadClients` where an ID has more than 1,024 bytes or is one too many, and `BadRooms`
/// where it is there already.
pub(crate) fn ids_in(alloc: Global, json: &Value) -> Result<ClientIds, LineError>
    ensures { Gives (λ ids. ids) result (ids_in (view json.now)) }
{
    match field(json, "clientIDs") {
        None => Ok(ClientIds::new(alloc)),
        Some(value) => match value.as_array() {
            Some(items) => id_list(alloc, items),
            None => Err(LineError::Code(Code::WrongShape)),
        },
    }
}

/// The values as IDs.
#[tactic(auto, unfolding(crate::specs::Clients::id_list))]
fn id_list(alloc: Global, items: &[Value]) -> Result<ClientIds, LineError>
    ensures { Gives (λ ids. ids) result (id_list [] (items_view items.now)) }
{
    let mut ids = ClientIds::new(alloc);
    for item in items {
        let id = id_from(alloc, item)?;
        ids = with_new(alloc, ids, id.as_str())?;
    }
    Ok(ids)
}

/// The IDs and one more, which may not be among them.
fn with_new(alloc: Global, ids: ClientIds, id: &str) -> Result<ClientIds, LineError>
    ensures { Gives (λ ids. ids) result (with_new ids id.now) }
{
    if ids.place(id).is_some() {
        return Err(LineError::Code(Code::BadRooms));
    }
    if ids.len() >= MAX_IDS {
        return Err(LineError::Code(Code::BadClients));
    }
    let mut ids = ids;
    ids.add(alloc, id)?;
    Ok(ids)
}
