//! Line 3: who the client is, and at which version it comes.
ghost use Rattle.serde_json.specs.View.{view};
ghost use Rattle.pm_head.specs.Answers.{Gives};
ghost use Rattle.pm_asked.specs.Entries.{version_in, entry_of, entry_line};

use pm_docjson::field;
use pm_head::{Code, LineError, json_line};
use pm_slicejson::as_count;
use pm_talk::id_in;
use pm_value::Text;
use serde_json::Value;
use std::alloc::Global;

/// Who the client is, and at which version it comes.
#[derive(Drop)]
pub struct Entry {
    pub id: Text,
    pub version: u32,
}

/// What line 3 says, or the code of its first fault: the line's length and its JSON come first, then `clientID` and `version`.
#[tactic(auto, unfolding(crate::specs::Entries::entry_line))]
pub fn entry_line(alloc: Global, line: &[u8]) -> Result<Entry, LineError>
    ensures { Gives (λ e. e) result (entry_line line.now) }
{
    let json = json_line(alloc, line)?;
    entry_of(alloc, &json)
}

#[tactic(auto, unfolding(crate::specs::Entries::entry_of))]
fn entry_of(alloc: Global, json: &Value) -> Result<Entry, LineError>
    ensures { Gives (λ e. e) result (entry_of (view json.now)) }
{
    let id = id_in(alloc, json)?;
    let version = version_in(json)?;
    Ok(Entry { id, version })
}

/// The version, a whole number from 0 to 4,294,967,295, which is 0 where it is absent or null.
fn version_in(json: &Value) -> Result<u32, LineError>
    ensures { Gives (λ n. n) result (version_in (view json.now)) }
{
    match field(json, "version") {
        None => Ok(0),
        Some(value) => match as_count(value) {
            Some(number) => Ok(number as u32),
            None => Err(LineError::Code(Code::WrongShape)),
        },
    }
}
