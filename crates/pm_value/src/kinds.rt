//! Kinds of values.
ghost use Rattle.std.specs.Prelude.{◌≡◌};
ghost use Rattle.pm_value.specs.Views.{plain};
ghost use Rattle.pm_value.specs.Kinds.{is_of, is_allowed};

use crate::value::Value;

/// Which kinds of values an attribute may have. Lists and objects are of none of them.
#[derive(Clone, Copy, Debug, PartialEq, Eq)]
pub struct Kinds {
    pub string: bool,
    pub number: bool,
    pub boolean: bool,
    pub null: bool,
}

impl Kinds {
    /// Whether the value is of one of the kinds. It takes no memory.
    pub fn has(&self, value: &Value) -> bool
        ensures { result ≡ is_of self.now (plain value.now) }
    {
        match value {
            Value::Null => self.null,
            Value::Bool(_) => self.boolean,
            Value::Int(_) => self.number,
            Value::Text(_) => self.string,
            Value::Items(_) => false,
            Value::Fields(_) => false,
        }
    }

    /// Whether an attribute of these kinds may have the value: any value where none are named. It takes no memory.
    pub fn allow(kinds: Option<Kinds>, value: &Value) -> bool
        ensures { result ≡ is_allowed kinds (plain value.now) }
    {
        match kinds {
            Some(kinds) => kinds.has(value),
            None => true,
        }
    }
}
