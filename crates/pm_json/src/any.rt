//! What a reader asks of a JSON value.
use pm_value::{Value, ValueError};
use std::alloc::{AllocError, Global};

/// A reference to a JSON value, in whichever form the value is held. A contract sees the value as `serde_json` reads it: each
/// key of an object stands once, and the keys are in byte order.
pub trait JsonRef: Copy + Drop {
    ghost use Rattle.std.specs.Prelude.{◌≡◌, ◌≤◌, map, option_map, option_and_then, is_some, IfOk, IfSome};
    ghost use Rattle.serde_json.specs.Data.{Data};
    ghost use Rattle.serde_json.specs.Find.{get, as_null, as_bool, as_number, as_u64, as_str, as_array, as_object};
    ghost use Rattle.serde_json.specs.View.{items_of};
    ghost use Rattle.pm_value.specs.Plain.{depth};
    ghost use Rattle.pm_value.specs.Views.{plain};
    ghost use Rattle.pm_value.specs.Answers.{Gives};
    ghost use Rattle.pm_value.specs.Reading.{value_of};
    ghost use Rattle.pm_value.specs.Kept.{IsKept, InOrder};
    ghost use Rattle.pm_value.specs.Writing.{written};
    ghost use Rattle.pm_json.specs.Members.{members_of};

    // The value.
    ghost seen: { Self → Data };

    /// The value under a key, where it is an object that has the key.
    fn get(self, key: &str) -> Option<Self>
        ensures { option_map seen result ≡ get key.now (seen self) };

    /// Whether it is null.
    fn is_null(self) -> bool
        ensures { result ≡ is_some (as_null (seen self)) };

    /// Whether it is an object.
    fn is_object(self) -> bool
        ensures { result ≡ is_some (as_object (seen self)) };

    /// The truth value, where it is one.
    fn as_bool(self) -> Option<bool>
        ensures { result ≡ as_bool (seen self) };

    /// The number, where it is a whole one from 0 to 2^64 - 1.
    fn as_u64(self) -> Option<u64>
        ensures { result ≡ option_and_then as_u64 (as_number (seen self)) };

    /// The text, where it is one.
    fn as_str(&self) -> Option<&str>
        ensures { option_map (λ s. s.now) result ≡ as_str (seen self.now) };

    /// The items, where it is an array.
    fn items(self, alloc: Global) -> Result<Option<Vec<Self>>, AllocError>
        ensures { IfOk result (λ o. option_map (λ v. items_of (map seen v.items)) o ≡ as_array (seen self)) };

    /// The keys in byte order, each with its value, where it is an object.
    fn members(&self, alloc: Global) -> Result<Option<Vec<(&str, Self)>>, AllocError>
        ensures members { IfOk result (λ o. option_map (λ v. members_of (map (λ m. (m.0.now, seen m.1)) v.items)) o ≡ as_object (seen self.now)) }
        ensures ordered { IfOk result (λ o. IfSome o (λ v. InOrder (map (λ m. m.0.now) v.items))) };

    /// The value of an attribute that it writes, or its first fault, as `Value::from_json` says them.
    fn value(self, alloc: Global) -> Result<Value, ValueError>
        ensures read { Gives plain result (value_of (seen self)) }
        ensures kept { IfOk result (λ v. IsKept (plain v)) }
        ensures shallow { IfOk result (λ v. depth (plain v) ≤ 4) }
        ensures same { IfOk result (λ v. written (plain v) ≡ seen self) };
}
