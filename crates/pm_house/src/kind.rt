//! Schemas under names.
ghost use Rattle.std.specs.Prelude.{◌≡◌, option_map, Option, Some, None};
ghost use Rattle.std.specs.List.{find};
ghost use Rattle.std.specs.Str.{bytes_eq};
ghost use Rattle.pm_house.specs.Found.{kind_of};

use pm_archive::Shared;
use pm_value::Text;

/// A schema under a name, and the JSON text that gave it.
#[derive(Drop)]
pub struct Kind {
    pub name: Text,
    pub text: Text,
    pub schema: Shared,
}

/// The schema under this name.
pub(crate) fn kind_named<'a>(kinds: &'a [Kind], name: &str) -> Option<&'a Kind>
    ensures { option_map (λ k. k.now) result ≡ kind_of name.now kinds.now }
{
    kinds.iter().find(|kind| name == kind.name.as_str())
}
