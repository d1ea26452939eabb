//! The lines behind which a house stands as it is.
ghost use Rattle.std.specs.Prelude.{◌≡◌, ◌++◌, IfOk, OnOk, string_bytes};
ghost use Rattle.pm_house.specs.Lines.{schema_line, schema_lines};

use crate::house::House;
use crate::kind::Kind;
use std::alloc::{AllocError, Global};

impl House {
    /// The lines that give an empty house the schemas of this one, each with its LF. With those of each document, in order, they make it
    /// what this one is. The error is running out of memory.
    pub fn schema_lines(&self, alloc: Global) -> Result<String, AllocError>
        ensures { IfOk result (λ s. string_bytes s ≡ schema_lines self.now.schemas) }
    {
        let mut text = String::new(alloc);
        push_schema_lines(&mut text, self.schemas.as_slice())?;
        Ok(text)
    }
}

/// Appends a line for each schema.
fn push_schema_lines(text: &mut String, kinds: &[Kind]) -> Result<(), AllocError>
    ensures { OnOk result (string_bytes text.new ≡ string_bytes text.old ++ schema_lines kinds.now) }
{
    for kind in kinds {
        push_schema_line(text, kind.name.as_str(), kind.text.as_str())?;
    }
    Ok(())
}

/// Appends the line that gives the schema of this text a name.
fn push_schema_line(text: &mut String, name: &str, schema: &str) -> Result<(), AllocError>
    ensures { OnOk result (string_bytes text.new ≡ string_bytes text.old ++ schema_line name.now schema.now) }
{
    write!(
        text,
        "{{\"op\":\"schema\",\"name\":\"{name}\",\"schema\":{schema}}}\n"
    )
}
