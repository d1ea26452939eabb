//! Schemas that documents share.
ghost use Rattle.std.specs.Prelude.{◌≡◌, IfOk};

use pm_schema::Schema;
use std::alloc::{AllocError, Global};
use std::marker::Model;
use std::sync::Arc;

/// A schema, held once for all its copies. A contract sees the schema.
#[derive(Drop)]
pub struct Shared {
    schema: Arc<Schema, Global>,
}

impl Model for Shared {
    ghost use Rattle.std.specs.Arc.{arc_value};
    ghost use Rattle.pm_schema.specs.declared.schema.Schema.{Schema};
    ghost use Rattle.pm_schema.specs.contracts.schema.Schema as schema_row;

    ghost Value = { Schema };

    ghost coded = { schema_row.the_row.coded };

    ghost view = { λ s. arc_value s.schema };
}

impl Shared {
    /// The schema, to be shared.
    pub fn new(alloc: Global, schema: Schema) -> Result<Shared, AllocError>
        ensures { IfOk result (λ s. s ≡ schema) }
    {
        Ok(Shared {
            schema: Arc::new(alloc, schema)?,
        })
    }

    /// The schema. It takes no memory.
    pub fn get(&self) -> &Schema
        ensures { result.now ≡ self.now }
    {
        &self.schema
    }

    /// The same schema, which is not copied.
    pub fn share(&self) -> Result<Shared, AllocError>
        ensures { IfOk result (λ s. s ≡ self.now) }
    {
        Ok(Shared {
            schema: Arc::try_clone(&self.schema)?,
        })
    }
}
