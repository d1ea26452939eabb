//! Laws of ops. Each call does nothing; its contract is the law.
ghost use Rattle.pm_edit.specs.Laws.{MakesSome};

use pm_schema::Schema;

/// An op gives at least one step, or it is told why not.
pub fn makes_some(schema: &Schema)
    ensures { MakesSome schema.now }
{
    let _ = schema;
}
