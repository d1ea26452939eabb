//! Laws of replacing, of a range and around a gap. Each call does nothing; its contract is the law.
ghost use Rattle.pm_schema.specs.Documents.{documents_of};
ghost use Rattle.pm_replace.specs.Laws.{KeepsTheRest, StaysValid, CutGivesBack, NothingGivesBack, PutsBack, AroundPutsBack};

use pm_schema::Schema;

/// The result's tokens are those before `from`, the slice's own, and those from `to` on. So a joined node keeps the left
/// type, attributes and marks.
pub fn keeps_the_rest(schema: &Schema)
    ensures { KeepsTheRest (documents_of schema.now.spec) }
{
    let _ = schema;
}

/// A replace that applies gives a valid document.
pub fn stays_valid(schema: &Schema)
    ensures { StaysValid (documents_of schema.now.spec) }
{
    let _ = schema;
}

/// A replace of from..to by the cut of from..to gives the document back.
pub fn cut_gives_back(schema: &Schema)
    ensures { CutGivesBack (documents_of schema.now.spec) }
{
    let _ = schema;
}

/// A replace of an empty range by the empty slice gives the document back.
pub fn nothing_gives_back(schema: &Schema)
    ensures { NothingGivesBack (documents_of schema.now.spec) }
{
    let _ = schema;
}

/// After a replace of from..to, a replace of the slice's own tokens by the cut of from..to gives the document back.
pub fn puts_back(schema: &Schema)
    ensures { PutsBack (documents_of schema.now.spec) }
{
    let _ = schema;
}

/// After a replaceAround its inverse applies, and gives the document back: what stood around the gap is put back there in place
/// of the slice.
pub fn around_puts_back(schema: &Schema)
    ensures { AroundPutsBack (documents_of schema.now.spec) }
{
    let _ = schema;
}
