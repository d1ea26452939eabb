//! Laws of the authors over the map of one step. Each call does nothing; its contract is the law.
ghost use Rattle.pm_authors.specs.Laws.{KeepsAuthors, PutsAuthors};

use pm_map::StepMap;

/// Over a map whose ranges don't touch, a token that no range takes out keeps its author, at the place where the map sends the
/// position before it.
pub fn keeps_authors(map: &StepMap)
    ensures { KeepsAuthors map.now }
{
    map.ordered();
}

/// Each token that a range puts in is the step's.
pub fn puts_authors(map: &StepMap)
    ensures { PutsAuthors map.now }
{
    map.ordered();
}
