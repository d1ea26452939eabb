//! What holds of each line to a document by the definitions.
ghost use Rattle.pm_archive.specs.Laws.{AcceptsExactly, FaultsChangeNothing, ForgetsOnlyBelow, RevertLeaves};

/// Theorems on what lines to a document are answered. It does nothing.
pub fn laws()
    // A submission is accepted exactly where there is room for its ID, its version is the document's and its steps apply.
    ensures accepts { AcceptsExactly }
    // A line that is answered a fault changes nothing.
    ensures faulty { FaultsChangeNothing }
    // To let go what lies before a version changes no later answer but those to lines that ask below it.
    ensures forgets { ForgetsOnlyBelow }
    // Where a revert is answered with its steps, and the later entries lie apart from those that it takes back, what is left is
    // what the later ones make of the document before.
    ensures leaves { RevertLeaves }
{}
