//! What holds of all lines and files by the definitions.
ghost use Rattle.pm_kept.specs.Laws.{AllStandAlike, AllAcceptedAgain, AllReopen};
ghost use Rattle.pm_kept.specs.LimitedTalks.{limited_meaning};

/// Theorems on the lines that a talk stands behind. It does nothing.
pub fn laws()
    // Talks behind the same lines stand alike: their schemas were built of the same types, and log, documents and IDs are the same.
    ensures alike { AllStandAlike }
    // Of lines behind which a talk stands each is accepted, whenever they are replayed.
    ensures accepted { AllAcceptedAgain limited_meaning }
    // So it is with the lines of every file that a crash may leave, whatever limits of work there were; and if there is one, they
    // open an authority.
    ensures reopens { AllReopen limited_meaning }
{}
