//! What holds of all lines by the definitions.
ghost use Rattle.pm_talk.specs.Lines.{AllTalks, AcceptsExactly, FaultsChangeNothing};
ghost use Rattle.pm_talk.specs.Openings.{AllOpened};

/// Theorems on what lines are answered. It does nothing.
pub fn laws()
    // A talk in which the authority stands begins with a schema and a document.
    ensures opened { AllOpened }
    // After them the output is a function of the lines, and the authority is the one after the messages in them; every document
    // is valid.
    ensures talks { AllTalks }
    // A submission is accepted exactly where there is room for its ID, its version is the log's length and its steps apply.
    ensures accepts { AcceptsExactly }
    // A line with a fault is answered its code, and changes nothing.
    ensures faulty { FaultsChangeNothing }
{}
