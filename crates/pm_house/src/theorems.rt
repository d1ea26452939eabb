//! What holds of all lines by the definitions.
ghost use Rattle.pm_house.specs.Turns.{AllTold, AllGood, AllAlone, FaultsChangeNothing};

/// Theorems on what lines are answered. It does nothing.
pub fn laws()
    // What is written for lines is what their answers are, one after another.
    ensures told { AllTold }
    // Each document is always valid.
    ensures good { AllGood }
    // The answers to the lines of one document are those of the document alone, whatever lines of others lie between.
    ensures alone { AllAlone }
    // A line that is answered a fault changes nothing.
    ensures faulty { FaultsChangeNothing }
{}
