//! Laws of what lines are answered. Each call does nothing; its contract is the law.
ghost use Rattle.pm_editor.specs.Laws.{ViewsFollow};
ghost use Rattle.pm_editor.specs.Lines.{FaultsChangeNothing};

/// A line with a fault is answered its code, and changes nothing.
pub fn faults_change_nothing()
    ensures { FaultsChangeNothing }
{}

/// Where entries of the log are taken and a view is shown steps, these lead it from the document before to the one after.
pub fn views_follow()
    ensures { ViewsFollow }
{}
