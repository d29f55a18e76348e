//! Laws of windows.

ghost use Rattle.stp_window.specs.Boxed.{BoxesAreWellMade, BoxesHaveProperWindows, RunsAreWellMade};
ghost use Rattle.stp_window.specs.Certain.{CertainIsInitial, CertainIsTheLastWay};

/// What is certain of an atom is the way of the writer whose window ends last.
pub fn certain_is_the_last_way()
    ensures { CertainIsTheLastWay }
{}

/// What is certain of an atom is its initial value where no writer's window has ended.
pub fn certain_is_initial()
    ensures { CertainIsInitial }
{}

/// The owners of a box of owners are well made.
pub fn boxes_are_well_made()
    ensures { BoxesAreWellMade }
{}

/// The windows of a box of owners are proper.
pub fn boxes_have_proper_windows()
    ensures { BoxesHaveProperWindows }
{}

/// The steps and events of a box are well made.
pub fn runs_are_well_made()
    ensures { RunsAreWellMade }
{}
