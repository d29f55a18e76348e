//! Laws of the definitions by which the contracts speak of plans. Nothing here runs.

ghost use Rattle.stp_exec.specs.Laws.{OneActionHasSameWords, PlacedStepsArePlans, SameWordsAreOneAction};
ghost use Rattle.stp_exec.specs.GridLaws.{TimesLieOnTheBaseGrid, TheBaseGridIsLeast, FinerGridsKeepMoments, FinerGridsKeepEvents};

/// What is placed of steps that start from 0 on is a plan, where its times have lowest terms.
pub fn placed_steps_are_plans()
    ensures { PlacedStepsArePlans }
{}

/// Steps with the same name and arguments are of one action.
pub fn same_words_are_one_action()
    ensures { SameWordsAreOneAction }
{}

/// Steps of one action have the same name and arguments.
pub fn one_action_has_same_words()
    ensures { OneActionHasSameWords }
{}

/// All steps and events lie on the base grid, and it divides each grid on which all of them lie.
pub fn base_grids()
    ensures lie { TimesLieOnTheBaseGrid }
    ensures least { TheBaseGridIsLeast }
{}

/// On a finer grid the moments of a step are the same times, and so are the bounds of an event.
pub fn finer_grids()
    ensures steps { FinerGridsKeepMoments }
    ensures events { FinerGridsKeepEvents }
{}
