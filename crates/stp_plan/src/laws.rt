//! Laws of the definitions by which the contracts speak of plan texts. Nothing here runs.

ghost use Rattle.stp_plan.specs.Laws.{ReadPlansAreLawful, PrintedPlansAreReadAgain, SpelledPartsAreRead, SpelledStepsAreRead};

/// A plan that was read has at most 500 steps, lower case names, and no number below 0.
pub fn lawful_plans()
    ensures { ReadPlansAreLawful }
{}

/// A printed plan of numbers that can be spelled is read again.
pub fn reading_after_printing()
    ensures { PrintedPlansAreReadAgain }
{}

/// A line that spells a step, with any white bytes before, between and after its parts, is read as that step.
pub fn reading_what_is_spelled()
    ensures parts { SpelledPartsAreRead }
    ensures steps { SpelledStepsAreRead }
{}
