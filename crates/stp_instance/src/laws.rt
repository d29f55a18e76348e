//! Laws of the definitions by which the contracts speak of durations, of numbers and of what is left of conditions.
//! Nothing here runs.

ghost use Rattle.stp_instance.specs.Laws.{AtomsAreGained, NumbersKeepTruth, NumbersStay, QuantifiersRange};
ghost use Rattle.stp_instance.specs.Timings.{DurationsAreLawful};

/// The duration that a timing gives is lawful.
pub fn durations_are_lawful()
    ensures { DurationsAreLawful }
{}

/// A table that gains atoms keeps the numbers that it has given.
pub fn numbers_stay()
    ensures { NumbersStay }
{}

/// It has each of the atoms that are put in, and gains those that it did not have once.
pub fn atoms_are_gained()
    ensures { AtomsAreGained }
{}

/// A condition by numbers, and what is left of it, hold in a state exactly where the condition is so.
pub fn numbers_keep_truth()
    ensures { NumbersKeepTruth }
{}

/// A quantified condition is so exactly where its body is so for all objects of the types, or for some.
pub fn quantifiers_range()
    ensures { QuantifiersRange }
{}
