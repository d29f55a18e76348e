//! Laws about formulas and the conditions of events.

ghost use Rattle.stp_cond.specs.Interferences.{AtomsShowInterference};
ghost use Rattle.stp_cond.specs.Laws.{AtomsDecideTruth, EventsReadAlone, TruthReadsItsAtoms, TruthIsOfShape, ReadsAreOfShape, NegationTurnsTruth, FoldingKeepsTruth, FoldingKeepsAtoms, SubstitutionKeepsTruth, SubstitutionMapsAtoms, ImageIsAtItsPlace, OtherAtomsStay};

/// The truth of a formula depends only on the atoms that it reads.
pub fn truth_reads_its_atoms()
    ensures { TruthReadsItsAtoms }
{}

/// The condition of an event depends only on the atoms that the event reads.
pub fn events_read_alone()
    ensures { EventsReadAlone }
{}

/// The truth of a formula, and the atoms that it reads, are those of its shape.
pub fn meaning_is_of_shape()
    ensures truth { TruthIsOfShape }
    ensures reads { ReadsAreOfShape }
{}

/// A negation holds exactly where the formula does not.
pub fn negation_turns_truth()
    ensures { NegationTurnsTruth }
{}

/// A folded formula holds exactly where the formula does, in each state that agrees with what is known,
/// and reads no other atoms.
pub fn folding_keeps_meaning()
    ensures truth { FoldingKeepsTruth }
    ensures atoms { FoldingKeepsAtoms }
{}

/// With other atoms a formula holds exactly where it held in the state that takes the value of each atom
/// from what it became, and reads what its atoms became.
pub fn substitution_keeps_meaning()
    ensures truth { SubstitutionKeepsTruth }
    ensures atoms { SubstitutionMapsAtoms }
{}

/// Each atom of the one list becomes that at its place in the other, and every other atom stays.
pub fn images_are_at_their_places()
    ensures placed { ImageIsAtItsPlace }
    ensures others { OtherAtomsStay }
{}

/// Two events interfere exactly where an atom shows it.
pub fn atoms_show_interference()
    ensures { AtomsShowInterference }
{}

/// A formula holds alike in two states that agree on its atoms.
pub fn atoms_decide_truth()
    ensures { AtomsDecideTruth }
{}
