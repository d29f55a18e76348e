//! Laws of the rewritten problem. Nothing here runs.

ghost use Rattle.stp_rewriting.specs.Numbering.{NumbersAreProper};
ghost use Rattle.stp_rewriting.specs.Validity.{SoundExactlyWhereValid, StrongExactlyWhereValid, NotKeptIsNotStrong};

/// Plain atoms, shadows and opened atoms have numbers of their own.
pub fn numbers_are_proper()
    ensures { NumbersAreProper }
{}

/// Windows have the static facts exactly where the run of their dated list executes.
pub fn sound_exactly_where_valid()
    ensures { SoundExactlyWhereValid }
{}

/// A box is strong exactly where its dated list is valid in the rewritten problem.
pub fn strong_exactly_where_valid()
    ensures { StrongExactlyWhereValid }
{}

/// A box with a step whose condition at the start, at the end or inside no state fulfils is not strong.
pub fn not_kept_is_not_strong()
    ensures { NotKeptIsNotStrong }
{}
