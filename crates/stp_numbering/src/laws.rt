//! Laws of runs and boxes over other numberings of their atoms. Nothing here runs.

ghost use Rattle.stp_numbering.specs.Numbering.{NumberingIsFree, RenamedBoxesMakeRenamedRuns, StrengthIsFreeOfNumbering};

/// A run executes exactly where it does over another numbering of its atoms.
pub fn numbering_is_free()
    ensures { NumberingIsFree }
{}

/// The run of a box over another numbering is the run of the box over that numbering.
pub fn renamed_boxes_make_renamed_runs()
    ensures { RenamedBoxesMakeRenamedRuns }
{}

/// A box is strong exactly where it is over another numbering of its atoms.
pub fn strength_is_free_of_numbering()
    ensures { StrengthIsFreeOfNumbering }
{}
