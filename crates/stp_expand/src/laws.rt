//! The law of expansion. Nothing here runs.

ghost use Rattle.stp_expand.specs.Laws.{ExpansionMeansWhicheverCame};

/// An expanded condition holds in a state exactly where the condition holds whichever of the opened ends have come.
pub fn expansion_means_whichever_came()
    ensures { ExpansionMeansWhicheverCame }
{}
