//! Laws about the choice of an offence.

ghost use Rattle.stp_refusal.specs.Laws.{FirstIsLeast, OneIsChosen};

/// Of several offences the one of the least place is given, and there the one of the least code.
pub fn first_is_least()
    ensures least { FirstIsLeast }
    ensures chosen { OneIsChosen }
{}
