//! Laws of splitting.

ghost use Rattle.stp_split.specs.Laws.{ApartFormulasFailTogether, BothCasesAreAll, ComeCasesFail, OneIsEnough, OthersAreEnough, StayedCasesFail};

/// Of formulas of which one is to have a truth, one that always has it is enough, and so are the others.
pub fn some_are_enough()
    ensures one { OneIsEnough }
    ensures others { OthersAreEnough }
{}

/// Formulas that share no end fail where the ends of both have come.
pub fn apart_formulas_fail_together()
    ensures { ApartFormulasFailTogether }
{}

/// What always holds where an end has not come and where it has come always holds; what fails in one of these
/// cases fails.
pub fn one_end_comes_or_not()
    ensures always { BothCasesAreAll }
    ensures stayed { StayedCasesFail }
    ensures come { ComeCasesFail }
{}
