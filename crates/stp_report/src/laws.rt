//! Laws of the texts, and of the times that they show. Nothing here runs.

ghost use Rattle.stp_report.specs.Bounds.{FirstFaultsHaveTimes};
ghost use Rattle.stp_report.specs.OneText.{ReplaysHaveOneText};

/// The first fault of a run can be printed on the run's grid.
pub fn first_faults_have_times()
    ensures { FirstFaultsHaveTimes }
{}

/// Two runs that are one run but for the order of their entries are printed alike.
pub fn replays_have_one_text()
    ensures { ReplaysHaveOneText }
{}
