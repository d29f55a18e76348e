//! Laws of runs and boxes: what moving moments, finer grids and the order of entries leave as it is.

ghost use Rattle.stp_happen.specs.Moves.{MovedRunsAgree, FinerRunsAgree, FinerBoxesMakeFinerRuns, CertainBoxesAreStrong};
ghost use Rattle.stp_happen.specs.LeastFailure.{LeastFailureIsOne};
ghost use Rattle.stp_happen.specs.Owners.{OwnersAreFiner, VectorsAreDurationsAndMoments};
ghost use Rattle.stp_happen.specs.Orders.{OrderIsFree, FirstFaultIsFreeOfOrder};

/// A run executes exactly where it does with its moments moved in order.
pub fn moved_runs_agree()
    ensures { MovedRunsAgree }
{}

/// A run executes exactly where it does on a finer grid.
pub fn finer_runs_agree()
    ensures { FinerRunsAgree }
{}

/// The run of a finer box under as many times longer durations is the finer run.
pub fn finer_boxes_make_finer_runs()
    ensures { FinerBoxesMakeFinerRuns }
{}

/// A vector has a duration for each uncertain step, and then a moment for each event whose moment is chosen.
pub fn vectors_are_durations_and_moments()
    ensures { VectorsAreDurationsAndMoments }
{}

/// The owners of finer steps and events are the finer owners.
pub fn owners_are_finer()
    ensures { OwnersAreFiner }
{}

/// A box without uncertain owners is strong exactly where its one run executes.
pub fn certain_boxes_are_strong()
    ensures { CertainBoxesAreStrong }
{}

/// Whether a run executes does not depend on the order of its entries and spans.
pub fn order_is_free()
    ensures { OrderIsFree }
{}

/// Nor does which fault is its first.
pub fn first_fault_is_free_of_order()
    ensures { FirstFaultIsFreeOfOrder }
{}

/// A box has at most one least failure.
pub fn least_failure_is_one()
    ensures { LeastFailureIsOne }
{}
