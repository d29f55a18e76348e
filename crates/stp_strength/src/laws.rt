//! The laws of strength.

ghost use Rattle.stp_strength.specs.WindowLaws.{ExecutesAlwaysExactlyWhereSound, KeptAtEveryMoment};
ghost use Rattle.stp_strength.specs.Strength.{StrongExactlyWhereSound, OneGridDecides};
ghost use Rattle.stp_strength.specs.MovedBoxes.{MovedBoxesAreStrong};
ghost use Rattle.stp_strength.specs.Moved.{MovedWindowsAreSound};
ghost use Rattle.stp_strength.specs.Narrower.{NarrowerBoxesAreStrong};
ghost use Rattle.stp_strength.specs.BoxFailures.{GapsFail};
ghost use Rattle.stp_strength.specs.Checks.{TestsTellFacts, TestsShowGaps, CheckDecides, StrongOrFails, FailuresMeanWeakness, StrongOrLeastFailure, LeastFailureExactlyWhereWeak};
ghost use Rattle.stp_strength.specs.Parts.{CalmBoxesDoNotClash, StatesGoByParts};
ghost use Rattle.stp_strength.specs.Splitting.{SplittingAgrees};
ghost use Rattle.stp_strength.specs.Boxed.{BoxCheckDecides, BoxGapsFail, BoxGridDecides, BoxLeastFailureExactlyWhereWeak};

/// Every choice of moments executes exactly where windows have the static facts.
pub fn executes_always_exactly_where_sound()
    ensures { ExecutesAlwaysExactlyWhereSound }
{}

/// What has to hold inside a span of a sound box holds at every moment, so that it may be tested at more than the lows.
pub fn kept_at_every_moment()
    ensures { KeptAtEveryMoment }
{}

/// A box is strong on every grid exactly where its windows have the static facts.
pub fn strong_exactly_where_sound()
    ensures { StrongExactlyWhereSound }
{}

/// A box is strong on every grid exactly where it is on its own.
pub fn one_grid_decides()
    ensures { OneGridDecides }
{}

/// Windows keep the static facts where their bounds are moved in order.
pub fn moved_windows_are_sound()
    ensures { MovedWindowsAreSound }
{}

/// A box stays strong where its bounds are moved in order.
pub fn moved_boxes_are_strong()
    ensures { MovedBoxesAreStrong }
{}

/// A box is strong where one with wider windows is.
pub fn narrower_boxes_are_strong()
    ensures { NarrowerBoxesAreStrong }
{}

/// Where a static fact is missing, a box fails at durations on its own grid.
pub fn gaps_fail()
    ensures { GapsFail }
{}

/// The tests pass exactly where the static facts hold.
pub fn tests_tell_facts()
    ensures { TestsTellFacts }
{}

/// Where the tests do not pass, a static fact is missing.
pub fn tests_show_gaps()
    ensures { TestsShowGaps }
{}

/// The plain check passes exactly where a box is strong.
pub fn check_decides()
    ensures { CheckDecides }
{}

/// A box is strong, or it fails at durations on its own grid.
pub fn strong_or_fails()
    ensures { StrongOrFails }
{}

/// A box that fails at some durations is not strong.
pub fn failures_mean_weakness()
    ensures { FailuresMeanWeakness }
{}

/// A box is strong, or it has a least failure.
pub fn strong_or_least_failure()
    ensures { StrongOrLeastFailure }
{}

/// A box has a least failure exactly where it is not strong.
pub fn least_failure_exactly_where_weak()
    ensures { LeastFailureExactlyWhereWeak }
{}

/// Where points whose windows meet do not interfere, no opposite writers of an atom have windows that meet.
pub fn calm_boxes_do_not_clash()
    ensures { CalmBoxesDoNotClash }
{}

/// A state is what is certain, but for what the unsettled ends write that have come.
pub fn states_go_by_parts()
    ensures { StatesGoByParts }
{}

/// Splitting judges over-all conditions as the plain test does.
pub fn splitting_agrees()
    ensures { SplittingAgrees }
{}

/// The plain check passes exactly where a box in an arena is strong.
pub fn box_check_decides()
    ensures { BoxCheckDecides }
{}

/// Where a static fact is missing, a box in an arena fails at durations on its own grid.
pub fn box_gaps_fail()
    ensures { BoxGapsFail }
{}

/// A box in an arena is strong on every grid exactly where it is on its own.
pub fn box_grid_decides()
    ensures { BoxGridDecides }
{}

/// A box in an arena has a least failure exactly where it is not strong.
pub fn box_least_failure_exactly_where_weak()
    ensures { BoxLeastFailureExactlyWhereWeak }
{}
