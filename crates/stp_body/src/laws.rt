//! Laws of the definitions by which the contracts speak of effects and durations. Nothing here runs.

ghost use Rattle.stp_body.specs.TypedEffects.{ReadEffectsAreTyped};
ghost use Rattle.stp_body.specs.TypedDurations.{ReadDurationsAreTyped};

/// Effects that are read without an offence are well typed in their scope.
pub fn read_effects_are_typed()
    ensures { ReadEffectsAreTyped }
{}

/// Expressions and durations that are read without an offence are well typed in their scope.
pub fn read_durations_are_typed()
    ensures { ReadDurationsAreTyped }
{}
