//! Laws of the definitions by which the contracts speak of terms and conditions. Nothing here runs.

ghost use Rattle.stp_condition.specs.TypedTerms.{ReadTermsAreTyped};
ghost use Rattle.stp_condition.specs.TypedConditions.{ReadConditionsAreTyped};
ghost use Rattle.stp_condition.specs.TypedTimedConditions.{ReadTimedConditionsAreTyped};

/// A term that is read without an offence stands for a variable in scope or an object of a type that fits its
/// place, and an atom is that of a declared symbol with such a term for each of its parameters.
pub fn read_terms_are_typed()
    ensures { ReadTermsAreTyped }
{}

/// A condition that is read without an offence is well typed in its scope.
pub fn read_condition_is_typed()
    ensures { ReadConditionsAreTyped }
{}

/// Timed conditions that are read without an offence are well typed in their scope.
pub fn read_timed_conditions_are_typed()
    ensures { ReadTimedConditionsAreTyped }
{}
