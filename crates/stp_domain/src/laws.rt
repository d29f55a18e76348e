//! Laws of the definitions by which the contracts speak of domains. Nothing here runs.

ghost use Rattle.stp_domain.specs.Typed.{ReadDomainsAreTyped};
ghost use Rattle.stp_domain.specs.Laws.{ReadDomainsFit};

use stp_body::laws::{read_durations_are_typed, read_effects_are_typed};
use stp_condition::laws::{read_condition_is_typed, read_timed_conditions_are_typed};

/// In a domain that is read the constants and the parameters of predicates and functions have declared types, and
/// so have each action's parameters, in whose scope its duration, its conditions and its effects are well typed.
/// This stands on the laws of its parts.
pub fn read_domain_is_typed()
    ensures { ReadDomainsAreTyped }
{
    read_condition_is_typed();
    read_timed_conditions_are_typed();
    read_effects_are_typed();
    read_durations_are_typed();
}

/// In a domain that is read there is a type, each constant has one, and no two constants have one name.
pub fn read_domains_fit()
    ensures { ReadDomainsFit }
{}
