//! Which of two faults comes first.

ghost use Rattle.std.specs.Prelude.{◌≡◌};
ghost use Rattle.stp_happen.specs.Faults.{key_of};
ghost use Rattle.stp_happen.specs.Firsts.{sooner_of};

use crate::fault::Fault;

/// Five numbers, in whose dictionary order faults come.
fn key(fault: &Fault) -> [u128; 5]
    ensures { result ≡ key_of fault.now }
{
    match fault {
        Fault::Overlap {
            time,
            first,
            second,
        } => [0, *time, 0, u128::from(first.0), u128::from(second.0)],
        Fault::Interference {
            time,
            first,
            second,
        } => [0, *time, 1, u128::from(first.0), u128::from(second.0)],
        Fault::Condition { time, step } => [0, *time, 2, u128::from(step.0), 0],
        Fault::OverAll { time, step } => [0, *time, 3, u128::from(step.0), 0],
        Fault::Goal => [1, 0, 0, 0, 0],
    }
}

/// The first of two faults, if any; the one where neither comes before the other.
pub(crate) fn sooner(one: Option<Fault>, other: Option<Fault>) -> Option<Fault>
    ensures { result ≡ sooner_of one other }
{
    let Some(first) = one else {
        return other;
    };
    let Some(second) = other else {
        return one;
    };
    if key(&second).cmp(&key(&first)).is_lt() {
        other
    } else {
        one
    }
}
