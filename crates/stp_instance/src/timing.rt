//! The durations of timings.

ghost use Rattle.std.specs.Prelude.{◌≡◌, true, option_map, IfOk, IfSome};
ghost use Rattle.stp_frac.specs.Fractions.{value_of, zero, is_less};
ghost use Rattle.stp_schema.specs.Expression.{expression};
ghost use Rattle.stp_schema.specs.Schemas.{timing_of};
ghost use Rattle.stp_instance.specs.Bindings.{numbers_of};
ghost use Rattle.stp_instance.specs.Values.{value};
ghost use Rattle.stp_task.specs.Durations.{plain_duration, is_lawful};
ghost use Rattle.stp_instance.specs.Timings.{bounds_of, uncertain, duration_of};

use crate::expression::value;
use crate::values::Values;
use std::alloc::Global;
use stp_base::{Memory, ObjectId};
use stp_frac::Frac;
use stp_schema::{Expr, Timing};
use stp_task::Duration;

/// Whether a fraction is above 0.
fn is_positive(fraction: Frac) -> bool
    ensures { result ≡ is_less zero (value_of fraction) }
{
    Frac::zero().compare(fraction).is_lt()
}

/// Both bounds, where both are there, the low one is above 0, and it is at most the high one.
fn lawful(low: Option<Frac>, high: Option<Frac>) -> Option<(Frac, Frac)>
    ensures { option_map (λ b. (value_of b.0, value_of b.1)) result ≡ bounds_of (option_map value_of low) (option_map value_of high) }
{
    let low = low?;
    let high = high?;
    if !is_positive(low) || low.compare(high).is_gt() {
        return None;
    }
    Some((low, high))
}

/// The values of two bounds, where both have one and these are lawful.
fn bounds(
    alloc: Global,
    values: &Values<'_>,
    binding: &[ObjectId],
    low: &Expr<'_>,
    high: &Expr<'_>,
) -> Result<Option<(Frac, Frac)>, Memory>
    ensures { IfOk result
        (λ r. option_map (λ b. (value_of b.0, value_of b.1)) r
        ≡ bounds_of (value values.now (numbers_of binding.now) (expression low.now)) (value values.now (numbers_of binding.now) (expression high.now))) }
{
    let low = value(alloc, values, binding, low)?;
    let high = value(alloc, values, binding, high)?;
    Ok(lawful(low, high))
}

/// An uncertain duration between two bounds. Where they are equal it is a controlled one.
fn uncertain(low: Frac, high: Frac) -> Duration
    ensures { plain_duration result ≡ uncertain (value_of low, value_of high) }
{
    if low.compare(high).is_eq() {
        return Duration::Controlled(low, high);
    }
    Duration::Uncertain(low, high)
}

/// The duration that a timing gives under a binding, if its bounds have lawful values.
pub fn duration(
    alloc: Global,
    values: &Values<'_>,
    binding: &[ObjectId],
    timing: &Timing<'_>,
) -> Result<Option<Duration>, Memory>
    ensures duration { IfOk result
        (λ r. option_map plain_duration r ≡ duration_of values.now (numbers_of binding.now) (timing_of timing.now)) }
    ensures lawful { IfOk result (λ r. IfSome r (λ d. is_lawful (plain_duration d) ≡ true)) }
{
    match timing {
        Timing::Instant => Ok(Some(Duration::Instant)),
        Timing::Controlled(low, high) => {
            let Some((low, high)) = bounds(alloc, values, binding, low, high)? else {
                return Ok(None);
            };
            Ok(Some(Duration::Controlled(low, high)))
        }
        Timing::Uncertain(low, high) => {
            let Some((low, high)) = bounds(alloc, values, binding, low, high)? else {
                return Ok(None);
            };
            Ok(Some(uncertain(low, high)))
        }
    }
}
