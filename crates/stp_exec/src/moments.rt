//! The moments of steps on a grid.

ghost use Rattle.std.specs.Prelude.{◌≡◌, ◌≢◌, ◌≤◌, ◌<◌, ◌*◌, ◌^◌, true, false};
ghost use Rattle.stp_frac.specs.Divisors.{divides};
ghost use Rattle.stp_frac.specs.Fractions.{value_of, is_below_zero};
ghost use Rattle.std.specs.List.{list_all};
ghost use Rattle.stp_base.specs.declared.limits.TheConstants.{MAX_GRID, MAX_TIME};
ghost use Rattle.stp_exec.specs.Held.{Instant, plain_held, is_lawful_held};
ghost use Rattle.stp_exec.specs.Timed.{plain_timed, is_lawful_timed, held_denominators, lies_on, count_of, ends_of, moments_of, is_too_late};

use crate::held::Held;
use crate::timed_step::TimedStep;
use stp_frac::Frac;

/// The moment at which a step starts, and the first and the last one at which it may end.
#[derive(Clone, Copy, Debug, PartialEq, Eq)]
pub struct Moments {
    /// When it starts.
    pub start: u128,
    /// When it ends at the earliest.
    pub low: u128,
    /// When it ends at the latest.
    pub high: u128,
}

/// How many parts of a grid a number is.
pub(crate) fn count(grid: u128, number: Frac) -> u128
    requires low { 1 ≤ grid }
    requires high { grid ≤ MAX_GRID }
    requires above { is_below_zero (value_of number).top ≡ false }
    requires lies { divides (value_of number).bottom grid ≡ true }
    ensures value { result ≡ count_of grid (value_of number) }
    ensures bound { result ≤ 10 ^ 27 }
{
    let Some(count) = number.on_grid(grid) else {
        unreachable!();
    };
    count
}

/// The first and the last moment at which a step may end that starts at a moment.
fn ends(grid: u128, start: u128, held: Held) -> (u128, u128)
    requires low { 1 ≤ grid }
    requires high { grid ≤ MAX_GRID }
    requires start { start ≤ 10 ^ 27 }
    requires lawful { is_lawful_held (plain_held held) ≡ true }
    requires lies { list_all (λ d. divides d grid) (held_denominators (plain_held held)) ≡ true }
    ensures { result ≡ ends_of grid start (plain_held held) }
{
    match held {
        Held::Instant => (start, start),
        Held::Fixed(duration) => {
            let end = start + count(grid, duration);
            (end, end)
        }
        Held::Open(low, high) => (start + count(grid, low), start + count(grid, high)),
    }
}

/// The moments of a step on a grid on which it lies.
pub fn moments_on(grid: u128, step: &TimedStep) -> Moments
    requires low { 1 ≤ grid }
    requires high { grid ≤ MAX_GRID }
    requires lawful { is_lawful_timed (plain_timed step.now) ≡ true }
    requires lies { lies_on grid (plain_timed step.now) ≡ true }
    ensures value { result ≡ moments_of grid (plain_timed step.now) }
    ensures order { (result.start ≤ result.low) × (result.low ≤ result.high) }
    ensures lasts { plain_held step.now.held ≢ Instant → result.start < result.low }
    ensures bound { is_too_late (plain_timed step.now) ≡ false → result.high ≤ MAX_TIME * grid }
{
    let start = count(grid, step.start);
    let (low, high) = ends(grid, start, step.held);
    Moments { start, low, high }
}
