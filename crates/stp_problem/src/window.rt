//! When events of the environment come.

ghost use Rattle.std.specs.Prelude.{◌≡◌, true, option_map, IfSome};
ghost use Rattle.stp_text.specs.Tree.{view};
ghost use Rattle.stp_frac.specs.Fractions.{value_of};
ghost use Rattle.stp_problem.specs.Windows.{IsWindow, latest, is_time, number_in, time_in, window_in};

use stp_base::limits::MAX_MOMENT;
use stp_frac::Frac;
use stp_text::Sexpr;

/// The least and the greatest time at which an event comes.
#[derive(Clone, Copy)]
pub struct Window {
    pub low: Frac,
    pub high: Frac,
    pub ghost lawful: { IsWindow (value_of low) (value_of high) },
}

/// The number that a word spells.
pub fn number_in(tree: &Sexpr<'_>) -> Option<Frac>
    ensures { number_in (view tree.now) ≡ option_map value_of result }
{
    let text = tree.word()?;
    match Frac::read(text) {
        Ok(number) => Some(number),
        Err(_) => None,
    }
}

/// The greatest time of an event.
fn latest() -> Frac
    ensures { value_of result ≡ latest }
{
    let Some(latest) = Frac::from_grid(MAX_MOMENT, 1) else {
        unreachable!();
    };
    latest
}

/// Whether an event may come at this time.
fn is_time(time: Frac) -> bool
    ensures { result ≡ is_time (value_of time) }
{
    Frac::zero().compare(time).is_le() && time.compare(latest()).is_le()
}

/// The time that a word spells.
fn time_in(tree: &Sexpr<'_>) -> Option<Frac>
    ensures time { time_in (view tree.now) ≡ option_map value_of result }
    ensures lawful { IfSome result (λ time. is_time (value_of time) ≡ true) }
{
    let number = number_in(tree)?;
    if !is_time(number) {
        return None;
    }
    Some(number)
}

/// The least and the greatest time that two words spell.
pub fn window_in<'a>(one: &Sexpr<'a>, other: &Sexpr<'a>) -> Option<Window>
    ensures { window_in (view one.now) (view other.now) ≡ option_map (λ w. (value_of w.low, value_of w.high)) result }
{
    let low = time_in(one)?;
    let high = time_in(other)?;
    if !low.compare(high).is_le() {
        return None;
    }
    Some(Window { low, high })
}
