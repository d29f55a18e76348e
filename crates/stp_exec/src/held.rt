//! How long steps last.

ghost use Rattle.std.specs.Prelude.{◌≡◌, true, IfOk};
ghost use Rattle.stp_frac.specs.Fractions.{value_of, zero};
ghost use Rattle.stp_task.specs.Durations.{plain_duration, is_lawful};
ghost use Rattle.stp_plan.specs.Views.{plain_bracket};
ghost use Rattle.stp_exec.specs.Held.{plain_held, is_same, is_within, is_pair, held_at_once, held_as_chosen, held_as_comes, held_of, plain_answer, is_lawful_held};

use stp_frac::Frac;
use stp_plan::Bracket;
use stp_refusal::Code;
use stp_task::Duration;

/// How long a step lasts: no time, a time that the plan says, or one between two bounds, which the environment chooses.
#[derive(Clone, Copy, Debug, PartialEq, Eq)]
pub enum Held {
    /// No time.
    Instant,
    /// This time.
    Fixed(Frac),
    /// A time between these bounds.
    Open(Frac, Frac),
}

/// Whether two fractions are the same number.
fn is_same(one: Frac, other: Frac) -> bool
    ensures { result ≡ is_same (value_of one) (value_of other) }
{
    one.compare(other).is_eq()
}

/// Whether a number lies between two bounds, or is one of them.
pub(crate) fn is_within(low: Frac, high: Frac, number: Frac) -> bool
    ensures { result ≡ is_within (value_of low) (value_of high) (value_of number) }
{
    low.compare(number).is_le() && number.compare(high).is_le()
}

/// Whether two numbers are both bounds.
fn is_pair(low: Frac, high: Frac, one: Frac, other: Frac) -> bool
    ensures { result ≡ is_pair (value_of low) (value_of high) (value_of one) (value_of other) }
{
    is_same(one, low) && is_same(other, high)
}

/// What a bracket says at an action that takes no time.
fn hold_at_once(bracket: &Bracket) -> Result<Held, Code>
    ensures { plain_answer result ≡ held_at_once (plain_bracket bracket.now) }
{
    match bracket {
        Bracket::Absent => Ok(Held::Instant),
        Bracket::Number(number) => {
            if !is_same(*number, Frac::zero()) {
                return Err(Code::X07);
            }
            Ok(Held::Instant)
        }
        Bracket::Star => Err(Code::X07),
        Bracket::Pair(_, _) => Err(Code::X07),
    }
}

/// What a bracket says at an action whose duration the plan chooses between two bounds.
fn hold_as_chosen(low: Frac, high: Frac, bracket: &Bracket) -> Result<Held, Code>
    ensures { plain_answer result ≡ held_as_chosen (value_of low) (value_of high) (plain_bracket bracket.now) }
{
    match bracket {
        Bracket::Absent => Err(Code::X06),
        Bracket::Number(number) => {
            if !is_within(low, high, *number) {
                return Err(Code::X08);
            }
            Ok(Held::Fixed(*number))
        }
        Bracket::Star => {
            if !is_same(low, high) {
                return Err(Code::X06);
            }
            Ok(Held::Fixed(low))
        }
        Bracket::Pair(one, other) => {
            if !is_same(low, high) || !is_pair(low, high, *one, *other) {
                return Err(Code::X06);
            }
            Ok(Held::Fixed(low))
        }
    }
}

/// What a bracket says at an action whose duration the environment chooses between two bounds.
fn hold_as_comes(low: Frac, high: Frac, bracket: &Bracket) -> Result<Held, Code>
    ensures { plain_answer result ≡ held_as_comes (value_of low) (value_of high) (plain_bracket bracket.now) }
{
    match bracket {
        Bracket::Absent => Err(Code::X06),
        Bracket::Number(_) => Err(Code::X07),
        Bracket::Star => Ok(Held::Open(low, high)),
        Bracket::Pair(one, other) => {
            if !is_pair(low, high, *one, *other) {
                return Err(Code::X09);
            }
            Ok(Held::Open(low, high))
        }
    }
}

/// How long a step lasts by its action's duration and its bracket, or the code of its refusal.
pub fn hold(duration: Duration, bracket: &Bracket) -> Result<Held, Code>
    ensures value { plain_answer result ≡ held_of (plain_duration duration) (plain_bracket bracket.now) }
    ensures lawful { is_lawful (plain_duration duration) ≡ true → IfOk result (λ held. is_lawful_held (plain_held held) ≡ true) }
{
    match duration {
        Duration::Instant => hold_at_once(bracket),
        Duration::Controlled(low, high) => hold_as_chosen(low, high, bracket),
        Duration::Uncertain(low, high) => hold_as_comes(low, high, bracket),
    }
}
