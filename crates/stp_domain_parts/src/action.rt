//! The parts of an action.

ghost use Rattle.std.specs.Prelude.{◌≡◌, option_map};
ghost use Rattle.stp_text.specs.Tree.{view, views};
ghost use Rattle.stp_refusal.specs.Read.{IsRead, bad};
ghost use Rattle.stp_domain_parts.specs.Actions.{no_action, action_read, timing_in, with_pairs, with_pair, with_value, has_value, no_values};
ghost use Rattle.stp_domain_parts.specs.Views.{action_of, timing_of, values_of};

use crate::key::{ActionKind, ValueKey, value_key};
use stp_refusal::{Code, Offence, note};
use stp_text::{Sexpr, first_of};

/// How long an action lasts, as it is written.
#[derive(Clone, Copy)]
pub enum TimingParts<'a> {
    /// A simple action.
    Instant,
    /// The value of `:duration`.
    Controlled(&'a Sexpr<'a>),
    /// The value of `:uncontrollable-duration`.
    Uncertain(&'a Sexpr<'a>),
}

/// An action, as it is written.
#[derive(Clone, Copy)]
pub struct ActionParts<'a> {
    /// The offset of the action's list.
    pub at: u32,
    /// The offset of its name.
    pub name_at: u32,
    pub name: &'a [u8],
    /// The items of the value of `:parameters`; none where it is missing.
    pub parameters: &'a [Sexpr<'a>],
    pub timing: TimingParts<'a>,
    /// The value of `:precondition` or `:condition`.
    pub condition: Option<&'a Sexpr<'a>>,
    /// The value of `:effect`.
    pub effect: Option<&'a Sexpr<'a>>,
}

/// The values of an action's keys, as far as they were read.
#[derive(Clone, Copy)]
struct Values<'a> {
    parameters: Option<&'a [Sexpr<'a>]>,
    condition: Option<&'a Sexpr<'a>>,
    effect: Option<&'a Sexpr<'a>>,
    duration: Option<&'a Sexpr<'a>>,
    uncertain: Option<&'a Sexpr<'a>>,
}

impl<'a> Values<'a> {
    /// No value.
    fn none() -> Values<'a>
        ensures { values_of result ≡ no_values }
    {
        Values {
            parameters: None,
            condition: None,
            effect: None,
            duration: None,
            uncertain: None,
        }
    }

    /// Whether a key has a value.
    fn has(&self, key: ValueKey) -> bool
        ensures { result ≡ has_value key (values_of self.now) }
    {
        match key {
            ValueKey::Parameters => self.parameters.is_some(),
            ValueKey::Condition => self.condition.is_some(),
            ValueKey::Effect => self.effect.is_some(),
            ValueKey::Duration => self.duration.is_some(),
            ValueKey::UncontrollableDuration => self.uncertain.is_some(),
        }
    }

    /// These values and one more; that of `:parameters` is a list.
    fn with(self, key: ValueKey, value: &'a Sexpr<'a>) -> Option<Values<'a>>
        ensures { with_value key (view value.now) (values_of self.entry) ≡ option_map values_of result }
    {
        Some(match key {
            ValueKey::Parameters => Values {
                parameters: Some(value.items()?),
                ..self
            },
            ValueKey::Condition => Values {
                condition: Some(value),
                ..self
            },
            ValueKey::Effect => Values {
                effect: Some(value),
                ..self
            },
            ValueKey::Duration => Values {
                duration: Some(value),
                ..self
            },
            ValueKey::UncontrollableDuration => Values {
                uncertain: Some(value),
                ..self
            },
        })
    }

    /// These values and that of one more pair, whose key is known and not repeated.
    fn with_pair(
        self,
        kind: ActionKind,
        key: &Sexpr<'_>,
        value: &'a Sexpr<'a>,
    ) -> Option<Values<'a>>
        ensures { with_pair kind (values_of self.entry) (view key.now) (view value.now) ≡ option_map values_of result }
    {
        let word = key.word()?;
        let key = value_key(kind, word)?;
        if self.has(key) {
            return None;
        }
        self.with(key, value)
    }
}

/// These values and those of more pairs of a key and a value.
fn with_pairs<'a>(kind: ActionKind, found: Values<'a>, items: &'a [Sexpr<'a>]) -> Option<Values<'a>>
    ensures { with_pairs kind (values_of found.entry) (views items.now) ≡ option_map values_of result }
{
    let [key, rest @ ..] = items else {
        return Some(found);
    };
    let [value, rest @ ..] = rest else {
        return None;
    };
    let found = found.with_pair(kind, key, value)?;
    with_pairs(kind, found, rest)
}

/// How long an action lasts: a durative action has exactly one of two durations.
fn timing_in<'a>(kind: ActionKind, found: &Values<'a>) -> Option<TimingParts<'a>>
    ensures { timing_in kind (values_of found.now) ≡ option_map timing_of result }
{
    match (kind, found.duration, found.uncertain) {
        (ActionKind::Simple, _, _) => Some(TimingParts::Instant),
        (ActionKind::Durative, Some(duration), None) => Some(TimingParts::Controlled(duration)),
        (ActionKind::Durative, None, Some(duration)) => Some(TimingParts::Uncertain(duration)),
        (ActionKind::Durative, _, _) => None,
    }
}

/// Notes an offence of an action, and gives what stands in its place.
fn refused<'a>(at: u32, code: Code, first: &mut Option<Offence>) -> ActionParts<'a>
    ensures { IsRead first.old first.new (action_of result) (bad at code (no_action at)) }
{
    note(first, at, code);
    ActionParts {
        at,
        name_at: at,
        name: &[],
        parameters: &[],
        timing: TimingParts::Instant,
        condition: None,
        effect: None,
    }
}

/// The action of a list at a place, with these items behind its first word.
pub fn read_action<'a>(
    kind: ActionKind,
    at: u32,
    items: &'a [Sexpr<'a>],
    first: &mut Option<Offence>,
) -> ActionParts<'a>
    ensures { IsRead first.old first.new (action_of result) (action_read kind at (views items.now)) }
{
    let Some((head, pairs)) = first_of(items) else {
        return refused(at, Code::D05, first);
    };
    let Some(name) = head.word() else {
        return refused(at, Code::D05, first);
    };
    let Some(found) = with_pairs(kind, Values::none(), pairs) else {
        return refused(at, Code::D05, first);
    };
    let Some(timing) = timing_in(kind, &found) else {
        return refused(at, Code::D06, first);
    };
    ActionParts {
        at,
        name_at: head.place(),
        name,
        parameters: found.parameters.unwrap_or(&[]),
        timing,
        condition: found.condition,
        effect: found.effect,
    }
}
