//! Boxes by sketches of their steps and of the events of the environment. Atoms are f, g and h.

ghost use Rattle.std.specs.Prelude.{◌≡◌, ◌+◌, ◌<◌, ◌≤◌, ◌&&◌, ◌||◌, nat_lt, not, true, length, All, IfOk, OnOk};
ghost use Rattle.std.specs.List.{list_all};
ghost use Rattle.stp_cond.specs.Events.{IsEventInRange};
ghost use Rattle.stp_cond.specs.Truth.{is_below};
ghost use Rattle.stp_happen.specs.Owners.{timed_before};
ghost use Rattle.stp_happen.specs.Sound.{is_ascending};
ghost use Rattle.stp_happen.specs.SoundBox.{IsBoxStep, IsBoxTimed};
ghost use Rattle.stp_happen.specs.StepViews.{plain_timed, timed_of};

use bumpalo::Bump;
use std::alloc::Global;
use stp_base::{AtomId, List, Memory, StateRow};
use stp_cond::{Cond, Event, conjunctive_event};
use stp_happen::{BoxRun, BoxStep, BoxTimed};

pub const F: AtomId = AtomId(0);

pub const G: AtomId = AtomId(1);

pub const H: AtomId = AtomId(2);

/// What the end of a step, a simple step, or an event of the environment does.
#[derive(Clone, Copy)]
pub enum Effect {
    Nothing,
    AddF,
    DropF,
    AddH,
    Swap,
}

/// What has to hold inside a step.
#[derive(Clone, Copy)]
pub enum Over {
    Always,
    F,
    FOrG,
}

/// A step: its start, its least and greatest duration (both 0 if it is simple), which action it is of, whether
/// its end (or it, if it is simple) needs f, and the rest.
#[derive(Clone, Copy)]
pub struct Sketch {
    pub start: u8,
    pub lo: u8,
    pub hi: u8,
    pub key: u32,
    pub needs_f: bool,
    pub effect: Effect,
    pub over: Over,
}

fn needs_of(needs_f: bool) -> &'static [AtomId]
    ensures { All (λ a. a.0 < 3) result.now }
{
    if needs_f { &[F] } else { &[] }
}

fn adds_of(effect: Effect) -> &'static [AtomId]
    ensures { All (λ a. a.0 < 3) result.now }
{
    match effect {
        Effect::AddF | Effect::Swap => &[F],
        Effect::AddH => &[H],
        Effect::Nothing | Effect::DropF => &[],
    }
}

fn dels_of(effect: Effect) -> &'static [AtomId]
    ensures { All (λ a. a.0 < 3) result.now }
{
    match effect {
        Effect::DropF => &[F],
        Effect::Swap => &[G],
        Effect::Nothing | Effect::AddF | Effect::AddH => &[],
    }
}

fn event<'a>(
    alloc: Global,
    arena: &'a Bump,
    needs_f: bool,
    effect: Effect,
) -> Result<Event<'a>, Memory>
    ensures { IfOk result (λ e. IsEventInRange 3 e) }
{
    let needs = needs_of(needs_f);
    conjunctive_event(alloc, arena, needs, adds_of(effect), dels_of(effect))
}

fn over_all<'a>(arena: &'a Bump, over: Over) -> Result<&'a Cond<'a>, Memory>
    ensures { IfOk result (λ r. is_below 3 r.now ≡ true) }
{
    match over {
        Over::Always => Ok(arena.try_alloc(Cond::True)?),
        Over::F => Ok(arena.try_alloc(Cond::Atom(F))?),
        Over::FOrG => {
            let parts = arena.try_alloc_slice_copy(&[Cond::Atom(F), Cond::Atom(G)])?;
            Ok(arena.try_alloc(Cond::Or(parts))?)
        }
    }
}

fn step<'a>(alloc: Global, arena: &'a Bump, sketch: Sketch) -> Result<BoxStep<'a>, Memory>
    requires { sketch.lo ≤ sketch.hi }
    ensures { IfOk result (λ s. IsBoxStep 1 3 s) }
{
    let start = u128::from(sketch.start);
    let over = over_all(arena, sketch.over)?;
    let moment = event(alloc, arena, sketch.needs_f, sketch.effect)?;
    if sketch.lo == 0 {
        return Ok(BoxStep {
            start,
            low: start,
            high: start,
            uncertain: false,
            key: sketch.key,
            first: moment,
            last: None,
            over,
        });
    }
    Ok(BoxStep {
        start,
        low: start + u128::from(sketch.lo),
        high: start + u128::from(sketch.hi),
        uncertain: sketch.lo < sketch.hi,
        key: sketch.key,
        first: event(alloc, arena, false, Effect::Nothing)?,
        last: Some(moment),
        over,
    })
}

fn steps<'a>(
    alloc: Global,
    arena: &'a Bump,
    sketches: [Sketch; 4],
) -> Result<List<BoxStep<'a>>, Memory>
    ensures in_range { IfOk result (λ r. All (IsBoxStep 1 3) r) }
    ensures few { IfOk result (λ r. length r ≤ 4) }
{
    let mut steps = List::new(alloc);
    for sketch in &sketches {
        if sketch.lo <= sketch.hi {
            steps.push(step(alloc, arena, *sketch)?)?;
        }
    }
    Ok(steps)
}

/// An event of the environment: its least and its greatest moment, whether its moment is chosen, and what it does.
/// At a fixed moment it comes at the least.
#[derive(Clone, Copy)]
pub struct Happening {
    pub low: u8,
    pub high: u8,
    pub chosen: bool,
    pub effect: Effect,
}

fn timed<'a>(alloc: Global, arena: &'a Bump, happening: Happening) -> Result<BoxTimed<'a>, Memory>
    requires { happening.low ≤ happening.high }
    ensures { IfOk result (λ e. IsBoxTimed 1 3 e) }
{
    let low = u128::from(happening.low);
    let high = u128::from(happening.high);
    Ok(BoxTimed {
        low,
        high: if happening.chosen { high } else { low },
        uncertain: happening.chosen,
        event: event(alloc, arena, false, happening.effect)?,
    })
}

fn is_before(one: &BoxTimed<'_>, other: &BoxTimed<'_>) -> bool
    ensures { result ≡ timed_before (plain_timed one.now) (plain_timed other.now) }
{
    other.uncertain || (!one.uncertain && one.high < other.high)
}

/// Whether an event comes in the order of a box after these.
fn is_after(events: &[BoxTimed<'_>], event: &BoxTimed<'_>) -> bool
    ensures { result ≡ list_all (λ e. timed_before e (plain_timed event.now)) (timed_of events.now) }
{
    for other in events {
        if !is_before(other, event) {
            return false;
        }
    }
    true
}

/// Puts an event at the end of a list if it comes after these.
fn push_after<'a>(events: &mut List<BoxTimed<'a>>, event: BoxTimed<'a>) -> Result<(), Memory>
    ensures in_range { OnOk result (IsBoxTimed 1 3 event.entry → All (IsBoxTimed 1 3) events.old → All (IsBoxTimed 1 3) events.new) }
    ensures ordered { OnOk result (is_ascending timed_before (timed_of events.old) ≡ true → is_ascending timed_before (timed_of events.new) ≡ true) }
    ensures few { OnOk result (length events.new ≤ length events.old + 1) }
{
    if is_after(events.as_slice(), &event) {
        events.push(event)?;
    }
    Ok(())
}

/// The events of these that come in the order of a box, of which no event has its least moment after its greatest.
fn events<'a>(
    alloc: Global,
    arena: &'a Bump,
    happenings: [Happening; 3],
) -> Result<List<BoxTimed<'a>>, Memory>
    ensures in_range { IfOk result (λ r. All (IsBoxTimed 1 3) r) }
    ensures ordered { IfOk result (λ r. is_ascending timed_before (timed_of r) ≡ true) }
    ensures few { IfOk result (λ r. length r ≤ 3) }
{
    let mut events = List::new(alloc);
    for happening in &happenings {
        if happening.low <= happening.high {
            let event = timed(alloc, arena, *happening)?;
            push_after(&mut events, event)?;
        }
    }
    Ok(events)
}

/// A box of steps and events of the environment, with a goal.
pub fn boxed_in<'a>(alloc: Global, arena: &'a Bump, world: World) -> Result<BoxRun<'a>, Memory>
    ensures { IfOk result (λ r. r.grid ≡ 1) }
{
    let steps = steps(alloc, arena, world.case.steps)?;
    let timed = events(alloc, arena, world.events)?;
    let goal = over_all(arena, world.goal)?;
    let mut initial = StateRow::new(alloc, 3)?;
    initial.set(F, world.case.f);
    initial.set(G, world.case.g);
    Ok(BoxRun {
        grid: 1,
        steps,
        timed,
        initial,
        goal,
    })
}

/// A box of steps alone.
pub fn boxed<'a>(alloc: Global, arena: &'a Bump, case: Case) -> Result<BoxRun<'a>, Memory>
    ensures { IfOk result (λ r. r.grid ≡ 1) }
{
    let world = World {
        case,
        events: [silence(), silence(), silence()],
        goal: Over::Always,
    };
    boxed_in(alloc, arena, world)
}

/// Which of f and g are true at first, and the steps.
#[derive(Clone, Copy)]
pub struct Case {
    pub f: bool,
    pub g: bool,
    pub steps: [Sketch; 4],
}

/// Steps, events of the environment, and what has to hold at the end.
#[derive(Clone, Copy)]
pub struct World {
    pub case: Case,
    pub events: [Happening; 3],
    pub goal: Over,
}

/// No event.
pub fn silence() -> Happening {
    Happening {
        low: 1,
        high: 0,
        chosen: false,
        effect: Effect::Nothing,
    }
}

/// An event at a fixed moment.
pub fn at(moment: u8, effect: Effect) -> Happening {
    Happening {
        low: moment,
        high: moment,
        chosen: false,
        effect,
    }
}

/// An event whose moment is chosen.
pub fn between(low: u8, high: u8, effect: Effect) -> Happening {
    Happening {
        low,
        high,
        chosen: true,
        effect,
    }
}

pub fn durative(start: u8, lo: u8, hi: u8, key: u32, effect: Effect) -> Sketch {
    Sketch {
        start,
        lo,
        hi,
        key,
        needs_f: false,
        effect,
        over: Over::Always,
    }
}

pub fn see_f(start: u8) -> Sketch {
    Sketch {
        needs_f: true,
        ..durative(start, 0, 0, 1, Effect::AddH)
    }
}

pub fn clear_f(start: u8) -> Sketch {
    durative(start, 0, 0, 2, Effect::DropF)
}

pub fn up_f(start: u8) -> Sketch {
    durative(start, 1, 5, 3, Effect::AddF)
}

pub fn long_f(start: u8) -> Sketch {
    durative(start, 3, 7, 4, Effect::AddF)
}

pub fn late_f(start: u8) -> Sketch {
    durative(start, 3, 5, 5, Effect::AddF)
}

pub fn on_f(start: u8) -> Sketch {
    durative(start, 2, 6, 6, Effect::AddF)
}

pub fn off_f(start: u8) -> Sketch {
    durative(start, 4, 9, 7, Effect::DropF)
}

pub fn drop_f(start: u8) -> Sketch {
    durative(start, 3, 5, 8, Effect::DropF)
}

pub fn four(start: u8) -> Sketch {
    durative(start, 4, 4, 9, Effect::AddF)
}

pub fn swap(start: u8) -> Sketch {
    durative(start, 2, 4, 10, Effect::Swap)
}

pub fn need_f(start: u8) -> Sketch {
    Sketch {
        needs_f: true,
        ..durative(start, 2, 6, 11, Effect::AddH)
    }
}

pub fn hold(start: u8, duration: u8, over: Over) -> Sketch {
    Sketch {
        over,
        ..durative(start, duration, duration, 12, Effect::Nothing)
    }
}

/// No step.
pub fn none() -> Sketch {
    durative(0, 1, 0, 0, Effect::Nothing)
}

pub fn plan(f: bool, g: bool, first: Sketch, second: Sketch, third: Sketch) -> Case {
    Case {
        f,
        g,
        steps: [first, second, third, none()],
    }
}
