//! How many events are accepted, and what of a problem is judged before them.

use crate::setting::problem_in;
use bumpalo::Bump;
use std::alloc::Global;
use stp_base::{Memory, Text};
use stp_frac::Frac;
use stp_refusal::{Code, ReadFault};

/// Ten objects make `(exists (?w ?x ?y ?z - a) (f))` a condition of more nodes than are accepted.
const PLAIN: &[u8] =
    b"(define (domain x) (:types a) (:predicates (f)) (:action one :precondition (f)))";

const LARGE: &[u8] =
    b"(define (domain x) (:types a) (:predicates (f)) (:action one :precondition (f))
 (:action two :precondition (exists (?w ?x ?y ?z - a) (f))))";

const INIT: &[u8] = b"(define (problem y) (:domain x) (:objects b c d e f g h i j k - a) (:init ";

const SMALL_GOAL: &[u8] = b") (:goal (f)))";

const LARGE_GOAL: &[u8] = b") (:goal (exists (?w ?x ?y ?z - a) (f))))";

/// Appends `(at TIME (f))` for so many times from this one on, the least first.
fn push_rising(out: &mut Text, from: u32, count: u32) -> Result<(), Memory> {
    for place in 0..count {
        push_timed(out, u128::from(from) + u128::from(place))?;
    }
    Ok(())
}

/// Appends `(at TIME (f))` for so many times, the last of which is 0.
fn push_falling(out: &mut Text, count: u32) -> Result<(), Memory> {
    for place in 0..count {
        push_timed(out, u128::from(count - 1 - place))?;
    }
    Ok(())
}

/// Appends a literal at a time.
fn push_timed(out: &mut Text, time: u128) -> Result<(), Memory> {
    out.push(b" (at ")?;
    if let Some(time) = Frac::from_grid(time, 1) {
        time.print(out)?;
    }
    out.push(b" (f))")
}

/// Appends so many items.
fn push_times(out: &mut Text, item: &[u8], count: u32) -> Result<(), Memory> {
    for _ in 0..count {
        out.push(item)?;
    }
    Ok(())
}

/// What is written before the item at which a problem may be refused.
#[derive(Clone, Copy)]
enum Before {
    /// Literals at so many times from 0 on.
    Rising(u32),
    /// Literals at so many times down to 0.
    Falling(u32),
    /// So many events whose times the environment chooses, and then literals at so many times.
    Chosen(u32, u32),
    /// So many events without literals, whose times the environment chooses.
    Empty(u32),
    /// So many literals at one time, and then so many at times behind it.
    Same(u32, u32),
}

/// Appends what is before the item.
fn push_before(out: &mut Text, before: Before) -> Result<(), Memory> {
    match before {
        Before::Rising(count) => push_rising(out, 0, count),
        Before::Falling(count) => push_falling(out, count),
        Before::Chosen(chosen, count) => {
            push_times(out, b" (between 1 2 (not (f)))", chosen)?;
            push_rising(out, 0, count)
        }
        Before::Empty(count) => push_times(out, b" (between 1 2 (and))", count),
        Before::Same(same, count) => {
            push_times(out, b" (between 3/2 1.5 (f))", same)?;
            push_rising(out, 2, count)
        }
    }
}

/// How many events a problem has, or for what it is refused: at a place behind what is before the item, or at a place of
/// the whole.
#[derive(Clone, Copy, PartialEq)]
enum Answer {
    Events(usize),
    Behind(usize, Code),
    At(u32, Code),
    Other,
}

/// A refusal at a place, where the item begins here.
fn refusal(start: usize, at: u32, code: Code) -> Answer {
    let place = at as usize;
    if place >= start {
        return Answer::Behind(place - start, code);
    }
    Answer::At(at, code)
}

/// What is found of a problem, where the item begins here.
fn found_in(alloc: Global, domain: &[u8], problem: &[u8], start: usize) -> Answer {
    let arena = Bump::new(alloc);
    match problem_in(alloc, &arena, domain, problem) {
        Ok(problem) => Answer::Events(problem.timed.len()),
        Err(ReadFault::Refused { code, at }) => refusal(start, at, code),
        Err(_fault) => Answer::Other,
    }
}

/// What is found of a problem with these items and this goal.
fn found(
    alloc: Global,
    domain: &[u8],
    before: Before,
    item: &[u8],
    goal: &[u8],
) -> Result<Answer, Memory> {
    let mut text = Text::new(alloc);
    text.push(INIT)?;
    push_before(&mut text, before)?;
    let start = text.as_slice().len();
    text.push(item)?;
    text.push(goal)?;
    Ok(found_in(alloc, domain, text.as_slice(), start))
}

/// What is before the item, the item and what follows it, and what is found.
const TIMES: [(Before, &[u8], Answer); 13] = [
    (Before::Rising(100), b"", Answer::Events(100)),
    (Before::Falling(100), b"", Answer::Events(100)),
    (Before::Rising(101), b"", Answer::At(1_265, Code::P15)),
    (
        Before::Rising(100),
        b"(at 1/2 (f))",
        Answer::Behind(0, Code::P15),
    ),
    (
        Before::Falling(100),
        b"(at 100 (f)) (at 101 (f))",
        Answer::Behind(0, Code::P15),
    ),
    // times that are there already
    (
        Before::Falling(100),
        b"(at 0 (not (f))) (at 7 (f)) (between 99 99 (f)) (at 198/2 (f)) (at 0.5 (f))",
        Answer::Behind(63, Code::P15),
    ),
    (Before::Same(300, 99), b"", Answer::Events(100)),
    (Before::Same(300, 99), b"(at 6/4 (f))", Answer::Events(100)),
    (
        Before::Same(300, 99),
        b"(f) (at 1 (f))",
        Answer::Behind(4, Code::P15),
    ),
    // one time that is written as an event
    (
        Before::Rising(100),
        b"(between 200 200 (f))",
        Answer::Behind(0, Code::P15),
    ),
    (
        Before::Rising(100),
        b"(between 200 200 (and (f) (not (f))))",
        Answer::Behind(0, Code::P15),
    ),
    (
        Before::Rising(100),
        b"(between 200 200 (and))",
        Answer::Events(100),
    ),
    (
        Before::Rising(100),
        b"(between 200 201 (f))",
        Answer::Events(101),
    ),
];

const CHOSEN: [(Before, &[u8], Answer); 11] = [
    (Before::Chosen(30, 0), b"", Answer::Events(30)),
    (Before::Chosen(30, 100), b"", Answer::Events(130)),
    (Before::Empty(30), b"", Answer::Events(30)),
    (
        Before::Chosen(30, 0),
        b"(between 2 2 (f)) (at 2 (f))",
        Answer::Events(31),
    ),
    (
        Before::Chosen(30, 0),
        b"(f) (between 2 3 (f)) (between 2 3 (f))",
        Answer::Behind(4, Code::P17),
    ),
    (
        Before::Chosen(29, 10),
        b"(between 2 3 (f)) (between 2 3 (f))",
        Answer::Behind(18, Code::P17),
    ),
    (
        Before::Empty(30),
        b"(between 1 2 (and))",
        Answer::Behind(0, Code::P17),
    ),
    // too many times are found before too many others
    (
        Before::Chosen(31, 100),
        b"(at 100 (f))",
        Answer::Behind(0, Code::P15),
    ),
    (
        Before::Chosen(60, 100),
        b"(at 100 (f))",
        Answer::Behind(0, Code::P15),
    ),
    (
        Before::Rising(100),
        b"(at 100 (f)) (between 2 1 (f))",
        Answer::Behind(13, Code::P16),
    ),
    (
        Before::Rising(100),
        b"(at 100 (f)) (at 5 (g))",
        Answer::Behind(19, Code::P09),
    ),
];

/// Whether this is found for the domain and the goal that are not too large.
fn is_found(alloc: Global, before: Before, item: &[u8], wanted: Answer) -> bool {
    match found(alloc, PLAIN, before, item, SMALL_GOAL) {
        Ok(answer) => answer == wanted,
        Err(_memory) => false,
    }
}

#[test]
fn times_are_counted(rt: HostRuntime) {
    for (before, item, wanted) in TIMES.iter() {
        assert!(rt; is_found(rt.alloc(), *before, item, *wanted), "{item:?}");
    }
}

#[test]
fn events_are_counted(rt: HostRuntime) {
    for (before, item, wanted) in CHOSEN.iter() {
        assert!(rt; is_found(rt.alloc(), *before, item, *wanted), "{item:?}");
    }
}

/// A domain, a goal, and what is found where there are too many times and too many other events.
const PHASES: [(&[u8], &[u8], Answer); 5] = [
    (LARGE, LARGE_GOAL, Answer::Behind(23, Code::P13)),
    (PLAIN, LARGE_GOAL, Answer::Behind(23, Code::P13)),
    (LARGE, SMALL_GOAL, Answer::At(2, Code::P14)),
    (PLAIN, SMALL_GOAL, Answer::Behind(0, Code::P15)),
    (LARGE, b") (:goal (g)))", Answer::Behind(30, Code::D17)),
];

/// Whether this is found where there are too many times and too many other events.
fn is_first(alloc: Global, domain: &[u8], goal: &[u8], wanted: Answer) -> bool {
    match found(
        alloc,
        domain,
        Before::Chosen(31, 100),
        b"(between 100 100 (f))",
        goal,
    ) {
        Ok(answer) => answer == wanted,
        Err(_memory) => false,
    }
}

#[test]
fn sizes_are_before_times(rt: HostRuntime) {
    for (domain, goal, wanted) in PHASES.iter() {
        assert!(rt; is_first(rt.alloc(), domain, goal, *wanted), "{goal:?}");
    }
}
