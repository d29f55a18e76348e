//! Events of the environment in boxes: the numbers of their atoms, what they do, when they come, and the grid.

use crate::boxes::boxed;
use crate::instances::{push_event, push_formula};
use crate::setting::{between, problem_in};
use bumpalo::Bump;
use std::alloc::Global;
use stp_base::{AtomId, Memory, StateRow, StepId, Text};
use stp_exec::ExecFault;
use stp_frac::Frac;
use stp_happen::{BoxRun, BoxTimed};
use stp_refusal::Code;
use stp_schema::Problem;

/// The domain's effects name `p` and `f`, and not `q` and `s`.
const DOMAIN: &[u8] = b"(define (domain e) (:constants a b c d g h)
 (:predicates (p ?x) (q ?x) (s ?x) (f))
 (:action see :parameters (?x) :precondition (and (s ?x) (p ?x)) :effect (not (p ?x)))
 (:durative-action come :uncontrollable-duration (and (>= ?duration 1) (<= ?duration 2))
   :effect (at end (f))))";

/// Appends a number.
fn push_number(out: &mut Text, number: u128) -> Result<(), Memory> {
    match Frac::from_grid(number, 1) {
        Some(number) => number.print(out),
        None => Ok(()),
    }
}

/// Appends the atoms that are true at first by 1, and the others by 0.
fn push_row(out: &mut Text, row: &StateRow) -> Result<(), Memory> {
    for number in 0..row.len() {
        out.push(if row.get(AtomId(number)) { b"1" } else { b"0" })?;
    }
    out.push(b" ")
}

/// Appends when an event comes and what it does: its moment twice, or the moments between which it is chosen.
fn push_timed(out: &mut Text, timed: &BoxTimed<'_>) -> Result<(), Memory> {
    out.push(b" ")?;
    push_number(out, timed.low)?;
    out.push(if timed.uncertain { b"~" } else { b"=" })?;
    push_number(out, timed.high)?;
    out.push(b" ")?;
    push_event(out, &timed.event)
}

/// Appends a box: its grid, what is true at first, the goal, how each step starts, and the events.
fn push_box(out: &mut Text, boxed: &BoxRun<'_>) -> Result<(), Memory> {
    push_number(out, boxed.grid)?;
    out.push(b" ")?;
    push_row(out, &boxed.initial)?;
    push_formula(out, boxed.goal)?;
    for step in boxed.steps.as_slice() {
        out.push(b" s")?;
        push_event(out, &step.first)?;
    }
    for timed in boxed.timed.as_slice() {
        push_timed(out, timed)?;
    }
    Ok(())
}

/// The box of a plan in short.
fn told<'a>(
    alloc: Global,
    arena: &'a Bump,
    problem: &'a Problem<'a>,
    plan: &[u8],
) -> Result<Text, ExecFault> {
    let boxed = boxed(alloc, arena, problem, plan)?;
    let mut out = Text::new(alloc);
    push_box(&mut out, &boxed)?;
    Ok(out)
}

/// The text of a problem with these items of `:init` and this goal.
fn problem_text(alloc: Global, init: &[u8], goal: &[u8]) -> Result<Text, Memory> {
    let front: [&[u8]; 3] = [
        b"(define (problem y) (:domain e) (:init ",
        init,
        b") (:goal ",
    ];
    let front = between(alloc, &front)?;
    between(alloc, &[front.as_slice(), goal, b"))"])
}

/// The box in short of a plan of the problem with these items of `:init` and this goal; want of memory where that is
/// refused.
fn told_in(alloc: Global, init: &[u8], goal: &[u8], plan: &[u8]) -> Result<Text, ExecFault> {
    let arena = Bump::new(alloc);
    let text = problem_text(alloc, init, goal)?;
    let Some(problem) = problem_in(alloc, &arena, DOMAIN, text.as_slice()) else {
        return Err(ExecFault::Memory);
    };
    told(alloc, &arena, &problem, plan)
}

/// Whether a plan has this box in short.
fn has_box(alloc: Global, init: &[u8], goal: &[u8], plan: &[u8], wanted: &[u8]) -> bool {
    match told_in(alloc, init, goal, plan) {
        Ok(text) => text.as_slice() == wanted,
        Err(_fault) => false,
    }
}

/// Whether a plan has no box, because of this.
fn is_refused(alloc: Global, init: &[u8], plan: &[u8], wanted: ExecFault) -> bool {
    match told_in(alloc, init, b"(f)", plan) {
        Ok(_text) => false,
        Err(fault) => fault == wanted,
    }
}

/// Items of `:init`, a goal, a plan, and its box.
const ATOMS: [(&[u8], &[u8], &[u8], &[u8]); 12] = [
    // what is true at first, the events at fixed times by time, the others, the goal, the steps
    (
        b"(s a) (p g) (between 1 2 (and (q d) (not (p b)))) (at 5 (q c)) (p h) (at 3 (not (p c))) (at 5 (p g))",
        b"(and (q b) (p g) (q d))",
        b"0: (see a)",
        b"1 11000000 (&604) s7;7;;7; 3=3 T;;;2; 5=5 T;;03;; 1~2 T;;4;5;",
    ),
    (
        b"(s a) (p g) (p h)",
        b"(and (q b) (p g) (q d))",
        b"0: (see a)",
        b"1 110 F s2;2;;2;",
    ),
    // an event makes its predicates fluent
    (b"(q b)", b"(q b)", b"", b"1  T"),
    (
        b"(q b) (at 1 (not (q d)))",
        b"(q b)",
        b"",
        b"1 10 0 1=1 T;;;1;",
    ),
    (
        b"(between 1 2 (not (q d)))",
        b"(q b)",
        b"",
        b"1 00 1 1~2 T;;;0;",
    ),
    (
        b"(s a) (at 2 (s b))",
        b"(and)",
        b"0: (see a)",
        b"1 100 T s(&02);02;;2; 2=2 T;;1;;",
    ),
    (b"(between 5 5 (and))", b"(q b)", b"", b"1  F"),
    (b"(between 5 6 (and))", b"(q b)", b"", b"1  F 5~6 T;;;;"),
    // what is added is not deleted
    (
        b"(between 1 2 (and (f) (not (f)) (not (q a)) (not (q a))))",
        b"(f)",
        b"",
        b"1 00 0 1~2 T;;0;1;",
    ),
    (
        b"(at 3 (not (f))) (at 3 (f))",
        b"(f)",
        b"",
        b"1 0 0 3=3 T;;0;;",
    ),
    (
        b"(f) (at 3 (f)) (between 3 3 (not (f)))",
        b"(f)",
        b"",
        b"1 1 0 3=3 T;;0;;",
    ),
    (
        b"(between 1 2 (f)) (between 1 2 (not (f)))",
        b"(f)",
        b"",
        b"1 0 0 1~2 T;;0;; 1~2 T;;;0;",
    ),
];

#[test]
fn atoms_of_events(rt: HostRuntime) {
    for (init, goal, plan, wanted) in ATOMS.iter() {
        assert!(rt; has_box(rt.alloc(), init, goal, plan, wanted), "{wanted:?}");
    }
}

/// Items of `:init`, a plan, and its box where the goal is `(f)`.
const MOMENTS: [(&[u8], &[u8], &[u8]); 11] = [
    (b"(at 5/2 (f))", b"", b"2 0 0 5=5 T;;0;;"),
    (b"(between 1/2 4 (f))", b"", b"2 0 0 1~8 T;;0;;"),
    (b"(between 1 5/2 (f))", b"", b"2 0 0 2~5 T;;0;;"),
    (b"(between 1/2 0.5 (and))", b"", b"1 0 0"),
    (
        b"(between 1/3 2/5 (f)) (at 1/2 (f))",
        b"",
        b"30 0 0 15=15 T;;0;; 10~12 T;;0;;",
    ),
    (
        b"(s a) (between 1/3 2/5 (f)) (at 1/2 (f))",
        b"1/7: (see a)",
        b"210 00 0 s1;1;;1; 105=105 T;;0;; 70~84 T;;0;;",
    ),
    (
        b"(at 3/2 (f))",
        b"1/3: (come) [*]",
        b"6 0 0 sT;;;; 9=9 T;;0;;",
    ),
    (b"(at 1/999999999 (f))", b"", b"999999999 0 0 1=1 T;;0;;"),
    (
        b"(at 0 (f)) (at 100000000 (not (f)))",
        b"",
        b"1 0 0 0=0 T;;0;; 100000000=100000000 T;;;0;",
    ),
    (
        b"(between 0 100000000 (f)) (at 1/2 (f))",
        b"",
        b"2 0 0 1=1 T;;0;; 0~200000000 T;;0;;",
    ),
    (
        b"(between 6 9 (f)) (between 1 2 (not (f))) (at 7 (f)) (at 3 (not (f)))",
        b"",
        b"1 0 0 3=3 T;;;0; 7=7 T;;0;; 6~9 T;;0;; 1~2 T;;;0;",
    ),
];

/// Items of `:init`, a plan, and why it has no box where the goal is `(f)`.
const REFUSED: [(&[u8], &[u8], ExecFault); 6] = [
    (
        b"(at 1/99991 (f)) (between 1 200000/99989 (f))",
        b"",
        ExecFault::GridTooFine,
    ),
    (
        b"(between 1/99991 200000/99989 (f))",
        b"",
        ExecFault::GridTooFine,
    ),
    (
        b"(between 1 200000/99991 (f))",
        b"1/99989: (see a)",
        ExecFault::GridTooFine,
    ),
    (
        b"(at 1/99991 (f))",
        b"9999999991/99989: (see a)",
        ExecFault::GridTooFine,
    ),
    (
        b"(at 1/99991 (f)) (at 1/99989 (f))",
        b"0: (nope)",
        ExecFault::Step(StepId(1), Code::X01),
    ),
    (
        b"(at 1/2 (f))",
        b"9999999991/10: (see a)",
        ExecFault::TimeTooLarge(StepId(1)),
    ),
];

#[test]
fn moments_of_events(rt: HostRuntime) {
    for (init, plan, wanted) in MOMENTS.iter() {
        assert!(rt;
            has_box(rt.alloc(), init, b"(f)", plan, wanted),
            "{wanted:?}"
        );
    }
    for (init, plan, fault) in REFUSED.iter() {
        assert!(rt; is_refused(rt.alloc(), init, plan, *fault), "{init:?}");
    }
}
