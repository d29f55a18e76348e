//! Tasks: which instances are kept, their order and their numbers, the grid, and each refusal at its limit and one past
//! it.

use crate::instances::push_digit;
use crate::setting::{between, problem_in};
use bumpalo::Bump;
use std::alloc::Global;
use stp_base::{ActionId, AtomId, Memory, ObjectId, Text};
use stp_frac::Frac;
use stp_kept::{GroundFault, ground_all};
use stp_schema::Problem;
use stp_task::{GroundAction, Task};

/// Appends a number.
fn push_number(out: &mut Text, number: u32) -> Result<(), Memory> {
    match Frac::from_grid(number as u128, 1) {
        Some(number) => number.print(out),
        None => Ok(()),
    }
}

/// Appends a number and the numbers of objects.
fn push_numbers(out: &mut Text, first: u32, objects: &[ObjectId]) -> Result<(), Memory> {
    out.push(b" ")?;
    push_digit(out, first)?;
    for object in objects {
        push_digit(out, object.0)?;
    }
    Ok(())
}

/// Appends an action: its schema with its objects, and the atoms that its start adds.
fn push_action(out: &mut Text, action: &GroundAction<'_>) -> Result<(), Memory> {
    push_numbers(out, action.schema, action.args)?;
    out.push(b"+")?;
    for atom in action.start.adds {
        push_digit(out, atom.0)?;
    }
    Ok(())
}

/// A task in short: its grid; its atoms, those that are true at first with a mark; its actions.
fn told_of(alloc: Global, task: &Task<'_>) -> Result<Text, Memory> {
    let mut out = Text::new(alloc);
    push_number(&mut out, (task.grid % 1_000_000) as u32)?;
    out.push(b";")?;
    for number in 0..task.atoms.len() {
        let (predicate, objects) = task.atoms.get(AtomId(number));
        push_numbers(&mut out, predicate, objects)?;
        if number < task.initial.len() && task.initial.get(AtomId(number)) {
            out.push(b"!")?;
        }
    }
    out.push(b";")?;
    for action in task.actions.as_slice() {
        push_action(&mut out, action)?;
    }
    Ok(out)
}

/// The task of the texts of a domain and a problem in short; empty where there is none.
fn told(alloc: Global, domain: &[u8], problem: &[u8]) -> Result<Text, Memory> {
    let arena = Bump::new(alloc);
    let Some(problem) = problem_in(alloc, &arena, domain, problem) else {
        return Ok(Text::new(alloc));
    };
    match ground_all(alloc, &arena, &problem) {
        Ok(task) => told_of(alloc, &task),
        Err(_fault) => Ok(Text::new(alloc)),
    }
}

/// p is written, and q and r are not.
const ROADS: &[u8] = b"(define (domain x) (:types t) (:constants a b c - t)
 (:predicates (p ?x - t) (q ?x ?y - t) (r))
 (:action go :parameters (?x ?y - t) :precondition (and (p ?x) (q ?x ?y) (not (= ?x ?y)))
   :effect (and (p ?y) (not (p ?x))))
 (:action same :parameters (?x ?y - t) :precondition (and (= ?x ?y) (not (q ?x ?x))) :effect (p ?x))
 (:durative-action stay :parameters (?x - t) :duration (and (>= ?duration 0.25) (<= ?duration 1.5))
   :condition (over all (or (r) (q ?x c))) :effect (at start (p ?x)))
 (:durative-action none :parameters () :duration (= ?duration 0.125)
   :condition (at end (r)) :effect (at start (p a))))";

/// Objects a, b and c have the numbers 0, 1 and 2. What is false by what is static alone is left out.
#[test]
fn tasks_by_hand(rt: HostRuntime) -> Result<(), Memory> {
    let rows: [(&[u8], &[u8]); 4] = [
        (
            b"(:init (p a) (q a b) (q b c)) (:goal (p c)))",
            b"4; 00! 02 01; 001+2 012+1 100+0 111+2 122+1 21+2",
        ),
        (
            b"(:init (p b) (q a a) (q c a)) (:goal (and)))",
            b"1; 01! 02 00; 020+2 111+0 122+1",
        ),
        (
            b"(:init (r)) (:goal (p c)))",
            b"8; 02 00 01; 100+1 111+2 122+0 20+1 21+2 22+0 3+1",
        ),
        (
            b"(:init (at 0.5 (p b)) (at 2.2 (p a)) (q b c)) (:goal (p c)))",
            b"20; 01 00 02; 012+2 100+1 111+0 122+2 21+0",
        ),
    ];
    for (problem, task) in &rows {
        let problem = between(
            rt.alloc(),
            &[b"(define (problem y) (:domain x) ", problem, b""],
        )?;
        let found = told(rt.alloc(), ROADS, problem.as_slice())?;
        assert_eq!(rt; found.as_slice(), *task);
    }
    Ok(())
}

/// How many objects there are of types u, v and w.
type Sizes = [u32; 3];

/// Appends that many objects of a type, which are named after it.
fn push_objects(out: &mut Text, kind: &[u8], size: u32) -> Result<(), Memory> {
    for number in 0..size {
        out.push(b" ")?;
        out.push(kind)?;
        push_number(out, number)?;
    }
    if size > 0 {
        out.push(b" - ")?;
        out.push(kind)?;
    }
    Ok(())
}

/// The problem with these objects, and a text behind them.
fn problem_of(alloc: Global, sizes: Sizes, rest: &[u8]) -> Result<Text, Memory> {
    let [us, vs, ws] = sizes;
    let mut out = Text::new(alloc);
    out.push(b"(define (problem y) (:domain x) (:objects")?;
    push_objects(&mut out, b"u", us)?;
    push_objects(&mut out, b"v", vs)?;
    push_objects(&mut out, b"w", ws)?;
    out.push(b") ")?;
    out.push(rest)?;
    Ok(out)
}

/// Why a problem has no task, if it has none.
fn fault_of<'a>(alloc: Global, arena: &'a Bump, problem: &'a Problem<'a>) -> Option<GroundFault> {
    match ground_all(alloc, arena, problem) {
        Ok(_task) => None,
        Err(fault) => Some(fault),
    }
}

/// The same of the texts of a domain and a problem; want of memory where these are refused.
fn fault_in(alloc: Global, actions: &[u8], problem: &[u8]) -> Result<Option<GroundFault>, Memory> {
    let arena = Bump::new(alloc);
    let domain = between(alloc, &[DECLARED, actions, b")"])?;
    let Some(problem) = problem_in(alloc, &arena, domain.as_slice(), problem) else {
        return Ok(Some(GroundFault::Memory));
    };
    Ok(fault_of(alloc, &arena, &problem))
}

const DECLARED: &[u8] = b"(define (domain x) (:types u v w)
 (:predicates (f) (g) (s ?x ?y) (t ?x) (k))";

/// An action for each u, v and w of which t says that it is one.
const THREE: &[u8] = b"(:action three :parameters (?x - u ?y - v ?z - w)
 :precondition (and (t ?x) (t ?y) (t ?z)) :effect (f))";

/// The same, and one for each v.
const THREE_AND_ONE: &[u8] = b"(:action three :parameters (?x - u ?y - v ?z - w)
 :precondition (and (t ?x) (t ?y) (t ?z)) :effect (f))
 (:action one :parameters (?x - v) :precondition (t ?x) :effect (f))";

/// An action for each u and v.
const TWO: &[u8] = b"(:action two :parameters (?x - u ?y - v) :effect (f))";

/// The same, and one more.
const TWO_AND_MORE: &[u8] = b"(:action two :parameters (?x - u ?y - v) :effect (f))
 (:action more :parameters () :effect (f))";

/// An action for each u and v that writes an atom of its own.
const OWN: &[u8] = b"(:action own :parameters (?x - u ?y - v) :effect (s ?x ?y))";

/// An action for each two u with a condition over each v and w that is not wanted, and one with none.
const NODES: &[u8] = b"(:action two :parameters (?x - u ?y - u)
 :precondition (or (= ?x ?x) (forall (?a - v ?b - w) (k))) :effect (f))
 (:action more :parameters () :effect (f))";

/// The same, and the last with an empty condition.
const ONE_NODE_MORE: &[u8] = b"(:action two :parameters (?x - u ?y - u)
 :precondition (or (= ?x ?x) (forall (?a - v ?b - w) (k))) :effect (f))
 (:action more :parameters () :precondition () :effect (f))";

const LONG: &[u8] =
    b"(:durative-action a :parameters () :duration (= ?duration 1) :effect (at end (f)))
 (:durative-action b :parameters () :uncontrollable-duration (and (>= ?duration 1) (<= ?duration 1000000))
   :effect (at end (f)))";

const TOO_LONG: &[u8] = b"(:durative-action no :parameters () :duration (= ?duration 2000000)
   :condition (at end (k)) :effect (at end (f)))
 (:durative-action a :parameters () :duration (= ?duration 1) :effect (at end (f)))
 (:durative-action b :parameters () :duration (and (>= ?duration 1) (<= ?duration 1000000.001))
   :effect (at end (f)))";

const FINE: &[u8] =
    b"(:durative-action a :parameters () :duration (= ?duration (/ 1 600000)) :effect (at end (f)))
 (:durative-action b :parameters () :duration (= ?duration (/ 1 75000)) :effect (at end (f)))";

const TOO_FINE: &[u8] =
    b"(:durative-action a :parameters () :duration (= ?duration (/ 1 600000)) :effect (at end (f)))
 (:durative-action b :parameters () :duration (= ?duration (/ 1 7)) :effect (at end (f)))";

const SEVENTH: &[u8] = b"(:durative-action a :parameters () :duration (= ?duration (/ 1 100000))
   :effect (and (at end (f)) (at end (g))))";

const SIMPLE: &[u8] = b"(:init) (:goal (f)))";

/// A domain's actions, a problem's objects and the rest of it, and its first refusal, if it has one.
type Row<'r> = (&'r [u8], Sizes, &'r [u8], Option<GroundFault>);

/// The place of the first of these rows that has another refusal, from 0.
fn first_wrong(alloc: Global, rows: &[Row<'_>]) -> Result<Option<usize>, Memory> {
    for (at, (actions, sizes, rest, fault)) in rows.iter().enumerate() {
        let problem = problem_of(alloc, *sizes, rest)?;
        if fault_in(alloc, actions, problem.as_slice())? != *fault {
            return Ok(Some(at));
        }
    }
    Ok(None)
}

/// As many bindings as are accepted, and more.
#[test]
fn bindings_at_their_limit(rt: HostRuntime) -> Result<(), Memory> {
    let rows: [Row<'static>; 3] = [
        (THREE, [125, 125, 128], SIMPLE, None),
        (
            THREE,
            [125, 125, 129],
            SIMPLE,
            Some(GroundFault::TooManyBindings),
        ),
        (
            THREE_AND_ONE,
            [2_000, 1, 1_000],
            SIMPLE,
            Some(GroundFault::TooManyBindings),
        ),
    ];
    assert_eq!(rt; first_wrong(rt.alloc(), &rows)?, None);
    Ok(())
}

/// As many kept instances as are accepted, and more.
#[test]
fn actions_at_their_limit(rt: HostRuntime) -> Result<(), Memory> {
    let rows: [Row<'static>; 3] = [
        (TWO, [100, 200, 0], SIMPLE, None),
        (
            TWO_AND_MORE,
            [100, 200, 0],
            SIMPLE,
            Some(GroundFault::TooManyActions),
        ),
        (
            TWO,
            [1, 20_001, 0],
            SIMPLE,
            Some(GroundFault::TooManyActions),
        ),
    ];
    assert_eq!(rt; first_wrong(rt.alloc(), &rows)?, None);
    Ok(())
}

/// As many nodes as are accepted, and more.
#[test]
fn nodes_at_their_limit(rt: HostRuntime) -> Result<(), Memory> {
    let rows: [Row<'static>; 2] = [
        (NODES, [100, 997, 1], b"(:init (k)) (:goal (f)))", None),
        (
            ONE_NODE_MORE,
            [100, 997, 1],
            b"(:init (k)) (:goal (f)))",
            Some(GroundFault::TooManyNodes),
        ),
    ];
    assert_eq!(rt; first_wrong(rt.alloc(), &rows)?, None);
    Ok(())
}

/// As many atoms as are accepted, and more.
#[test]
fn atoms_at_their_limit(rt: HostRuntime) -> Result<(), Memory> {
    let rows: [Row<'static>; 2] = [
        (OWN, [100, 200, 0], b"(:init) (:goal (s u0 v1)))", None),
        (
            OWN,
            [100, 200, 0],
            b"(:init (s u0 u0)) (:goal (s u0 v1)))",
            Some(GroundFault::TooManyAtoms),
        ),
    ];
    assert_eq!(rt; first_wrong(rt.alloc(), &rows)?, None);
    Ok(())
}

/// Durations that are as long as is accepted, and grids that are as fine, and more.
#[test]
fn times_at_their_limits(rt: HostRuntime) -> Result<(), Memory> {
    let rows: [Row<'static>; 6] = [
        (LONG, [0, 0, 0], SIMPLE, None),
        (
            TOO_LONG,
            [0, 0, 0],
            SIMPLE,
            Some(GroundFault::DurationTooLarge(ActionId(2))),
        ),
        (FINE, [0, 0, 0], SIMPLE, None),
        (TOO_FINE, [0, 0, 0], SIMPLE, Some(GroundFault::GridTooFine)),
        (
            SEVENTH,
            [0, 0, 0],
            b"(:init (at 1/6 (g))) (:goal (f)))",
            None,
        ),
        (
            SEVENTH,
            [0, 0, 0],
            b"(:init (at 1/7 (g))) (:goal (f)))",
            Some(GroundFault::GridTooFine),
        ),
    ];
    assert_eq!(rt; first_wrong(rt.alloc(), &rows)?, None);
    Ok(())
}

/// Of two refusals the first one comes.
#[test]
fn the_first_of_two_refusals(rt: HostRuntime) -> Result<(), Memory> {
    let rows: [Row<'static>; 3] = [
        (
            SEVENTH,
            [0, 0, 0],
            b"(:init (between 1/7 2 (g))) (:goal (f)))",
            Some(GroundFault::UncontrollableEvent),
        ),
        (
            TWO_AND_MORE,
            [100, 20_001, 0],
            SIMPLE,
            Some(GroundFault::TooManyBindings),
        ),
        (
            OWN,
            [1, 20_001, 0],
            b"(:init (s u0 u0)) (:goal (f)))",
            Some(GroundFault::TooManyActions),
        ),
    ];
    assert_eq!(rt; first_wrong(rt.alloc(), &rows)?, None);
    Ok(())
}
