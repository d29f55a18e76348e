//! What is possible in a task: least closed pairs and certificates, worked by hand, and beside plain rounds over all
//! actions.

use crate::instances::push_digit;
use crate::setting::{between, problem_in};
use bumpalo::Bump;
use std::alloc::Global;
use stp_base::{AtomId, Memory, StateRow, Text};
use stp_cond::{Cond, Event};
use stp_kept::ground_all;
use stp_relax::{is_certificate, reach};
use stp_task::{GroundAction, Task};

/// What only an end adds or deletes, and what holds all through.
const ENDS: &[u8] = b"(define (domain x) (:predicates (f) (g) (h) (z))
 (:durative-action make :parameters () :duration (= ?duration 2)
   :condition (and (at start (f)) (over all (g))) :effect (and (at start (not (f))) (at end (h))))
 (:durative-action turn :parameters () :uncontrollable-duration (and (>= ?duration 1) (<= ?duration 3))
   :condition (at end (h)) :effect (and (at start (g)) (at end (not (g)))))
 (:action touch :parameters () :effect (not (z))))";

/// Conditions with a negation, a disjunction and quantifiers.
const SHAPES: &[u8] = b"(define (domain x) (:constants a b) (:predicates (f) (g) (h) (z) (s ?x))
 (:action drop :parameters () :precondition (f) :effect (not (f)))
 (:action free :parameters () :precondition (not (f)) :effect (s a))
 (:action either :parameters () :precondition (or (g) (s a)) :effect (s b))
 (:action each :parameters () :precondition (forall (?x) (s ?x)) :effect (h))
 (:action some :parameters () :precondition (exists (?x) (not (imply (s ?x) (z)))) :effect (not (z))))";

/// Actions that wait for one another.
const CIRCLE: &[u8] = b"(define (domain x) (:predicates (f) (g) (h) (z))
 (:action one :parameters () :precondition (f) :effect (and (g) (not (h))))
 (:action two :parameters () :precondition (and (g) (not (h))) :effect (z))
 (:action three :parameters () :precondition (z) :effect (and (f) (not (g)))))";

const DOMAINS: [&[u8]; 3] = [ENDS, SHAPES, CIRCLE];

const FIRST_FACTS: [&[u8]; 10] = [
    b"",
    b"(f)",
    b"(g)",
    b"(h)",
    b"(z)",
    b"(f) (g)",
    b"(f) (h)",
    b"(g) (z)",
    b"(f) (g) (h) (z)",
    b"(at 3 (f)) (at 5 (not (f))) (g)",
];

const GOALS: [&[u8]; 3] = [
    b") (:goal (and (h) (z))))",
    b") (:goal (or (not (g)) (z))))",
    b") (:goal (not (or (f) (not (h))))))",
];

/// Which atoms may be true and which are always true, as far as is known.
#[derive(Drop)]
struct Rows {
    may: StateRow,
    always: StateRow,
}

fn is_set(row: &StateRow, atom: AtomId) -> bool {
    atom.0 < row.len() && row.get(atom)
}

fn put(row: &mut StateRow, atom: AtomId, value: bool) {
    if atom.0 < row.len() {
        row.set(atom, value);
    }
}

/// Whether all of these conditions may have a value, or one of them may.
#[cycle(may)]
fn members_may(parts: &[Cond<'_>], rows: &Rows, value: bool, all: bool) -> bool {
    for part in parts {
        if may(part, rows, value) != all {
            return !all;
        }
    }
    all
}

/// Whether a condition may have a value.
#[cycle(may)]
fn may(cond: &Cond<'_>, rows: &Rows, value: bool) -> bool {
    match cond {
        Cond::True => value,
        Cond::False => !value,
        Cond::Atom(atom) => {
            if value {
                is_set(&rows.may, *atom)
            } else {
                !is_set(&rows.always, *atom)
            }
        }
        Cond::Not(part) => may(part, rows, !value),
        Cond::And(parts) => members_may(parts, rows, value, value),
        Cond::Or(parts) => members_may(parts, rows, value, !value),
    }
}

fn take(event: &Event<'_>, rows: &mut Rows) {
    for atom in event.adds {
        put(&mut rows.may, *atom, true);
    }
    for atom in event.dels {
        put(&mut rows.always, *atom, false);
    }
}

fn take_action(action: &GroundAction<'_>, rows: &mut Rows) {
    if !may(action.start.cond, rows, true) {
        return;
    }
    take(&action.start, rows);
    let Some(finish) = action.finish else {
        return;
    };
    if may(action.over, rows, true) && may(finish.cond, rows, true) {
        take(&finish, rows);
    }
}

/// One round over all events.
fn round(task: &Task<'_>, rows: &mut Rows) {
    for timed in task.timed.as_slice() {
        take(&timed.event, rows);
    }
    for action in task.actions.as_slice() {
        take_action(action, rows);
    }
}

/// As many rounds as there are literals, and one more.
fn by_rounds(alloc: Global, task: &Task<'_>) -> Result<Rows, Memory> {
    let mut rows = Rows {
        may: task.initial.copy(alloc)?,
        always: task.initial.copy(alloc)?,
    };
    let literals = 2 * task.initial.len() as u64;
    for _ in 0..literals + 1 {
        round(task, &mut rows);
    }
    Ok(rows)
}

fn is_listed(atoms: &[AtomId], atom: AtomId) -> bool {
    for listed in atoms {
        if listed.0 == atom.0 {
            return true;
        }
    }
    false
}

/// Whether a list has just the atoms that are true in a row.
fn lists(atoms: &[AtomId], row: &StateRow) -> bool {
    for number in 0..row.len() {
        if is_listed(atoms, AtomId(number)) != row.get(AtomId(number)) {
            return false;
        }
    }
    true
}

/// Whether the least closed pair is that of plain rounds, and is a certificate where the goal is not possible in it.
fn is_least(alloc: Global, task: &Task<'_>) -> Result<bool, Memory> {
    let rows = by_rounds(alloc, task)?;
    let cert = reach(alloc, task)?;
    let shows = is_certificate(task, &cert);
    Ok(
        lists(cert.may.as_slice(), &rows.may)
            && lists(cert.always.as_slice(), &rows.always)
            && shows != may(task.goal, &rows, true),
    )
}

/// The same of the texts of a domain and a problem; not so where these are refused.
fn is_least_in(alloc: Global, domain: &[u8], problem: &[u8]) -> Result<bool, Memory> {
    let arena = Bump::new(alloc);
    let Some(problem) = problem_in(alloc, &arena, domain, problem) else {
        return Ok(false);
    };
    match ground_all(alloc, &arena, &problem) {
        Ok(task) => is_least(alloc, &task),
        Err(_fault) => Ok(false),
    }
}

/// The problem with these facts, and a text behind them.
fn problem_with(alloc: Global, facts: &[u8], rest: &[u8]) -> Result<Text, Memory> {
    between(
        alloc,
        &[b"(define (problem y) (:domain x) (:init ", facts, rest],
    )
}

#[test]
fn rounds_come_to_the_same(rt: HostRuntime) -> Result<(), Memory> {
    for domain in &DOMAINS {
        for facts in &FIRST_FACTS {
            for goal in &GOALS {
                let problem = problem_with(rt.alloc(), facts, goal)?;
                assert!(rt; is_least_in(rt.alloc(), domain, problem.as_slice())?);
            }
        }
    }
    Ok(())
}

/// Appends the numbers of atoms.
fn push_digits(out: &mut Text, atoms: &[AtomId]) -> Result<(), Memory> {
    for atom in atoms {
        push_digit(out, atom.0)?;
    }
    Ok(())
}

/// The least closed pair of a task, and a mark where it is a certificate.
fn told_of(alloc: Global, task: &Task<'_>) -> Result<Text, Memory> {
    let mut out = Text::new(alloc);
    let cert = reach(alloc, task)?;
    push_digits(&mut out, cert.may.as_slice())?;
    out.push(b"|")?;
    push_digits(&mut out, cert.always.as_slice())?;
    if is_certificate(task, &cert) {
        out.push(b"!")?;
    }
    Ok(out)
}

/// The same of the texts of a domain and a problem; empty where these are refused.
fn told(alloc: Global, domain: &[u8], problem: &[u8]) -> Result<Text, Memory> {
    let arena = Bump::new(alloc);
    let Some(problem) = problem_in(alloc, &arena, domain, problem) else {
        return Ok(Text::new(alloc));
    };
    match ground_all(alloc, &arena, &problem) {
        Ok(task) => told_of(alloc, &task),
        Err(_fault) => Ok(Text::new(alloc)),
    }
}

/// Atoms are numbered as they are first met: what is true at first, the events, the goal, and then by actions.
#[test]
fn pairs_by_hand(rt: HostRuntime) -> Result<(), Memory> {
    let rows: [(&[u8], &[u8], &[u8], &[u8]); 12] = [
        // only the end of `make` adds h, once `turn` gives it g
        (ENDS, b"(f) (g)", b") (:goal (h)))", b"012|"),
        (ENDS, b"(f)", b") (:goal (h)))", b"012|"),
        (ENDS, b"(g)", b") (:goal (h)))", b"0|0!"),
        (ENDS, b"(f) (z)", b") (:goal (not (z))))", b"0123|"),
        // f may come to be false, so that s comes by a negation, a disjunction and all of two
        (SHAPES, b"(f)", b") (:goal (h)))", b"0123|"),
        (SHAPES, b"(z)", b") (:goal (h)))", b"0134|0"),
        (SHAPES, b"(z)", b") (:goal (not (z))))", b"0234|0!"),
        (CIRCLE, b"(f)", b") (:goal (z)))", b"012|0"),
        (CIRCLE, b"(h)", b") (:goal (z)))", b"0|0!"),
        (CIRCLE, b"(f) (h)", b") (:goal (z)))", b"0123|0"),
        (CIRCLE, b"(at 3 (f)) (h)", b") (:goal (z)))", b"0123|"),
        (CIRCLE, b"", b") (:goal (and)))", b"|"),
    ];
    for (domain, facts, goal, pair) in &rows {
        let problem = problem_with(rt.alloc(), facts, goal)?;
        let found = told(rt.alloc(), domain, problem.as_slice())?;
        assert_eq!(rt; found.as_slice(), *pair, "{facts:?} {goal:?}");
    }
    Ok(())
}
