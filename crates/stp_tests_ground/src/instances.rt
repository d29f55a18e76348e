//! Ground actions: their conditions and effects under a binding, and why there is none.

use crate::setting::problem_in;
use bumpalo::Bump;
use std::alloc::Global;
use stp_base::{AtomId, List, Memory, Text};
use stp_cond::{Cond, Event};
use stp_ground::{InstanceFault, instance};
use stp_instance::Duration;
use stp_schema::Problem;
use stp_tables::AtomTable;
use stp_task::GroundAction;

/// Appends a number of one digit.
pub fn push_digit(out: &mut Text, number: u32) -> Result<(), Memory> {
    out.push(&[b'0' + (number % 10) as u8])
}

/// Appends the numbers of atoms.
fn push_atoms(out: &mut Text, atoms: &[AtomId]) -> Result<(), Memory> {
    for atom in atoms {
        push_digit(out, atom.0)?;
    }
    out.push(b";")
}

/// Appends several formulas.
#[cycle(push)]
fn push_all(out: &mut Text, word: &[u8], parts: &[Cond<'_>]) -> Result<(), Memory> {
    out.push(word)?;
    for part in parts {
        push_formula(out, part)?;
    }
    out.push(b")")
}

/// Appends a formula.
#[cycle(push)]
pub fn push_formula(out: &mut Text, cond: &Cond<'_>) -> Result<(), Memory> {
    match cond {
        Cond::True => out.push(b"T"),
        Cond::False => out.push(b"F"),
        Cond::Atom(atom) => push_digit(out, atom.0),
        Cond::Not(part) => {
            out.push(b"!")?;
            push_formula(out, part)
        }
        Cond::And(parts) => push_all(out, b"(&", parts),
        Cond::Or(parts) => push_all(out, b"(|", parts),
    }
}

/// Appends an event: what it needs, reads, adds and deletes.
pub fn push_event(out: &mut Text, event: &Event<'_>) -> Result<(), Memory> {
    push_formula(out, event.cond)?;
    out.push(b";")?;
    push_atoms(out, event.reads)?;
    push_atoms(out, event.adds)?;
    push_atoms(out, event.dels)
}

/// Appends how long an action lasts.
fn push_duration(out: &mut Text, duration: Duration) -> Result<(), Memory> {
    match duration {
        Duration::Instant => out.push(b"instant"),
        Duration::Controlled(low, high) => {
            out.push(b"controlled ")?;
            low.print(out)?;
            out.push(b" ")?;
            high.print(out)
        }
        Duration::Uncertain(low, high) => {
            out.push(b"uncertain ")?;
            low.print(out)?;
            out.push(b" ")?;
            high.print(out)
        }
    }
}

/// Appends the atoms of a table, each by its predicate and its objects.
fn push_table(out: &mut Text, table: &AtomTable) -> Result<(), Memory> {
    for number in 0..table.len() {
        let (predicate, args) = table.get(AtomId(number));
        out.push(b" ")?;
        push_digit(out, predicate)?;
        for object in args {
            push_digit(out, object.0)?;
        }
    }
    Ok(())
}

/// Appends an action.
fn push_action(out: &mut Text, action: &GroundAction<'_>) -> Result<(), Memory> {
    push_duration(out, action.duration)?;
    out.push(b" from ")?;
    push_event(out, &action.start)?;
    if let Some(finish) = &action.finish {
        out.push(b" over ")?;
        push_formula(out, action.over)?;
        out.push(b" to ")?;
        push_event(out, finish)?;
    }
    Ok(())
}

/// Several texts.
fn texts(alloc: Global, words: &[&[u8]]) -> Result<List<Text>, Memory> {
    let mut list = List::new(alloc);
    for word in words {
        let mut text = Text::new(alloc);
        text.push(word)?;
        list.push(text)?;
    }
    Ok(list)
}

/// The action of a name and arguments, written in short, with the atoms of its table.
fn told_in<'a>(
    alloc: Global,
    arena: &'a Bump,
    problem: &'a Problem<'a>,
    name: &[u8],
    words: &[&[u8]],
) -> Result<Text, InstanceFault> {
    let args = texts(alloc, words)?;
    let mut table = AtomTable::new(alloc);
    let action = instance(alloc, arena, problem, &mut table, name, &args)?;
    let mut out = Text::new(alloc);
    push_action(&mut out, &action)?;
    push_table(&mut out, &table)?;
    Ok(out)
}

/// The same for the texts of a domain and a problem; want of memory where these are refused.
pub fn told(
    alloc: Global,
    domain: &[u8],
    problem: &[u8],
    name: &[u8],
    words: &[&[u8]],
) -> Result<Text, InstanceFault> {
    let arena = Bump::new(alloc);
    let Some(problem) = problem_in(alloc, &arena, domain, problem) else {
        return Err(InstanceFault::Memory);
    };
    told_in(alloc, &arena, &problem, name, words)
}

/// Whether what is told is this, or refused so.
pub fn is_answer(told: Result<Text, InstanceFault>, wanted: Result<&[u8], InstanceFault>) -> bool {
    match told {
        Ok(text) => match wanted {
            Ok(wanted) => text.as_slice() == wanted,
            Err(_fault) => false,
        },
        Err(fault) => match wanted {
            Ok(_text) => false,
            Err(wanted) => fault == wanted,
        },
    }
}

/// Of `f`, `p`, `near` and `s` the last is static. The object `b` is number 1, and `d` is 3.
const DOMAIN: &[u8] = b"(define (domain x) (:types item - thing ghost)
 (:constants a - thing b - item c - object d - item)
 (:predicates (f) (p ?x) (near ?x ?y) (s ?x))
 (:action touch :parameters (?x ?y) :effect (and (f) (p ?x) (near ?x ?y)))
 (:action same :parameters (?x) :precondition (or (f) (= ?x ?x)))
 (:action every :parameters (?x) :precondition (forall (?y - thing ?z - item) (near ?y ?z)))
 (:action none :parameters (?x) :precondition (exists (?y - ghost) (p ?y)))
 (:action no-pair :parameters (?x) :precondition (forall (?y - item ?z - ghost) (p ?y)))
 (:action fact :parameters (?x) :precondition (s ?x))
 (:action no-fact :parameters (?x) :precondition (and (f) (s d)))
 (:action both :parameters (?x) :precondition (and (s ?x) (f)))
 (:action any :parameters (?x) :precondition (exists (?y - item) (p ?y)))
 (:action others :parameters (?x) :precondition
   (forall (?y - item) (exists (?z - item) (and (near ?y ?z) (not (= ?y ?z))))))
 (:action order :parameters (?x - object ?y - item) :precondition (near ?y ?x) :effect (not (near d ?x)))
 (:action write :parameters (?x)
   :effect (and (p d) (f) (p d) (not (p ?x)) (not (f)) (not (p d))))
 (:durative-action long :parameters (?x)
   :uncontrollable-duration (and (>= ?duration 1/2) (<= ?duration 3))
   :condition (and (at end (p ?x)) (at start (f)) (over all (not (f))))
   :effect (and (at end (f)) (at start (p c)))))";

const PROBLEM: &[u8] = b"(define (problem y) (:domain x) (:init (s b)) (:goal (and)))";

const TOLD: [(&[u8], &[u8]); 11] = [
    (b"same", b"instant from T;0;;; 0"),
    (
        b"every",
        b"instant from (&012345);012345;;; 201 203 211 213 231 233",
    ),
    (b"none", b"instant from F;;;;"),
    (b"no-pair", b"instant from T;;;;"),
    (b"fact", b"instant from T;;;;"),
    (b"no-fact", b"instant from F;0;;; 0"),
    (b"both", b"instant from 0;0;;; 0"),
    (b"any", b"instant from (|01);01;;; 11 13"),
    (b"others", b"instant from (&12);0123;;; 211 213 231 233"),
    // what is added is not deleted
    (b"write", b"instant from T;;01;2; 13 0 11"),
    // the start condition, the one over all, the end condition, the start's effects, the end's effects
    (
        b"long",
        b"uncertain 1/2 3 from 0;0;2;; over !0 to 1;1;0;; 0 11 12",
    ),
];

#[test]
fn conditions_and_effects(rt: HostRuntime) {
    for (name, wanted) in TOLD.iter() {
        let told = told(rt.alloc(), DOMAIN, PROBLEM, name, &[b"b".as_slice()]);
        assert!(rt; is_answer(told, Ok(*wanted)), "{name:?}");
    }
    let told = told(
        rt.alloc(),
        DOMAIN,
        PROBLEM,
        b"order",
        &[b"c".as_slice(), b"b"],
    );
    assert!(rt; is_answer(told, Ok(b"instant from 0;0;;1; 212 232".as_slice())));
}

const REFUSED: [(&[u8], &[&[u8]], InstanceFault); 7] = [
    (b"nope", &[b"b"], InstanceFault::UnknownAction),
    (b"same", &[], InstanceFault::WrongCount),
    (b"same", &[b"b", b"nope"], InstanceFault::WrongCount),
    (b"same", &[b"nope"], InstanceFault::UnknownObject),
    (b"order", &[b"nope", b"c"], InstanceFault::UnknownObject),
    (b"order", &[b"b", b"c"], InstanceFault::WrongType),
    (b"order", &[b"b", b"a"], InstanceFault::WrongType),
];

#[test]
fn refused_instances(rt: HostRuntime) {
    for (name, words, fault) in REFUSED.iter() {
        let told = told(rt.alloc(), DOMAIN, PROBLEM, name, words);
        assert!(rt; is_answer(told, Err(*fault)), "{fault:?}");
    }
}
