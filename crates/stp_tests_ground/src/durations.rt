//! Durations of ground actions, and the values of functions.

use crate::instances::{is_answer, told};
use crate::setting::between;
use std::alloc::Global;
use stp_base::ObjectId;
use stp_frac::Frac;
use stp_ground::InstanceFault;
use stp_instance::{Values, value};
use stp_schema::{Expr, Given, LiftedAtom, Term};

const BEFORE: &[u8] = b"(define (domain v) (:constants a b) (:functions (g ?x ?y) (h))
 (:durative-action act :parameters (?x ?y) ";

const PROBLEM: &[u8] =
    b"(define (problem y) (:domain v) (:init (= (g b a) 2) (= (g b a) 4/2)) (:goal (and)))";

/// Whether the action that lasts so, at the objects `a` and `b`, is written so or refused.
fn lasts(alloc: Global, duration: &[u8], wanted: Result<&[u8], InstanceFault>) -> bool {
    let Ok(domain) = between(alloc, &[BEFORE, duration, b"))"]) else {
        return false;
    };
    let told = told(
        alloc,
        domain.as_slice(),
        PROBLEM,
        b"act",
        &[b"a".as_slice(), b"b"],
    );
    is_answer(told, wanted)
}

const LAWFUL: [(&[u8], &[u8]); 9] = [
    (
        b":duration (= ?duration (+ 1/3 1/4))",
        b"controlled 7/12 7/12 from T;;;; over T to T;;;;",
    ),
    (
        b":duration (= ?duration (+ 1 (- 0 1/3)))",
        b"controlled 2/3 2/3 from T;;;; over T to T;;;;",
    ),
    (
        b":duration (= ?duration (- 1 (- 1/3)))",
        b"controlled 4/3 4/3 from T;;;; over T to T;;;;",
    ),
    (
        b":duration (= ?duration (* 1/3 1/4))",
        b"controlled 1/12 1/12 from T;;;; over T to T;;;;",
    ),
    (
        b":duration (= ?duration (/ 1/3 1/4))",
        b"controlled 4/3 4/3 from T;;;; over T to T;;;;",
    ),
    (
        b":duration (= ?duration (g ?y a))",
        b"controlled 2 2 from T;;;; over T to T;;;;",
    ),
    (
        b":duration (and (>= ?duration 1) (<= ?duration 2))",
        b"controlled 1 2 from T;;;; over T to T;;;;",
    ),
    (
        b":uncontrollable-duration (and (>= ?duration 1) (<= ?duration 2))",
        b"uncertain 1 2 from T;;;; over T to T;;;;",
    ),
    (
        b":uncontrollable-duration (= ?duration 2)",
        b"controlled 2 2 from T;;;; over T to T;;;;",
    ),
];

const UNLAWFUL: [&[u8]; 7] = [
    b":duration (= ?duration (/ 1/3 0))",
    b":duration (= ?duration (* 100000000000000000/1 100))",
    b":duration (= ?duration (g ?x a))",
    b":duration (= ?duration (h))",
    b":duration (and (>= ?duration 2) (<= ?duration 1))",
    b":duration (and (>= ?duration 0) (<= ?duration 1))",
    b":duration (= ?duration (- 1/3))",
];

#[test]
fn durations(rt: HostRuntime) {
    for (duration, wanted) in LAWFUL.iter() {
        assert!(rt; lasts(rt.alloc(), duration, Ok(*wanted)), "{wanted:?}");
    }
    for duration in UNLAWFUL.iter() {
        assert!(rt;
            lasts(rt.alloc(), duration, Err(InstanceFault::NoDuration)),
            "{duration:?}"
        );
    }
}

/// The number that a text spells.
fn number(text: &str) -> Option<Frac> {
    Frac::read(text.as_bytes()).ok()
}

/// A value of function 4 at some objects.
fn given<'a>(args: &'a [ObjectId], value: Frac) -> Given<'a> {
    Given {
        function: 4,
        args,
        value,
    }
}

/// What a function is worth where function 4 has two values at objects 3 and 5, and the variables are objects 5 and 3.
fn worth(alloc: Global, symbol: u32) -> Option<Frac> {
    let args = [ObjectId(3), ObjectId(5)];
    let rows = [given(&args, number("2")?), given(&args, number("9")?)];
    let Ok(values) = Values::new(alloc, &rows) else {
        return None;
    };
    let terms = [Term::Variable(1), Term::Object(ObjectId(5))];
    let expression = Expr::Value(LiftedAtom {
        symbol,
        terms: &terms,
    });
    let worth = value(alloc, &values, &[ObjectId(5), ObjectId(3)], &expression);
    worth.ok()?
}

#[test]
fn first_values(rt: HostRuntime) {
    assert!(rt; worth(rt.alloc(), 4) == number("2"));
    assert!(rt; worth(rt.alloc(), 5).is_none());
}
