//! The bodies of actions: timed conditions, effects and durations, right and wrong.

use crate::printing::push_action;
use crate::setting::{between, domain_in, is_part_refused};
use bumpalo::Bump;
use std::alloc::Global;
use stp_base::{Memory, Text};
use stp_refusal::Code;
use stp_schema::Domain;

/// What the last action of a domain says.
fn last_action(alloc: Global, domain: &Domain<'_>) -> Result<Text, Memory> {
    let mut out = Text::new(alloc);
    if let Some(schema) = domain.schemas.last() {
        push_action(&mut out, schema)?;
    }
    Ok(out)
}

/// Whether the last action of the domain of a text is written so.
fn is_told_in(alloc: Global, text: &[u8], wanted: &[u8]) -> bool {
    let arena = Bump::new(alloc);
    let Some(domain) = domain_in(alloc, &arena, text) else {
        return false;
    };
    match last_action(alloc, &domain) {
        Ok(told) => told.as_slice() == wanted,
        Err(_memory) => false,
    }
}

/// The same for a text between two others.
fn is_told(alloc: Global, parts: &[&[u8]; 3], wanted: &[u8]) -> bool {
    match between(alloc, parts) {
        Ok(text) => is_told_in(alloc, text.as_slice(), wanted),
        Err(_memory) => false,
    }
}

const CONDITION: &[u8] = b"(define (domain x) (:predicates (at ?x) (over) (q)) (:constants a)
 (:durative-action go :duration (= ?duration 1) :condition ";

const CONDITIONS: [(&[u8], &[u8]); 5] = [
    (b"()", b" controlled 1 1(and)(and)(and)+-+-"),
    (b"(at start (q))", b" controlled 1 1(and(2))(and)(and)+-+-"),
    (b"(over all (q))", b" controlled 1 1(and)(and(2))(and)+-+-"),
    (b"(at end (q))", b" controlled 1 1(and)(and)(and(2))+-+-"),
    (
        b"(and (at end (at a)) (over all (q)) (and (at end (q)) (over all (over)) () (at start (over))) (at start (at a)))",
        b" controlled 1 1(and(1)(0 o0))(and(2)(1))(and(0 o0)(2))+-+-",
    ),
];

const WRONG_CONDITIONS: [(&[u8], u32, Code); 30] = [
    (b"(and q)", 5, Code::D16),
    (b"((q))", 0, Code::D16),
    (b"(q)", 0, Code::D16),
    (b"(at a)", 0, Code::D16),
    (b"(at start)", 0, Code::D16),
    (b"(at start (q) (q))", 0, Code::D16),
    (b"(at all (q))", 0, Code::D16),
    (b"(over start (q))", 0, Code::D16),
    (b"(over all)", 0, Code::D16),
    (b"(at (start) (q))", 0, Code::D16),
    (b"(not (at start (q)))", 0, Code::D16),
    (b"(or (at start (q)))", 0, Code::D16),
    (b"(forall (?x) (at start (q)))", 0, Code::D16),
    (b"(when (q) (q))", 0, Code::D16),
    (b"(increase (q) 1)", 0, Code::D16),
    (b"(= a a)", 0, Code::D16),
    (b"(= a)", 0, Code::D16),
    (b"(= a (q))", 0, Code::D21),
    (b"(= (q))", 0, Code::D21),
    (b"(< 1 2)", 0, Code::D21),
    (b"(> 1 2)", 0, Code::D21),
    (b"(<= 1 2)", 0, Code::D21),
    (b"(>= 1 2)", 0, Code::D21),
    (b"(preference x (at start (q)))", 0, Code::D21),
    (b"(and () (preference))", 8, Code::D21),
    (b"(at start q)", 10, Code::D16),
    (b"(over all (< 1 2))", 10, Code::D21),
    (b"(at end (at b))", 12, Code::D19),
    (b"(and (at end (r)) (q))", 13, Code::D17),
    (b"(and (q) (at end (r)))", 5, Code::D16),
];

#[test]
fn timed_conditions(rt: HostRuntime) {
    for (bytes, wanted) in CONDITIONS.iter() {
        assert!(rt;
            is_told(rt.alloc(), &[CONDITION, bytes, b"))"], wanted),
            "{bytes:?}"
        );
    }
    for (bytes, at, code) in WRONG_CONDITIONS.iter() {
        assert!(rt;
            is_part_refused(rt.alloc(), &[CONDITION, bytes, b"))"], *at, *code),
            "{bytes:?}"
        );
    }
}

const EFFECT: &[u8] = b"(define (domain x) (:types rover)
 (:predicates (at ?x) (on ?x - rover) (q)) (:constants a - object r - rover)
 (:action go :effect ";

const EFFECTS: [(&[u8], &[u8]); 5] = [
    (b"()", b" instant(and)(and)(and)+-+-"),
    (b"(q)", b" instant(and)(and)(and)+(2)-+-"),
    (b"(at a)", b" instant(and)(and)(and)+(0 o0)-+-"),
    (b"(not (q))", b" instant(and)(and)(and)+-(2)+-"),
    (
        b"(and (q) (not (at a)) (and (on r) (not (q))) () (at r))",
        b" instant(and)(and)(and)+(2)(1 o1)(0 o1)-(0 o0)(2)+-",
    ),
];

const WRONG_EFFECTS: [(&[u8], u32, Code); 32] = [
    (b"(and (q) q)", 9, Code::D22),
    (b"((q))", 0, Code::D22),
    (b"(or (q))", 0, Code::D22),
    (b"(= a a)", 0, Code::D22),
    (b"(imply (q) (q))", 0, Code::D22),
    (b"(exists (?x) (q))", 0, Code::D22),
    (b"(< 1 2)", 0, Code::D22),
    (b"(preference x (q))", 0, Code::D22),
    (b"(+ 1 2)", 0, Code::D22),
    (b"(not)", 0, Code::D22),
    (b"(not (q) (q))", 0, Code::D22),
    (b"(not q)", 0, Code::D22),
    (b"(not ())", 0, Code::D22),
    (b"(not ((q)))", 0, Code::D22),
    (b"(not (and (q)))", 0, Code::D22),
    (b"(not (when (q) (q)))", 0, Code::D22),
    (b"(when (q) (q))", 0, Code::D23),
    (b"(forall (?x) (q))", 0, Code::D23),
    (b"(increase (q) 1)", 0, Code::D23),
    (b"(decrease (q) 1)", 0, Code::D23),
    (b"(assign (q) 1)", 0, Code::D23),
    (b"(scale-up (q) 1)", 0, Code::D23),
    (b"(scale-down (q) 1)", 0, Code::D23),
    (b"(and (q) (when (q) (q)))", 9, Code::D23),
    (b"(not (s))", 5, Code::D17),
    (b"(at)", 0, Code::D18),
    (b"(not (at ?x))", 9, Code::D19),
    (b"(on a)", 4, Code::D20),
    (b"(at (a))", 4, Code::D16),
    (b"(and (at b) (when))", 9, Code::D19),
    (b"(and (or (when)) (when))", 5, Code::D22),
    (b"(and (when) (or))", 5, Code::D23),
];

#[test]
fn effects(rt: HostRuntime) {
    for (bytes, wanted) in EFFECTS.iter() {
        assert!(rt;
            is_told(rt.alloc(), &[EFFECT, bytes, b"))"], wanted),
            "{bytes:?}"
        );
    }
    for (bytes, at, code) in WRONG_EFFECTS.iter() {
        assert!(rt;
            is_part_refused(rt.alloc(), &[EFFECT, bytes, b"))"], *at, *code),
            "{bytes:?}"
        );
    }
}

const TIMED_EFFECT: &[u8] = b"(define (domain x) (:types rover)
 (:predicates (at ?x) (on ?x - rover) (q)) (:constants a - object r - rover)
 (:durative-action go :duration (= ?duration 1) :effect ";

const TIMED_EFFECTS: [(&[u8], &[u8]); 2] = [
    (b"()", b" controlled 1 1(and)(and)(and)+-+-"),
    (
        b"(and (at start (q)) (at end (not (at a))) (and (at end (and (on r) (q))) (at start (not (on r)))) ())",
        b" controlled 1 1(and)(and)(and)+(2)-(1 o1)+(1 o1)(2)-(0 o0)",
    ),
];

const WRONG_TIMED_EFFECTS: [(&[u8], u32, Code); 18] = [
    (b"(and () at)", 8, Code::D22),
    (b"(())", 0, Code::D22),
    (b"(q)", 0, Code::D22),
    (b"(at a)", 0, Code::D22),
    (b"(at start)", 0, Code::D22),
    (b"(at start (q) (q))", 0, Code::D22),
    (b"(at middle (q))", 0, Code::D22),
    (b"(at (start) (q))", 0, Code::D22),
    (b"(over all (q))", 0, Code::D22),
    (b"(not (at start (q)))", 0, Code::D22),
    (b"(when (at start (q)) (at end (q)))", 0, Code::D23),
    (b"(and (increase (q) 1))", 5, Code::D23),
    (b"(and (at start (when (q) (q))))", 15, Code::D23),
    (b"(at start q)", 10, Code::D22),
    (b"(at end (= a a))", 8, Code::D22),
    (b"(at start (at start (q)))", 10, Code::D18),
    (b"(at start (at end))", 14, Code::D19),
    (b"(and (at start (at b)) (increase))", 19, Code::D19),
];

#[test]
fn timed_effects(rt: HostRuntime) {
    for (bytes, wanted) in TIMED_EFFECTS.iter() {
        assert!(rt;
            is_told(rt.alloc(), &[TIMED_EFFECT, bytes, b"))"], wanted),
            "{bytes:?}"
        );
    }
    for (bytes, at, code) in WRONG_TIMED_EFFECTS.iter() {
        assert!(rt;
            is_part_refused(rt.alloc(), &[TIMED_EFFECT, bytes, b"))"], *at, *code),
            "{bytes:?}"
        );
    }
}

const DURATION: &[u8] = b"(define (domain x) (:predicates (on ?x ?y)) (:constants a)
 (:functions (weight ?x) (h)) (:durative-action go :parameters (?x) :uncontrollable-duration ";

const DURATIONS: [(&[u8], &[u8]); 4] = [
    (
        b"(= ?duration 4.5)",
        b" uncertain 9/2 9/2(and)(and)(and)+-+-",
    ),
    (
        b"(and (>= ?duration (weight ?x)) (<= ?duration (weight a)))",
        b" uncertain(0 v0)(0 o0)(and)(and)(and)+-+-",
    ),
    (
        b"(and (<= ?duration (- 3)) (>= ?duration (/ (h) 2)))",
        b" uncertain(/(1) 2)(- 0 3)(and)(and)(and)+-+-",
    ),
    (
        b"(= ?duration (- (+ 1 2 (h)) (* 2 3 4)))",
        b" uncertain(-(+(+ 1 2)(1))(*(* 2 3) 4))(-(+(+ 1 2)(1))(*(* 2 3) 4))(and)(and)(and)+-+-",
    ),
];

const WRONG_DURATIONS: [(&[u8], u32, Code); 8] = [
    (b"5", 0, Code::D24),
    (b"(= ?duration x)", 13, Code::D24),
    (b"(<= ?duration 4)", 0, Code::D24),
    (b"(= ?duration (on ?x a))", 13, Code::D17),
    (b"(= ?duration (weight))", 13, Code::D18),
    (b"(= ?duration (weight b))", 21, Code::D19),
    (b"(= ?duration (weight (a)))", 21, Code::D16),
    (b"(= ?duration (+ 1 (/ 2)))", 18, Code::D24),
];

#[test]
fn durations(rt: HostRuntime) {
    for (bytes, wanted) in DURATIONS.iter() {
        assert!(rt;
            is_told(rt.alloc(), &[DURATION, bytes, b"))"], wanted),
            "{bytes:?}"
        );
    }
    for (bytes, at, code) in WRONG_DURATIONS.iter() {
        assert!(rt;
            is_part_refused(rt.alloc(), &[DURATION, bytes, b"))"], *at, *code),
            "{bytes:?}"
        );
    }
}
