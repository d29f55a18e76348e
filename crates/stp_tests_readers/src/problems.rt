//! Problems, read or refused.

use crate::domains::ROVER;
use crate::printing::push_problem;
use crate::setting::{between, is_problem_refused, problem_fault, problem_in};
use bumpalo::Bump;
use std::alloc::Global;
use stp_base::{Memory, Text};
use stp_refusal::{Code, ReadFault};
use stp_schema::Problem;

const TWO: &[u8] = b"(define (problem two) (:domain rover)
 (:objects r1 r2 - rover a b c - place)
 (:init (at r1 a) (at r2 a) (still r1) (still r2) (road a b) (road a c)
  (= (fast a b) 3) (= (slow a b) 7) (= (fast a c) 2.5) (= (slow a c) 4))
 (:goal (and (seen b) (seen c))))";

// The second action has 10,001 expanded nodes where there are 10 things of type `a`.
const X: &[u8] = b"(define (domain x) (:types a) (:constants c - a)
 (:predicates (p ?x - a) (q)) (:functions (f ?x - a))
 (:action one :precondition (q))
 (:action two :precondition (exists (?w ?x ?y ?z - a) (p ?w))))";

const PLAIN: &[u8] = b"(define (domain x))";

/// Sections.
const PARTS: [(&[u8], u32, Code); 19] = [
    (b"(define (domain y) (:domain x) (:goal a))", 0, Code::P01),
    (b"(define (problem ?y))", 0, Code::P01),
    (b"(define (problem y))", 0, Code::P02),
    (b"(define (problem y) (:goal a))", 0, Code::P02),
    (b"(define (problem y) (:domain z) (:goal))", 20, Code::P02),
    (b"(define (problem y) (:domain) (:goal a))", 20, Code::P02),
    (
        b"(define (problem y) (:domain x x) (:goal a))",
        20,
        Code::P02,
    ),
    (
        b"(define (problem y) (:domain (x)) (:goal a))",
        20,
        Code::P02,
    ),
    (
        b"(define (problem y) (:domain x) (:domain z) (:goal a))",
        32,
        Code::P02,
    ),
    (
        b"(define (problem y) (:types) (:domain x) (:goal a))",
        20,
        Code::P03,
    ),
    (
        b"(define (problem y) x (:domain x) (:goal a))",
        20,
        Code::P03,
    ),
    (
        b"(define (problem y) () (:domain x) (:goal a))",
        20,
        Code::P03,
    ),
    (
        b"(define (problem y) (:domain x) (:domain x) (:goal a))",
        32,
        Code::P04,
    ),
    (
        b"(define (problem y) (:domain x) (:init) (:goal a) (:init))",
        50,
        Code::P04,
    ),
    (
        b"(define (problem y) (:domain x) (:goal a) (:goal a b))",
        42,
        Code::P04,
    ),
    (b"(define (problem y) (:domain x))", 0, Code::P05),
    (b"(define (problem y) (:domain x) (:goal))", 32, Code::P05),
    (
        b"(define (problem y) (:domain x) (:goal a b))",
        32,
        Code::P05,
    ),
    (b"(define (problem y) (:domain x) (:goal a))", 39, Code::D16),
];

/// Each code, and which of several offences is given.
const WHOLE: [(&[u8], u32, Code); 21] = [
    (b" (define (domain x))", 1, Code::P01),
    (b"(define (problem y) (:goal (q)))", 0, Code::P02),
    (
        b"(define (problem y) (:domain z) (:goal (q)))",
        20,
        Code::P02,
    ),
    (
        b"(define (problem y) (:domain x) (:domain z) (:goal (q)))",
        32,
        Code::P02,
    ),
    (
        b"(define (problem y) (:domain x) (:foo) (:goal (q)))",
        32,
        Code::P03,
    ),
    (
        b"(define (problem y) (:domain x) (:init) (:init) (:goal (q)))",
        40,
        Code::P04,
    ),
    (
        b"(define (problem y) (:domain x) (:init) (:init) (:foo) (:goal (q)))",
        40,
        Code::P04,
    ),
    (b"(define (problem y) (:domain x))", 0, Code::P05),
    (b"(define (problem y) (:domain x) (:goal))", 32, Code::P05),
    (
        b"(define (problem y) (:domain x) (:objects d - e) (:goal (q)))",
        42,
        Code::P06,
    ),
    (
        b"(define (problem y) (:domain x) (:objects c) (:goal (q)))",
        42,
        Code::P07,
    ),
    (
        b"(define (problem y) (:domain x) (:init q) (:objects c) (:goal (q)))",
        52,
        Code::P07,
    ),
    (
        b"(define (problem y) (:domain x) (:init q) (:goal (q)))",
        39,
        Code::P08,
    ),
    (
        b"(define (problem y) (:domain x) (:init (r)) (:goal (q)))",
        39,
        Code::P09,
    ),
    (
        b"(define (problem y) (:domain x) (:init (q c)) (:goal (q)))",
        39,
        Code::P10,
    ),
    (
        b"(define (problem y) (:domain x) (:init (= (f c) 1) (= (f c) 2)) (:goal (q)))",
        51,
        Code::P11,
    ),
    (
        b"(define (problem y) (:domain x) (:init (at -5 (q))) (:goal (q)))",
        39,
        Code::P12,
    ),
    (
        b"(define (problem y) (:domain x) (:goal (r)))",
        39,
        Code::D17,
    ),
    (
        b"(define (problem y) (:domain x) (:objects d e g h i j k l m - a) (:goal (r)))",
        72,
        Code::D17,
    ),
    (
        b"(define (problem y) (:domain x) (:objects d e g h i j k l m - a) (:goal (forall (?w ?x ?y ?z - a) (p ?w))))",
        65,
        Code::P13,
    ),
    (
        b"(define (problem y) (:domain x) (:objects d e g h i j k l m - a) (:goal (q)))",
        2,
        Code::P14,
    ),
];

#[test]
fn refused_problems(rt: HostRuntime) {
    for (bytes, at, code) in PARTS.iter() {
        assert!(rt;
            is_problem_refused(rt.alloc(), PLAIN, bytes, *at, *code),
            "{bytes:?}"
        );
    }
    for (bytes, at, code) in WHOLE.iter() {
        assert!(rt;
            is_problem_refused(rt.alloc(), X, bytes, *at, *code),
            "{bytes:?}"
        );
    }
}

/// A problem written in short.
fn told(alloc: Global, problem: &Problem<'_>) -> Result<Text, Memory> {
    let mut out = Text::new(alloc);
    push_problem(&mut out, problem)?;
    Ok(out)
}

/// Whether a problem is written so.
pub fn is_told(alloc: Global, domain: &[u8], problem: &[u8], wanted: &[u8]) -> bool {
    let arena = Bump::new(alloc);
    let Ok(problem) = problem_in(alloc, &arena, domain, problem) else {
        return false;
    };
    match told(alloc, &problem) {
        Ok(text) => text.as_slice() == wanted,
        Err(_memory) => false,
    }
}

const TOLD: [(&[u8], &[u8], &[u8]); 3] = [
    (
        ROVER,
        TWO,
        b" r1:1 r2:1 a:2 b:2 c:2; 002 012 20 21 123 124; 023=3 123=7 024=5/2 124=4;(and(3 o3)(3 o4))",
    ),
    (
        X,
        b"(define (problem y) (:goal (p d)) (:objects d - a) (:domain x))",
        b" c:1 d:1;;;(0 o1)",
    ),
    // sections in any order
    (
        b"(define (domain x) (:predicates (p) (q)))",
        b"(define (problem y) (:goal (and)) (:metric m) (:domain x) (:init (p) (q)))",
        b"; 0 1;;(and)",
    ),
];

#[test]
fn problems_in_short(rt: HostRuntime) {
    for (domain, problem, wanted) in TOLD.iter() {
        assert!(rt; is_told(rt.alloc(), domain, problem, wanted), "{problem:?}");
    }
}

/// Conditions of 9,999 nodes together where ten objects are of the type `b`, which is below `a`.
const MOST: &[u8] = b"(exists (?x ?y ?z - a) (and (q) (q) (q) (q) (q) (q) (q) (q)))
 (exists (?x ?y - a) (and (q) (q) (q) (q) (q) (q) (q) (q)))
 (exists (?x - a) (and (q) (q) (q) (q) (q) (q) (q) (q)))
 (q) (q) (q) (q) (q) (q)";

const SMALL: [&[u8]; 3] = [
    b"(define (domain x) (:types b - a) (:predicates (q)))",
    b"",
    b"",
];

const SIMPLE: &[u8] = b"(define (domain x) (:types b - a) (:predicates (q))
 (:action one) (:action two :precondition (and ";

const LASTING: &[u8] = b"(define (domain x) (:types b - a) (:predicates (q))
 (:action one) (:durative-action two :duration (= ?duration 1)
 :condition (and (over all (and ";

const GOAL: &[u8] =
    b"(define (problem y) (:domain x) (:objects d e f g h i j k l m - b) (:goal (and ";

const EMPTY_GOAL: [&[u8]; 3] = [GOAL, b"", b")))"];

/// A part of a domain, a part of a problem, and what the problem is refused for.
const SIZES: [([&[u8]; 3], [&[u8]; 3], Option<(u32, Code)>); 6] = [
    (SMALL, [GOAL, MOST, b")))"], None),
    (SMALL, [GOAL, MOST, b"(q))))"], Some((67, Code::P13))),
    ([SIMPLE, MOST, b")))"], EMPTY_GOAL, None),
    ([SIMPLE, MOST, b"(q))))"], EMPTY_GOAL, Some((2, Code::P14))),
    ([LASTING, MOST, b")))))"], EMPTY_GOAL, None),
    (
        [LASTING, MOST, b")) (at start (q)))))"],
        EMPTY_GOAL,
        Some((2, Code::P14)),
    ),
];

/// Whether a problem from three parts is refused so for a domain from three parts, or read.
fn is_answer(
    alloc: Global,
    domain: &[&[u8]; 3],
    problem: &[&[u8]; 3],
    wanted: Option<(u32, Code)>,
) -> bool {
    let Ok(domain) = between(alloc, domain) else {
        return false;
    };
    let Ok(problem) = between(alloc, problem) else {
        return false;
    };
    let wanted = wanted.map(|(at, code)| ReadFault::Refused { code, at });
    problem_fault(alloc, domain.as_slice(), problem.as_slice()) == wanted
}

#[test]
fn sizes_of_conditions(rt: HostRuntime) {
    for (domain, problem, wanted) in SIZES.iter() {
        assert!(rt;
            is_answer(rt.alloc(), domain, problem, *wanted),
            "{wanted:?}"
        );
    }
}
