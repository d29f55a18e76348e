//! Objects, facts and values, right and wrong.

use crate::problems::is_told;
use crate::setting::{between, is_problem_part_refused};
use std::alloc::Global;
use stp_refusal::Code;

/// Whether the problem of a text between two others is written so.
fn is_part_told(alloc: Global, domain: &[u8], parts: &[&[u8]; 3], wanted: &[u8]) -> bool {
    match between(alloc, parts) {
        Ok(text) => is_told(alloc, domain, text.as_slice(), wanted),
        Err(_memory) => false,
    }
}

const TYPES: &[u8] = b"(define (domain x) (:types rover) (:constants base))";

const OBJECTS: &[u8] = b"(define (problem y) (:domain x) (:goal (and)) (:objects ";

const RIGHT_OBJECTS: [(&[u8], &[u8]); 2] = [
    (b"", b" base:0;;;(and)"),
    (b"a b - rover c", b" base:0 a:1 b:1 c:0;;;(and)"),
];

const WRONG_OBJECTS: [(&[u8], u32, Code); 6] = [
    (b"a base", 2, Code::P07),
    (b"a ?b", 2, Code::P06),
    (b"a b - place", 0, Code::P06),
    (b"a - (either b c)", 4, Code::P06),
    (b"a () b", 2, Code::P06),
    (b"a - - b", 0, Code::P06),
];

#[test]
fn objects(rt: HostRuntime) {
    for (bytes, wanted) in RIGHT_OBJECTS.iter() {
        assert!(rt;
            is_part_told(rt.alloc(), TYPES, &[OBJECTS, bytes, b"))"], wanted),
            "{bytes:?}"
        );
    }
    for (bytes, at, code) in WRONG_OBJECTS.iter() {
        assert!(rt;
            is_problem_part_refused(rt.alloc(), TYPES, &[OBJECTS, bytes, b"))"], *at, *code),
            "{bytes:?}"
        );
    }
}

const SYMBOLS: &[u8] = b"(define (domain x) (:predicates (at ?x)) (:functions (f ?x)))";

const INIT: &[u8] = b"(define (problem y) (:domain x) (:objects a b) (:goal (and)) (:init ";

const RIGHT_FACTS: [(&[u8], &[u8]); 4] = [
    (b"", b" a:0 b:0;;;(and)"),
    (b"(at a) (not (at b)) (at a)", b" a:0 b:0; 00 00;;(and)"),
    (
        b"(= (f a) 3) (= (f b) 3) (= (f a) 6/2)",
        b" a:0 b:0;; 00=3 01=3;(and)",
    ),
    (
        b"(= (f a) -0) (at b) (= (f a) 0.0)",
        b" a:0 b:0; 01; 00=0;(and)",
    ),
];

const WRONG_FACTS: [(&[u8], u32, Code); 20] = [
    (b"at", 0, Code::P08),
    (b"()", 0, Code::P08),
    (b"((at) a)", 0, Code::P08),
    (b"(and (at a))", 0, Code::P08),
    (b"(at (a))", 0, Code::P08),
    (b"(not (not (at a)))", 0, Code::P08),
    (b"(not (at a) (at b))", 0, Code::P08),
    (b"(= (f a) x)", 0, Code::P08),
    (b"(= (f a) 1 2)", 0, Code::P08),
    (b"(= f 1)", 0, Code::P08),
    (b"(at -5 (at a))", 0, Code::P12),
    (b"(at x (at a))", 0, Code::P12),
    (b"(at 5 5 (at a))", 0, Code::P08),
    (b"(f a)", 0, Code::P09),
    (b"(not (q))", 5, Code::P09),
    (b"(= (at a) 1)", 3, Code::P09),
    (b"(at c)", 4, Code::P09),
    (b"(at a b)", 0, Code::P10),
    (b"(at) (at c)", 0, Code::P10),
    (b"(= (f a) 1) (= (f b) 2) (= (f a) 2)", 24, Code::P11),
];

#[test]
fn facts_and_values(rt: HostRuntime) {
    for (bytes, wanted) in RIGHT_FACTS.iter() {
        assert!(rt;
            is_part_told(rt.alloc(), SYMBOLS, &[INIT, bytes, b"))"], wanted),
            "{bytes:?}"
        );
    }
    for (bytes, at, code) in WRONG_FACTS.iter() {
        assert!(rt;
            is_problem_part_refused(rt.alloc(), SYMBOLS, &[INIT, bytes, b"))"], *at, *code),
            "{bytes:?}"
        );
    }
}
