//! Domains, read or refused.

use crate::printing::push_domain;
use crate::setting::{domain_in, is_domain_refused};
use bumpalo::Bump;
use std::alloc::Global;
use std::test::Fail;
use stp_base::{Memory, Text};
use stp_refusal::Code;
use stp_schema::Domain;

pub const ROVER: &[u8] = b"(define (domain rover)
 (:requirements :typing :durative-actions)
 (:types rover place - object)
 (:predicates (at ?r - rover ?p - place) (road ?a ?b - place)
   (still ?r - rover) (seen ?p - place))
 (:functions (fast ?a ?b - place) (slow ?a ?b - place))
 (:durative-action drive
  :parameters (?r - rover ?a ?b - place)
  :uncontrollable-duration (and (>= ?duration (fast ?a ?b))
    (<= ?duration (slow ?a ?b)))
  :condition (and (at start (at ?r ?a)) (at start (still ?r))
    (over all (road ?a ?b)))
  :effect (and (at start (not (at ?r ?a))) (at start (not (still ?r)))
    (at end (at ?r ?b)) (at end (still ?r))))
 (:durative-action photo
  :parameters (?r - rover ?p - place)
  :duration (= ?duration 2)
  :condition (and (over all (at ?r ?p)) (over all (still ?r)))
  :effect (at end (seen ?p))))";

const LAB: &[u8] = b"(define (domain lab)
 (:predicates (f) (g) (h))
 (:action see-f :parameters () :precondition (f) :effect (h))
 (:action clear-f :parameters () :effect (not (f)))
 (:durative-action up-f :parameters ()
   :uncontrollable-duration (and (>= ?duration 1) (<= ?duration 5)) :effect (at end (f)))
 (:durative-action long-f :parameters ()
   :uncontrollable-duration (and (>= ?duration 3) (<= ?duration 7)) :effect (at end (f)))
 (:durative-action late-f :parameters ()
   :uncontrollable-duration (and (>= ?duration 3) (<= ?duration 5)) :effect (at end (f)))
 (:durative-action on-f :parameters ()
   :uncontrollable-duration (and (>= ?duration 2) (<= ?duration 6)) :effect (at end (f)))
 (:durative-action off-f :parameters ()
   :uncontrollable-duration (and (>= ?duration 4) (<= ?duration 9)) :effect (at end (not (f))))
 (:durative-action drop-f :parameters ()
   :uncontrollable-duration (and (>= ?duration 3) (<= ?duration 5)) :effect (at end (not (f))))
 (:durative-action four :parameters ()
   :uncontrollable-duration (= ?duration 4) :effect (at end (f)))
 (:durative-action swap :parameters ()
   :uncontrollable-duration (and (>= ?duration 2) (<= ?duration 4))
   :effect (and (at end (f)) (at end (not (g)))))
 (:durative-action need-f :parameters ()
   :uncontrollable-duration (and (>= ?duration 2) (<= ?duration 6))
   :condition (at end (f)) :effect (at end (h)))
 (:durative-action hold-f :parameters ()
   :duration (and (>= ?duration 1) (<= ?duration 10)) :condition (over all (f)))
 (:durative-action hold-fg :parameters ()
   :duration (and (>= ?duration 1) (<= ?duration 10))
   :condition (over all (or (f) (g)))))";

const MANY: &[u8] = b"(define (domain many)
 (:types item)
 (:predicates (p ?x - item))
 (:durative-action wipe :parameters (?x - item)
   :uncontrollable-duration (and (>= ?duration 1) (<= ?duration 9))
   :effect (at end (not (p ?x))))
 (:durative-action hold-any :parameters () :duration (= ?duration 9)
   :condition (over all (exists (?x - item) (p ?x)))))";

const TRIO: &[u8] = b"(define (domain trio)
 (:predicates (a) (b) (c) (d))
 (:durative-action make-a :parameters ()
   :uncontrollable-duration (and (>= ?duration 2) (<= ?duration 3)) :effect (at end (a)))
 (:action make-b :parameters () :precondition (a) :effect (b))
 (:action make-c :parameters () :precondition (a) :effect (c)))";

const DUO: &[u8] = b"(define (domain duo)
 (:predicates (f) (g))
 (:durative-action on :parameters ()
   :uncontrollable-duration (and (>= ?duration 2) (<= ?duration 6))
   :condition (at end (g)) :effect (at end (f)))
 (:durative-action hold :parameters () :duration (= ?duration 3)
   :condition (over all (not (f))) :effect (at start (not (g)))))";

const ONCE: &[u8] = b"(define (domain once)
 (:predicates (a) (b) (c))
 (:action use-b :parameters () :precondition (a) :effect (and (b) (not (a))))
 (:action use-c :parameters () :precondition (a) :effect (and (c) (not (a)))))";

/// Sections and keys.
const PARTS: [(&[u8], u32, Code); 25] = [
    (b" (define (problem x))", 1, Code::D01),
    (b"(define (domain ?x) ())", 0, Code::D01),
    (b"(define (domain x y))", 0, Code::D01),
    (b"(define (domain (x)))", 0, Code::D01),
    (b"(domain x)", 0, Code::D01),
    (b"()", 0, Code::D01),
    (b"(define (domain x) (:goal))", 19, Code::D02),
    (b"(define (domain x) :types)", 19, Code::D02),
    (b"(define (domain x) ((:types)))", 19, Code::D02),
    (b"(define (domain x) (:derived (p) (q)))", 19, Code::D03),
    (b"(define (domain x) (:event a) ())", 19, Code::D03),
    (b"(define (domain x) (:types) (:types a))", 28, Code::D04),
    (
        b"(define (domain x) (:requirements) (:requirements a))",
        35,
        Code::D04,
    ),
    (b"(define (domain x) (:action))", 19, Code::D05),
    (b"(define (domain x) (:action (a)))", 19, Code::D05),
    (b"(define (domain x) (:action a :effect))", 19, Code::D05),
    (b"(define (domain x) (:action a () ()))", 19, Code::D05),
    (
        b"(define (domain x) (:action a :condition ()))",
        19,
        Code::D05,
    ),
    (
        b"(define (domain x) (:action a :effect () :effect ()))",
        19,
        Code::D05,
    ),
    (
        b"(define (domain x) (:action a :parameters x))",
        19,
        Code::D05,
    ),
    (
        b"(define (domain x) (:action a :duration x))",
        19,
        Code::D05,
    ),
    (
        b"(define (domain x) (:durative-action a :precondition ()))",
        19,
        Code::D05,
    ),
    (
        b"(define (domain x) (:durative-action a :duration x :duration x))",
        19,
        Code::D05,
    ),
    (
        b"(define (domain x) (:durative-action a :effect ()) (:derived))",
        19,
        Code::D06,
    ),
    (
        b"(define (domain x) (:durative-action a :duration x :uncontrollable-duration x))",
        19,
        Code::D06,
    ),
];

/// Names, lists and types.
const DECLARATIONS: [(&[u8], u32, Code); 28] = [
    (b"(define (domain x) (:types a b a))", 31, Code::D08),
    (b"(define (domain x) (:types object))", 27, Code::D08),
    (b"(define (domain x) (:types a.b))", 27, Code::D07),
    (b"(define (domain x) (:types a - -))", 31, Code::D07),
    (b"(define (domain x) (:constants c c))", 33, Code::D08),
    (
        b"(define (domain x) (:predicates (p ?x) (p)))",
        40,
        Code::D08,
    ),
    (b"(define (domain x) (:predicates (and)))", 33, Code::D09),
    (
        b"(define (domain x) (:predicates (p ?x ?x)))",
        38,
        Code::D08,
    ),
    (b"(define (domain x) (:predicates (p x)))", 35, Code::D07),
    (b"(define (domain x) (:action ?x))", 28, Code::D07),
    (
        b"(define (domain x) (:action a) (:action a))",
        40,
        Code::D08,
    ),
    (b"(define (domain x) (:types a -))", 29, Code::D10),
    (
        b"(define (domain x) (:types a - (either b c)))",
        31,
        Code::D11,
    ),
    (b"(define (domain x) (:predicates p))", 32, Code::D10),
    (
        b"(define (domain x) (:functions (f) number))",
        35,
        Code::D10,
    ),
    (b"(define (domain x) (:functions - number))", 31, Code::D10),
    (
        b"(define (domain x) (:functions (f) - (either a b)))",
        37,
        Code::D11,
    ),
    (
        b"(define (domain x) (:predicates (p ?1 ?2 ?3 ?4 ?5 ?6 ?7 ?8 ?9 ?a ?b ?c ?d ?e ?f ?g 5)))",
        32,
        Code::D12,
    ),
    (b"(define (domain x) (:constants c - t))", 35, Code::D13),
    (
        b"(define (domain x) (:constants c - t) (:types a a))",
        48,
        Code::D08,
    ),
    (
        b"(define (domain x) (:predicates (p ?x - t)))",
        40,
        Code::D13,
    ),
    (
        b"(define (domain x) (:action a :parameters (?x - t)))",
        48,
        Code::D13,
    ),
    (
        b"(define (domain x) (:functions (f) - real))",
        37,
        Code::D15,
    ),
    (b"(define (domain x) (:types a - b b - a))", 27, Code::D14),
    (b"(define (domain x) (:types a - a))", 27, Code::D14),
    (
        b"(define (domain x) (:types c - a a - b b - a))",
        33,
        Code::D14,
    ),
    (
        b"(define (domain x) (:durative-action ?a :duration x) (:action - :effect b))",
        37,
        Code::D07,
    ),
    (
        b"(define (domain x) (:types d - c e - f f - e c - a b - a))",
        33,
        Code::D14,
    ),
];

/// Each code, and which of several offences is given.
const WHOLE: [(&[u8], u32, Code); 42] = [
    (b"(define)", 0, Code::D01),
    (b"(define (domain x) (:foo))", 19, Code::D02),
    (b"(define (domain x) (:derived))", 19, Code::D03),
    (b"(define (domain x) (:types) (:types))", 28, Code::D04),
    (b"(define (domain x) (:durative-action a))", 19, Code::D06),
    (b"(define (domain x) (:types -x))", 27, Code::D07),
    (b"(define (domain x) (:types a a))", 29, Code::D08),
    (b"(define (domain x) (:types ()))", 27, Code::D10),
    (
        b"(define (domain x) (:constants c - (either a)))",
        35,
        Code::D11,
    ),
    (
        b"(define (domain x) (:predicates (p ?a ?b ?c ?d ?e ?f ?g ?h ?i ?j ?k ?l ?m ?n ?o ?p ?q)))",
        32,
        Code::D12,
    ),
    (b"(define (domain x) (:functions (f) - t))", 37, Code::D15),
    (
        b"(define (domain x) (:action a :precondition p))",
        44,
        Code::D16,
    ),
    (
        b"(define (domain x) (:action go :precondition (p)))",
        45,
        Code::D17,
    ),
    (
        b"(define (domain x) (:predicates (p)) (:action go :precondition (p c)))",
        63,
        Code::D18,
    ),
    (
        b"(define (domain x) (:predicates (p ?x)) (:action go :precondition (p ?y)))",
        69,
        Code::D19,
    ),
    (
        b"(define (domain x) (:types a b) (:predicates (p ?x - a)) (:action go :parameters (?y - b) :precondition (p ?y)))",
        107,
        Code::D20,
    ),
    (
        b"(define (domain x) (:action go :precondition (< a b)))",
        45,
        Code::D21,
    ),
    (b"(define (domain x) (:action go :effect p))", 39, Code::D22),
    (
        b"(define (domain x) (:action go :effect (when)))",
        39,
        Code::D23,
    ),
    (
        b"(define (domain x) (:durative-action go :duration 5))",
        50,
        Code::D24,
    ),
    (b"(define (domain x) (:types a a -b))", 29, Code::D08),
    (b"(define (domain x) (:durative-action))", 19, Code::D05),
    (
        b"(define (domain x) (:action go :precondition (p)) (:types a a))",
        60,
        Code::D08,
    ),
    (
        b"(define (domain x) (:constants c - t) (:types b b))",
        48,
        Code::D08,
    ),
    (b"(define (domain x) (:types a a) (:foo))", 32, Code::D02),
    (
        b"(define (domain x) (:action go :precondition (p)) (:constants c - t))",
        66,
        Code::D13,
    ),
    (b"(define (domain x) (:constraints))", 19, Code::D03),
    (b"(define (domain x) (:process a))", 19, Code::D03),
    (b"(define (domain x) (:event a))", 19, Code::D03),
    (
        b"(define (domain x) (:predicates (p ?x - (either a b))))",
        40,
        Code::D11,
    ),
    (
        b"(define (domain x) (:action go :precondition (preference x (p))))",
        45,
        Code::D21,
    ),
    (
        b"(define (domain x) (:action go :precondition (and (>= (f) 2))))",
        50,
        Code::D21,
    ),
    (
        b"(define (domain x) (:action go :precondition (not (= (f) 2))))",
        50,
        Code::D21,
    ),
    (
        b"(define (domain x) (:action go :effect (when (p) (q))))",
        39,
        Code::D23,
    ),
    (
        b"(define (domain x) (:action go :effect (and (forall (?x) (p ?x)))))",
        44,
        Code::D23,
    ),
    (
        b"(define (domain x) (:action go :effect (increase (f) 1)))",
        39,
        Code::D23,
    ),
    (
        b"(define (domain x) (:action go :effect (decrease (f) 1)))",
        39,
        Code::D23,
    ),
    (
        b"(define (domain x) (:action go :effect (assign (f) 1)))",
        39,
        Code::D23,
    ),
    (
        b"(define (domain x) (:action go :effect (scale-up (f) 2)))",
        39,
        Code::D23,
    ),
    (
        b"(define (domain x) (:durative-action go :duration (= ?duration 1) :condition (over all (< (f) 2))))",
        87,
        Code::D21,
    ),
    (
        b"(define (domain x) (:durative-action go :duration (= ?duration 1) :effect (at end (when (p) (q)))))",
        82,
        Code::D23,
    ),
    (
        b"(define (domain x) (:durative-action go :duration (= ?duration (f))))",
        63,
        Code::D17,
    ),
];

#[test]
fn refused_domains(rt: HostRuntime) {
    for (bytes, at, code) in PARTS.iter() {
        assert!(rt;
            is_domain_refused(rt.alloc(), bytes, *at, *code),
            "{bytes:?}"
        );
    }
    for (bytes, at, code) in DECLARATIONS.iter() {
        assert!(rt;
            is_domain_refused(rt.alloc(), bytes, *at, *code),
            "{bytes:?}"
        );
    }
    for (bytes, at, code) in WHOLE.iter() {
        assert!(rt;
            is_domain_refused(rt.alloc(), bytes, *at, *code),
            "{bytes:?}"
        );
    }
}

/// The same text in capital letters.
fn in_capitals(alloc: Global, bytes: &[u8]) -> Result<Text, Memory> {
    let mut out = Text::new(alloc);
    for byte in bytes {
        out.push(&[byte.to_ascii_uppercase()])?;
    }
    Ok(out)
}

/// Whether the text of a domain is read.
fn is_read(alloc: Global, bytes: &[u8]) -> bool {
    let arena = Bump::new(alloc);
    domain_in(alloc, &arena, bytes).is_some()
}

const LAWFUL: [&[u8]; 15] = [
    ROVER,
    LAB,
    MANY,
    TRIO,
    DUO,
    ONCE,
    b"(define (domain x))",
    b"(define (domain x) (:types a))",
    b"(define (domain x) (:types a - object))",
    b"(define (domain x) (:types a - b b))",
    b"(define (domain x) (:functions (f) - number (g)))",
    b"(define (domain x) (:predicates (p ?1 ?2 ?3 ?4 ?5 ?6 ?7 ?8 ?9 ?a ?b ?c ?d ?e ?f ?g)))",
    b"(define (domain x) (:types t) (:constants c - t))",
    b"(define (domain x) (:action go :effect (p) :precondition (q c)) (:predicates (p) (q ?x - t)) (:constants c - t) (:types t))",
    b"; (\r\n(define (domain x) ; )\r\n (:types t)\r\n (:action go :precondition ()))\r\n",
];

#[test]
fn lawful_domains(rt: HostRuntime) -> Result<(), Fail> {
    for bytes in LAWFUL.iter() {
        assert!(rt; is_read(rt.alloc(), bytes), "{bytes:?}");
    }
    let capitals = in_capitals(rt.alloc(), LAB)?;
    assert!(rt; is_read(rt.alloc(), capitals.as_slice()));
    Ok(())
}

/// A domain written in short.
fn told(alloc: Global, domain: &Domain<'_>) -> Result<Text, Memory> {
    let mut out = Text::new(alloc);
    push_domain(&mut out, domain)?;
    Ok(out)
}

/// Whether a domain is written so.
fn is_told(alloc: Global, bytes: &[u8], wanted: &[u8]) -> bool {
    let arena = Bump::new(alloc);
    let Some(domain) = domain_in(alloc, &arena, bytes) else {
        return false;
    };
    match told(alloc, &domain) {
        Ok(text) => text.as_slice() == wanted,
        Err(_memory) => false,
    }
}

const TOLD: [(&[u8], &[u8]); 2] = [
    (
        b"(define (domain x) (:types a c - b) (:constants k - c) (:predicates (p ?x - c ?y)) (:functions (f ?z - b) - number) (:action go :parameters (?u - a)))",
        b"x object:0 a:3 c:3 b:0; p:20; f:3; k:2; go:1 instant(and)(and)(and)+-+-",
    ),
    // sections and keys in any order, in capitals too
    (
        b"(DEFINE (domain x_1) (:action b :effect (q) :parameters (?u)) (:predicates (p ?x) (q)) (:requirements) (:durative-action c :uncontrollable-duration (= ?duration 4)) (:types t))",
        b"x_1 object:0 t:0; p:0 q:;;; b:0 instant(and)(and)(and)+(1)-+- c: uncertain 4 4(and)(and)(and)+-+-",
    ),
];

#[test]
fn domains_in_short(rt: HostRuntime) {
    for (bytes, wanted) in TOLD.iter() {
        assert!(rt; is_told(rt.alloc(), bytes, wanted), "{bytes:?}");
    }
}

/// The type 4 is below 3, which is below 1, which is below 2, and 5 is below 1.
const CHAIN: &[u8] = b"(define (domain x) (:types b - a c - b d - c e - b))";

const BELOW: [(u32, u32, bool); 8] = [
    (4, 2, true),
    (4, 1, true),
    (4, 0, true),
    (5, 5, true),
    (5, 0, true),
    (5, 3, false),
    (2, 4, false),
    (0, 2, false),
];

#[test]
fn types_below_one_another(rt: HostRuntime) -> Result<(), Fail> {
    let arena = Bump::new(rt.alloc());
    let domain = domain_in(rt.alloc(), &arena, CHAIN).ok_or("a domain")?;
    for (kind, other, wanted) in BELOW.iter() {
        assert!(rt; domain.is_below(*kind, *other) == *wanted, "{kind} {other}");
    }
    Ok(())
}
