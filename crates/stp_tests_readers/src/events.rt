//! Events of the environment, right and wrong.

use crate::printing::push_events;
use crate::setting::{between, is_problem_part_refused, problem_in};
use bumpalo::Bump;
use std::alloc::Global;
use stp_base::{Memory, Text};
use stp_refusal::Code;
use stp_schema::Problem;

/// The predicates are `f`, 0; `g`, 1; `at`, 2; and `between`, 3. The objects are `c`, 0, and `d`, 1.
const SYMBOLS: &[u8] = b"(define (domain x) (:types a) (:constants c - a d)
 (:predicates (f) (g ?x - a) (at ?x ?y) (between ?x ?y ?z)) (:functions (v ?x)))";

const INIT: &[u8] = b"(define (problem y) (:domain x) (:goal (and)) (:init ";

/// The facts and the events of a problem in short.
fn told(alloc: Global, problem: &Problem<'_>) -> Result<Text, Memory> {
    let mut out = Text::new(alloc);
    push_events(&mut out, problem)?;
    Ok(out)
}

/// Whether items of `:init` tell these facts and events.
fn are_told(alloc: Global, items: &[u8], wanted: &[u8]) -> bool {
    let arena = Bump::new(alloc);
    let Ok(text) = between(alloc, &[INIT, items, b"))"]) else {
        return false;
    };
    let Ok(problem) = problem_in(alloc, &arena, SYMBOLS, text.as_slice()) else {
        return false;
    };
    match told(alloc, &problem) {
        Ok(text) => text.as_slice() == wanted,
        Err(_memory) => false,
    }
}

/// Whether items of `:init` are refused so, at a place behind the first of them.
fn are_refused(alloc: Global, items: &[u8], at: u32, code: Code) -> bool {
    is_problem_part_refused(alloc, SYMBOLS, &[INIT, items, b"))"], at, code)
}

/// Literals at one time.
const TIMED: [(&[u8], &[u8]); 13] = [
    (b"", b";"),
    (b"(at 0 (f))", b"; 0:+0"),
    (b"(at -0 (f))", b"; 0:+0"),
    (b"(at 5 (not (f)))", b"; 5:-0"),
    (b"(at 5/2 (g c))", b"; 5/2:+10"),
    (b"(at 100000000 (f))", b"; 100000000:+0"),
    (b"(at 200000000/2 (f))", b"; 100000000:+0"),
    (
        b"(at 99999999.999999999 (f))",
        b"; 99999999999999999/1000000000:+0",
    ),
    // facts of a predicate of this name
    (b"(at c d) (not (at d c))", b" 201;"),
    (b"(at 5 (at d c)) (at d d)", b" 211; 5:+210"),
    (b"(at 5 (between c d c))", b"; 5:+3010"),
    // one event of one time, in the order of the text
    (
        b"(at 2.5 (f)) (f) (at 5/2 (not (f))) (at 10/4 (f))",
        b" 0; 5/2:+0-0+0",
    ),
    (
        b"(at 3 (f)) (at 1 (g c)) (at 2 (f)) (at 1 (f))",
        b"; 1:+10+0 2:+0 3:+0",
    ),
];

/// Events whose times the environment chooses.
const CHOSEN: [(&[u8], &[u8]); 13] = [
    (b"(between 3 5 (f))", b"; 3..5:+0"),
    (b"(between 3 5 (not (g c)))", b"; 3..5:-10"),
    (b"(between 0 100000000 (f))", b"; 0..100000000:+0"),
    (b"(between 5/3 2.5 (and (f)))", b"; 5/3..5/2:+0"),
    (b"(between 3 5 (and))", b"; 3..5:"),
    (b"(between 3 5 (and (f) (not (f)) (f)))", b"; 3..5:+0-0+0"),
    // a fact of a predicate of this name
    (b"(between c d d)", b" 3011;"),
    // one time
    (b"(between 5 5 (f))", b"; 5:+0"),
    (b"(between 5/2 2.5 (and (f) (not (g c))))", b"; 5/2:+0-10"),
    (b"(between 5 5 (and))", b";"),
    (
        b"(at 7 (f)) (between 7 7 (and (not (f)) (g c))) (at 7 (not (g c)))",
        b"; 7:+0-0+10-10",
    ),
    // in the order of the text, behind those at one time
    (
        b"(between 6 9 (f)) (between 1 9 (f)) (between 6 9 (f))",
        b"; 6..9:+0 1..9:+0 6..9:+0",
    ),
    (
        b"(between 3 5 (f)) (at 7 (f)) (f) (at 2 (g c)) (between 1 2 (not (f))) (between 2 2 (f))",
        b" 0; 2:+10+0 7:+0 3..5:+0 1..2:-0",
    ),
];

/// Times at which no literal comes.
const WRONG_TIMES: [(&[u8], u32, Code); 10] = [
    (b"(at -1 (f))", 0, Code::P12),
    (b"(at -1/2 (f))", 0, Code::P12),
    (b"(at 100000001 (f))", 0, Code::P12),
    (b"(at 100000000.000000001 (f))", 0, Code::P12),
    (b"(at 1000000000 (f))", 0, Code::P12),
    (b"(at 5/0 (f))", 0, Code::P12),
    (b"(at x (f))", 0, Code::P12),
    (b"(at () (f))", 0, Code::P12),
    (b"(at (f) (f))", 0, Code::P12),
    (b"(at +1 (f))", 0, Code::P12),
];

/// Lists that are no literal.
const WRONG_LITERALS: [(&[u8], u32, Code); 16] = [
    (b"(at 5 ())", 0, Code::P12),
    (b"(at 5 ((f)))", 0, Code::P12),
    (b"(at 5 (and (f)))", 0, Code::P12),
    (b"(at 5 (and))", 0, Code::P12),
    (b"(at 5 (not f))", 0, Code::P12),
    (b"(at 5 (not))", 0, Code::P12),
    (b"(at 5 (not (not (f))))", 0, Code::P12),
    (b"(at 5 (not (f) (f)))", 0, Code::P12),
    (b"(at 5 (not (and (f))))", 0, Code::P12),
    (b"(at 5 (= (v c) 1))", 0, Code::P12),
    (b"(at 5 (g (c)))", 0, Code::P12),
    (b"(at 5 (when (f)))", 0, Code::P12),
    (b"(at 5 (or (f)))", 0, Code::P12),
    (b"(at 5 (increase c))", 0, Code::P12),
    (b"(at 5 (forall (f)))", 0, Code::P12),
    (b"(at 5 (+ c c))", 0, Code::P12),
];

/// Items that tell no event.
const OTHER_FORMS: [(&[u8], u32, Code); 14] = [
    (b"(at 5 (f) (f))", 0, Code::P08),
    (b"(at (f) 5)", 0, Code::P08),
    (b"(not (at 5 (f)))", 0, Code::P08),
    (b"(and (at 5 (f)))", 0, Code::P08),
    (b"(at 5)", 0, Code::P10),
    (b"(at 5 c)", 4, Code::P09),
    (b"(at c 5)", 6, Code::P09),
    (b"(between 3 (f))", 0, Code::P08),
    (b"(between 3 5 5 (f))", 0, Code::P08),
    (b"(not (between 3 5 (f)))", 0, Code::P08),
    (b"(between 3 5)", 0, Code::P10),
    (b"(between 3 5 c)", 9, Code::P09),
    (b"(between 3 5 f)", 9, Code::P09),
    (b"(= (at 5 (f)) 1)", 0, Code::P08),
];

/// Bounds of no event.
const WRONG_WINDOWS: [(&[u8], u32, Code); 13] = [
    (b"(between 5 3 (f))", 0, Code::P16),
    (b"(between 5/2 2 (f))", 0, Code::P16),
    (b"(between 3 100000001 (f))", 0, Code::P16),
    (b"(between 100000001 100000001 (f))", 0, Code::P16),
    (b"(between -1 3 (f))", 0, Code::P16),
    (b"(between -2 -1 (f))", 0, Code::P16),
    (b"(between x 3 (f))", 0, Code::P16),
    (b"(between 3 x (f))", 0, Code::P16),
    (b"(between (f) 3 (f))", 0, Code::P16),
    (b"(between 3 () (f))", 0, Code::P16),
    (b"(between 3 3.0000000001 (f))", 0, Code::P16),
    (b"(between 3 4/0 (f))", 0, Code::P16),
    (b"(between 5 3 (and))", 0, Code::P16),
];

/// Lists that are no effect.
const WRONG_EFFECTS: [(&[u8], u32, Code); 12] = [
    (b"(between 3 5 ())", 0, Code::P16),
    (b"(between 3 5 ((f)))", 0, Code::P16),
    (b"(between 3 5 (and f))", 0, Code::P16),
    (b"(between 3 5 (and (and (f))))", 0, Code::P16),
    (b"(between 3 5 (and (f) (not f)))", 0, Code::P16),
    (b"(between 3 5 (and ()))", 0, Code::P16),
    (b"(between 3 5 (or (f)))", 0, Code::P16),
    (b"(between 3 5 (not (not (f))))", 0, Code::P16),
    (b"(between 3 5 (not (and (f))))", 0, Code::P16),
    (b"(between 3 5 (when (f)))", 0, Code::P16),
    (b"(between 3 5 (and (= (v c) 1)))", 0, Code::P16),
    (b"(between 5 5 (or))", 0, Code::P16),
];

/// Literals of atoms that are not declared, or whose arguments do not fit.
const WRONG_ATOMS: [(&[u8], u32, Code); 13] = [
    (b"(at 5 (q))", 6, Code::P09),
    (b"(at 5 (not (q)))", 11, Code::P09),
    (b"(at 5 (v c))", 6, Code::P09),
    (b"(at 5 (g e))", 9, Code::P09),
    (b"(at 5 (at 6 d))", 10, Code::P09),
    (b"(at 5 (g d))", 6, Code::P10),
    (b"(at 5 (not (f c)))", 11, Code::P10),
    (b"(at 5 (g))", 6, Code::P10),
    (b"(at 5 (g e e))", 6, Code::P10),
    (b"(between 3 5 (q))", 13, Code::P09),
    (b"(between 3 5 (and (f) (not (q))))", 27, Code::P09),
    (b"(between 5 5 (g e))", 16, Code::P09),
    (b"(between 3 5 (and (g d) (q)))", 18, Code::P10),
];

/// Several offences, of which the one of the least place is given.
const FIRSTS: [(&[u8], u32, Code); 9] = [
    (b"(at 5 (q)) (at x (f))", 6, Code::P09),
    (b"(at x (f)) (at 5 (q))", 0, Code::P12),
    (b"(at x (q))", 0, Code::P12),
    (b"(between 5 3 (q))", 0, Code::P16),
    (b"(f) (between 5 3 (f)) (at x (f))", 4, Code::P16),
    (b"(at x (f)) (between 5 3 (f)) (q)", 0, Code::P12),
    (b"(q) (between 5 3 (f))", 0, Code::P09),
    (b"(= (v c) 1) (= (v c) 2) (at x (f))", 12, Code::P11),
    (
        b"(at 5 (q)) (= (v c) 1) (= (v c) 2) (at x (f)) (and)",
        6,
        Code::P09,
    ),
];

#[test]
fn events_in_short(rt: HostRuntime) {
    for (items, wanted) in TIMED.iter() {
        assert!(rt; are_told(rt.alloc(), items, wanted), "{items:?}");
    }
    for (items, wanted) in CHOSEN.iter() {
        assert!(rt; are_told(rt.alloc(), items, wanted), "{items:?}");
    }
}

/// Whether each list of items is refused as its row says.
fn are_all_refused(alloc: Global, rows: &[(&[u8], u32, Code)]) -> bool {
    for (items, at, code) in rows {
        if !are_refused(alloc, items, *at, *code) {
            return false;
        }
    }
    true
}

#[test]
fn wrong_timed_literals(rt: HostRuntime) {
    assert!(rt; are_all_refused(rt.alloc(), &WRONG_TIMES));
    assert!(rt; are_all_refused(rt.alloc(), &WRONG_LITERALS));
    assert!(rt; are_all_refused(rt.alloc(), &OTHER_FORMS));
}

#[test]
fn wrong_events(rt: HostRuntime) {
    assert!(rt; are_all_refused(rt.alloc(), &WRONG_WINDOWS));
    assert!(rt; are_all_refused(rt.alloc(), &WRONG_EFFECTS));
    assert!(rt; are_all_refused(rt.alloc(), &WRONG_ATOMS));
    assert!(rt; are_all_refused(rt.alloc(), &FIRSTS));
}
