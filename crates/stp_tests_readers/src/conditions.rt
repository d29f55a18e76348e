//! Conditions over variables and objects, right and wrong.

use crate::printing::push_condition;
use crate::setting::{domain_in, tree_of};
use bumpalo::Bump;
use std::alloc::Global;
use std::test::Fail;
use stp_base::{Memory, Text};
use stp_domain::read_condition;
use stp_refusal::{Code, ReadFault};
use stp_schema::{Domain, Lifted, ObjectRow};

const DOMAIN: &[u8] = b"(define (domain x) (:types rover place)
 (:predicates (at ?r - rover ?p - place) (seen ?o)))";

/// A rover and three places, of which two have one name.
const OBJECTS: [ObjectRow<'static>; 4] = [
    ObjectRow {
        name: b"r1",
        kind: 1,
    },
    ObjectRow {
        name: b"p1",
        kind: 2,
    },
    ObjectRow {
        name: b"p1",
        kind: 2,
    },
    ObjectRow {
        name: b"p2",
        kind: 2,
    },
];

/// What a text says as a condition in the scope of the rover `?x` and the place `?p`.
fn condition<'a>(
    alloc: Global,
    arena: &'a Bump,
    domain: &Domain<'a>,
    bytes: &[u8],
) -> Result<Lifted<'a>, ReadFault> {
    let Some(tree) = tree_of(alloc, arena, bytes) else {
        return Err(ReadFault::Memory);
    };
    let names = [b"?x".as_slice(), b"?p".as_slice()];
    read_condition(alloc, arena, domain, &OBJECTS, &names, &[1, 2], tree)
}

/// The same, written in short.
fn told<'a>(
    alloc: Global,
    arena: &'a Bump,
    domain: &Domain<'a>,
    bytes: &[u8],
) -> Result<Text, ReadFault> {
    let condition = condition(alloc, arena, domain, bytes)?;
    let mut out = Text::new(alloc);
    push_condition(&mut out, &condition)?;
    Ok(out)
}

/// Whether a condition is written so.
fn is_told<'a>(
    alloc: Global,
    arena: &'a Bump,
    domain: &Domain<'a>,
    bytes: &[u8],
    wanted: &[u8],
) -> bool {
    match told(alloc, arena, domain, bytes) {
        Ok(text) => text.as_slice() == wanted,
        Err(_fault) => false,
    }
}

/// Whether a condition is refused so.
fn is_refused<'a>(
    alloc: Global,
    arena: &'a Bump,
    domain: &Domain<'a>,
    bytes: &[u8],
    at: u32,
    code: Code,
) -> bool {
    match condition(alloc, arena, domain, bytes) {
        Ok(_condition) => false,
        Err(fault) => fault == ReadFault::Refused { code, at },
    }
}

const RIGHT: [(&[u8], &[u8]); 8] = [
    (b"()", b"(and)"),
    (b"(at ?x p1)", b"(0 v0 o1)"),
    (b"(at ?x p2)", b"(0 v0 o3)"),
    (b"(imply (seen ?p) (= r1 ?x))", b"(or(not(1 v1))(= o0 v0))"),
    (b"(exists (?x - place) (at r1 ?x))", b"(any 2(0 o0 v2))"),
    (
        b"(forall (?r - rover ?q) (or (not (at ?r p1)) (and (exists (?x - place) (at ?r ?x)) (at ?x ?p) (= ?q ?x))))",
        b"(every 10(or(not(0 v2 o1))(and(any 2(0 v2 v4))(0 v0 v1)(= v3 v0))))",
    ),
    // an inner variable hides an outer one, and only inside
    (
        b"(and (exists (?x - place) (and (exists (?x - rover) (at ?x ?p)) (at r1 ?x))) (at ?x ?p))",
        b"(and(any 2(and(any 1(0 v3 v1))(0 o0 v2)))(0 v0 v1))",
    ),
    (
        b"(and (exists (?z) (seen ?z)) (forall (?y) (seen ?y)))",
        b"(and(any 0(1 v2))(every 0(1 v2)))",
    ),
];

const WRONG: [(&[u8], u32, Code); 33] = [
    (b"(not word)", 5, Code::D16),
    (b"((at ?x ?p))", 0, Code::D16),
    (b"(not)", 0, Code::D16),
    (b"(and (not () ()))", 5, Code::D16),
    (b"(imply ())", 0, Code::D16),
    (b"(forall (?r - rover))", 0, Code::D16),
    (b"(exists r ())", 8, Code::D16),
    (b"(forall (?r ?r) ())", 12, Code::D16),
    (b"(forall (r) ())", 9, Code::D16),
    (b"(forall (?r () ?q) ())", 12, Code::D16),
    (b"(forall (?r -) ())", 12, Code::D16),
    (b"(forall (?r - car) ())", 14, Code::D16),
    (b"(forall (?r - (either rover place)) ())", 14, Code::D16),
    (b"(when () ())", 0, Code::D16),
    (b"(increase (f) 1)", 0, Code::D16),
    (b"(scale-down (f) 1)", 0, Code::D16),
    (b"(+ 1 2)", 0, Code::D16),
    (b"(- 1)", 0, Code::D16),
    (b"(= ?x)", 0, Code::D16),
    (b"(at ?x (p1))", 7, Code::D16),
    (b"(not (near ?x))", 5, Code::D17),
    (b"(at ?x)", 0, Code::D18),
    (b"(at ?x ?q)", 7, Code::D19),
    (b"(= ?x q)", 6, Code::D19),
    (b"(at ?x r1)", 7, Code::D20),
    (b"(forall (?o) (at ?o ?p))", 17, Code::D20),
    (
        b"(and (exists (?x - place) ()) (at ?x ?p) (at ?p ?p))",
        45,
        Code::D20,
    ),
    (b"(exists (?x - place) (at ?x ?p))", 25, Code::D20),
    (b"(or () (< ?x ?p))", 7, Code::D21),
    (b"(preference x ())", 0, Code::D21),
    (b"(= ?x (f))", 0, Code::D21),
    (b"(and (at ?x) (near ?x))", 5, Code::D18),
    (b"(exists (?r - car ?r) (near))", 14, Code::D16),
];

#[test]
fn conditions_and_their_offences(rt: HostRuntime) -> Result<(), Fail> {
    let arena = Bump::new(rt.alloc());
    let domain = domain_in(rt.alloc(), &arena, DOMAIN).ok_or("a domain")?;
    for (bytes, wanted) in RIGHT.iter() {
        assert!(rt;
            is_told(rt.alloc(), &arena, &domain, bytes, wanted),
            "{bytes:?}"
        );
    }
    for (bytes, at, code) in WRONG.iter() {
        assert!(rt;
            is_refused(rt.alloc(), &arena, &domain, bytes, *at, *code),
            "{bytes:?}"
        );
    }
    Ok(())
}
