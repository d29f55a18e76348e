//! Verdicts on plans of actions over objects.

use crate::setting::{CHECK, answers};
use std::test::Fail;
use stp_cli::Status;

pub const ROVER: &[u8] = b"(define (domain rover)
 (:requirements :typing :durative-actions)
 (:types rover place - object)
 (:predicates (at ?r - rover ?p - place) (road ?a ?b - place)
   (still ?r - rover) (seen ?p - place))
 (:functions (fast ?a ?b - place) (slow ?a ?b - place))
 (:durative-action drive
  :parameters (?r - rover ?a ?b - place)
  :uncontrollable-duration (and (>= ?duration (fast ?a ?b))
    (<= ?duration (slow ?a ?b)))
  :condition (and (at start (at ?r ?a)) (at start (still ?r))
    (over all (road ?a ?b)))
  :effect (and (at start (not (at ?r ?a))) (at start (not (still ?r)))
    (at end (at ?r ?b)) (at end (still ?r))))
 (:durative-action photo
  :parameters (?r - rover ?p - place)
  :duration (= ?duration 2)
  :condition (and (over all (at ?r ?p)) (over all (still ?r)))
  :effect (at end (seen ?p))))";

const TWO: &[u8] = b"(define (problem two) (:domain rover)
 (:objects r1 r2 - rover a b c - place)
 (:init (at r1 a) (at r2 a) (still r1) (still r2) (road a b) (road a c)
  (= (fast a b) 3) (= (slow a b) 7) (= (fast a c) 2.5) (= (slow a c) 4))
 (:goal (and (seen b) (seen c))))";

#[test]
fn rovers(rt: HostRuntime) -> Result<(), Fail> {
    let rows: [(&[u8], &[u8], Status); 9] = [
        (
            b"0: (drive r1 a b) [3,7]\n0: (drive r2 a c) [*]\n8: (photo r1 b) [2]\n4.5: (photo r2 c) [2]",
            b"strong\nsteps 4 uncertain 2 grid 2\n",
            Status::Done,
        ),
        (
            b"0: (drive r1 a b) [3,7]\n0: (drive r2 a c) [*]\n6: (photo r1 b) [2]\n4.5: (photo r2 c) [2]",
            b"not strong\ndurations 13/2,5/2\nfault over-all at 6 step 3\n",
            Status::No,
        ),
        (
            b"0: (photo r1) [2]",
            b"refused plan X02 at 1\n",
            Status::Refused,
        ),
        (
            b"0: (photo r1 b) [2]\n1: (photo r9 9) [2]",
            b"refused plan X03 at 2\n",
            Status::Refused,
        ),
        (
            b"0: (photo b r9) [2]",
            b"refused plan X04 at 1\n",
            Status::Refused,
        ),
        (
            b"0: (drive r1 b a) [*]",
            b"refused plan X05 at 1\n",
            Status::Refused,
        ),
        (
            b"0: (drive r1 a b) [3,7.5]",
            b"refused plan X09 at 1\n",
            Status::Refused,
        ),
        // a step's own instance is judged before its bracket, and an earlier step before a later one
        (
            b"0: (photo r1 b) [3]\n0: (photo r9 b) [2]",
            b"refused plan X08 at 1\n",
            Status::Refused,
        ),
        (
            b"0: (photo r9 b) [3]\n0: (photo r1 b) [3]",
            b"refused plan X03 at 1\n",
            Status::Refused,
        ),
    ];
    for (plan, text, status) in rows {
        answers(&rt, rt.alloc(), &CHECK, ROVER, TWO, plan, text, status)?;
    }
    Ok(())
}

const MANY: &[u8] = b"(define (domain many)
 (:types item)
 (:predicates (p ?x - item))
 (:durative-action wipe :parameters (?x - item)
   :uncontrollable-duration (and (>= ?duration 1) (<= ?duration 9))
   :effect (at end (not (p ?x))))
 (:durative-action hold-any :parameters () :duration (= ?duration 9)
   :condition (over all (exists (?x - item) (p ?x)))))";

const ELEVEN: &[u8] = b"(define (problem y) (:domain many)
 (:objects i1 i2 i3 i4 i5 i6 i7 i8 i9 i10 i11 - item)
 (:init (p i1) (p i2) (p i3) (p i4) (p i5) (p i6) (p i7) (p i8) (p i9) (p i10) (p i11))
 (:goal (and)))";

const THREE: &[u8] = b"(define (problem y) (:domain many)
 (:objects i1 i2 i3 - item) (:init (p i1) (p i2) (p i3)) (:goal (and)))";

#[test]
fn quantified_conditions(rt: HostRuntime) -> Result<(), Fail> {
    let rows: [(&[u8], &[u8], &[u8], Status); 4] = [
        (
            ELEVEN,
            b"0: (wipe i1) [*]\n0: (hold-any) [9]",
            b"strong\nsteps 2 uncertain 1 grid 1\n",
            Status::Done,
        ),
        (
            THREE,
            b"0: (wipe i1) [*]\n0: (wipe i2) [*]\n0: (hold-any) [9]",
            b"strong\nsteps 3 uncertain 2 grid 1\n",
            Status::Done,
        ),
        (
            THREE,
            b"0: (wipe i1) [*]\n0: (wipe i2) [*]\n0: (hold-any) [9]\n0: (wipe i3) [*]",
            b"not strong\ndurations 1,1,1\nfault over-all at 1 step 3\n",
            Status::No,
        ),
        // the same action at two places that do not meet, and at two that do
        (
            THREE,
            b"0: (wipe i1) [*]\n9: (wipe i1) [*]",
            b"not strong\ndurations 9,1\nfault overlap at 9 steps 1 2\n",
            Status::No,
        ),
    ];
    for (problem, plan, text, status) in rows {
        answers(&rt, rt.alloc(), &CHECK, MANY, problem, plan, text, status)?;
    }
    Ok(())
}

/// A condition that an equality makes true still reads its atom.
const FOLDED: &[u8] = b"(define (domain folded) (:predicates (f) (g))
 (:action look :parameters (?x) :precondition (or (f) (= ?x ?x)) :effect (g))
 (:action put :parameters () :effect (f)))";

const ONE: &[u8] = b"(define (problem y) (:domain folded) (:objects o) (:init) (:goal (and)))";

#[test]
fn atoms_that_folding_drops(rt: HostRuntime) -> Result<(), Fail> {
    answers(
        &rt,
        rt.alloc(),
        &CHECK,
        FOLDED,
        ONE,
        b"1: (look o)\n1: (put)",
        b"not strong\ndurations none\nfault interference at 1 steps 1 2\n",
        Status::No,
    )?;
    answers(
        &rt,
        rt.alloc(),
        &CHECK,
        FOLDED,
        ONE,
        b"1: (look o)\n2: (put)",
        b"strong\nsteps 2 uncertain 0 grid 1\n",
        Status::Done,
    )
}
