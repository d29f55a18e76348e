//! Plans that are found without a search, goals that cannot be reached, and problems whose tasks are refused.

use crate::rover::ROVER;
use crate::setting::{F_AT_FIRST, LAB, answers};
use std::alloc::Global;
use std::process::Abort;
use std::test::Fail;
use stp_cli::Status;

const TRIO: &[u8] = b"(define (domain trio)
 (:predicates (a) (b) (c) (d))
 (:durative-action make-a :parameters ()
   :uncontrollable-duration (and (>= ?duration 2) (<= ?duration 3)) :effect (at end (a)))
 (:action make-b :parameters () :precondition (a) :effect (b))
 (:action make-c :parameters () :precondition (a) :effect (c)))";

/// f can be false only once g was true, and g comes only where f is false.
const KEEP: &[u8] = b"(define (domain keep)
 (:predicates (f) (g) (h))
 (:action up :parameters () :precondition (not (f)) :effect (g))
 (:action put :parameters () :precondition (g) :effect (not (f)))
 (:action other :parameters () :effect (h)))";

/// What ends needs more than what starts.
const ENDS: &[u8] = b"(define (domain ends)
 (:predicates (f) (g) (h) (k))
 (:durative-action late :parameters () :duration (= ?duration 2)
   :condition (and (at start (f)) (over all (or (g) (k))) (at end (not (k))))
   :effect (and (at start (h)) (at end (g)) (at end (not (f)))))
 (:action put :parameters () :precondition (h) :effect (not (k))))";

/// Everything is wanted of all, and given to those that have q.
const ALL: &[u8] = b"(define (domain all)
 (:types t) (:predicates (p ?x - t) (q ?x - t) (g))
 (:action all :parameters () :precondition (forall (?x - t) (p ?x)) :effect (g))
 (:action one :parameters (?x - t) :precondition (q ?x) :effect (p ?x)))";

/// An action for each duration.
const LONG: &[u8] = b"(define (domain long)
 (:predicates (f) (g))
 (:functions (most))
 (:durative-action first :parameters () :duration (= ?duration 1) :effect (at end (f)))
 (:durative-action second :parameters () :duration (= ?duration (most)) :effect (at end (f))))";

const DUO: &[u8] = b"(define (domain duo)
 (:predicates (f) (g))
 (:durative-action on :parameters ()
   :uncontrollable-duration (and (>= ?duration 2) (<= ?duration 6))
   :condition (at end (g)) :effect (at end (f)))
 (:durative-action hold :parameters () :duration (= ?duration 3)
   :condition (over all (not (f))) :effect (at start (not (g)))))";

const ONCE: &[u8] = b"(define (domain once)
 (:predicates (a) (b) (c))
 (:action use-b :parameters () :precondition (a) :effect (and (b) (not (a))))
 (:action use-c :parameters () :precondition (a) :effect (and (c) (not (a)))))";

/// An action of fifteen parameters, each of which may be each of a hundred objects.
const HUGE: &[u8] = b"(define (domain huge)
 (:predicates (f) (g ?x))
 (:action all
   :parameters (?x0 ?x1 ?x2 ?x3 ?x4 ?x5 ?x6 ?x7 ?x8 ?x9 ?x10 ?x11 ?x12 ?x13 ?x14)
   :precondition (g ?x0) :effect (f)))";

const HUNDRED: &[u8] = b"(define (problem y) (:domain huge)
 (:objects o0 o1 o2 o3 o4 o5 o6 o7 o8 o9 o10 o11 o12 o13 o14 o15 o16 o17 o18 o19 o20 o21 o22 o23 o24 o25 o26 o27 o28 o29 o30 o31 o32 o33 o34 o35 o36 o37 o38 o39 o40 o41 o42 o43 o44 o45 o46 o47 o48 o49
 o50 o51 o52 o53 o54 o55 o56 o57 o58 o59 o60 o61 o62 o63 o64 o65 o66 o67 o68 o69 o70 o71 o72 o73 o74 o75 o76 o77 o78 o79 o80 o81 o82 o83 o84 o85 o86 o87 o88 o89 o90 o91 o92 o93 o94 o95 o96 o97 o98 o99)
 (:init) (:goal (f)))";

const PLAN: [&str; 6] = ["stp", "plan", "d", "p", "--budget", "0"];

/// A domain, a problem, the text of the answer and the status.
type Row<'r> = (&'r [u8], &'r [u8], &'r [u8], Status);

/// Each row is answered so.
fn are_answered(rt: &impl Abort, alloc: Global, rows: &[Row<'_>]) -> Result<(), Fail> {
    for (domain, problem, text, status) in rows {
        answers(rt, alloc, &PLAN, domain, problem, b"", text, *status)?;
    }
    Ok(())
}

#[test]
fn found_or_spent(rt: HostRuntime) -> Result<(), Fail> {
    let found = b"; plan 0 steps\n";
    let spent = b"budget spent\n";
    let rows: [Row<'static>; 11] = [
        (LAB, F_AT_FIRST, found, Status::Done),
        (
            LAB,
            b"(define (problem y) (:domain lab) (:init (f)) (:goal (f)))",
            found,
            Status::Done,
        ),
        (
            LAB,
            b"(define (problem y) (:domain lab) (:init) (:goal (f)))",
            spent,
            Status::BudgetSpent,
        ),
        // only the end of an action adds a
        (
            TRIO,
            b"(define (problem y) (:domain trio) (:init) (:goal (b)))",
            spent,
            Status::BudgetSpent,
        ),
        (
            DUO,
            b"(define (problem y) (:domain duo) (:init (g)) (:goal (f)))",
            spent,
            Status::BudgetSpent,
        ),
        // the goal is possible, though no plan reaches it
        (
            ONCE,
            b"(define (problem y) (:domain once) (:init (a)) (:goal (and (b) (c))))",
            spent,
            Status::BudgetSpent,
        ),
        // an event of the environment makes the goal true, and false
        (
            KEEP,
            b"(define (problem y) (:domain keep) (:init (f) (at 4 (g))) (:goal (and (f) (g))))",
            found,
            Status::Done,
        ),
        (
            KEEP,
            b"(define (problem y) (:domain keep) (:init (f) (at 5/2 (not (f)))) (:goal (f)))",
            spent,
            Status::BudgetSpent,
        ),
        // each member of a goal is judged by itself
        (
            TRIO,
            b"(define (problem y) (:domain trio) (:init (a)) (:goal (and (b) (or (d) (c)))))",
            spent,
            Status::BudgetSpent,
        ),
        (
            KEEP,
            b"(define (problem y) (:domain keep) (:init (f) (at 3 (not (f)))) (:goal (g)))",
            spent,
            Status::BudgetSpent,
        ),
        (
            ENDS,
            b"(define (problem y) (:domain ends) (:init (f) (k)) (:goal (g)))",
            spent,
            Status::BudgetSpent,
        ),
    ];
    are_answered(&rt, rt.alloc(), &rows)
}

#[test]
fn unreachable_goals(rt: HostRuntime) -> Result<(), Fail> {
    let rows: [Row<'static>; 6] = [
        (
            TRIO,
            b"(define (problem y) (:domain trio) (:init) (:goal (d)))",
            b"no plan: unreachable\nmay (a)\nmay (b)\nmay (c)\n",
            Status::No,
        ),
        (
            KEEP,
            b"(define (problem y) (:domain keep) (:init (f)) (:goal (g)))",
            b"no plan: unreachable\nmay (f)\nmay (h)\nalways (f)\n",
            Status::No,
        ),
        // the end is not possible, so what it deletes is always true
        (
            ENDS,
            b"(define (problem y) (:domain ends) (:init (f)) (:goal (g)))",
            b"no plan: unreachable\nmay (f)\nmay (h)\nalways (f)\n",
            Status::No,
        ),
        (
            ALL,
            b"(define (problem y) (:domain all) (:objects a b - t) (:init (q a)) (:goal (g)))",
            b"no plan: unreachable\nmay (p a)\n",
            Status::No,
        ),
        (
            ALL,
            b"(define (problem y) (:domain all) (:objects a b - t) (:init (q a) (q b)) (:goal (g)))",
            b"budget spent\n",
            Status::BudgetSpent,
        ),
        // no road leads to c
        (
            ROVER,
            b"(define (problem blocked) (:domain rover)
 (:objects r1 - rover a b c - place)
 (:init (at r1 a) (still r1) (road a b) (= (fast a b) 3) (= (slow a b) 7))
 (:goal (and (seen b) (seen c))))",
            b"no plan: unreachable\nmay (at r1 a)\nmay (still r1)\nmay (seen b)\nmay (at r1 b)\nmay (seen a)\n",
            Status::No,
        ),
    ];
    are_answered(&rt, rt.alloc(), &rows)
}

#[test]
fn refused_tasks(rt: HostRuntime) -> Result<(), Fail> {
    let rows: [Row<'static>; 7] = [
        (
            KEEP,
            b"(define (problem y) (:domain keep) (:init (f) (between 1 2 (g))) (:goal (f)))",
            b"refused task G07 at 0\n",
            Status::Refused,
        ),
        (
            LONG,
            b"(define (problem y) (:domain long) (:init (= (most) 1000000)) (:goal (f)))",
            b"budget spent\n",
            Status::BudgetSpent,
        ),
        (
            LONG,
            b"(define (problem y) (:domain long) (:init (= (most) 1000000.5)) (:goal (f)))",
            b"refused task G05 at 2\n",
            Status::Refused,
        ),
        (
            LONG,
            b"(define (problem y) (:domain long) (:init (= (most) 1/600001)) (:goal (f)))",
            b"refused task G06 at 0\n",
            Status::Refused,
        ),
        // so many bindings are counted, and not made
        (HUGE, HUNDRED, b"refused task G01 at 0\n", Status::Refused),
        // an action whose duration has no value has no instance
        (
            LONG,
            b"(define (problem y) (:domain long) (:init) (:goal (g)))",
            b"no plan: unreachable\nmay (f)\n",
            Status::No,
        ),
        (
            LONG,
            b"(define (problem y) (:domain other) (:init (= (most) 1000000.5)) (:goal (f)))",
            b"refused problem P02 at 20\n",
            Status::Refused,
        ),
    ];
    are_answered(&rt, rt.alloc(), &rows)
}
