//! Files, calls and what they have to answer.

use std::alloc::Global;
use std::process::Abort;
use std::test::Fail;
use stp_cli::{Status, run};
use stp_io::{MemorySink, MemoryStore};

/// Actions of all kinds on one atom or two.
pub const LAB: &[u8] = b"(define (domain lab)
 (:predicates (f) (g) (h))
 (:action see-f :parameters () :precondition (f) :effect (h))
 (:action clear-f :parameters () :effect (not (f)))
 (:durative-action up-f :parameters ()
   :uncontrollable-duration (and (>= ?duration 1) (<= ?duration 5)) :effect (at end (f)))
 (:durative-action long-f :parameters ()
   :uncontrollable-duration (and (>= ?duration 3) (<= ?duration 7)) :effect (at end (f)))
 (:durative-action late-f :parameters ()
   :uncontrollable-duration (and (>= ?duration 3) (<= ?duration 5)) :effect (at end (f)))
 (:durative-action on-f :parameters ()
   :uncontrollable-duration (and (>= ?duration 2) (<= ?duration 6)) :effect (at end (f)))
 (:durative-action off-f :parameters ()
   :uncontrollable-duration (and (>= ?duration 4) (<= ?duration 9)) :effect (at end (not (f))))
 (:durative-action drop-f :parameters ()
   :uncontrollable-duration (and (>= ?duration 3) (<= ?duration 5)) :effect (at end (not (f))))
 (:durative-action four :parameters ()
   :uncontrollable-duration (= ?duration 4) :effect (at end (f)))
 (:durative-action swap :parameters ()
   :uncontrollable-duration (and (>= ?duration 2) (<= ?duration 4))
   :effect (and (at end (f)) (at end (not (g)))))
 (:durative-action need-f :parameters ()
   :uncontrollable-duration (and (>= ?duration 2) (<= ?duration 6))
   :condition (at end (f)) :effect (at end (h)))
 (:durative-action hold-f :parameters ()
   :duration (and (>= ?duration 1) (<= ?duration 10)) :condition (over all (f)))
 (:durative-action hold-fg :parameters ()
   :duration (and (>= ?duration 1) (<= ?duration 10)) :condition (over all (or (f) (g)))))";

pub const NOTHING: &[u8] = b"(define (problem y) (:domain lab) (:init) (:goal (and)))";

pub const F_AT_FIRST: &[u8] = b"(define (problem y) (:domain lab) (:init (f)) (:goal (and)))";

pub const G_AT_FIRST: &[u8] = b"(define (problem y) (:domain lab) (:init (g)) (:goal (and)))";

/// A simple action, and one of a fixed duration.
pub const PLAIN: &[u8] = b"(define (domain plain) (:predicates (f) (g))
 (:action see :parameters () :precondition (f) :effect (g))
 (:durative-action make :parameters () :duration (= ?duration 4)
   :condition (and) :effect (at end (f))))";

pub const TASK: &[u8] = b"(define (problem y) (:domain plain) (:init) (:goal (g)))";

pub const CHECK: [&str; 5] = ["stp", "check", "d", "p", "l"];

pub fn words(alloc: Global, texts: &[&str]) -> Result<Vec<String>, Fail> {
    let mut words = Vec::new(alloc);
    for text in texts {
        words.push(String::from_str(alloc, text)?)?;
    }
    Ok(words)
}

pub fn store(
    alloc: Global,
    domain: &[u8],
    problem: &[u8],
    plan: &[u8],
) -> Result<MemoryStore, Fail> {
    let mut store = MemoryStore::new(alloc);
    store.put("d", domain)?;
    store.put("p", problem)?;
    store.put("l", plan)?;
    Ok(store)
}

/// A call on three files answers with this text and this status.
pub fn answers(
    rt: &impl Abort,
    alloc: Global,
    texts: &[&str],
    domain: &[u8],
    problem: &[u8],
    plan: &[u8],
    text: &[u8],
    status: Status,
) -> Result<(), Fail> {
    let words = words(alloc, texts)?;
    let mut store = store(alloc, domain, problem, plan)?;
    let mut sink = MemorySink::new(alloc, 1000, 1000)?;
    let ended = run(alloc, words.as_slice(), &mut store, &mut sink);
    assert_eq!(rt; sink.bytes(), text, "{plan:?}");
    assert_eq!(rt; ended, status, "{plan:?}");
    Ok(())
}
