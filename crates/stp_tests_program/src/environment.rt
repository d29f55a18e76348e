//! Timed literals and events whose moment the environment chooses.

use crate::setting::{CHECK, LAB, answers};
use std::test::Fail;
use stp_cli::Status;

/// An atom that comes at 5.
const RISES: &[u8] = b"(define (problem y) (:domain lab) (:init (at 5 (f))) (:goal (and)))";

/// An atom that is lost at 5/2.
const FALLS: &[u8] =
    b"(define (problem y) (:domain lab) (:init (f) (at 5/2 (not (f)))) (:goal (and)))";

/// An atom that is lost at some moment from 3 to 5.
const STORM: &[u8] =
    b"(define (problem y) (:domain lab) (:init (f) (between 3 5 (not (f)))) (:goal (and)))";

/// Two events that may come together, and a third at a fixed moment between.
const THREE: &[u8] =
    b"(define (problem y) (:domain lab) (:init (between 1 4 (f)) (between 1 4 (g)) (at 2 (h))) (:goal (and)))";

#[test]
fn timed_literals(rt: HostRuntime) -> Result<(), Fail> {
    let rows: [(&[u8], &[u8], &[u8], Status); 9] = [
        (
            RISES,
            b"",
            b"strong\nsteps 0 uncertain 0 grid 1\n",
            Status::Done,
        ),
        (
            RISES,
            b"6: (see-f)",
            b"strong\nsteps 1 uncertain 0 grid 1\n",
            Status::Done,
        ),
        (
            RISES,
            b"5: (see-f)",
            b"not strong\ndurations none\nfault interference at 5 steps 0 1\n",
            Status::No,
        ),
        (
            b"(define (problem y) (:domain lab) (:init (f) (at 4 (not (f)))) (:goal (and)))",
            b"0: (up-f) [*]",
            b"not strong\ndurations 4\nfault interference at 4 steps 0 1\n",
            Status::No,
        ),
        // at moment 0
        (
            b"(define (problem y) (:domain lab) (:init (at 0 (f))) (:goal (and)))",
            b"0: (see-f)",
            b"not strong\ndurations none\nfault interference at 0 steps 0 1\n",
            Status::No,
        ),
        (
            b"(define (problem y) (:domain lab) (:init (at 0 (f))) (:goal (and)))",
            b"1/2: (see-f)",
            b"strong\nsteps 1 uncertain 0 grid 2\n",
            Status::Done,
        ),
        // after the last step, before the goal
        (
            b"(define (problem y) (:domain lab) (:init (f) (at 100 (not (f)))) (:goal (f)))",
            b"0: (see-f)",
            b"not strong\ndurations none\nfault goal\n",
            Status::No,
        ),
        (
            b"(define (problem y) (:domain lab) (:init (at 100 (f))) (:goal (f)))",
            b"0: (clear-f)",
            b"strong\nsteps 1 uncertain 0 grid 1\n",
            Status::Done,
        ),
        // its moment counts for the base grid
        (
            b"(define (problem y) (:domain lab) (:init (at 7/4 (f))) (:goal (and)))",
            b"2: (see-f)",
            b"strong\nsteps 1 uncertain 0 grid 4\n",
            Status::Done,
        ),
    ];
    for (problem, plan, text, status) in rows {
        answers(&rt, rt.alloc(), &CHECK, LAB, problem, plan, text, status)?;
    }
    Ok(())
}

#[test]
fn chosen_moments(rt: HostRuntime) -> Result<(), Fail> {
    let rows: [(&[u8], &[u8], &[u8], Status); 9] = [
        (
            STORM,
            b"0: (hold-f) [3]",
            b"strong\nsteps 1 uncertain 0 events 1 grid 1\n",
            Status::Done,
        ),
        (
            STORM,
            b"0: (hold-f) [4]",
            b"not strong\ndurations 3\nfault over-all at 3 step 1\n",
            Status::No,
        ),
        (
            STORM,
            b"5: (see-f)",
            b"not strong\ndurations 3\nfault condition at 5 step 1\n",
            Status::No,
        ),
        (
            STORM,
            b"4: (see-f)",
            b"not strong\ndurations 3\nfault condition at 4 step 1\n",
            Status::No,
        ),
        (
            b"(define (problem y) (:domain lab) (:init (between 1 4 (f)) (between 3 6 (not (f)))) (:goal (and)))",
            b"",
            b"not strong\ndurations 3,3\nfault interference at 3 steps 1 2\n",
            Status::No,
        ),
        // a duration, and then a moment
        (
            STORM,
            b"0: (up-f) [*]",
            b"not strong\ndurations 3,3\nfault interference at 3 steps 1 2\n",
            Status::No,
        ),
        // both bounds count for the base grid
        (
            b"(define (problem y) (:domain lab) (:init (between 1/2 5/3 (f))) (:goal (f)))",
            b"",
            b"strong\nsteps 0 uncertain 0 events 1 grid 6\n",
            Status::Done,
        ),
        // equal bounds are a fixed moment
        (
            b"(define (problem y) (:domain lab) (:init (between 5 5 (f))) (:goal (f)))",
            b"6: (see-f)",
            b"strong\nsteps 1 uncertain 0 grid 1\n",
            Status::Done,
        ),
        // an event that does nothing is one all the same
        (
            b"(define (problem y) (:domain lab) (:init (between 1 2 (and)) (between 3 3 (and))) (:goal (and)))",
            b"",
            b"strong\nsteps 0 uncertain 0 events 1 grid 1\n",
            Status::Done,
        ),
    ];
    for (problem, plan, text, status) in rows {
        answers(&rt, rt.alloc(), &CHECK, LAB, problem, plan, text, status)?;
    }
    Ok(())
}

#[test]
fn replayed_moments(rt: HostRuntime) -> Result<(), Fail> {
    let rows: [(&[u8], &[u8], &str, &[u8], Status); 7] = [
        (
            FALLS,
            b"0: (hold-f) [2]",
            "none",
            b"0 start 1\n2 end 1\n5/2 timed 0\nexecutes\n",
            Status::Done,
        ),
        (
            FALLS,
            b"0: (hold-f) [3]",
            "none",
            b"0 start 1\n5/2 timed 0\n3 end 1\nfault over-all at 5/2 step 1\n",
            Status::No,
        ),
        (
            STORM,
            b"2: (see-f)",
            "9/2",
            b"2 moment 1\n9/2 event 2\nexecutes\n",
            Status::Done,
        ),
        (
            STORM,
            b"0: (up-f) [*]",
            "3,9/2",
            b"0 start 1\n3 end 1\n9/2 event 2\nexecutes\n",
            Status::Done,
        ),
        (
            STORM,
            b"0: (up-f) [*]",
            "9/2,3",
            b"0 start 1\n3 event 2\n9/2 end 1\nexecutes\n",
            Status::Done,
        ),
        (
            THREE,
            b"",
            "2,2",
            b"2 timed 0\n2 event 1\n2 event 2\nexecutes\n",
            Status::Done,
        ),
        (
            THREE,
            b"5: (see-f)",
            "4,1",
            b"1 event 3\n2 timed 0\n4 event 2\n5 moment 1\nexecutes\n",
            Status::Done,
        ),
    ];
    for (problem, plan, list, text, status) in rows {
        let words = ["stp", "replay", "d", "p", "l", "--durations", list];
        answers(&rt, rt.alloc(), &words, LAB, problem, plan, text, status)?;
    }
    Ok(())
}

#[test]
fn refused_moments(rt: HostRuntime) -> Result<(), Fail> {
    let rows: [(&[u8], &[u8], &str, &[u8]); 8] = [
        (STORM, b"2: (see-f)", "6", b"refused durations V03 at 1\n"),
        (
            STORM,
            b"0: (up-f) [*]",
            "6,3",
            b"refused durations V03 at 1\n",
        ),
        (
            STORM,
            b"0: (up-f) [*]",
            "3,2",
            b"refused durations V03 at 2\n",
        ),
        (
            STORM,
            b"0: (up-f) [*]",
            "3",
            b"refused durations V02 at 1\n",
        ),
        (
            STORM,
            b"2: (see-f)",
            "none",
            b"refused durations V02 at 0\n",
        ),
        // a fixed moment is no choice
        (RISES, b"", "5", b"refused durations V02 at 1\n"),
        (
            b"(define (problem y) (:domain lab) (:init (between 1/99991 3 (f))) (:goal (and)))",
            b"",
            "300000/100003",
            b"refused durations V04 at 0\n",
        ),
        (
            b"(define (problem y) (:domain lab) (:init (between 1/99991 1 (f)) (at 1/99989 (f))) (:goal (and)))",
            b"",
            "1",
            b"refused plan X10 at 0\n",
        ),
    ];
    for (problem, plan, list, text) in rows {
        let words = ["stp", "replay", "d", "p", "l", "--durations", list];
        answers(
            &rt,
            rt.alloc(),
            &words,
            LAB,
            problem,
            plan,
            text,
            Status::Refused,
        )?;
    }
    Ok(())
}
