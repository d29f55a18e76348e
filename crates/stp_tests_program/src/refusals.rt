//! Refusals of domains, problems and plans.

use crate::setting::{CHECK, F_AT_FIRST, LAB, PLAIN, TASK, answers};
use std::alloc::Global;
use std::process::Abort;
use std::test::Fail;
use stp_cli::Status;

#[test]
fn refused_plans(rt: HostRuntime) -> Result<(), Fail> {
    let rows: [(&[u8], &[u8]); 21] = [
        (b"0: (nope)", b"refused plan X01 at 1\n"),
        (b"0: (see-f f)", b"refused plan X02 at 1\n"),
        (b"0: (up-f)", b"refused plan X06 at 1\n"),
        (b"0: (hold-f) [*]", b"refused plan X06 at 1\n"),
        (b"0: (hold-f) [1,10]", b"refused plan X06 at 1\n"),
        (b"0: (up-f) [3]", b"refused plan X07 at 1\n"),
        (b"0: (see-f) [1]", b"refused plan X07 at 1\n"),
        (b"0: (see-f) [*]", b"refused plan X07 at 1\n"),
        (b"0: (hold-f) [11]", b"refused plan X08 at 1\n"),
        (b"0: (four) [5]", b"refused plan X08 at 1\n"),
        (b"0: (up-f) [1,4]", b"refused plan X09 at 1\n"),
        (
            b"1/99991: (see-f)\n1/99989: (hold-f) [2]",
            b"refused plan X10 at 0\n",
        ),
        (
            b"0: (see-f)\n999999998: (hold-f) [2]",
            b"refused plan X11 at 2\n",
        ),
        (b"999999995: (up-f) [*]", b"refused plan X11 at 1\n"),
        (b"999999998: (hold-f) [2]", b"refused plan X11 at 1\n"),
        // a step before the grid, and the grid before the times
        (
            b"1/99991: (see-f)\n1/99989: (hold-f) [2]\n0: (nope)",
            b"refused plan X01 at 3\n",
        ),
        (
            b"1/99991: (see-f)\n999999999: (hold-f) [2]\n1/99989: (see-f)",
            b"refused plan X10 at 0\n",
        ),
        (b"1 (see-f)", b"refused plan L01 at 1\n"),
        (b"0: (see-f)\n\n-1: (see-f)", b"refused plan L01 at 3\n"),
        (b"0: (up-f) [3, 5]", b"refused plan L01 at 1\n"),
        // all lines are read before a step is looked at
        (b"0: (nope)\n0: (see-f", b"refused plan L01 at 2\n"),
    ];
    for (plan, text) in rows {
        answers(
            &rt,
            rt.alloc(),
            &CHECK,
            LAB,
            F_AT_FIRST,
            plan,
            text,
            Status::Refused,
        )?;
    }
    Ok(())
}

/// A text so many times.
fn repeated(alloc: Global, text: &[u8], count: usize) -> Result<Vec<u8>, Fail> {
    let mut bytes = Vec::new(alloc);
    for _ in 0..count {
        bytes.extend_from_slice(text)?;
    }
    Ok(bytes)
}

#[test]
fn long_plans(rt: HostRuntime) -> Result<(), Fail> {
    let alloc = rt.alloc();
    let mut plan = repeated(alloc, b"0: (see-f)\n", 501)?;
    answers(
        &rt,
        alloc,
        &CHECK,
        LAB,
        F_AT_FIRST,
        plan.as_slice(),
        b"refused plan L02 at 501\n",
        Status::Refused,
    )?;
    plan.extend_from_slice(b"x".as_slice())?;
    answers(
        &rt,
        alloc,
        &CHECK,
        LAB,
        F_AT_FIRST,
        plan.as_slice(),
        b"refused plan L01 at 502\n",
        Status::Refused,
    )
}

#[test]
fn refused_files(rt: HostRuntime) -> Result<(), Fail> {
    let rows: [(&[u8], &[u8], &[u8]); 9] = [
        (
            b"(define (domain plain) (:requirements :typing))",
            TASK,
            b"refused problem D17 at 51\n",
        ),
        (
            b"(define (domain x) (:action go :precondition (p)))",
            b"(a",
            b"refused domain D17 at 45\n",
        ),
        (
            LAB,
            b"(define (problem y) (:domain lab) (:init (at -1 (f))) (:goal (and)))",
            b"refused problem P12 at 41\n",
        ),
        (
            b"(define (domain x) (:predicates (f)",
            TASK,
            b"refused domain T04 at 19\n",
        ),
        (
            b"(define \x01 (domain x))",
            TASK,
            b"refused domain T01 at 8\n",
        ),
        (PLAIN, b"(a) b", b"refused problem T06 at 4\n"),
        (PLAIN, b"(a", b"refused problem T04 at 0\n"),
        (
            PLAIN,
            b"(define (problem y) (:domain other) (:init) (:goal (g)))",
            b"refused problem P02 at 20\n",
        ),
        (PLAIN, TASK, b"refused plan L01 at 1\n"),
    ];
    for (domain, problem, text) in rows {
        answers(
            &rt,
            rt.alloc(),
            &CHECK,
            domain,
            problem,
            b"x",
            text,
            Status::Refused,
        )?;
    }
    Ok(())
}

/// So many lists inside one another.
fn nested(alloc: Global, depth: usize) -> Result<Vec<u8>, Fail> {
    let mut bytes = repeated(alloc, b"(", depth)?;
    let closing = repeated(alloc, b")", depth)?;
    bytes.extend_from_slice(closing.as_slice())?;
    Ok(bytes)
}

fn refuses(rt: &impl Abort, alloc: Global, domain: &[u8], text: &[u8]) -> Result<(), Fail> {
    answers(rt, alloc, &CHECK, domain, TASK, b"", text, Status::Refused)
}

#[test]
fn long_and_deep_files(rt: HostRuntime) -> Result<(), Fail> {
    let alloc = rt.alloc();
    let longer = repeated(alloc, b" ", 1_048_577)?;
    refuses(
        &rt,
        alloc,
        longer.as_slice(),
        b"refused domain F01 at 1048576\n",
    )?;
    let longest = repeated(alloc, b" ", 1_048_576)?;
    refuses(
        &rt,
        alloc,
        longest.as_slice(),
        b"refused domain T06 at 1048576\n",
    )?;
    let deeper = nested(alloc, 101)?;
    refuses(
        &rt,
        alloc,
        deeper.as_slice(),
        b"refused domain T03 at 100\n",
    )?;
    let deepest = nested(alloc, 100)?;
    refuses(&rt, alloc, deepest.as_slice(), b"refused domain D01 at 0\n")
}
