//! Verdicts on plans of one atom or two.

use crate::setting::{CHECK, F_AT_FIRST, G_AT_FIRST, LAB, NOTHING, PLAIN, TASK, answers};
use std::alloc::Global;
use std::test::Fail;
use stp_cli::Status;

const F_FROM_F: &[u8] = b"(define (problem y) (:domain lab) (:init (f)) (:goal (f)))";

const F_FROM_NOTHING: &[u8] = b"(define (problem y) (:domain lab) (:init) (:goal (f)))";

#[test]
fn strong_plans(rt: HostRuntime) -> Result<(), Fail> {
    let rows: [(&[u8], &[u8], &[u8]); 16] = [
        (F_FROM_F, b"", b"strong\nsteps 0 uncertain 0 grid 1\n"),
        (
            F_AT_FIRST,
            b"0: (four) [4]\n5: (see-f)",
            b"strong\nsteps 2 uncertain 0 grid 1\n",
        ),
        (
            F_AT_FIRST,
            b"0: (late-f) [*]\n2: (see-f)",
            b"strong\nsteps 2 uncertain 1 grid 1\n",
        ),
        (
            F_AT_FIRST,
            b"0: (late-f) [*]\n6: (see-f)",
            b"strong\nsteps 2 uncertain 1 grid 1\n",
        ),
        (
            F_AT_FIRST,
            b"0: (drop-f) [*]\n0: (hold-f) [3]",
            b"strong\nsteps 2 uncertain 1 grid 1\n",
        ),
        (
            NOTHING,
            b"0: (up-f) [*]\n0: (long-f) [*]\n8: (see-f)",
            b"strong\nsteps 3 uncertain 2 grid 1\n",
        ),
        (
            G_AT_FIRST,
            b"0: (swap) [*]\n0: (hold-fg) [6]",
            b"strong\nsteps 2 uncertain 1 grid 1\n",
        ),
        (
            F_AT_FIRST,
            b"1/3: (hold-f) [1.25]",
            b"strong\nsteps 1 uncertain 0 grid 12\n",
        ),
        (
            F_AT_FIRST,
            b"999999999: (see-f)",
            b"strong\nsteps 1 uncertain 0 grid 1\n",
        ),
        // each spelling of a bracket, white bytes, capitals, comments, and lines that end as in other systems
        (
            F_AT_FIRST,
            b"; a plan\r\n\r\n 0 : ( FOUR ) [ 4,4 ] ; there\r\n\t5:(See-F)[0] ;\r\n",
            b"strong\nsteps 2 uncertain 0 grid 1\n",
        ),
        (
            F_AT_FIRST,
            b"0: (four) [*]\n5.0: (see-f)",
            b"strong\nsteps 2 uncertain 0 grid 1\n",
        ),
        (
            F_AT_FIRST,
            b"0: (late-f) [3,5]\n2: (see-f)",
            b"strong\nsteps 2 uncertain 1 grid 1\n",
        ),
        (
            F_AT_FIRST,
            b"0: (late-f) [6/2,5.0]\n2: (see-f)",
            b"strong\nsteps 2 uncertain 1 grid 1\n",
        ),
        (
            F_AT_FIRST,
            b"1/2: (hold-f) [10/4]",
            b"strong\nsteps 1 uncertain 0 grid 2\n",
        ),
        // a step that ends where another begins, and ends at different thirds and quarters
        (
            F_AT_FIRST,
            b"1/4: (hold-f) [4/3]\n19/12: (see-f)\n1/3: (late-f) [*]",
            b"strong\nsteps 3 uncertain 1 grid 12\n",
        ),
        (
            F_AT_FIRST,
            b"0: (hold-f) [1]\n1: (clear-f)",
            b"strong\nsteps 2 uncertain 0 grid 1\n",
        ),
    ];
    for (problem, plan, text) in rows {
        answers(
            &rt,
            rt.alloc(),
            &CHECK,
            LAB,
            problem,
            plan,
            text,
            Status::Done,
        )?;
    }
    Ok(())
}

/// A text in capital letters.
fn in_capitals(alloc: Global, text: &[u8]) -> Result<Vec<u8>, Fail> {
    let mut bytes = Vec::new(alloc);
    for byte in text {
        bytes.push(byte.to_ascii_uppercase())?;
    }
    Ok(bytes)
}

#[test]
fn domains_in_capitals(rt: HostRuntime) -> Result<(), Fail> {
    let domain = in_capitals(rt.alloc(), LAB)?;
    let rows: [(&[u8], &[u8], Status); 2] = [
        (
            b"0: (late-f) [*]\n2: (see-f)",
            b"strong\nsteps 2 uncertain 1 grid 1\n",
            Status::Done,
        ),
        (
            b"0: (late-f) [*]\n3: (see-f)",
            b"not strong\ndurations 3\nfault interference at 3 steps 1 2\n",
            Status::No,
        ),
    ];
    for (plan, text, status) in rows {
        let domain = domain.as_slice();
        answers(
            &rt,
            rt.alloc(),
            &CHECK,
            domain,
            F_AT_FIRST,
            plan,
            text,
            status,
        )?;
    }
    Ok(())
}

#[test]
fn weak_plans(rt: HostRuntime) -> Result<(), Fail> {
    let rows: [(&[u8], &[u8], &[u8]); 16] = [
        (
            F_FROM_NOTHING,
            b"",
            b"not strong\ndurations none\nfault goal\n",
        ),
        (
            F_AT_FIRST,
            b"0: (four) [4]\n4: (see-f)",
            b"not strong\ndurations none\nfault interference at 4 steps 1 2\n",
        ),
        (
            F_AT_FIRST,
            b"0: (four) [*]\n4: (see-f)",
            b"not strong\ndurations none\nfault interference at 4 steps 1 2\n",
        ),
        (
            F_AT_FIRST,
            b"0: (four) [4,4]\n4: (see-f)",
            b"not strong\ndurations none\nfault interference at 4 steps 1 2\n",
        ),
        (
            F_AT_FIRST,
            b"0: (late-f) [*]\n3: (see-f)",
            b"not strong\ndurations 3\nfault interference at 3 steps 1 2\n",
        ),
        (
            F_AT_FIRST,
            b"0: (late-f) [*]\n5: (see-f)",
            b"not strong\ndurations 5\nfault interference at 5 steps 1 2\n",
        ),
        (
            F_AT_FIRST,
            b"0: (drop-f) [*]\n0: (hold-f) [4]",
            b"not strong\ndurations 3\nfault over-all at 3 step 2\n",
        ),
        (
            NOTHING,
            b"0: (up-f) [*]\n0: (long-f) [*]\n6: (see-f)",
            b"not strong\ndurations 1,6\nfault interference at 6 steps 2 3\n",
        ),
        (
            F_AT_FIRST,
            b"0: (need-f) [*]\n4: (clear-f)",
            b"not strong\ndurations 4\nfault interference at 4 steps 1 2\n",
        ),
        (
            NOTHING,
            b"0: (on-f) [*]\n0: (off-f) [*]",
            b"not strong\ndurations 4,4\nfault interference at 4 steps 1 2\n",
        ),
        (
            NOTHING,
            b"0: (up-f) [*]\n5: (up-f) [*]",
            b"not strong\ndurations 5,1\nfault overlap at 5 steps 1 2\n",
        ),
        (
            NOTHING,
            b"1: (see-f)",
            b"not strong\ndurations none\nfault condition at 1 step 1\n",
        ),
        // the least failure lies on the base grid: f is late by half a unit
        (
            NOTHING,
            b"1/2: (up-f) [*]\n4: (see-f)",
            b"not strong\ndurations 7/2\nfault interference at 4 steps 1 2\n",
        ),
        // the goal fails last of all, and a condition fails before it
        (
            F_FROM_NOTHING,
            b"0: (on-f) [*]\n10: (clear-f)",
            b"not strong\ndurations 2\nfault goal\n",
        ),
        (
            F_FROM_F,
            b"0: (drop-f) [*]\n9: (see-f)",
            b"not strong\ndurations 3\nfault condition at 9 step 2\n",
        ),
        // over all at the start, in what is true after its moment
        (
            F_AT_FIRST,
            b"1: (hold-f) [4]\n1: (clear-f)",
            b"not strong\ndurations none\nfault over-all at 1 step 1\n",
        ),
    ];
    for (problem, plan, text) in rows {
        answers(
            &rt,
            rt.alloc(),
            &CHECK,
            LAB,
            problem,
            plan,
            text,
            Status::No,
        )?;
    }
    Ok(())
}

#[test]
fn fixed_durations(rt: HostRuntime) -> Result<(), Fail> {
    let rows: [(&[u8], &[u8], Status); 5] = [
        (
            b"0: (make) [4]\n5: (see)",
            b"strong\nsteps 2 uncertain 0 grid 1\n",
            Status::Done,
        ),
        (
            b"0/7: (make) [8/2]\n10/2: (see)",
            b"strong\nsteps 2 uncertain 0 grid 1\n",
            Status::Done,
        ),
        (
            b"0: (make) [4]\n4: (see)",
            b"not strong\ndurations none\nfault interference at 4 steps 1 2\n",
            Status::No,
        ),
        (
            b"0: (make) [4]\n3: (see)",
            b"not strong\ndurations none\nfault condition at 3 step 2\n",
            Status::No,
        ),
        (
            b"0: (make) [4]\n4: (make) [4]\n9: (see)",
            b"not strong\ndurations none\nfault overlap at 4 steps 1 2\n",
            Status::No,
        ),
    ];
    for (plan, text, status) in rows {
        answers(&rt, rt.alloc(), &CHECK, PLAIN, TASK, plan, text, status)?;
    }
    Ok(())
}
