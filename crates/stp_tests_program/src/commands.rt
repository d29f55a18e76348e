//! Words that are no command.

use crate::setting::{PLAIN, TASK, answers};
use std::test::Fail;
use stp_cli::Status;

const USAGE: &[u8] =
    b"usage: stp check DOMAIN PROBLEM PLAN\n       stp plan DOMAIN PROBLEM [--budget N] [--trace]\n       stp replay DOMAIN PROBLEM PLAN --durations LIST\n       stp demo N\n";

#[test]
fn command_lines(rt: HostRuntime) -> Result<(), Fail> {
    let rows: [&[&str]; 34] = [
        &[],
        &["stp"],
        &["stp", "check", "d"],
        &["stp", "check", "d", "p"],
        &["stp", "check", "d", "p", "l", "l"],
        &["stp", "check", "-d", "p", "l"],
        &["stp", "check", "d", "", "l"],
        &["stp", "Check", "d", "p", "l"],
        &["stp", "plan", "d", "p", "l"],
        &["stp", "plan", "d", "p"],
        &["stp", "plan", "d", "--budget", "0"],
        &["stp", "plan", "d", "p", "--budget"],
        &["stp", "plan", "d", "p", "--budget", "00"],
        &["stp", "plan", "d", "p", "--budget", "0", "--trace"],
        &["stp", "plan", "--budget", "0", "d", "p"],
        &["stp", "plan", "d", "p", "l", "--budget", "0"],
        &["stp", "replay", "d", "p", "l"],
        &["stp", "replay", "d", "p", "l", "--durations"],
        &["stp", "replay", "d", "p", "l", "--durations", ""],
        &["stp", "replay", "d", "p", "l", "--durations", "-4"],
        &["stp", "replay", "d", "p", "l", "-durations", "4"],
        &["stp", "replay", "--durations", "4", "d", "p", "l"],
        &["stp", "check", "d", "p", "l", "--durations", "4"],
        &["stp", "demo"],
        &["stp", "demo", ""],
        &["stp", "demo", "0"],
        &["stp", "demo", "000"],
        &["stp", "demo", "251"],
        &["stp", "demo", "0002"],
        &["stp", "demo", "+2"],
        &["stp", "demo", "-2"],
        &["stp", "demo", "2.0"],
        &["stp", "demo", "2", "2"],
        &["stp", "Demo", "2"],
    ];
    for row in rows {
        let plan: &[u8] = b"0: (make) [4]\n5: (see)";
        answers(
            &rt,
            rt.alloc(),
            row,
            PLAIN,
            TASK,
            plan,
            USAGE,
            Status::Usage,
        )?;
    }
    Ok(())
}
