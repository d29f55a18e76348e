//! Runs under chosen durations.

use crate::setting::{F_AT_FIRST, LAB, NOTHING, answers};
use std::test::Fail;
use stp_cli::Status;

const BOTH: &[u8] = b"0: (on-f) [*]\n0: (off-f) [*]";

#[test]
fn runs(rt: HostRuntime) -> Result<(), Fail> {
    let rows: [(&[u8], &[u8], &str, &[u8], Status); 7] = [
        (
            NOTHING,
            BOTH,
            "4,4",
            b"0 start 1\n0 start 2\n4 end 1\n4 end 2\nfault interference at 4 steps 1 2\n",
            Status::No,
        ),
        (
            NOTHING,
            BOTH,
            "2,4",
            b"0 start 1\n0 start 2\n2 end 1\n4 end 2\nexecutes\n",
            Status::Done,
        ),
        (
            NOTHING,
            BOTH,
            "5/2,4",
            b"0 start 1\n0 start 2\n5/2 end 1\n4 end 2\nexecutes\n",
            Status::Done,
        ),
        (
            F_AT_FIRST,
            b"1.5: (see-f)\n0: (hold-f) [2]",
            "none",
            b"0 start 2\n3/2 moment 1\n2 end 2\nexecutes\n",
            Status::Done,
        ),
        (
            F_AT_FIRST,
            b"0: (late-f) [*]\n2: (see-f)\n0: (drop-f) [3,5]",
            "4.5,10/3",
            b"0 start 1\n0 start 3\n2 moment 2\n10/3 end 3\n9/2 end 1\nexecutes\n",
            Status::Done,
        ),
        // a duration on a finer grid than the plan
        (
            NOTHING,
            b"1/2: (up-f) [*]",
            "4/3",
            b"1/2 start 1\n11/6 end 1\nexecutes\n",
            Status::Done,
        ),
        (NOTHING, b"", "none", b"executes\n", Status::Done),
    ];
    for (problem, plan, list, text, status) in rows {
        let words = ["stp", "replay", "d", "p", "l", "--durations", list];
        answers(&rt, rt.alloc(), &words, LAB, problem, plan, text, status)?;
    }
    Ok(())
}

#[test]
fn refused_lists(rt: HostRuntime) -> Result<(), Fail> {
    let rows: [(&[u8], &str, &[u8]); 13] = [
        (BOTH, "4,10", b"refused durations V03 at 2\n"),
        (BOTH, "1,10", b"refused durations V03 at 1\n"),
        (BOTH, "4", b"refused durations V02 at 1\n"),
        (BOTH, "none", b"refused durations V02 at 0\n"),
        (BOTH, "99,4,4", b"refused durations V02 at 3\n"),
        (BOTH, "4,,4", b"refused durations V01 at 0\n"),
        (BOTH, "4,-4", b"refused durations V01 at 0\n"),
        (BOTH, "4, 4", b"refused durations V01 at 0\n"),
        (BOTH, "None", b"refused durations V01 at 0\n"),
        (
            BOTH,
            "300000/100003,500000/100019",
            b"refused durations V04 at 0\n",
        ),
        (
            BOTH,
            "300000/100003,1000000/100019",
            b"refused durations V03 at 2\n",
        ),
        // the plan is judged before the list
        (b"0: (nope)", "4,,4", b"refused plan X01 at 1\n"),
        (b"0 (on-f)", "4,,4", b"refused plan L01 at 1\n"),
    ];
    for (plan, list, text) in rows {
        let words = ["stp", "replay", "d", "p", "l", "--durations", list];
        answers(
            &rt,
            rt.alloc(),
            &words,
            LAB,
            NOTHING,
            plan,
            text,
            Status::Refused,
        )?;
    }
    Ok(())
}
