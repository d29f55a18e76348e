//! Texts of answers.

use std::test::Fail;
use stp_base::StepId;
use stp_happen::Fault;
use stp_report::{Answer, Code, FileName, print_answer};

#[test]
fn answers_have_their_texts(rt: HostRuntime) -> Result<(), Fail> {
    let cases = [
        (
            Answer::Strong {
                steps: 4,
                uncertain: 2,
                events: 0,
                grid: 2,
            },
            "strong\nsteps 4 uncertain 2 grid 2\n",
        ),
        (
            Answer::Strong {
                steps: 1,
                uncertain: 0,
                events: 2,
                grid: 1,
            },
            "strong\nsteps 1 uncertain 0 events 2 grid 1\n",
        ),
        (
            Answer::Weak {
                grid: 2,
                durations: &[13, 5],
                fault: Fault::OverAll {
                    time: 12,
                    step: StepId(3),
                },
            },
            "not strong\ndurations 13/2,5/2\nfault over-all at 6 step 3\n",
        ),
        (
            Answer::Weak {
                grid: 1,
                durations: &[],
                fault: Fault::Goal,
            },
            "not strong\ndurations none\nfault goal\n",
        ),
        (
            Answer::Refused {
                file: FileName::Durations,
                code: Code::V03,
                at: 2,
            },
            "refused durations V03 at 2\n",
        ),
    ];
    for (answer, text) in &cases {
        let printed = print_answer(rt.alloc(), answer)?;
        assert!(rt; printed.as_slice() == text.as_bytes(), "{text}");
    }
    Ok(())
}
