//! Demos: their texts are made, and no file is read.

use crate::setting::words;
use std::test::Fail;
use stp_cli::{Status, run};
use stp_io::{MemorySink, MemoryStore};

/// The last drive ends at n % 5 + 5 at the latest, and the spoiled photo, the last step of all, begins half a unit
/// before that. On the grid of halves only that one end comes later than the photo's start, so it is the last entry of
/// the least failure, and the photo's over-all condition does not hold from its start on.
const DEMOS: [(&str, &[u8]); 7] = [
    (
        "1",
        b"demo 1\nsteps 2 uncertain 1 grid 1 strong\nspoiled grid 2 last 6 fault over-all at 11/2 step 2\n",
    ),
    (
        "2",
        b"demo 2\nsteps 4 uncertain 2 grid 1 strong\nspoiled grid 2 last 7 fault over-all at 13/2 step 4\n",
    ),
    (
        "002",
        b"demo 2\nsteps 4 uncertain 2 grid 1 strong\nspoiled grid 2 last 7 fault over-all at 13/2 step 4\n",
    ),
    (
        "3",
        b"demo 3\nsteps 6 uncertain 3 grid 1 strong\nspoiled grid 2 last 8 fault over-all at 15/2 step 6\n",
    ),
    (
        "4",
        b"demo 4\nsteps 8 uncertain 4 grid 1 strong\nspoiled grid 2 last 9 fault over-all at 17/2 step 8\n",
    ),
    (
        "05",
        b"demo 5\nsteps 10 uncertain 5 grid 1 strong\nspoiled grid 2 last 5 fault over-all at 9/2 step 10\n",
    ),
    (
        "20",
        b"demo 20\nsteps 40 uncertain 20 grid 1 strong\nspoiled grid 2 last 5 fault over-all at 9/2 step 40\n",
    ),
];

#[test]
fn demos(rt: HostRuntime) -> Result<(), Fail> {
    let alloc = rt.alloc();
    for (number, text) in DEMOS {
        let words = words(alloc, &["stp", "demo", number])?;
        let mut store = MemoryStore::new(alloc);
        let mut sink = MemorySink::new(alloc, 1000, 1000)?;
        let ended = run(alloc, words.as_slice(), &mut store, &mut sink);
        assert_eq!(rt; sink.bytes(), text, "{number}");
        assert_eq!(rt; ended, Status::Done, "{number}");
    }
    Ok(())
}
