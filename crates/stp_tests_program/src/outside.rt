//! Stores and sinks that fail.

use crate::setting::{CHECK, PLAIN, TASK, store, words};
use std::test::Fail;
use stp_cli::{Status, run, run_steadily};
use stp_io::{MemorySink, MemoryStore, SteadySink, SteadyStore};

const PLAN: &[u8] = b"0: (make) [4]\n5: (see)";

#[test]
fn sinks_that_fail(rt: HostRuntime) -> Result<(), Fail> {
    let alloc = rt.alloc();
    let words = words(alloc, &CHECK)?;
    let rows: [(usize, u64, &[u8], Status); 3] = [
        (1000, 1, b"", Status::OutsideFault),
        (4, 3, b"strong\ns", Status::OutsideFault),
        (
            4,
            100,
            b"strong\nsteps 2 uncertain 0 grid 1\n",
            Status::Done,
        ),
    ];
    for (most, failing, text, status) in rows {
        let mut store = store(alloc, PLAIN, TASK, PLAN)?;
        assert!(rt; most >= 1);
        let mut sink = MemorySink::new(alloc, 1000, most)?;
        sink.fail_call(failing)?;
        let ended = run(alloc, words.as_slice(), &mut store, &mut sink);
        assert_eq!(rt; ended, status);
        assert_eq!(rt; sink.bytes(), text);
    }
    Ok(())
}

#[test]
fn stores_that_fail(rt: HostRuntime) -> Result<(), Fail> {
    let alloc = rt.alloc();
    let words = words(alloc, &CHECK)?;
    let absent: [(&str, &[u8]); 3] = [
        ("d", b"fault read domain\n"),
        ("p", b"fault read problem\n"),
        ("l", b"fault read plan\n"),
    ];
    for (gone, text) in absent {
        let mut store = MemoryStore::new(alloc);
        for (name, bytes) in [("d", PLAIN), ("p", TASK), ("l", PLAN)] {
            if name != gone {
                store.put(name, bytes)?;
            }
        }
        let mut sink = MemorySink::new(alloc, 1000, 1000)?;
        let status = run(alloc, words.as_slice(), &mut store, &mut sink);
        assert_eq!(rt; status, Status::OutsideFault);
        assert_eq!(rt; sink.bytes(), text);
    }
    let mut store = store(alloc, PLAIN, TASK, PLAN)?;
    store.fail_call(4)?;
    let mut sink = MemorySink::new(alloc, 1000, 1000)?;
    let status = run(alloc, words.as_slice(), &mut store, &mut sink);
    assert_eq!(rt; status, Status::OutsideFault);
    assert_eq!(rt; sink.bytes(), b"fault read problem\n".as_slice());
    Ok(())
}

#[test]
fn steady_outside(rt: HostRuntime) -> Result<(), Fail> {
    let alloc = rt.alloc();
    let words = words(alloc, &CHECK)?;
    let mut store = SteadyStore::new(alloc);
    store.put("d", PLAIN)?;
    store.put("p", TASK)?;
    store.put("l", PLAN)?;
    let mut sink = SteadySink::new();
    assert_eq!(rt;
        run_steadily(alloc, words.as_slice(), &mut store, &mut sink),
        Status::Done
    );
    let mut empty = SteadyStore::new(alloc);
    assert_eq!(rt;
        run_steadily(alloc, words.as_slice(), &mut empty, &mut sink),
        Status::Refused
    );
    Ok(())
}
