//! What no clause says: that calls succeed, and that they reach the real files and the real standard output.

ghost use Rattle.std.specs.Prelude.{◌≡◌, ◌<◌, ◌≤◌, ℕ, false, length, None, IfOk, OnErr};
ghost use Rattle.stp_io.specs.Store.{HasRisen};

use super::*;
use crate::real::read_from;
use std::alloc::Global;
use std::cell::RefCell;
use std::fmt::Display;
use std::io::{Cursor, Read, Seek, SeekFrom};
use std::rt::Files;
use std::test::Fail;
use std::{fs, io};

/// A store that reads three bytes in a call at most, and tells nothing.
#[derive(Drop)]
struct ShortStore {
    inner: MemoryStore,
}

impl Store for ShortStore {
    ghost files = { λ _. None };

    ghost steady = { λ _ _. false };

    ghost faults = { λ s. s.inner.calls.faults };

    fn read_at(&mut self, name: &str, offset: u64, buf: &mut [u8]) -> Result<usize, Failed> {
        let most = buf.len().min(3);
        self.inner.read_at(name, offset, &mut buf[..most])
    }
}

#[test]
fn loads_from_memory(rt: HostRuntime) -> Result<(), Fail> {
    let mut store = MemoryStore::new(rt.alloc());
    store.put("a", b"old")?;
    store.put("b", b"")?;
    store.put("a", b"(define)")?;
    store.fail_call(2)?;
    store.fail_call(6)?;
    let failed = load(rt.alloc(), &mut store, "a").err();
    assert_eq!(rt; failed, Some(LoadFault::ReadFault), "the second call");
    let a = load(rt.alloc(), &mut store, "a")?;
    assert_eq!(rt; a.as_slice(), b"(define)".as_slice());
    let b = load(rt.alloc(), &mut store, "b")?;
    assert_eq!(rt; b.as_slice(), b"".as_slice());
    let failed = load(rt.alloc(), &mut store, "b").err();
    assert_eq!(rt; failed, Some(LoadFault::ReadFault), "the sixth call");
    let absent = load(rt.alloc(), &mut store, "c").err();
    assert_eq!(rt; absent, Some(LoadFault::ReadFault), "no such name");
    Ok(())
}

#[test]
fn loads_by_short_reads(rt: HostRuntime) -> Result<(), Fail> {
    let mut inner = MemoryStore::new(rt.alloc());
    inner.put("plan", b"0: (go a b) [3]")?;
    inner.fail_call(9)?;
    let mut store = ShortStore { inner };
    let text = load(rt.alloc(), &mut store, "plan")?;
    assert_eq!(rt; text.as_slice(), b"0: (go a b) [3]".as_slice());
    let failed = load(rt.alloc(), &mut store, "plan").err();
    assert_eq!(rt; failed, Some(LoadFault::ReadFault), "in mid-file");
    Ok(())
}

/// So many equal bytes.
fn filled(alloc: Global, count: usize) -> Result<Vec<u8>, Fail> {
    Ok(vec![in alloc; 7u8; count]?)
}

#[test]
fn loads_up_to_the_limit(rt: HostRuntime) -> Result<(), Fail> {
    let mut store = SteadyStore::new(rt.alloc());
    store.put("longest", &filled(rt.alloc(), 1_048_576)?)?;
    store.put("too long", &filled(rt.alloc(), 1_048_577)?)?;
    let text = load(rt.alloc(), &mut store, "longest")?;
    assert_eq!(rt; text.as_slice().len(), 1_048_576);
    let failed = load(rt.alloc(), &mut store, "too long").err();
    assert_eq!(rt; failed, Some(LoadFault::TooLong));
    let absent = load(rt.alloc(), &mut store, "absent")?;
    assert!(rt; absent.as_slice().is_empty());
    Ok(())
}

#[test]
fn writes_a_front_until_a_call_fails(rt: HostRuntime) -> Result<(), Fail> {
    let mut sink = MemorySink::new(rt.alloc(), 100, 4)?;
    sink.fail_call(3)?;
    assert_eq!(rt; write_all(&mut sink, b"abcdefghijkl"), Err(Failed));
    assert_eq!(rt; sink.bytes(), b"abcdefgh".as_slice());
    write_all(&mut sink, b"mnopq")?;
    assert_eq!(rt; sink.bytes(), b"abcdefghmnopq".as_slice());
    Ok(())
}

#[test]
fn writes_until_there_is_no_room(rt: HostRuntime) -> Result<(), Fail> {
    let mut sink = MemorySink::new(rt.alloc(), 6, 4)?;
    write_all(&mut sink, b"")?;
    assert_eq!(rt; write_all(&mut sink, b"abcdefgh"), Err(Failed));
    assert_eq!(rt; sink.bytes(), b"abcdef".as_slice());
    let mut steady = SteadySink::new();
    write_all(&mut steady, b"abcdefgh")?;
    Ok(())
}

/// A printer over a sink in memory, which takes and fails as that sink does.
#[derive(Drop)]
struct Printer {
    sink: RefCell<MemorySink>,
}

/// The error of a call that failed.
fn broken() -> io::Error {
    io::Error::from(io::ErrorKind::BrokenPipe)
}

impl Print for Printer {
    fn print<D: Display + Drop>(&self, _value: D) -> io::Result<()> {
        Err(broken())
    }

    fn println<D: Display + Drop>(&self, _value: D) -> io::Result<()> {
        Err(broken())
    }

    fn write_all(&self, _bytes: &[u8]) -> io::Result<()> {
        Err(broken())
    }

    fn write_some(&self, bytes: &[u8]) -> io::Result<usize> {
        if bytes.is_empty() {
            return Ok(0);
        }
        let Ok(mut sink) = self.sink.try_borrow_mut() else {
            return Err(broken());
        };
        match sink.write(bytes) {
            Ok(count) => Ok(count),
            Err(Failed) => Err(broken()),
        }
    }
}

#[test]
fn prints_by_short_writes(rt: HostRuntime) -> Result<(), Fail> {
    let mut taken = MemorySink::new(rt.alloc(), 100, 3)?;
    taken.fail_call(4)?;
    let printer = Printer {
        sink: RefCell::new(taken),
    };
    let mut sink = OutSink::new(&printer);
    let failed = write_all(&mut sink, b"abcdefghijkl");
    let whole = write_all(&mut sink, b"mnopq");
    assert_eq!(rt; failed, Err(Failed), "the fourth call");
    assert_eq!(rt; whole, Ok(()));
    let taken = printer.sink.into_inner();
    assert_eq!(rt; taken.bytes(), b"abcdefghimnopq".as_slice());
    Ok(())
}

/// A file in memory that reads three bytes in a call at most, of which the third read fails.
#[derive(Drop)]
struct ShortFile {
    inner: Cursor<&'static str>,
    reads: u64,
}

impl Read for ShortFile {
    fn read(&mut self, buf: &mut [u8]) -> io::Result<usize> {
        self.reads = self.reads.saturating_add(1);
        if self.reads == 3 {
            return Err(broken());
        }
        let most = buf.len().min(3);
        self.inner.read(&mut buf[..most])
    }
}

impl Seek for ShortFile {
    fn seek(&mut self, to: SeekFrom) -> io::Result<u64> {
        self.inner.seek(to)
    }
}

#[test]
fn reads_from_an_offset(rt: HostRuntime) -> Result<(), Fail> {
    let mut file = ShortFile {
        inner: Cursor::new("abcdefgh"),
        reads: 0,
    };
    let mut buf = [0u8; 5];
    assert_eq!(rt; read_from(&mut file, 4, &mut buf)?, 3);
    assert_eq!(rt; buf[..3], b"efg"[..]);
    assert_eq!(rt; read_from(&mut file, 7, &mut buf)?, 1);
    assert_eq!(rt; buf[..1], b"h"[..]);
    assert!(rt;
        read_from(&mut file, 0, &mut buf).is_err(),
        "the third read"
    );
    assert_eq!(rt; read_from(&mut file, 8, &mut buf)?, 0);
    Ok(())
}

/// So many bytes, each another than the one before it.
fn counted(alloc: Global, count: u32) -> Result<Vec<u8>, Fail> {
    let mut bytes = Vec::new(alloc);
    for i in 0..count {
        bytes.push((i % 251) as u8)?;
    }
    Ok(bytes)
}

fn copy_out<R: Files, P: Print>(
    alloc: Global,
    store: &mut FileStore<R>,
    sink: &mut OutSink<P>,
    name: &str,
) -> Result<(), Fail> {
    let text = load(alloc, store, name)?;
    write_all(sink, text.as_slice())?;
    Ok(())
}

#[test]
fn reads_real_files_and_prints(rt: HostRuntime) -> Result<(), Fail> {
    let mut path = std::env::temp_dir(&rt)?;
    path.push("stp_io_test.txt")?;
    let name = path.as_path().to_str().ok_or("a path that is no text")?;
    fs::write(&rt, name, "a file\n")?;
    let mut store = FileStore::new(rt);
    let mut sink = OutSink::new(rt);
    copy_out(rt.alloc(), &mut store, &mut sink, name)?;
    let mut buf = [0u8; 3];
    assert_eq!(rt; store.read_at(name, 2, &mut buf)?, 3);
    assert_eq!(rt; buf, *b"fil");
    let long = counted(rt.alloc(), 40_000)?;
    fs::write(&rt, name, long.as_slice())?;
    let text = load(rt.alloc(), &mut store, name)?;
    assert!(rt;
        text.as_slice() == long.as_slice(),
        "a file of several reads"
    );
    fs::remove_file(&rt, name)?;
    let failed = load(rt.alloc(), &mut store, name).err();
    assert_eq!(rt; failed, Some(LoadFault::ReadFault));
    Ok(())
}
