//! The real files and the real standard output, of which nothing is told.

ghost use Rattle.std.specs.Prelude.{◌≡◌, ◌<◌, ◌≤◌, ℕ, false, length, None, is_ok, IfOk, OnErr, if◌then◌else◌};
ghost use Rattle.stp_io.specs.Calls.{one_more};
ghost use Rattle.stp_io.specs.Store.{HasRisen};

use crate::sink::Sink;
use crate::store::{Failed, Store};
use std::fs::File;
use std::io;
use std::io::{Read, Seek, SeekFrom};
use std::marker::Model;
use std::rt::Files;

/// The real files, which contracts see as how many reads have failed.
#[derive(Drop)]
pub struct FileStore<R> {
    rt: R,
    faults: u64,
}

impl<R> Model for FileStore<R> {
    ghost Value = { ℕ };

    ghost view = { λ s. s.faults };
}

impl<R: Files> FileStore<R> {
    /// The files of a runtime, of which no read has failed yet.
    pub fn new(rt: R) -> FileStore<R>
        ensures { result ≡ 0 }
    {
        FileStore { rt, faults: 0 }
    }
}

impl<R: Files> Store for FileStore<R> {
    ghost files = { λ _. None };

    ghost steady = { λ _ _. false };

    ghost faults = { λ s. s };

    fn read_at(&mut self, name: &str, offset: u64, buf: &mut [u8]) -> Result<usize, Failed>
        requires { 0 < length buf.old }
        ensures within { IfOk result (λ n. n ≤ length buf.new) }
        ensures count { self.new ≡ (if is_ok result then self.old else one_more self.old) }
        ensures counted { OnErr result (HasRisen self.old self.new) }
        ensures counts { self.old ≤ self.new }
    {
        match read_file(&self.rt, name, offset, buf) {
            Ok(count) => Ok(count),
            Err(_) => {
                self.faults = self.faults.saturating_add(1);
                Err(Failed)
            }
        }
    }
}

/// Opens a file and reads some of its bytes from an offset.
fn read_file<R: Files>(rt: &R, name: &str, offset: u64, buf: &mut [u8]) -> io::Result<usize>
    ensures { IfOk result (λ n. n ≤ length buf.new) }
{
    let mut file = File::open(rt, name)?;
    read_from(&mut file, offset, buf)
}

/// Reads some of a file's bytes from an offset.
pub(crate) fn read_from<F: Read + Seek>(
    file: &mut F,
    offset: u64,
    buf: &mut [u8],
) -> io::Result<usize>
    ensures { IfOk result (λ n. n ≤ length buf.new) }
{
    file.seek(SeekFrom::Start(offset))?;
    file.read(buf)
}

/// The real standard output, which contracts see as how many writes have failed.
#[derive(Drop)]
pub struct OutSink<R> {
    rt: R,
    faults: u64,
}

impl<R> Model for OutSink<R> {
    ghost Value = { ℕ };

    ghost view = { λ s. s.faults };
}

impl<R: Print> OutSink<R> {
    /// The standard output of a runtime, of which no write has failed yet.
    pub fn new(rt: R) -> OutSink<R>
        ensures { result ≡ 0 }
    {
        OutSink { rt, faults: 0 }
    }
}

impl<R: Print> Sink for OutSink<R> {
    ghost written = { λ _. None };

    ghost faults = { λ s. s };

    fn write(&mut self, piece: &[u8]) -> Result<usize, Failed>
        requires { 0 < length piece.now }
        ensures some { IfOk result (λ n. 1 ≤ n) }
        ensures within { IfOk result (λ n. n ≤ length piece.now) }
        ensures count { self.new ≡ (if is_ok result then self.old else one_more self.old) }
        ensures counted { OnErr result (HasRisen self.old self.new) }
        ensures counts { self.old ≤ self.new }
    {
        match self.rt.write_some(piece) {
            Ok(count) if count > 0 => Ok(count),
            _ => {
                self.faults = self.faults.saturating_add(1);
                Err(Failed)
            }
        }
    }
}
