//! A store and a sink of which no call fails.

ghost use Rattle.std.specs.Prelude.{◌≡◌, ◌<◌, ◌≤◌, ◌-◌, ℕ, true, List, [], length, min, None, Some, Ok, IfOk, OnOk, OnErr};
ghost use Rattle.stp_io.specs.Named.{put_at};
ghost use Rattle.stp_io.specs.Steady.{SteadyState, content_of};
ghost use Rattle.stp_io.specs.Store.{Reads};

use crate::copying::copy_from;
use crate::named::NamedFiles;
use crate::sink::Sink;
use crate::store::{Failed, Store};
use std::alloc::Global;
use std::marker::Model;
use stp_base::Memory;

/// Files in memory of which no read fails; a name that was not put is an empty file.
#[derive(Drop)]
pub struct SteadyStore {
    files: NamedFiles,
}

impl Model for SteadyStore {
    ghost Value = { SteadyState };

    ghost view = { λ s. record { files = s.files } };
}

impl SteadyStore {
    /// A store in which each file is empty.
    pub fn new(alloc: Global) -> SteadyStore
        ensures { content_of result ≡ (λ _. []) }
    {
        SteadyStore {
            files: NamedFiles::new(alloc),
        }
    }

    /// Stores one file, in the place of one of this name.
    pub fn put(&mut self, name: &str, bytes: &[u8]) -> Result<(), Memory>
        ensures ok { OnOk result (content_of self.new ≡ put_at name.now bytes.now (content_of self.old)) }
        ensures err { OnErr result (self.new ≡ self.old) }
    {
        self.files.put(name, bytes)
    }
}

impl Store for SteadyStore {
    ghost files = { λ s. Some (λ name. Some (content_of s name)) };

    ghost steady = { λ _ _. true };

    ghost faults = { λ _. 0 };

    fn read_at(&mut self, name: &str, offset: u64, buf: &mut [u8]) -> Result<usize, Failed>
        requires { 0 < length buf.old }
        ensures count { result ≡ Ok (min (length buf.old) (length (content_of self.old name.now) - offset)) }
        ensures within { IfOk result (λ n. n ≤ length buf.new) }
        ensures read { IfOk result (λ n. Reads (content_of self.old name.now) offset n buf.new) }
        ensures files { self.new ≡ self.old }
    {
        match self.files.find(name) {
            Some(bytes) => Ok(copy_from(bytes, offset, buf)),
            None => Ok(0),
        }
    }
}

/// A sink that takes each piece whole and tells no content.
#[derive(Clone, Copy, Debug, PartialEq, Eq)]
pub struct SteadySink;

impl SteadySink {
    /// A sink of which no call fails.
    pub fn new() -> SteadySink {
        SteadySink
    }
}

impl Sink for SteadySink {
    ghost written = { λ _. None };

    ghost faults = { λ _. 0 };

    fn write(&mut self, piece: &[u8]) -> Result<usize, Failed>
        requires { 0 < length piece.now }
        ensures { result ≡ Ok (length piece.now) }
    {
        Ok(piece.len())
    }
}
