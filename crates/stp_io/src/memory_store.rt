//! A store of files in memory, of which chosen calls fail.

ghost use Rattle.std.specs.Prelude.{◌≡◌, ◌<◌, ◌≤◌, ◌-◌, ◌&&◌, ℕ, List, [], length, min, true, false, not, is_some, is_ok, Some, IfOk, IfSome, OnOk, OnErr, if◌then◌else◌};
ghost use Rattle.stp_io.specs.Calls.{no_calls, with_failing, fails_now, after_call, after_fault};
ghost use Rattle.stp_io.specs.Named.{file_of, put_at};
ghost use Rattle.stp_io.specs.Store.{StoreState, HasRisen, IsRead, is_steady};

use crate::calls::Calls;
use crate::copying::copy_from;
use crate::named::NamedFiles;
use crate::store::{Failed, Store};
use std::alloc::Global;
use std::marker::Model;
use stp_base::Memory;

/// Files in memory, with the numbers of the calls that are to fail, from 1; a name that was not put is not there.
#[derive(Drop)]
pub struct MemoryStore {
    files: NamedFiles,
    calls: Calls,
}

impl Model for MemoryStore {
    ghost Value = { StoreState };

    ghost view = { λ s. record { files = s.files; calls = s.calls } };
}

impl MemoryStore {
    /// No file, and no call that is to fail.
    pub fn new(alloc: Global) -> MemoryStore
        ensures { result ≡ record { files = []; calls = no_calls } }
    {
        MemoryStore {
            files: NamedFiles::new(alloc),
            calls: Calls::new(alloc),
        }
    }

    /// Stores one file, in the place of one of this name.
    pub fn put(&mut self, name: &str, bytes: &[u8]) -> Result<(), Memory>
        ensures files { OnOk result (file_of self.new.files ≡ put_at name.now (Some bytes.now) (file_of self.old.files)) }
        ensures calls { self.new.calls ≡ self.old.calls }
        ensures err { OnErr result (self.new ≡ self.old) }
    {
        self.files.put(name, bytes)
    }

    /// Adds the number of a call that is to fail.
    pub fn fail_call(&mut self, number: u64) -> Result<(), Memory>
        ensures ok { OnOk result (self.new ≡ record self.old { calls = with_failing number self.old.calls }) }
        ensures err { OnErr result (self.new ≡ self.old) }
    {
        self.calls.fail_call(number)
    }
}

impl Store for MemoryStore {
    ghost files = { λ s. Some (file_of s.files) };

    ghost steady = { is_steady };

    ghost faults = { λ s. s.calls.faults };

    fn read_at(&mut self, name: &str, offset: u64, buf: &mut [u8]) -> Result<usize, Failed>
        requires { 0 < length buf.old }
        ensures within { IfOk result (λ n. n ≤ length buf.new) }
        ensures read { IfOk result (λ n. IsRead (file_of self.old.files name.now) offset n buf.new) }
        ensures count { IfOk result (λ n. IfSome (file_of self.old.files name.now) (λ bytes. n ≡ min (length buf.old) (length bytes - offset))) }
        ensures answers { is_ok result ≡ (is_some (file_of self.old.files name.now) && not (fails_now self.old.calls)) }
        ensures files { self.new.files ≡ self.old.files }
        ensures calls { self.new.calls ≡ (if is_ok result then after_call self.old.calls else after_fault (after_call self.old.calls)) }
        ensures counted { OnErr result (HasRisen self.old.calls.faults self.new.calls.faults) }
        ensures unsteady { OnErr result (is_steady self.old name.now ≡ false) }
        ensures steady { (n : List ℕ) → is_steady self.old n ≡ true → is_steady self.new n ≡ true }
        ensures counts { self.old.calls.faults ≤ self.new.calls.faults }
    {
        let fails = self.calls.begin();
        match self.files.find(name) {
            Some(bytes) if !fails => Ok(copy_from(bytes, offset, buf)),
            _ => {
                self.calls.count_fault();
                Err(Failed)
            }
        }
    }
}
