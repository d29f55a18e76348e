//! A sink in memory with so much room, of which chosen calls fail.

ghost use Rattle.std.specs.Prelude.{◌≡◌, ◌<◌, ◌≤◌, ◌-◌, ◌++◌, ◌||◌, [], length, take, min, not, nat_le, is_ok, Some, IfOk, OnOk, OnErr, if◌then◌else◌};
ghost use Rattle.std.specs.Vec.{vec_capacity};
ghost use Rattle.stp_io.specs.Calls.{no_calls, with_failing, fails_now, after_call, after_fault};
ghost use Rattle.stp_io.specs.Sink.{SinkState};
ghost use Rattle.stp_io.specs.Store.{HasRisen};

use crate::calls::Calls;
use crate::sink::Sink;
use crate::store::Failed;
use std::alloc::Global;
use std::marker::Model;
use stp_base::Memory;

/// Bytes in memory with so much room, which takes so many bytes in a call at most; a write to a full one fails.
#[derive(Drop)]
pub struct MemorySink {
    bytes: Vec<u8>,
    room: usize,
    most: usize,
    calls: Calls,
}

impl Model for MemorySink {
    ghost Value = { SinkState };

    ghost view = { λ s. record { written = s.bytes.items; room = s.room; most = s.most; calls = s.calls } };

    ghost invariant = { λ s. (length s.bytes.items ≤ s.room) × (s.room ≤ vec_capacity s.bytes) × (0 < s.most) };
}

impl MemorySink {
    /// A sink with so much room that takes at most so many bytes in a call; the room is taken at once.
    pub fn new(alloc: Global, room: usize, most: usize) -> Result<MemorySink, Memory>
        requires { 1 ≤ most }
        ensures { IfOk result (λ s. s ≡ record { written = []; room = room; most = most; calls = no_calls }) }
    {
        let bytes = Vec::with_capacity(alloc, room)?;
        Ok(MemorySink {
            bytes,
            room,
            most,
            calls: Calls::new(alloc),
        })
    }

    /// Adds the number of a call that is to fail, from 1.
    pub fn fail_call(&mut self, number: u64) -> Result<(), Memory>
        ensures ok { OnOk result (self.new ≡ record self.old { calls = with_failing number self.old.calls }) }
        ensures err { OnErr result (self.new ≡ self.old) }
    {
        self.calls.fail_call(number)
    }

    /// What was written.
    pub fn bytes(&self) -> &[u8]
        ensures { result.now ≡ self.now.written }
    {
        self.bytes.as_slice()
    }
}

impl Sink for MemorySink {
    ghost written = { λ s. Some s.written };

    ghost faults = { λ s. s.calls.faults };

    fn write(&mut self, piece: &[u8]) -> Result<usize, Failed>
        requires { 0 < length piece.now }
        ensures some { IfOk result (λ n. 1 ≤ n) }
        ensures within { IfOk result (λ n. n ≤ length piece.now) }
        ensures count { IfOk result (λ n. n ≡ min (min self.old.most (length piece.now)) (self.old.room - length self.old.written)) }
        ensures appended { IfOk result (λ n. self.new.written ≡ self.old.written ++ take n piece.now) }
        ensures answers { is_ok result ≡ not (fails_now self.old.calls || nat_le self.old.room (length self.old.written)) }
        ensures kept { OnErr result (self.new.written ≡ self.old.written) }
        ensures limits { (self.new.room ≡ self.old.room) × (self.new.most ≡ self.old.most) }
        ensures calls { self.new.calls ≡ (if is_ok result then after_call self.old.calls else after_fault (after_call self.old.calls)) }
        ensures counted { OnErr result (HasRisen self.old.calls.faults self.new.calls.faults) }
        ensures counts { self.old.calls.faults ≤ self.new.calls.faults }
    {
        let fails = self.calls.begin();
        let left = self.room - self.bytes.len();
        let count = self.most.min(piece.len()).min(left);
        if fails || count == 0 || self.bytes.extend_from_slice(&piece[..count]).is_err() {
            self.calls.count_fault();
            return Err(Failed);
        }
        Ok(count)
    }
}
