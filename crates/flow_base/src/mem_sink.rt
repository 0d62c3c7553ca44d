ghost use Rattle.std.specs.Prelude.{◌≡◌, ℕ, ◌<◌, ◌≤◌, ◌↔◌, [], ◌++◌, length, take, vec_capacity, IfOk, IsErr, IsTrue, MatchResult, OnErr, OnOk};
ghost use Rattle.std.specs.Io.{WritesAtMost};
ghost use Rattle.flow_base.specs.Counts.{Rose, counted};
ghost use Rattle.flow_base.specs.MemSink.{MemSinkState, mem_sink_view, room, taken_of, MustFail};
ghost use Rattle.flow_base.specs.Sink.{Adds};

use crate::failing_calls::FailingCalls;
use crate::shelf::{Failed, NoMemory};
use crate::sink::Sink;
use std::alloc::Global;
use std::marker::Model;

/// How many bytes a sink in memory has room for.
pub const ROOM: usize = 1_048_576;

/// A sink in memory with room for 1048576 bytes, which takes few bytes at a write and fails where it is told to.
#[derive(Drop)]
pub struct MemSink {
    bytes: Vec<u8>,
    most: usize,
    calls: FailingCalls,
    faults: u64,
}

impl Model for MemSink {
    ghost Value = { MemSinkState };

    ghost view = { λ s. record { held = s.bytes.items; most = s.most; failing = s.calls.failing.items; writes = s.calls.calls; faults = s.faults } };

    ghost invariant = { λ s. (1 ≤ s.most) × (length s.bytes.items ≤ room) × (room ≤ vec_capacity s.bytes) };
}

impl MemSink {
    /// An empty sink, with all of its room taken. A write takes at most `most` bytes, and fails where its number,
    /// counted from 1, stands in `failing`.
    pub fn new(alloc: Global, most: usize, failing: Vec<u64>) -> Result<Self, NoMemory>
        requires { 1 ≤ most }
        ensures { IfOk result (λ sink. sink ≡ record { held = []; most = most; failing = failing.items; writes = 0; faults = 0 }) }
    {
        let bytes = Vec::with_capacity(alloc, ROOM)?;
        Ok(MemSink {
            bytes,
            most,
            calls: FailingCalls::new(failing),
            faults: 0,
        })
    }

    /// All bytes that were appended.
    pub fn held(&self) -> &[u8]
        ensures { result.now ≡ self.now.held }
    {
        self.bytes.as_slice()
    }

    /// Counts one more write, which is to take `count` bytes, and says whether it fails.
    fn next_fails(&mut self, count: usize) -> bool
        ensures fails { IsTrue result ↔ MustFail self.old count }
        ensures counted { self.new ≡ record self.old { writes = counted self.old.writes 1 } }
    {
        let is_to_fail = self.calls.next_fails();
        is_to_fail || count > ROOM - self.bytes.len()
    }
}

impl Sink for MemSink {
    ghost view = { mem_sink_view };

    fn write(&mut self, piece: &[u8]) -> Result<usize, Failed>
        ensures bound { WritesAtMost result piece.now }
        ensures bytes { MatchResult result (λ n. Adds (mem_sink_view self.old) (mem_sink_view self.new) (take n piece.now)) (λ _. Adds (mem_sink_view self.old) (mem_sink_view self.new) []) }
        ensures none_taken { result ≡ Ok 0 → 0 < length piece.now → Rose self.old.faults self.new.faults }
        ensures failed { OnErr result (Rose self.old.faults self.new.faults) }

        ensures fails { IsErr result ↔ MustFail self.old (taken_of self.old (length piece.now)) }
        ensures taken { IfOk result (λ n. n ≡ taken_of self.old (length piece.now)) }
        ensures ok { IfOk result (λ n. self.new ≡ record self.old { held = self.old.held ++ take n piece.now; writes = counted self.old.writes 1 }) }
        ensures err { OnErr result (self.new ≡ record self.old { writes = counted self.old.writes 1; faults = counted self.old.faults 1 }) }
    {
        let count = self.most.min(piece.len());
        if self.next_fails(count) {
            self.faults = self.faults.saturating_add(1);
            return Err(Failed);
        }
        self.bytes.extend_from_slice(&piece[..count]).unwrap();
        Ok(count)
    }
}
