//! A sink in memory.
ghost use Rattle.std.specs.Prelude.{◌≡◌, ◌+◌, ◌-◌, ◌<◌, ◌≤◌, ◌↔◌, List, [], ◌++◌, length, take, min, IfOk, IsOk, OnErr, Some};
ghost use Rattle.smt_io.specs.Faults.{Rose, counted};
ghost use Rattle.smt_io.specs.MemSink.{IsTaken, taken};
ghost use Rattle.std.specs.Prelude.{vec_len, vec_capacity};

use crate::{Sink, SinkFailed};
use hol_types::List;
use std::alloc::{AllocError, Global};
use std::marker::Model;

/// A sink in memory, with room for so many bytes and with calls that fail.
#[derive(Debug, Drop)]
pub struct MemSink {
    bytes: Vec<u8>,
    room: usize,
    fails: List<u64>,
    calls: u64,
    most: usize,
    faults: u64,
}

impl Model for MemSink {
    ghost use Rattle.std.specs.Prelude.{◌<◌, ◌≤◌, length, vec_capacity};
    ghost use Rattle.smt_io.specs.MemSink.{Page};

    ghost Value = { Page };

    ghost view = { λ it. record { bytes = it.bytes.items; room = it.room; fails = it.fails; calls = it.calls; most = it.most; faults = it.faults } };

    ghost invariant = { λ it. (length it.bytes.items ≤ it.room) × (it.room ≤ vec_capacity it.bytes) × (0 < it.most) };
}

impl MemSink {
    /// A sink with room for `room` bytes, all of it made here. `fails` has the numbers of the writes that
    /// fail, the first write being number 1. No fault is counted yet.
    pub fn new(alloc: Global, room: u64, fails: List<u64>) -> Result<MemSink, AllocError>
        ensures { IfOk result (λ sink. sink ≡ record { bytes = []; room = room; fails = fails; calls = 0; most = usize.MAX; faults = 0 }) }
    {
        Ok(MemSink {
            bytes: Vec::with_capacity(alloc, room as usize)?,
            room: room as usize,
            fails,
            calls: 0,
            most: usize::MAX,
            faults: 0,
        })
    }

    /// From now on a write takes at most `most` bytes.
    pub fn short(&mut self, most: usize)
        requires { 0 < most }
        ensures { self.new ≡ record self.old { most = most } }
    {
        self.most = most;
    }

    /// The bytes written so far.
    pub fn written(&self) -> &[u8]
        ensures { result.now ≡ self.now.bytes }
    {
        self.bytes.as_slice()
    }
}

impl Sink for MemSink {
    ghost contents = { λ page. Some page.bytes };

    ghost faults = { λ page. page.faults };

    fn write(&mut self, piece: &[u8]) -> Result<usize, SinkFailed>
        // It fails where its number is one of those that fail, or where there is no room for any of the piece.
        ensures ok { IsOk result ↔ IsTaken self.old (length piece.now) }
        ensures count { IfOk result (λ n. n ≡ taken self.old (length piece.now)) }
        ensures some { IfOk result (λ n. 0 < length piece.now → 0 < n) }
        ensures appended { IfOk result (λ n. self.new ≡ record self.old { bytes = self.old.bytes ++ take n piece.now; calls = counted self.old.calls }) }
        ensures err { OnErr result (self.new ≡ record self.old { calls = counted self.old.calls; faults = counted self.old.faults }) }

        // What the trait says of every write.
        ensures bound { IfOk result (λ n. n ≤ length piece.now) }
        ensures failed { OnErr result (Rose self.old.faults self.new.faults) }
        ensures count_stays { self.old.faults ≤ self.new.faults }
    {
        self.calls = self.calls.saturating_add(1);
        let room = self.room - self.bytes.len();
        if self.fails.as_slice().contains(&self.calls) || (room == 0 && !piece.is_empty()) {
            self.faults = self.faults.saturating_add(1);
            return Err(SinkFailed);
        }
        let count = piece.len().min(self.most).min(room);
        append(&mut self.bytes, &piece[..count]);
        Ok(count)
    }
}

// Appends bytes for which there is room.
fn append(bytes: &mut Vec<u8>, more: &[u8])
    requires { vec_len bytes.old + length more.now ≤ vec_capacity bytes.old }
    ensures items { bytes.new.items ≡ bytes.old.items ++ more.now }
    ensures room { vec_capacity bytes.old ≤ vec_capacity bytes.new }
{
    let Ok(()) = bytes.extend_from_slice(more) else {
        unreachable!()
    };
}
