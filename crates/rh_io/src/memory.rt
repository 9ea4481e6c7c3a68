//! A source and a sink in memory, whose calls fail where the caller asks for it.

ghost use Rattle.std.specs.Prelude.{◌≡◌, ◌+◌, ◌-◌, ◌<◌, ◌≤◌, [], None, Some, Ok, IsOk, IfOk, OnOk, OnErr, MatchResult};
ghost use Rattle.std.specs.Prelude.{take, drop, length, vec_len, vec_capacity};
ghost use Rattle.std.specs.Io.{ReadsAtMost};
ghost use Rattle.std.specs.Io.KnownBytes.{Appends, Keeps};
ghost use Rattle.rh_io.specs.Counts.{Rose};
ghost use Rattle.rh_io.specs.Memory.{MovesOn, StaysAt};
ghost use Rattle.rh_io.specs.Memory.{next_call, is_to_fail, read_moves, write_moves, free_for_sure};

use crate::NoMemory;
use crate::sink::{Sink, SinkFailed};
use crate::source::{Source, SourceFailed};
use std::alloc::Global;

/// A source of bytes in memory. It tells all its bytes.
#[derive(Drop)]
pub struct MemSource {
    bytes: Vec<u8>,
    position: usize,
    fails: Vec<u64>,
    calls: u64,
    faults: u64,
    ends: u64,
    ghost within: { position ≤ vec_len bytes },
}

impl MemSource {
    /// A source of `bytes`, in order.
    ///
    /// `fails` has the numbers of the reads that fail, counted from 1. A read into an empty room
    /// counts as one of the reads, and still answers 0.
    pub fn new(bytes: Vec<u8>, fails: Vec<u64>) -> MemSource
        ensures left { ⟦<MemSource as Source>⟧.left result ≡ Some bytes.items }
        ensures taken { ⟦<MemSource as Source>⟧.taken result ≡ Some [] }
        ensures faults { ⟦<MemSource as Source>⟧.faults result ≡ 0 }
        ensures ends { ⟦<MemSource as Source>⟧.ends result ≡ 0 }
        ensures unfailing { fails.items ≡ [] → ⟦<MemSource as Source>⟧.unfailing result }
        ensures asked { (result.fails ≡ fails) × (result.calls ≡ 0) }
    {
        MemSource {
            bytes,
            position: 0,
            fails,
            calls: 0,
            faults: 0,
            ends: 0,
        }
    }
}

impl Source for MemSource {
    ghost left = { λ s. Some (drop s.position s.bytes.items) };

    ghost taken = { λ s. Some (take s.position s.bytes.items) };

    ghost faults = { λ s. s.faults };

    ghost ends = { λ s. s.ends };

    ghost unfailing = { λ s. s.fails.items ≡ [] };

    fn read(&mut self, room: &mut [u8]) -> Result<usize, SourceFailed>
        ensures bound { ReadsAtMost result room.new }
        ensures bytes { MatchResult result
            (λ n. MovesOn self.old.bytes.items self.old.position
            self.new.bytes.items self.new.position (take n room.new))
            (λ _. StaysAt self.old.bytes.items self.old.position
            self.new.bytes.items self.new.position) }
        ensures at_end { IfOk result (λ n. n ≡ 0 → 0 < length room.old
            → Rose self.old.ends self.new.ends
            × (drop self.new.position self.new.bytes.items ≡ [])) }
        ensures no_end { IfOk result (λ n. 0 < n → self.new.ends ≡ self.old.ends) }
        ensures failed { OnErr result (Rose self.old.faults self.new.faults) }
        ensures no_failure { OnOk result (self.new.faults ≡ self.old.faults) }
        ensures no_end_at_failure { OnErr result (self.new.ends ≡ self.old.ends) }
        ensures unfailing { self.old.fails.items ≡ [] → IsOk result × (self.new.fails.items ≡ []) }
        ensures no_room { length room.old ≡ 0 → (result ≡ Ok 0)
            × StaysAt self.old.bytes.items self.old.position
            self.new.bytes.items self.new.position
            × (self.new.faults ≡ self.old.faults) × (self.new.ends ≡ self.old.ends) }
        ensures faults { self.old.faults ≤ self.new.faults }
        ensures ends { self.old.ends ≤ self.new.ends }
        ensures exact { let fails = is_to_fail self.old.fails.items self.new.calls in
            let left = vec_len self.old.bytes - self.old.position in
            let moves = read_moves fails (length room.old) left in
            MatchResult result (λ n. moves ≡ Some n) (λ _. moves ≡ None) }
        ensures next { (self.new.calls ≡ next_call self.old.calls)
            × (self.new.fails ≡ self.old.fails) }
    {
        self.calls = self.calls.saturating_add(1);
        if room.is_empty() {
            return Ok(0);
        }
        if self.fails.contains(&self.calls) {
            self.faults = self.faults.saturating_add(1);
            return Err(SourceFailed);
        }
        let count = room.len().min(self.bytes.len() - self.position);
        if count == 0 {
            self.ends = self.ends.saturating_add(1);
            return Ok(0);
        }
        let end = self.position + count;
        room[..count].copy_from_slice(&self.bytes[self.position..end]);
        self.position = end;
        Ok(count)
    }
}

/// A sink into memory. It tells all its bytes.
#[derive(Drop)]
pub struct MemSink {
    bytes: Vec<u8>,
    room: usize,
    fails: Vec<u64>,
    calls: u64,
    faults: u64,
    ghost within: { vec_len bytes ≤ room },
    ghost reserved: { room ≤ vec_capacity bytes },
}

impl MemSink {
    /// A sink for at most `room` bytes; it takes memory for them here, and none later.
    ///
    /// A write takes what fits, and fails where nothing does. `fails` has the numbers of the writes
    /// that fail besides, counted from 1. A write of an empty piece counts as one of the writes,
    /// and still answers 0.
    pub fn new(alloc: Global, room: usize, fails: Vec<u64>) -> Result<MemSink, NoMemory>
        ensures written { IfOk result (λ s. ⟦<MemSink as Sink>⟧.written s ≡ Some []) }
        ensures faults { IfOk result (λ s. ⟦<MemSink as Sink>⟧.faults s ≡ 0) }
        ensures takes { fails.items ≡ [] → IfOk result (λ s. ⟦<MemSink as Sink>⟧.takes s ≡ room) }
        ensures asked { IfOk result (λ s. (s.room ≡ room) × (s.fails ≡ fails) × (s.calls ≡ 0)) }
    {
        let bytes = Vec::with_capacity(alloc, room)?;
        Ok(MemSink {
            bytes,
            room,
            fails,
            calls: 0,
            faults: 0,
        })
    }

    /// The bytes that were written, in order.
    pub fn written(&self) -> &[u8]
        ensures written { ⟦<MemSink as Sink>⟧.written self.now ≡ Some result.now }
    {
        self.bytes.as_slice()
    }
}

impl Sink for MemSink {
    ghost written = { λ s. Some s.bytes.items };

    ghost faults = { λ s. s.faults };

    ghost takes = { λ s. free_for_sure s.fails.items (s.room - vec_len s.bytes) };

    fn write(&mut self, piece: &[u8]) -> Result<usize, SinkFailed>
        ensures bound { IfOk result (λ n. n ≤ length piece.now) }
        ensures some { 0 < length piece.now → IfOk result (λ n. 0 < n) }
        ensures bytes { MatchResult result
            (λ n. Appends (Some self.old.bytes.items) (Some self.new.bytes.items)
            (take n piece.now))
            (λ _. Keeps (Some self.old.bytes.items) (Some self.new.bytes.items)) }
        ensures failed { OnErr result (Rose self.old.faults self.new.faults) }
        ensures no_failure { OnOk result (self.new.faults ≡ self.old.faults) }
        ensures takes { let free = self.old.room - vec_len self.old.bytes in
            length piece.now ≤ free_for_sure self.old.fails.items free → IsOk result }
        ensures takes_on { let before = self.old.room - vec_len self.old.bytes in
            let after = self.new.room - vec_len self.new.bytes in
            IfOk result (λ n. free_for_sure self.old.fails.items before
            ≤ free_for_sure self.new.fails.items after + n) }
        ensures no_piece { length piece.now ≡ 0 → (result ≡ Ok 0)
            × Keeps (Some self.old.bytes.items) (Some self.new.bytes.items) }
        ensures faults { self.old.faults ≤ self.new.faults }
        ensures exact { let fails = is_to_fail self.old.fails.items self.new.calls in
            let free = self.old.room - vec_len self.old.bytes in
            let moves = write_moves fails (length piece.now) free in
            MatchResult result (λ n. moves ≡ Some n) (λ _. moves ≡ None) }
        ensures next { (self.new.calls ≡ next_call self.old.calls)
            × (self.new.fails ≡ self.old.fails) × (self.new.room ≡ self.old.room) }
    {
        self.calls = self.calls.saturating_add(1);
        if piece.is_empty() {
            return Ok(0);
        }
        let count = piece.len().min(self.room - self.bytes.len());
        if count == 0 || self.fails.contains(&self.calls) {
            self.faults = self.faults.saturating_add(1);
            return Err(SinkFailed);
        }
        let Ok(()) = self.bytes.extend_from_slice(&piece[..count]) else {
            unreachable!()
        };
        Ok(count)
    }
}
