ghost use Rattle.std.specs.Prelude.{◌≡◌, ◌<◌, ◌++◌, [], length, take, drop, IfOk, IsErr, Some, Ok, MatchBool, if◌then◌else◌};
ghost use Rattle.std.specs.Io.{ReadsAtMost, WritesAtMost};
ghost use Rattle.std.specs.Io.KnownBytes.{ReadConsumes, WriteAppends};
ghost use Rattle.wg_io.specs.Causes.{HasCause, next_count};
ghost use Rattle.wg_io.specs.Memory.{is_listed, failed_source, read_source, read_len, failed_sink, write_sink, write_len, refuses};

use crate::copying::copy_front;
use crate::{Failed, NoMemory, Sink, Source};
use std::alloc::Global;
use std::marker::Model;

/// A source over bytes in memory. Its calls have the numbers from 1 on, and those that are listed fail.
#[derive(Drop)]
pub struct MemSource {
    bytes: Vec<u8>,
    start: usize,
    most: usize,
    fails: Vec<u64>,
    calls: u64,
    faults: u64,
}

impl Model for MemSource {
    ghost use Rattle.std.specs.Prelude.{◌≤◌, ◌<◌, length, drop};
    ghost use Rattle.wg_io.specs.Memory.{Pending};

    ghost Value = { Pending };

    ghost view = { λ s. record { left = drop s.start s.bytes.items; most = s.most; fails = s.fails.items; calls = s.calls; faults = s.faults } };

    ghost invariant = { λ s. (s.start ≤ length s.bytes.items) × (0 < s.most) };
}

impl MemSource {
    /// A source of `bytes` that gives at most `most` bytes a call.
    pub fn new(bytes: Vec<u8>, most: usize, fails: Vec<u64>) -> MemSource
        requires { 0 < most }
        ensures { result ≡ record { left = bytes.items; most = most; fails = fails.items; calls = 0; faults = 0 } }
    {
        MemSource {
            bytes,
            start: 0,
            most,
            fails,
            calls: 0,
            faults: 0,
        }
    }
}

impl Source for MemSource {
    ghost left = { λ s. Some s.left };

    ghost faults = { λ s. s.faults };

    fn read(&mut self, into: &mut [u8]) -> Result<usize, Failed>
        ensures bound { ReadsAtMost result into.new }
        ensures bytes { ReadConsumes (Some self.old.left) (Some self.new.left) result into.new }
        ensures cause { HasCause self.old.faults self.new.faults result }

        // Exactly the listed calls fail. The others move what the slice, `most` and the bytes left allow.
        ensures exact { let n = read_len self.old (length into.old) in
            MatchBool (is_listed (next_count self.old.calls) self.old.fails)
            (IsErr result × (self.new ≡ failed_source self.old))
            ((result ≡ Ok n) × (self.new ≡ read_source n self.old)) }
        ensures written { let n = read_len self.old (length into.old) in
            into.new ≡ (if is_listed (next_count self.old.calls) self.old.fails
            then into.old
            else take n self.old.left ++ drop n into.old) }
    {
        self.calls = self.calls.saturating_add(1);
        if self.fails.contains(&self.calls) {
            self.faults = self.faults.saturating_add(1);
            return Err(Failed);
        }
        let count = into.len().min(self.most).min(self.bytes.len() - self.start);
        copy_front(into, &self.bytes, self.start, count);
        self.start += count;
        Ok(count)
    }
}

/// A sink in memory. Its calls have the numbers from 1 on, and those that are listed fail.
#[derive(Drop)]
pub struct MemSink {
    bytes: Vec<u8>,
    room: usize,
    most: usize,
    fails: Vec<u64>,
    calls: u64,
    faults: u64,
}

impl Model for MemSink {
    ghost use Rattle.std.specs.Prelude.{◌≤◌, ◌<◌, length, vec_capacity};
    ghost use Rattle.wg_io.specs.Memory.{Held};

    ghost Value = { Held };

    ghost view = { λ s. record { taken = s.bytes.items; room = s.room; most = s.most; fails = s.fails.items; calls = s.calls; faults = s.faults } };

    ghost invariant = { λ s. (length s.bytes.items ≤ s.room) × (s.room ≤ vec_capacity s.bytes) × (0 < s.most) };
}

impl MemSink {
    /// A sink with room for `room` bytes, all of it taken here, that takes at most `most` bytes a call.
    pub fn new(
        alloc: Global,
        room: usize,
        most: usize,
        fails: Vec<u64>,
    ) -> Result<MemSink, NoMemory>
        requires { 0 < most }
        ensures { IfOk result (λ s. s ≡ record { taken = []; room = room; most = most; fails = fails.items; calls = 0; faults = 0 }) }
    {
        let bytes = Vec::with_capacity(alloc, room)?;
        Ok(MemSink {
            bytes,
            room,
            most,
            fails,
            calls: 0,
            faults: 0,
        })
    }

    /// The bytes taken.
    pub fn taken(&self) -> &[u8]
        ensures { result.now ≡ self.now.taken }
    {
        &self.bytes
    }
}

impl Sink for MemSink {
    ghost taken = { λ s. Some s.taken };

    ghost faults = { λ s. s.faults };

    fn write(&mut self, piece: &[u8]) -> Result<usize, Failed>
        ensures bound { WritesAtMost result piece.now }
        ensures bytes { WriteAppends (Some self.old.taken) (Some self.new.taken) result piece.now }
        ensures progress { IfOk result (λ n. 0 < length piece.now → 0 < n) }
        ensures cause { HasCause self.old.faults self.new.faults result }

        // Exactly the listed calls fail, and those with bytes to take and no room for them.
        ensures exact { let n = write_len self.old (length piece.now) in
            MatchBool (refuses self.old (length piece.now))
            (IsErr result × (self.new ≡ failed_sink self.old))
            ((result ≡ Ok n) × (self.new ≡ write_sink (take n piece.now) self.old)) }
    {
        self.calls = self.calls.saturating_add(1);
        let free = self.room - self.bytes.len();
        if self.fails.contains(&self.calls) || (!piece.is_empty() && free == 0) {
            self.faults = self.faults.saturating_add(1);
            return Err(Failed);
        }
        let count = piece.len().min(self.most).min(free);
        self.bytes.extend_from_slice(&piece[..count]).unwrap();
        Ok(count)
    }
}
