ghost use Rattle.std.specs.Prelude.{◌≤◌, vec_len, vec_capacity};

use crate::front::copy_front;
use crate::sink::{Put, Sink};
use crate::source::{Got, Source};
use std::alloc::{AllocError, Global};

/// A source over bytes in memory, of which chosen reads fail.
#[derive(Drop)]
pub struct MemSource {
    bytes: Vec<u8>,
    at: usize,
    calls: u64,
    fail: Vec<u64>,
    faults: u64,
    ghost within: { at ≤ vec_len bytes },
}

impl MemSource {
    ghost use Rattle.std.specs.Prelude.{◌≡◌, Some};
    ghost use Rattle.pm_io.specs.Memory.{reads_made, reads_to_fail};

    /// A source that gives these bytes. `fail` lists the numbers of the reads, counted from 1,
    /// that answer `Failed`.
    pub fn new(bytes: Vec<u8>, fail: Vec<u64>) -> MemSource
        ensures left { ⟦<MemSource as Source>⟧.left result ≡ Some bytes.items }
        ensures faults { ⟦<MemSource as Source>⟧.faults result ≡ 0 }
        ensures calls { reads_made result ≡ 0 }
        ensures list { reads_to_fail result ≡ fail.items }
    {
        MemSource {
            bytes,
            at: 0,
            calls: 0,
            fail,
            faults: 0,
        }
    }
}

impl Source for MemSource {
    ghost use Rattle.std.specs.Prelude.{◌≡◌, ◌⊎◌, ◌↔◌, length, min, Contains, Some};
    ghost use Rattle.pm_io.specs.Faults.{next_count};
    ghost use Rattle.pm_io.specs.Moves.{FitsBuffer, Gives, ReadCounts};
    ghost use Rattle.pm_io.specs.Memory.{bytes_left, reads_made, reads_to_fail, read_faults};

    ghost left = { λ s. Some (bytes_left s) };

    ghost faults = { λ s. read_faults s };

    /// Gives as many bytes as are left and the buffer has room for. Fails exactly at the calls
    /// that are listed; each of these raises the count of faults by one.
    fn read(&mut self, into: &mut [u8]) -> Got
        ensures room { FitsBuffer result (length into.new) }
        ensures bytes { Gives result
            (Some (bytes_left self.old)) (Some (bytes_left self.new)) into.new }
        ensures cause { ReadCounts result (read_faults self.old) (read_faults self.new) }

        ensures failed { (result ≡ Got.Failed)
            ↔ Contains (reads_to_fail self.old) (reads_made self.new) }
        ensures all_that_fit { (result ≡ Got.Failed)
            ⊎ (result ≡ Got.Bytes (min (length (bytes_left self.old)) (length into.new))) }
        ensures by_one { result ≡ Got.Failed
            → read_faults self.new ≡ next_count (read_faults self.old) }
        ensures calls { reads_made self.new ≡ next_count (reads_made self.old) }
        ensures list { reads_to_fail self.new ≡ reads_to_fail self.old }
    {
        self.calls = self.calls.saturating_add(1);
        if self.fail.contains(&self.calls) {
            self.faults = self.faults.saturating_add(1);
            return Got::Failed;
        }
        let n = copy_front(&self.bytes[self.at..], into);
        self.at += n;
        Got::Bytes(n)
    }
}

/// A sink over memory that is taken when it is made, of which chosen writes fail.
#[derive(Drop)]
pub struct MemSink {
    bytes: Vec<u8>,
    room: usize,
    calls: u64,
    fail: Vec<u64>,
    faults: u64,
    ghost within: { vec_len bytes ≤ room },
    ghost taken: { room ≤ vec_capacity bytes },
}

impl MemSink {
    ghost use Rattle.std.specs.Prelude.{◌≡◌, [], Some, IfOk};
    ghost use Rattle.pm_io.specs.Memory.{sink_room, writes_made, writes_to_fail};

    /// An empty sink with room for so many bytes. `fail` lists the numbers of the writes, counted
    /// from 1, that answer `Failed`. The error is running out of memory for the room.
    pub fn new(alloc: Global, room: usize, fail: Vec<u64>) -> Result<MemSink, AllocError>
        ensures written { IfOk result (λ s. ⟦<MemSink as Sink>⟧.written s ≡ Some []) }
        ensures faults { IfOk result (λ s. ⟦<MemSink as Sink>⟧.faults s ≡ 0) }
        ensures room { IfOk result (λ s. sink_room s ≡ room) }
        ensures calls { IfOk result (λ s. writes_made s ≡ 0) }
        ensures list { IfOk result (λ s. writes_to_fail s ≡ fail.items) }
    {
        Ok(MemSink {
            bytes: Vec::with_capacity(alloc, room)?,
            room,
            calls: 0,
            fail,
            faults: 0,
        })
    }

    /// The bytes that were written.
    pub fn written(&self) -> &[u8]
        ensures { Some result.now ≡ ⟦<MemSink as Sink>⟧.written self.now }
    {
        &self.bytes
    }
}

impl Sink for MemSink {
    ghost use Rattle.std.specs.Prelude.{◌≡◌, ◌⊎◌, ◌↔◌, ◌+◌, ◌<◌, length, Contains, Some};
    ghost use Rattle.pm_io.specs.Faults.{next_count};
    ghost use Rattle.pm_io.specs.Moves.{FitsPiece, Takes, WriteCounts};
    ghost use Rattle.pm_io.specs.Memory.{bytes_written, sink_room, write_faults};
    ghost use Rattle.pm_io.specs.Memory.{writes_made, writes_to_fail};

    ghost written = { λ s. Some (bytes_written s) };

    ghost faults = { λ s. write_faults s };

    /// Takes the whole piece. Fails exactly at the calls that are listed and at a piece that
    /// doesn't fit into the rest of the room; each of these raises the count of faults by one.
    fn write(&mut self, from: &[u8]) -> Put
        ensures room { FitsPiece result (length from.now) }
        ensures bytes { Takes result
            (Some (bytes_written self.old)) (Some (bytes_written self.new)) from.now }
        ensures cause { WriteCounts result from.now (write_faults self.old) (write_faults self.new) }

        ensures failed { (result ≡ Put.Failed)
            ↔ (Contains (writes_to_fail self.old) (writes_made self.new)
            ⊎ (sink_room self.old < length (bytes_written self.old) + length from.now)) }
        ensures whole { (result ≡ Put.Failed) ⊎ (result ≡ Put.Took (length from.now)) }
        ensures by_one { result ≡ Put.Failed
            → write_faults self.new ≡ next_count (write_faults self.old) }
        ensures calls { writes_made self.new ≡ next_count (writes_made self.old) }
        ensures list { writes_to_fail self.new ≡ writes_to_fail self.old }
        ensures same_room { sink_room self.new ≡ sink_room self.old }
    {
        self.calls = self.calls.saturating_add(1);
        if self.fail.contains(&self.calls) || from.len() > self.room - self.bytes.len() {
            self.faults = self.faults.saturating_add(1);
            return Put::Failed;
        }
        self.bytes.extend_from_slice(from).unwrap();
        Put::Took(from.len())
    }
}
