ghost use Rattle.std.specs.Prelude.{◌≤◌, vec_len, vec_capacity};

use crate::front::copy_front;
use crate::sink::{Put, Sink};
use crate::source::{Got, Source};
use std::alloc::{AllocError, Global};

/// A source over bytes in memory that never fails.
#[derive(Drop)]
pub struct SureSource {
    bytes: Vec<u8>,
    at: usize,
    ghost within: { at ≤ vec_len bytes },
}

impl SureSource {
    ghost use Rattle.std.specs.Prelude.{◌≡◌, Some};

    /// A source that gives these bytes.
    pub fn new(bytes: Vec<u8>) -> SureSource
        ensures { ⟦<SureSource as Source>⟧.left result ≡ Some bytes.items }
    {
        SureSource { bytes, at: 0 }
    }
}

impl Source for SureSource {
    ghost use Rattle.std.specs.Prelude.{◌≡◌, length, min, Some};
    ghost use Rattle.pm_io.specs.Moves.{FitsBuffer, Gives, ReadCounts};
    ghost use Rattle.pm_io.specs.Sure.{sure_bytes_left};

    ghost left = { λ s. Some (sure_bytes_left s) };

    ghost faults = { λ s. 0 };

    /// Gives as many bytes as are left and the buffer has room for.
    fn read(&mut self, into: &mut [u8]) -> Got
        ensures room { FitsBuffer result (length into.new) }
        ensures bytes { Gives result
            (Some (sure_bytes_left self.old)) (Some (sure_bytes_left self.new)) into.new }
        ensures cause { ReadCounts result 0 0 }

        ensures all_that_fit { result
            ≡ Got.Bytes (min (length (sure_bytes_left self.old)) (length into.new)) }
    {
        let n = copy_front(&self.bytes[self.at..], into);
        self.at += n;
        Got::Bytes(n)
    }
}

/// A sink over memory that never fails. It tells what was written as long as that fits.
#[derive(Drop)]
pub struct SureSink {
    bytes: Vec<u8>,
    room: usize,
    full: bool,
    ghost within: { vec_len bytes ≤ room },
    ghost taken: { room ≤ vec_capacity bytes },
}

impl SureSink {
    ghost use Rattle.std.specs.Prelude.{◌≡◌, [], Some, IfOk, option_map};
    ghost use Rattle.pm_io.specs.Sure.{sure_room};

    /// An empty sink with room for so many bytes. The error is running out of memory for the room.
    pub fn new(alloc: Global, room: usize) -> Result<SureSink, AllocError>
        ensures written { IfOk result (λ s. ⟦<SureSink as Sink>⟧.written s ≡ Some []) }
        ensures room { IfOk result (λ s. sure_room s ≡ room) }
    {
        Ok(SureSink {
            bytes: Vec::with_capacity(alloc, room)?,
            room,
            full: false,
        })
    }

    /// The bytes that were written. `None` exactly where the sink has stopped telling.
    pub fn written(&self) -> Option<&[u8]>
        ensures { option_map (λ s. s.now) result ≡ ⟦<SureSink as Sink>⟧.written self.now }
    {
        if self.full { None } else { Some(&self.bytes) }
    }
}

impl Sink for SureSink {
    ghost use Rattle.std.specs.Prelude.{◌≡◌, length};
    ghost use Rattle.pm_io.specs.Moves.{FitsPiece, Takes, WriteCounts};
    ghost use Rattle.pm_io.specs.Sure.{sure_bytes_told, sure_room, told_after};

    ghost written = { λ s. sure_bytes_told s };

    ghost faults = { λ s. 0 };

    /// Takes the whole piece. The sink stops telling at the first piece that doesn't fit into the
    /// rest of the room, and tells nothing from then on.
    fn write(&mut self, from: &[u8]) -> Put
        ensures room { FitsPiece result (length from.now) }
        ensures bytes { Takes result (sure_bytes_told self.old) (sure_bytes_told self.new) from.now }
        ensures cause { WriteCounts result from.now 0 0 }

        ensures whole { result ≡ Put.Took (length from.now) }
        ensures told { sure_bytes_told self.new
            ≡ told_after (sure_room self.old) (sure_bytes_told self.old) from.now }
        ensures same_room { sure_room self.new ≡ sure_room self.old }
    {
        if self.full || from.len() > self.room - self.bytes.len() {
            self.full = true;
        } else {
            self.bytes.extend_from_slice(from).unwrap();
        }
        Put::Took(from.len())
    }
}
