ghost use Rattle.std.specs.Prelude.{◌≡◌, ◌+◌, ◌≤◌, ◌<◌, ◌⊎◌, ℕ, List, length, take, IfOk, OnOk, OnErr, IsErrOf};
ghost use Rattle.std.specs.Io.KnownBytes.{Consumes, IsAtEnd};
ghost use Rattle.pm_io.specs.Faults.{Rose};
ghost use Rattle.pm_io.specs.Moves.{Adds};
ghost use Rattle.pm_io.specs.declared.whole.ReadError.TheVariants.{NoMemory};

use crate::sink::{Put, Sink};
use crate::source::{Got, Source};
use std::alloc::{AllocError, AllocFailed, Global};
use thiserror::Error;

/// Why an input was not read whole.
#[derive(Clone, Copy, Debug, PartialEq, Eq, Error)]
pub enum ReadError {
    /// A read failed.
    #[error("read fault")]
    ReadFault,
    /// More bytes came than the limit allows.
    #[error("too long")]
    TooLong,
    /// There was no memory for the bytes.
    #[error("no memory")]
    NoMemory,
}

impl From<AllocError> for ReadError {
    ghost from_gives = { λ _ e. e ≡ NoMemory };

    fn from(_e: AllocError) -> ReadError {
        ReadError::NoMemory
    }
}

impl<T: Drop> From<AllocFailed<T>> for ReadError {
    ghost from_gives = { λ _ e. e ≡ NoMemory };

    fn from(_e: AllocFailed<T>) -> ReadError {
        ReadError::NoMemory
    }
}

/// An output was not written whole: a write failed, or took no byte.
#[derive(Clone, Copy, Debug, PartialEq, Eq, Error)]
#[error("write fault")]
pub struct WriteFault;

/// The most bytes that one read asks for.
const PIECE: usize = 4096;

/// Reads to the end of input and gives all its bytes, of which there are at most `limit`.
/// `ReadFault` comes only where the source's faults rose in this call, and `TooLong` only where
/// more than `limit` bytes came; `NoMemory` is running out of memory for the bytes. Whatever the answer
/// is, at most one byte more than `limit` was taken.
pub fn read_all<R: Source>(
    alloc: Global,
    source: &mut R,
    limit: usize,
) -> Result<Vec<u8>, ReadError>
    ensures all { IfOk result (λ v.
        Consumes (R.left source.old) (R.left source.new) v.items
        × IsAtEnd (R.left source.new) × (length v.items ≤ limit)) }
    ensures too_long { IsErrOf result ReadError.TooLong → (bytes : List ℕ)
        × Consumes (R.left source.old) (R.left source.new) bytes × (length bytes ≡ limit + 1) }
    ensures fault { IsErrOf result ReadError.ReadFault
        → Rose (R.faults source.old) (R.faults source.new) }
    ensures no_fault { IsErrOf result ReadError.ReadFault
        ⊎ (R.faults source.new ≡ R.faults source.old) }

    // With any answer but TooLong at most the limit was taken, and with TooLong one byte more.
    ensures within { IsErrOf result ReadError.TooLong ⊎ ((bytes : List ℕ)
        × Consumes (R.left source.old) (R.left source.new) bytes × (length bytes ≤ limit)) }
    ensures bounded { (bytes : List ℕ)
        × Consumes (R.left source.old) (R.left source.new) bytes × (length bytes ≤ limit + 1) }
{
    let mut bytes = Vec::new(alloc);
    let mut piece = [0u8; PIECE];
    'reads: loop {
        let room = limit - bytes.len();
        // One byte past the limit tells an input that is too long from one that just fits.
        let want = if room < PIECE { room + 1 } else { PIECE };
        match source.read(&mut piece[..want]) {
            Got::Failed => return Err(ReadError::ReadFault),
            Got::End => return Ok(bytes),
            Got::Bytes(0) => return Ok(bytes),
            Got::Bytes(n) => {
                if n > room {
                    return Err(ReadError::TooLong);
                }
                bytes.extend_from_slice(&piece[..n])?;
            }
        }
    }
}

/// Writes all the bytes. Takes no memory. `WriteFault` comes only where the sink's faults rose in
/// this call; then a front of the bytes was written, and not all of them.
pub fn write_all<W: Sink>(sink: &mut W, bytes: &[u8]) -> Result<(), WriteFault>
    ensures all { OnOk result (Adds (W.written sink.old) (W.written sink.new) bytes.now) }
    ensures no_fault { OnOk result (W.faults sink.new ≡ W.faults sink.old) }
    ensures front { OnErr result ((n : ℕ) × (n < length bytes.now)
        × Adds (W.written sink.old) (W.written sink.new) (take n bytes.now)) }
    ensures fault { OnErr result (Rose (W.faults sink.old) (W.faults sink.new)) }
{
    let mut at = 0;
    while at < bytes.len() {
        match sink.write(&bytes[at..]) {
            Put::Failed | Put::Took(0) => return Err(WriteFault),
            Put::Took(n) => at += n,
        }
    }
    Ok(())
}
