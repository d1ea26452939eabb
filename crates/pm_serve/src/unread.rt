//! Bytes that came and are not yet passed on, and the line that is gathered of them.
ghost use Rattle.std.specs.Prelude.{◌≤◌, vec_len, vec_capacity};
ghost use Rattle.pm_serve.specs.declared.unread.TheConstants.{KEPT};

use crate::piecewise::Piecewise;
use pm_io::Got;
use std::alloc::{AllocError, Global};
use std::marker::Model;

/// The most bytes that one read asks for.
const PIECE: usize = 65_536;

/// The most bytes of a line that are kept: one more than a line may have, so that a line that is too long shows it. What answers
/// lines proves that no answer depends on the bytes after these.
pub const KEPT: usize = 1_048_577;

const LF: u8 = b'\n';

/// Bytes that a source gave, and that are not yet passed on. A contract sees the list of them.
#[derive(Drop)]
pub struct Unread {
    piece: Vec<u8>,
    at: usize,
    end: usize,
}

impl Model for Unread {
    ghost use Rattle.std.specs.Prelude.{◌≤◌, ◌<◌, ◌-◌, ℕ, List, take, drop, vec_len};
    ghost use Rattle.pm_serve.specs.Bytes.{unread_of, IsPiece};

    ghost Value = { List ℕ };

    ghost view = { λ u. unread_of u.piece.items u.at u.end };

    ghost invariant = { λ u. IsPiece u.piece.items u.at u.end };
}

/// What came when more bytes were asked for.
#[derive(Clone, Copy, Debug, PartialEq, Eq)]
pub enum Filled {
    /// Some bytes.
    Some,
    /// The end of input.
    End,
    /// A fault.
    Failed,
}

impl Unread {
    ghost use Rattle.std.specs.Prelude.{◌≡◌, ◌≢◌, ◌∷◌, ◌++◌, [], IfOk};
    ghost use Rattle.pm_serve.specs.Bytes.{CameOf, FaultsOf, Passes, has_lf};
    ghost use Rattle.pm_serve.specs.Pieces.{Gave};

    /// No bytes, with room for a piece.
    pub fn new(alloc: Global) -> Result<Unread, AllocError>
        ensures { IfOk result (λ u. u ≡ []) }
    {
        Ok(Unread {
            piece: vec![in alloc; 0u8; PIECE]?,
            at: 0,
            end: 0,
        })
    }

    /// Asks the source for more bytes, once. All that came before must be passed on.
    pub fn fill<R: Piecewise>(&mut self, source: &mut R) -> Filled
        requires { self.old ≡ [] }
        ensures came { CameOf result (R.left source.old) (R.left source.new) self.new }
        ensures faults { FaultsOf result (R.faults source.old) (R.faults source.new) }
        ensures gave { Gave (R.pieces source.old) (R.pieces source.new) (self.new ∷ []) }
    {
        self.at = 0;
        self.end = 0;
        match source.read_piece(&mut self.piece) {
            Got::Failed => Filled::Failed,
            Got::End | Got::Bytes(0) => Filled::End,
            Got::Bytes(n) => {
                self.end = n;
                Filled::Some
            }
        }
    }

    /// Whether a whole line is there.
    pub fn has_line(&self) -> bool
        ensures { result ≡ has_lf self.now }
    {
        has_end(&self.piece[self.at..self.end])
    }

    /// Passes the bytes up to the first LF on to the line, and drops the LF. Where there is none, all bytes are passed on.
    pub fn pass_on(&mut self, line: &mut Kept) -> Passing
        ensures { Passes result self.old self.new line.old line.new }
    {
        match pass(&self.piece[self.at..self.end], line) {
            Some(n) => {
                self.at += n;
                Passing::Line
            }
            None => {
                self.at = self.end;
                Passing::All
            }
        }
    }
}

/// What was passed on to a line.
#[derive(Clone, Copy, Debug, PartialEq, Eq)]
pub enum Passing {
    /// The rest of the line, whose LF came.
    Line,
    /// All that was there, without an LF.
    All,
}

ghost use Rattle.std.specs.Prelude.{◌≡◌, ◌==◌, MatchOption, position};
ghost use Rattle.pm_serve.specs.Bytes.{PassedOf, PassedWhole, has_lf};

/// Passes bytes up to the first LF on to the line, and says how many they are with the LF. Where there is none, all bytes are
/// passed on.
fn pass(bytes: &[u8], line: &mut Kept) -> Option<usize>
    ensures { MatchOption result (PassedWhole bytes.now line.old line.new) (λ n. PassedOf n bytes.now line.old line.new) }
{
    match end_of_line(bytes) {
        Some(i) => {
            line.add(&bytes[..i]);
            Some(i + 1)
        }
        None => {
            line.add(bytes);
            None
        }
    }
}

/// Whether there is an LF.
fn has_end(bytes: &[u8]) -> bool
    ensures { result ≡ has_lf bytes.now }
{
    bytes.iter().any(|b| *b == LF)
}

/// The place of the first LF.
fn end_of_line(bytes: &[u8]) -> Option<usize>
    ensures { result ≡ position (λ b. b == 10) bytes.now }
{
    bytes.iter().position(|b| *b == LF)
}

/// The line so far, of which at most `KEPT` bytes are kept. A contract sees the list of these.
#[derive(Drop)]
pub struct Kept {
    bytes: Vec<u8>,
}

impl Model for Kept {
    ghost use Rattle.std.specs.Prelude.{ℕ, List, vec_len, vec_capacity};
    ghost use Rattle.pm_serve.specs.Bytes.{HasRoom};

    ghost Value = { List ℕ };

    ghost view = { λ k. k.bytes.items };

    ghost invariant = { λ k. HasRoom (vec_len k.bytes) (vec_capacity k.bytes) };
}

impl Kept {
    ghost use Rattle.std.specs.Prelude.{◌≡◌, ◌++◌, [], take, IfOk};
    ghost use Rattle.pm_serve.specs.declared.unread.TheConstants.{KEPT};

    /// No bytes, with room for all that are kept.
    pub fn new(alloc: Global) -> Result<Kept, AllocError>
        ensures { IfOk result (λ k. k ≡ []) }
    {
        Ok(Kept {
            bytes: Vec::with_capacity(alloc, KEPT)?,
        })
    }

    /// The bytes that are kept.
    pub fn bytes(&self) -> &[u8]
        ensures { result.now ≡ self.now }
    {
        &self.bytes
    }

    /// Lets all bytes go.
    pub fn clear(&mut self)
        ensures { self.new ≡ [] }
    {
        self.bytes.clear();
    }

    /// Appends bytes to the others, as far as they are kept.
    pub fn add(&mut self, more: &[u8])
        ensures { self.new ≡ take KEPT (self.old ++ more.now) }
    {
        let room = KEPT - self.bytes.len();
        let n = more.len().min(room);
        self.bytes.extend_from_slice(&more[..n]).unwrap();
    }
}
