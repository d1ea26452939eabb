//! A text in shared pieces.
ghost use Rattle.std.specs.Prelude.{◌≡◌, ℕ, ◌+◌, ◌<◌, ◌≤◌, ◌^◌, [], ◌++◌, length, get_or, slice_index, if◌then◌else◌, IfOk, OnOk};
ghost use Rattle.pm_sized.specs.Parts.{part};
ghost use Rattle.pm_units.specs.Pieces.{piece_units, pieces_in, text_in, spelled, IsPieces, IsAt};

use crate::piece::{PIECE, Piece};
use pm_sized::Chunks;
use std::alloc::{AllocError, Global};
use std::sync::Arc;

/// Pieces of 1 to 1,024 units, with the number of units beside each. Copies share them.
#[derive(Drop)]
pub struct Pieces {
    pub(crate) chunks: Chunks<Arc<Piece, Global>>,
}

/// Where a unit is.
#[derive(Clone, Copy)]
pub struct Place {
    /// The number of its piece.
    pub(crate) index: usize,
    /// Its number in the piece.
    pub(crate) rest: usize,
}

impl Pieces {
    /// No pieces. It takes no memory.
    pub(crate) fn new(alloc: Global) -> Pieces
        ensures pieces { IsPieces result }
        ensures text { text_in result ≡ [] }
    {
        Pieces {
            chunks: Chunks::new(alloc),
        }
    }

    /// The same pieces, shared with these.
    pub(crate) fn copy(&self, alloc: Global) -> Result<Pieces, AllocError>
        requires { IsPieces self.now }
        ensures pieces { IfOk result (λ p. IsPieces p) }
        ensures text { IfOk result (λ p. text_in p ≡ text_in self.now) }
    {
        let chunks = self.chunks.copy(alloc)?;
        Ok(Pieces { chunks })
    }

    /// The number of units. It takes no memory.
    pub(crate) fn len(&self) -> usize
        requires { IsPieces self.now }
        ensures { result ≡ length (text_in self.now) }
    {
        self.chunks.total()
    }

    /// The number of pieces. It takes no memory.
    pub(crate) fn count(&self) -> usize
        requires { IsPieces self.now }
        ensures { result ≡ length (pieces_in self.now) }
    {
        self.chunks.len()
    }

    /// Piece `i`, counted from 0. It takes no memory.
    pub(crate) fn piece(&self, i: usize) -> &Piece
        requires pieces { IsPieces self.now }
        requires within { i < length (pieces_in self.now) }
        ensures { result.now ≡ (get_or (pieces_in self.now) i (result.now, 0)).0 }
    {
        self.chunks.item(i)
    }

    /// Where the unit at `at` is. It takes no memory.
    pub(crate) fn place(&self, at: usize) -> Place
        requires pieces { IsPieces self.now }
        requires within { at < length (text_in self.now) }
        ensures { IsAt (pieces_in self.now) at result.index result.rest }
    {
        let found = self.chunks.locate(at);
        Place {
            index: found.index,
            rest: at - found.start,
        }
    }

    /// The unit at `at`, counted from 0. It takes no memory.
    pub(crate) fn unit(&self, at: usize) -> u16
        requires pieces { IsPieces self.now }
        requires within { at < length (text_in self.now) }
        ensures { result ≡ slice_index (text_in self.now) at }
    {
        let place = self.place(at);
        self.piece(place.index).unit(place.rest)
    }

    /// Appends a piece, or joins the two where they fit together in one. After out of memory the pieces are
    /// of no use.
    pub(crate) fn push(&mut self, alloc: Global, piece: Piece) -> Result<(), AllocError>
        requires pieces { IsPieces self.old }
        requires some { 0 < length (piece_units piece) }
        requires most { length (piece_units piece) ≤ 1024 }
        requires room { length (text_in self.old) + length (piece_units piece) < 2 ^ 32 }
        ensures pieces { OnOk result (IsPieces self.new) }
        ensures text { OnOk result (text_in self.new ≡ text_in self.old ++ piece_units piece) }
    {
        if self.merge(alloc, &piece)? {
            return Ok(());
        }
        let count = piece.len();
        let shared = Arc::new(alloc, piece)?;
        self.chunks.push(alloc, shared, count)?;
        Ok(())
    }

    /// Joins a piece with the last one where the two fit together in one: `true`. After out of memory the pieces are of no
    /// use.
    fn merge(&mut self, alloc: Global, piece: &Piece) -> Result<bool, AllocError>
        requires pieces { IsPieces self.old }
        requires some { 0 < length (piece_units piece.now) }
        requires most { length (piece_units piece.now) ≤ 1024 }
        requires room { length (text_in self.old) + length (piece_units piece.now) < 2 ^ 32 }
        ensures pieces { OnOk result (IsPieces self.new) }
        ensures text { IfOk result (λ joined. text_in self.new ≡ (if joined then text_in self.old ++ piece_units piece.now else text_in self.old)) }
    {
        let count = self.count();
        if count == 0 {
            return Ok(false);
        }
        let last = self.piece(count - 1);
        if last.len() + piece.len() > PIECE {
            return Ok(false);
        }
        let joined = last.joined(alloc, piece)?;
        let units = joined.len();
        let shared = Arc::new(alloc, joined)?;
        self.chunks.set_last(alloc, shared, units)?;
        Ok(true)
    }

    /// Appends the pieces from..to of another text, shared with it; the first of them is joined with the last
    /// one where the two fit together in one. After out of memory the pieces are of no use.
    pub(crate) fn append(
        &mut self,
        alloc: Global,
        source: &Pieces,
        from: usize,
        to: usize,
    ) -> Result<(), AllocError>
        requires pieces { IsPieces self.old }
        requires source { IsPieces source.now }
        requires order { from ≤ to }
        requires within { to ≤ length (pieces_in source.now) }
        requires room { length (text_in self.old) + length (spelled (part from to (pieces_in source.now))) < 2 ^ 32 }
        ensures pieces { OnOk result (IsPieces self.new) }
        ensures text { OnOk result (text_in self.new ≡ text_in self.old ++ spelled (part from to (pieces_in source.now))) }
    {
        let next = self.merge_first(alloc, source, from, to)?;
        self.share(alloc, source, next, to)
    }

    /// Joins the first of the pieces from..to of another text with the last one, where there is any and the two fit together
    /// in one. It answers the number of the first piece that is left. After out of memory the pieces are of no use.
    fn merge_first(
        &mut self,
        alloc: Global,
        source: &Pieces,
        from: usize,
        to: usize,
    ) -> Result<usize, AllocError>
        requires pieces { IsPieces self.old }
        requires source { IsPieces source.now }
        requires order { from ≤ to }
        requires within { to ≤ length (pieces_in source.now) }
        requires room { length (text_in self.old) + length (spelled (part from to (pieces_in source.now))) < 2 ^ 32 }
        ensures pieces { OnOk result (IsPieces self.new) }
        ensures order { IfOk result (λ next. next ≤ to) }
        ensures text { IfOk result (λ next. text_in self.new ++ spelled (part next to (pieces_in source.now)) ≡ text_in self.old ++ spelled (part from to (pieces_in source.now))) }
    {
        if from == to {
            return Ok(from);
        }
        if self.merge(alloc, source.piece(from))? {
            return Ok(from + 1);
        }
        Ok(from)
    }

    /// Appends the pieces from..to of another text, shared with it. After out of memory the pieces are of no
    /// use.
    fn share(
        &mut self,
        alloc: Global,
        source: &Pieces,
        from: usize,
        to: usize,
    ) -> Result<(), AllocError>
        requires pieces { IsPieces self.old }
        requires source { IsPieces source.now }
        requires order { from ≤ to }
        requires within { to ≤ length (pieces_in source.now) }
        requires room { length (text_in self.old) + length (spelled (part from to (pieces_in source.now))) < 2 ^ 32 }
        ensures pieces { OnOk result (IsPieces self.new) }
        ensures text { OnOk result (text_in self.new ≡ text_in self.old ++ spelled (part from to (pieces_in source.now))) }
    {
        self.chunks.append(alloc, &source.chunks, from, to)?;
        Ok(())
    }
}
