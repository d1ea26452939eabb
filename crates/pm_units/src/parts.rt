//! Parts of a text in pieces.
ghost use Rattle.std.specs.Prelude.{◌≡◌, ◌-◌, ◌<◌, ◌≤◌, ◌++◌, length, take, drop, IfOk, OnOk};
ghost use Rattle.pm_units.specs.Pieces.{text_in, IsPieces};

use crate::pieces::Pieces;
use std::alloc::{AllocError, Global};

impl Pieces {
    /// The units from..to, counted from 0, in the same pieces but for those at the two ends.
    pub(crate) fn cut(&self, alloc: Global, from: usize, to: usize) -> Result<Pieces, AllocError>
        requires pieces { IsPieces self.now }
        requires order { from ≤ to }
        requires within { to ≤ length (text_in self.now) }
        ensures pieces { IfOk result (λ p. IsPieces p) }
        ensures text { IfOk result (λ p. text_in p ≡ take (to - from) (drop from (text_in self.now))) }
    {
        if from == 0 {
            return self.head(alloc, to);
        }
        if to == self.len() {
            return self.tail(alloc, from);
        }
        let front = self.head(alloc, to)?;
        front.tail(alloc, from)
    }

    /// The units before `to`.
    fn head(&self, alloc: Global, to: usize) -> Result<Pieces, AllocError>
        requires pieces { IsPieces self.now }
        requires within { to ≤ length (text_in self.now) }
        ensures pieces { IfOk result (λ p. IsPieces p) }
        ensures text { IfOk result (λ p. text_in p ≡ take to (text_in self.now)) }
    {
        if to == self.len() {
            return self.copy(alloc);
        }
        let place = self.place(to);
        let piece = self.piece(place.index);
        let mut made = Pieces::new(alloc);
        made.append(alloc, self, 0, place.index)?;
        if place.rest == 0 {
            return Ok(made);
        }
        let last = piece.part(alloc, 0, place.rest)?;
        made.push(alloc, last)?;
        Ok(made)
    }

    /// The units from `from` on.
    fn tail(&self, alloc: Global, from: usize) -> Result<Pieces, AllocError>
        requires pieces { IsPieces self.now }
        requires within { from ≤ length (text_in self.now) }
        ensures pieces { IfOk result (λ p. IsPieces p) }
        ensures text { IfOk result (λ p. text_in p ≡ drop from (text_in self.now)) }
    {
        let mut made = Pieces::new(alloc);
        if from == self.len() {
            return Ok(made);
        }
        let place = self.place(from);
        let piece = self.piece(place.index);
        let first = piece.part(alloc, place.rest, piece.len())?;
        let count = self.count();
        made.push(alloc, first)?;
        made.append(alloc, self, place.index + 1, count)?;
        Ok(made)
    }

    /// The units from..to, counted from 0, in a list.
    pub(crate) fn list(&self, alloc: Global, from: usize, to: usize) -> Result<Vec<u16>, AllocError>
        requires pieces { IsPieces self.now }
        requires order { from ≤ to }
        requires within { to ≤ length (text_in self.now) }
        ensures { IfOk result (λ v. v.items ≡ take (to - from) (drop from (text_in self.now))) }
    {
        let mut list = Vec::new(alloc);
        self.put_part(alloc, &mut list, from, to)?;
        Ok(list)
    }

    /// Puts the units from..to after those of a list. After out of memory the list is of no use.
    fn put_part(
        &self,
        alloc: Global,
        list: &mut Vec<u16>,
        from: usize,
        to: usize,
    ) -> Result<(), AllocError>
        requires pieces { IsPieces self.now }
        requires order { from ≤ to }
        requires within { to ≤ length (text_in self.now) }
        ensures { OnOk result (list.new.items ≡ list.old.items ++ take (to - from) (drop from (text_in self.now))) }
    {
        let mut at = from;
        while at < to {
            let place = self.place(at);
            let piece = self.piece(place.index);
            let end = piece.len().min(place.rest + (to - at));
            piece.put_part(alloc, list, place.rest, end)?;
            at += end - place.rest;
        }
        Ok(())
    }
}
