//! A piece of a text.
ghost use Rattle.std.specs.Prelude.{◌≡◌, ℕ, ◌-◌, ◌<◌, ◌≤◌, [], ◌++◌, length, slice_index, take, drop, IfOk, OnOk};
ghost use Rattle.pm_units.specs.Pieces.{piece_units};

use crate::narrow::{is_plain, narrowed, widened};
use std::alloc::{AllocError, Global};

/// The greatest number of units in a piece.
pub(crate) const PIECE: usize = 1024;

/// Neighbouring units of a text, one byte each where each of them is below 128, else two.
#[derive(Drop)]
pub enum Piece {
    /// Units below 128.
    Narrow(Vec<u8>),
    /// Any units.
    Wide(Vec<u16>),
}

impl Piece {
    /// No units. It takes no memory.
    pub(crate) fn new(alloc: Global) -> Piece
        ensures { piece_units result ≡ [] }
    {
        Piece::Narrow(Vec::new(alloc))
    }

    /// These units.
    pub(crate) fn of_units(alloc: Global, units: &[u16]) -> Result<Piece, AllocError>
        ensures { IfOk result (λ p. piece_units p ≡ units.now) }
    {
        if is_plain(units) {
            Ok(Piece::Narrow(narrowed(alloc, units)?))
        } else {
            Ok(Piece::Wide(Vec::from_slice(alloc, units)?))
        }
    }

    /// The number of units. It takes no memory.
    pub(crate) fn len(&self) -> usize
        ensures { result ≡ length (piece_units self.now) }
    {
        match self {
            Piece::Narrow(bytes) => bytes.len(),
            Piece::Wide(units) => units.len(),
        }
    }

    /// The unit at `at`, counted from 0. It takes no memory.
    pub(crate) fn unit(&self, at: usize) -> u16
        requires { at < length (piece_units self.now) }
        ensures { result ≡ slice_index (piece_units self.now) at }
    {
        match self {
            Piece::Narrow(bytes) => u16::from(bytes[at]),
            Piece::Wide(units) => units[at],
        }
    }

    /// The units from..to, counted from 0.
    pub(crate) fn part(&self, alloc: Global, from: usize, to: usize) -> Result<Piece, AllocError>
        requires order { from ≤ to }
        requires within { to ≤ length (piece_units self.now) }
        ensures { IfOk result (λ p. piece_units p ≡ take (to - from) (drop from (piece_units self.now))) }
    {
        match self {
            Piece::Narrow(bytes) => Ok(Piece::Narrow(Vec::from_slice(alloc, &bytes[from..to])?)),
            Piece::Wide(units) => Ok(Piece::Wide(Vec::from_slice(alloc, &units[from..to])?)),
        }
    }

    /// Units equal to these.
    pub(crate) fn copy(&self, alloc: Global) -> Result<Piece, AllocError>
        ensures { IfOk result (λ p. piece_units p ≡ piece_units self.now) }
    {
        match self {
            Piece::Narrow(bytes) => Ok(Piece::Narrow(Vec::from_slice(alloc, bytes)?)),
            Piece::Wide(units) => Ok(Piece::Wide(Vec::from_slice(alloc, units)?)),
        }
    }

    /// These units and then those of `other`.
    pub(crate) fn joined(&self, alloc: Global, other: &Piece) -> Result<Piece, AllocError>
        ensures { IfOk result (λ p. piece_units p ≡ piece_units self.now ++ piece_units other.now) }
    {
        if let (Piece::Narrow(first), Piece::Narrow(second)) = (self, other) {
            return Ok(Piece::Narrow(both(alloc, first, second)?));
        }
        let mut units = Vec::new(alloc);
        self.put(alloc, &mut units)?;
        other.put(alloc, &mut units)?;
        Ok(Piece::Wide(units))
    }

    /// Puts the units after those of a list. After out of memory the list is of no use.
    pub(crate) fn put(&self, alloc: Global, list: &mut Vec<u16>) -> Result<(), AllocError>
        ensures { OnOk result (list.new.items ≡ list.old.items ++ piece_units self.now) }
    {
        match self {
            Piece::Narrow(bytes) => {
                let units = widened(alloc, bytes)?;
                list.extend_from_slice(&units)?;
            }
            Piece::Wide(units) => list.extend_from_slice(units)?,
        }
        Ok(())
    }

    /// The units from..to, counted from 0, in a list.
    pub(crate) fn list(&self, alloc: Global, from: usize, to: usize) -> Result<Vec<u16>, AllocError>
        requires order { from ≤ to }
        requires within { to ≤ length (piece_units self.now) }
        ensures { IfOk result (λ v. v.items ≡ take (to - from) (drop from (piece_units self.now))) }
    {
        match self {
            Piece::Narrow(bytes) => Ok(widened(alloc, &bytes[from..to])?),
            Piece::Wide(units) => Ok(Vec::from_slice(alloc, &units[from..to])?),
        }
    }

    /// Puts the units from..to after those of a list. After out of memory the list is of no use.
    pub(crate) fn put_part(
        &self,
        alloc: Global,
        list: &mut Vec<u16>,
        from: usize,
        to: usize,
    ) -> Result<(), AllocError>
        requires order { from ≤ to }
        requires within { to ≤ length (piece_units self.now) }
        ensures { OnOk result (list.new.items ≡ list.old.items ++ take (to - from) (drop from (piece_units self.now))) }
    {
        match self {
            Piece::Narrow(bytes) => {
                let units = widened(alloc, &bytes[from..to])?;
                list.extend_from_slice(&units)?;
            }
            Piece::Wide(units) => list.extend_from_slice(&units[from..to])?,
        }
        Ok(())
    }
}

/// The bytes of both, one after another.
fn both(alloc: Global, first: &[u8], second: &[u8]) -> Result<Vec<u8>, AllocError>
    ensures { IfOk result (λ v. v.items ≡ first.now ++ second.now) }
{
    let mut bytes = Vec::from_slice(alloc, first)?;
    bytes.extend_from_slice(second)?;
    Ok(bytes)
}
