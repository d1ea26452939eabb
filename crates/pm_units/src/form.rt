//! A text, short or long.
ghost use Rattle.std.specs.Prelude.{◌≡◌, ◌+◌, ◌-◌, ◌<◌, ◌≤◌, ◌^◌, [], ◌++◌, length, slice_index, take, drop, IfOk, OnOk};
ghost use Rattle.pm_units.specs.Pieces.{piece_units, text_in, form_units, IsPieces, IsForm};

use crate::piece::{PIECE, Piece};
use crate::pieces::Pieces;
use std::alloc::{AllocError, Global};

/// A text has fewer units.
const LIMIT: usize = 0x1_0000_0000;

/// The units of a text: up to 1,024 in a piece of its own, or any number in pieces that copies share.
#[derive(Drop)]
pub enum Form {
    /// At most 1,024 units.
    Short(Piece),
    /// Units in shared pieces.
    Long(Box<Pieces, Global>),
}

impl Form {
    /// No units. It takes no memory.
    pub(crate) fn new(alloc: Global) -> Form
        ensures form { IsForm result }
        ensures units { form_units result ≡ [] }
    {
        Form::Short(Piece::new(alloc))
    }

    /// These units. 2^32 or more are refused, as if memory had run out.
    pub(crate) fn of_units(alloc: Global, units: &[u16]) -> Result<Form, AllocError>
        ensures form { IfOk result (λ f. IsForm f) }
        ensures units { IfOk result (λ f. form_units f ≡ units.now) }
    {
        if units.len() <= PIECE {
            return Ok(Form::Short(Piece::of_units(alloc, units)?));
        }
        if units.len() >= LIMIT {
            return Err(AllocError);
        }
        let pieces = pieces_of(alloc, units)?;
        Ok(Form::Long(Box::new(alloc, pieces)?))
    }

    /// The number of units. It takes no memory.
    pub(crate) fn len(&self) -> usize
        requires { IsForm self.now }
        ensures units { result ≡ length (form_units self.now) }
        ensures few { result < 2 ^ 32 }
    {
        match self {
            Form::Short(piece) => piece.len(),
            Form::Long(pieces) => pieces.len(),
        }
    }

    /// The unit at `at`, counted from 0. It takes no memory.
    pub(crate) fn unit(&self, at: usize) -> u16
        requires form { IsForm self.now }
        requires within { at < length (form_units self.now) }
        ensures { result ≡ slice_index (form_units self.now) at }
    {
        match self {
            Form::Short(piece) => piece.unit(at),
            Form::Long(pieces) => pieces.unit(at),
        }
    }

    /// The same units. A long text shares its pieces.
    pub(crate) fn copy(&self, alloc: Global) -> Result<Form, AllocError>
        requires { IsForm self.now }
        ensures form { IfOk result (λ f. IsForm f) }
        ensures units { IfOk result (λ f. form_units f ≡ form_units self.now) }
    {
        match self {
            Form::Short(piece) => Ok(Form::Short(piece.copy(alloc)?)),
            Form::Long(pieces) => Ok(Form::Long(Box::new(alloc, pieces.copy(alloc)?)?)),
        }
    }

    /// These units and then those of `other`. 2^32 or more are refused, as if memory had run out.
    pub(crate) fn join(&self, alloc: Global, other: &Form) -> Result<Form, AllocError>
        requires form { IsForm self.now }
        requires other { IsForm other.now }
        ensures form { IfOk result (λ f. IsForm f) }
        ensures units { IfOk result (λ f. form_units f ≡ form_units self.now ++ form_units other.now) }
    {
        if let (Form::Short(first), Form::Short(second)) = (self, other) {
            if first.len() + second.len() <= PIECE {
                return Ok(Form::Short(first.joined(alloc, second)?));
            }
        }
        let mut made = self.pieces(alloc)?;
        other.put(alloc, &mut made)?;
        Ok(Form::Long(Box::new(alloc, made)?))
    }

    /// The same units in pieces.
    fn pieces(&self, alloc: Global) -> Result<Pieces, AllocError>
        requires { IsForm self.now }
        ensures pieces { IfOk result (λ p. IsPieces p) }
        ensures text { IfOk result (λ p. text_in p ≡ form_units self.now) }
    {
        match self {
            Form::Short(_) => {
                let mut made = Pieces::new(alloc);
                self.put(alloc, &mut made)?;
                Ok(made)
            }
            Form::Long(pieces) => pieces.copy(alloc),
        }
    }

    /// Puts the units after those of a text in pieces. 2^32 or more are refused, as if memory had run out; after that the
    /// pieces are of no use.
    fn put(&self, alloc: Global, made: &mut Pieces) -> Result<(), AllocError>
        requires form { IsForm self.now }
        requires pieces { IsPieces made.old }
        ensures pieces { OnOk result (IsPieces made.new) }
        ensures text { OnOk result (text_in made.new ≡ text_in made.old ++ form_units self.now) }
    {
        if made.len() + self.len() >= LIMIT {
            return Err(AllocError);
        }
        if self.len() == 0 {
            return Ok(());
        }
        match self {
            Form::Short(piece) => made.push(alloc, piece.copy(alloc)?),
            Form::Long(pieces) => made.append(alloc, pieces, 0, pieces.count()),
        }
    }

    /// The units from..to, counted from 0.
    pub(crate) fn cut(&self, alloc: Global, from: usize, to: usize) -> Result<Form, AllocError>
        requires form { IsForm self.now }
        requires order { from ≤ to }
        requires within { to ≤ length (form_units self.now) }
        ensures form { IfOk result (λ f. IsForm f) }
        ensures units { IfOk result (λ f. form_units f ≡ take (to - from) (drop from (form_units self.now))) }
    {
        match self {
            Form::Short(piece) => Ok(Form::Short(piece.part(alloc, from, to)?)),
            Form::Long(pieces) => {
                if to - from <= PIECE {
                    return Ok(Form::Short(short_part(alloc, pieces, from, to)?));
                }
                let made = pieces.cut(alloc, from, to)?;
                Ok(Form::Long(Box::new(alloc, made)?))
            }
        }
    }

    /// The units from..to, counted from 0, in a list.
    pub(crate) fn list(&self, alloc: Global, from: usize, to: usize) -> Result<Vec<u16>, AllocError>
        requires form { IsForm self.now }
        requires order { from ≤ to }
        requires within { to ≤ length (form_units self.now) }
        ensures { IfOk result (λ v. v.items ≡ take (to - from) (drop from (form_units self.now))) }
    {
        match self {
            Form::Short(piece) => piece.list(alloc, from, to),
            Form::Long(pieces) => pieces.list(alloc, from, to),
        }
    }

    /// All units, in a list.
    pub(crate) fn all(&self, alloc: Global) -> Result<Vec<u16>, AllocError>
        requires { IsForm self.now }
        ensures { IfOk result (λ v. v.items ≡ form_units self.now) }
    {
        self.list(alloc, 0, self.len())
    }
}

/// The units from..to of a text in pieces, in one piece.
fn short_part(alloc: Global, pieces: &Pieces, from: usize, to: usize) -> Result<Piece, AllocError>
    requires pieces { IsPieces pieces.now }
    requires order { from ≤ to }
    requires within { to ≤ length (text_in pieces.now) }
    ensures { IfOk result (λ p. piece_units p ≡ take (to - from) (drop from (text_in pieces.now))) }
{
    let mut made = Piece::new(alloc);
    let mut at = from;
    while at < to {
        let place = pieces.place(at);
        let piece = pieces.piece(place.index);
        let end = piece.len().min(place.rest + (to - at));
        let part = piece.part(alloc, place.rest, end)?;
        let joined = made.joined(alloc, &part)?;
        made = joined;
        at += end - place.rest;
    }
    Ok(made)
}

/// These units in pieces of 1,024 but the last.
fn pieces_of(alloc: Global, units: &[u16]) -> Result<Pieces, AllocError>
    requires { length units.now < 2 ^ 32 }
    ensures pieces { IfOk result (λ p. IsPieces p) }
    ensures text { IfOk result (λ p. text_in p ≡ units.now) }
{
    let mut made = Pieces::new(alloc);
    let mut at = 0;
    while at < units.len() {
        let end = units.len().min(at + PIECE);
        let piece = Piece::of_units(alloc, &units[at..end])?;
        made.push(alloc, piece)?;
        at = end;
    }
    Ok(made)
}
