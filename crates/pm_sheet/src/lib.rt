//! A small document: a list of numbers, where one may be put in or taken out. It keeps all laws of a change.
#![tactic(auto)]

ghost use Rattle.std.specs.Prelude.{◌≡◌, IfOk, ◌++◌, insert, remove, length, ◌≤◌, ◌<◌};
ghost use Rattle.pm_sheet.specs.Edits.{meaning, PutOr};
ghost use Rattle.pm_sheet.specs.EditLaws.{laws};

use pm_change::{Change, Failed};
use pm_list::Listed;
use pm_map::{Positions, Side, Span, StepMap};
use std::alloc::{AllocError, Global};

/// How many numbers a sheet may have.
#[derive(Drop, Debug)]
pub struct Rules {
    pub limit: u64,
}

/// Why an edit does not apply: its place is not in the sheet, or the sheet would be too long.
#[derive(Clone, Copy, Drop, Debug, PartialEq, Eq)]
pub enum Reason {
    Range,
    Large,
}

/// A number put in before place `at`, or the one at this place taken out. Each number is one token.
#[derive(Clone, Copy, Drop, Debug)]
pub enum Edit {
    Insert { at: u64, value: u8 },
    Delete { at: u64 },
}

impl Change for Edit {
    type Rules = Rules;

    type Doc = Listed<u8>;

    type Reason = Reason;

    ghost means = { meaning };

    ghost laws = { laws };

    fn apply(
        &self,
        alloc: Global,
        rules: &Rules,
        doc: &Listed<u8>,
    ) -> Result<Listed<u8>, Failed<Reason>> {
        let length = doc.len() as u64;
        match *self {
            Edit::Insert { at, value } => {
                if length < at {
                    Err(Failed::Reason(Reason::Range))
                } else if length < rules.limit && length + 1 < 4_294_967_296 {
                    put_in(alloc, doc, at as usize, value)
                } else {
                    Err(Failed::Reason(Reason::Large))
                }
            }
            Edit::Delete { at } => {
                if at < length {
                    take_out(alloc, doc, at as usize)
                } else {
                    Err(Failed::Reason(Reason::Range))
                }
            }
        }
    }

    fn inverse(
        &self,
        alloc: Global,
        _rules: &Rules,
        doc: &Listed<u8>,
    ) -> Result<Vec<Edit>, AllocError> {
        match *self {
            Edit::Insert { at, value: _ } => Ok(vec![in alloc; Edit::Delete { at }]?),
            Edit::Delete { at } => match doc.as_slice().get(at as usize) {
                Some(value) => Ok(vec![in alloc; Edit::Insert { at, value: *value }]?),
                None => Ok(Vec::new(alloc)),
            },
        }
    }

    fn step_map(&self) -> StepMap {
        match *self {
            Edit::Insert { at, value: _ } => StepMap::new(
                Some(Span {
                    start: at,
                    old_size: 0,
                    new_size: 1,
                }),
                None,
                false,
            ),
            Edit::Delete { at } => StepMap::new(
                Some(Span {
                    start: at,
                    old_size: 1,
                    new_size: 0,
                }),
                None,
                false,
            ),
        }
    }

    fn carry<P: Positions>(
        &self,
        _alloc: Global,
        positions: &P,
    ) -> Result<Option<Edit>, AllocError> {
        match *self {
            Edit::Insert { at, value } => {
                let moved = positions.place(at, Side::After);
                Ok(Some(Edit::Insert {
                    at: moved.pos,
                    value,
                }))
            }
            Edit::Delete { at } => {
                let moved = positions.place(at, Side::After);
                if moved.deleted {
                    Ok(None)
                } else {
                    Ok(Some(Edit::Delete { at: moved.pos }))
                }
            }
        }
    }

    fn size(doc: &Listed<u8>) -> usize {
        doc.len()
    }

    fn copy(&self, _alloc: Global) -> Result<Edit, AllocError> {
        Ok(*self)
    }

    fn copy_doc(alloc: Global, doc: &Listed<u8>) -> Result<Listed<u8>, AllocError> {
        Ok(Listed::from_vec(Vec::from_slice(alloc, doc.as_slice())?))
    }
}

fn put_in(
    alloc: Global,
    doc: &Listed<u8>,
    at: usize,
    value: u8,
) -> Result<Listed<u8>, Failed<Reason>>
    requires { at ≤ length doc.now }
    ensures { PutOr (insert doc.now at value) result }
{
    let mut numbers = match Vec::from_slice(alloc, doc.as_slice()) {
        Ok(numbers) => numbers,
        Err(AllocError) => return Err(Failed::NoMemory),
    };
    match numbers.insert(at, value) {
        Ok(()) => Ok(Listed::from_vec(numbers)),
        Err(_) => Err(Failed::NoMemory),
    }
}

fn take_out(alloc: Global, doc: &Listed<u8>, at: usize) -> Result<Listed<u8>, Failed<Reason>>
    requires { at < length doc.now }
    ensures { PutOr (remove doc.now at) result }
{
    let mut numbers = match Vec::from_slice(alloc, doc.as_slice()) {
        Ok(numbers) => numbers,
        Err(AllocError) => return Err(Failed::NoMemory),
    };
    let _ = numbers.remove(at);
    Ok(Listed::from_vec(numbers))
}
