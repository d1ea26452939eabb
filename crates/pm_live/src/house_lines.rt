//! The lines of a house as a source, and a sink for the answers to them.
ghost use Rattle.std.specs.Prelude.{◌≡◌, ◌≤◌, length, vec_len};

use pm_archive::Archive;
use pm_house::House;
use pm_io::{Got, Put, Sink, Source};
use pm_serve::Piecewise;
use std::alloc::{AllocError, Global};

/// Where this many bytes are made no further lines are, until they are given.
const ENOUGH: usize = 65_536;

/// The lines that make an empty house what this one is. It makes those of some documents at a time, and tells nothing of its bytes.
#[derive(Drop)]
pub(crate) struct HouseLines<'a> {
    alloc: Global,
    house: &'a House,
    /// Whether the lines of the schemas were made.
    has_schemas: bool,
    /// How many documents' lines were made.
    documents: usize,
    /// What was made last, and how much of it was given.
    bytes: Vec<u8>,
    at: usize,
    faults: u64,
    ghost within: { at ≤ vec_len bytes },
}

impl<'a> HouseLines<'a> {
    /// All lines of the house.
    pub fn new(alloc: Global, house: &'a House) -> HouseLines<'a> {
        HouseLines {
            alloc,
            house,
            has_schemas: false,
            documents: 0,
            bytes: Vec::new(alloc),
            at: 0,
            faults: 0,
        }
    }

    /// Whether there was memory for each line so far.
    pub fn is_whole(&self) -> bool {
        self.faults == 0
    }

    /// Makes further lines, none behind the last.
    fn make(&mut self) -> Result<(), AllocError>
        ensures { self.new.faults ≡ self.old.faults }
    {
        let mut bytes = Vec::new(self.alloc);
        if !self.has_schemas {
            let text = self.house.schema_lines(self.alloc)?;
            bytes.extend_from_slice(text.as_bytes())?;
        }
        let archives = self.house.documents.as_slice();
        let documents = add_documents(self.alloc, archives, self.documents, &mut bytes)?;
        self.has_schemas = true;
        self.documents = documents;
        self.at = 0;
        self.bytes = bytes;
        Ok(())
    }

    /// Gives bytes that were made, as many as the buffer has room for.
    fn give(&mut self, into: &mut [u8]) -> usize
        ensures room { result ≤ length into.new }
        ensures faults { self.new.faults ≡ self.old.faults }
    {
        let rest = &self.bytes[self.at..];
        let count = rest.len().min(into.len());
        into[..count].copy_from_slice(&rest[..count]);
        self.at += count;
        count
    }
}

/// Appends the lines of documents from the place on until there are enough, and says at which place they end.
fn add_documents(
    alloc: Global,
    archives: &[Archive],
    from: usize,
    bytes: &mut Vec<u8>,
) -> Result<usize, AllocError> {
    for place in from..archives.len() {
        if bytes.len() >= ENOUGH {
            return Ok(place);
        }
        let text = archives[place].lines(alloc)?;
        bytes.extend_from_slice(text.as_bytes())?;
    }
    Ok(archives.len())
}

impl<'a> Source for HouseLines<'a> {
    ghost use Rattle.std.specs.Prelude.{None};

    ghost left = { λ s. None };

    ghost faults = { λ s. s.faults };

    fn read(&mut self, into: &mut [u8]) -> Got {
        if self.at == self.bytes.len() {
            match self.make() {
                Ok(()) => {}
                Err(AllocError) => {
                    self.faults = self.faults.saturating_add(1);
                    return Got::Failed;
                }
            }
        }
        Got::Bytes(self.give(into))
    }
}

impl<'a> Piecewise for HouseLines<'a> {
    ghost use Rattle.std.specs.Prelude.{None};

    ghost pieces = { λ _. None };

    fn read_piece(&mut self, into: &mut [u8]) -> Got {
        self.read(into)
    }
}

/// A sink that takes all, and keeps and tells nothing.
#[derive(Drop)]
pub(crate) struct Nowhere;

impl Sink for Nowhere {
    ghost use Rattle.std.specs.Prelude.{None};

    ghost written = { λ s. None };

    ghost faults = { λ s. 0 };

    fn write(&mut self, from: &[u8]) -> Put {
        Put::Took(from.len())
    }
}
