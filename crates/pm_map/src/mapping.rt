//! Several maps one after another, some of which undo others.
ghost use Rattle.std.specs.Prelude.{◌≡◌, ◌<◌, [], None, length, drop, IfOk, OnOk, OnErr};
ghost use Rattle.pm_map.specs.Moves.{is_before, kept_at};
ghost use Rattle.pm_map.specs.Mirrors.{pushed, fronted, enclosed, later_of, paired_with};
ghost use Rattle.pm_map.specs.Through.{SameShape, ArePaired, HasRoom, partner, through};

use crate::passing::over;
use crate::positions::Positions;
use crate::side::Side;
use crate::step_map::{Moved, StepMap};
use std::alloc::{AllocError, Global};
use std::marker::Model;

/// A map, and the number of maps that stand between it and its mirror, which comes later; None where it has none.
#[derive(Drop, Debug)]
pub struct Mirrored {
    pub map: StepMap,
    pub later: Option<usize>,
}

impl Mirrored {
    /// The same map with the same mirror.
    pub fn copy(&self) -> Mirrored
        ensures { result ≡ self.now }
    {
        Mirrored {
            map: self.map.copy(),
            later: self.later,
        }
    }
}

/// Maps one after another, seen as their list. Each pair is a map and a later one that can be its mirror.
/// ProseMirror: `Mapping`.
#[derive(Drop, Debug)]
pub struct Mapping {
    maps: Vec<Mirrored>,
}

impl Model for Mapping {
    ghost use Rattle.std.specs.Prelude.{List};
    ghost use Rattle.pm_map.specs.declared.mapping.Mirrored.{Mirrored};
    ghost use Rattle.pm_map.specs.Through.{ArePaired};

    ghost Value = { List Mirrored };

    ghost view = { λ m. m.maps.items };

    ghost invariant = { λ m. ArePaired m.maps.items };
}

impl Mapping {
    /// The mapping without maps, which leaves each position as it is. It takes no memory until a map comes.
    pub fn new(alloc: Global) -> Mapping
        ensures { result ≡ [] }
    {
        Mapping {
            maps: Vec::new(alloc),
        }
    }

    /// The mapping of these maps, whose pairs must fit. It takes no memory.
    pub fn from_entries(maps: Vec<Mirrored>) -> Mapping
        requires { ArePaired maps.items }
        ensures { result ≡ maps.items }
    {
        Mapping { maps }
    }

    /// Its maps in order, each with its mirror, as `from_entries` takes them. It takes no memory.
    pub fn into_entries(self) -> Vec<Mirrored>
        ensures maps { result.items ≡ self }
        ensures paired { ArePaired result.items }
    {
        self.maps
    }

    /// How many maps it has.
    pub fn len(&self) -> usize
        ensures { result ≡ length self.now }
    {
        self.maps.len()
    }

    /// Map number `i`, counted from 0. It takes no memory.
    pub fn map_at(&self, i: usize) -> StepMap
        requires { i < length self.now }
        ensures { result ≡ partner self.now i }
    {
        self.maps[i].map.copy()
    }

    /// Appends an unpaired map. Out of memory, the mapping stays as it was.
    /// ProseMirror: `Mapping.appendMap`.
    pub fn push(&mut self, map: StepMap) -> Result<(), AllocError>
        ensures ok { OnOk result (self.new ≡ pushed self.old map) }
        ensures err { OnErr result (self.new ≡ self.old) }
    {
        self.maps.push(Mirrored { map, later: None })?;
        Ok(())
    }

    /// Appends a map, as the mirror of map number `earlier`, counted from 0. That one must be the earlier
    /// map of no pair yet, and the shapes must agree: as many ranges, and each new size here is the old size there. Maps
    /// without ranges stay unpaired. Out of memory, the mapping stays as it was.
    /// ProseMirror: `Mapping.appendMap` with `mirrors`.
    pub fn push_pair(&mut self, map: StepMap, earlier: usize) -> Result<(), AllocError>
        requires earlier_in { earlier < length self.old }
        requires unpaired { later_of self.old earlier ≡ None }
        requires shape { SameShape (partner self.old earlier) map }
        ensures ok { OnOk result (self.new ≡ paired_with self.old map earlier) }
        ensures err { OnErr result (self.new ≡ self.old) }
    {
        let between = self.maps.len() - earlier - 1;
        let later = self.maps[earlier].map.gap(between);
        self.maps.push(Mirrored { map, later: None })?;
        self.maps[earlier].later = later;
        Ok(())
    }

    /// Puts an unpaired map before the first one. Out of memory, the mapping stays as it was.
    pub fn put_front(&mut self, map: StepMap) -> Result<(), AllocError>
        ensures ok { OnOk result (self.new ≡ fronted self.old map) }
        ensures err { OnErr result (self.new ≡ self.old) }
    {
        self.maps.insert(0, Mirrored { map, later: None })?;
        Ok(())
    }

    /// Appends a map before the first one and its mirror. The shapes must agree: as many ranges, and
    /// each new size after is the old size at the front. Maps without ranges stay unpaired. Out of memory, the mapping
    /// stays as it was.
    pub fn enclose(&mut self, front: StepMap, behind: StepMap) -> Result<(), AllocError>
        requires { SameShape front behind }
        ensures ok { OnOk result (self.new ≡ enclosed self.old front behind) }
        ensures err { OnErr result (self.new ≡ self.old) }
    {
        let later = front.gap(self.maps.len());
        self.push(behind)?;
        match self.maps.insert(0, Mirrored { map: front, later }) {
            Ok(()) => Ok(()),
            Err(_) => {
                self.maps.pop();
                Err(AllocError)
            }
        }
    }

    /// Each pair of a mapping fits.
    pub fn paired(&self)
        ensures { ArePaired self.now }
    {
        let _ = &self.maps;
    }

    /// Where the position `pos`, in tokens, goes over all maps by its side. Where a map deletes it and has
    /// a mirror, the position jumps to the same offset in the same range of that mirror's result, and this pair adds no
    /// flag. Else each map's flags are added. The position must stay below 2^64 all the way. `recover` is None.
    /// ProseMirror: `Mapping.mapResult`.
    pub fn map(&self, pos: u64, side: Side) -> Moved
        requires { HasRoom self.now 0 (is_before side) (kept_at pos) }
        ensures { result ≡ through self.now pos side }
    {
        let maps = self.maps.as_slice();
        let mut so = Moved {
            pos,
            deleted: false,
            across: false,
            after: false,
            recover: None,
        };
        let mut i = 0;
        while i < maps.len() {
            let next = over(&maps[i], &maps[i + 1..], so, side);
            so = next.so;
            i += 1 + next.skip;
        }
        so
    }

    /// The mapping of the maps from number `from` on, counted from 0, with the pairs among them. It is empty where there is
    /// no such map.
    /// ProseMirror: `Mapping.slice`.
    pub fn slice(&self, alloc: Global, from: usize) -> Result<Mapping, AllocError>
        ensures { IfOk result (λ m. m ≡ drop from self.now) }
    {
        if self.maps.len() <= from {
            return Ok(Mapping::new(alloc));
        }
        Ok(Mapping {
            maps: copy_maps(alloc, &self.maps[from..])?,
        })
    }

    /// A mapping equal to this one.
    pub fn copy(&self, alloc: Global) -> Result<Mapping, AllocError>
        ensures { IfOk result (λ m. m ≡ self.now) }
    {
        Ok(Mapping {
            maps: copy_maps(alloc, self.maps.as_slice())?,
        })
    }
}

/// A mapping tells its own positions.
impl Positions for Mapping {
    ghost use Rattle.pm_map.specs.Positions.{IsItself};

    ghost leads = { IsItself };

    fn place(&self, pos: u64, side: Side) -> Moved {
        self.map(pos, side)
    }

    ghost fits = { λ p ms n k h. (h.paired, h.fits) };
}

fn copy_maps(alloc: Global, maps: &[Mirrored]) -> Result<Vec<Mirrored>, AllocError>
    ensures { IfOk result (λ v. v.items ≡ maps.now) }
{
    let mut copies = Vec::new(alloc);
    for map in maps {
        copies.push(map.copy())?;
    }
    Ok(copies)
}
