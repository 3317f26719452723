//! The ordered map of single blocks, with which the table is compared over a row of calls.

use std::alloc::Global;
use std::collections::BTreeMap;
use udfs_lattice::{BlockTable, Fact, Join, TableError};

/// The blocks of the row: the first and the last of four packets.
pub const BLOCKS: [u32; 6] = [0, 31, 32, 63, 4_194_272, 4_194_303];

/// A block that is not in the map is unknown.
#[derive(Drop)]
pub struct OrderedMap {
    pub blocks: BTreeMap<u32, Fact<[u8; 2048]>>,
}

impl OrderedMap {
    fn new(alloc: Global) -> Self {
        OrderedMap {
            blocks: BTreeMap::new(alloc),
        }
    }

    fn add(&mut self, n: u32, fact: &Fact<[u8; 2048]>) -> Result<(), TableError> {
        match self.blocks.get_mut(&n) {
            Some(mine) => mine.join(fact),
            None => match self.blocks.insert(n, *fact) {
                Ok(_) => Ok(()),
                Err(_) => Err(TableError::OutOfMemory),
            },
        }
    }

    fn join(&mut self, other: &OrderedMap) -> Result<(), TableError> {
        for (n, fact) in other.blocks.iter() {
            self.add(*n, fact)?;
        }
        Ok(())
    }

    fn state(&self, n: u32) -> Fact<&[u8; 2048]> {
        match self.blocks.get(&n) {
            Some(fact) => borrowed(fact),
            None => Fact::Unknown,
        }
    }
}

fn borrowed(fact: &Fact<[u8; 2048]>) -> Fact<&[u8; 2048]> {
    match fact {
        Fact::Unknown => Fact::Unknown,
        Fact::Known(bytes) => Fact::Known(bytes),
        Fact::Conflict => Fact::Conflict,
    }
}

/// A table and the map that is to say the same.
#[derive(Drop)]
pub struct Pair {
    pub table: BlockTable,
    pub map: OrderedMap,
}

impl Pair {
    pub fn new(alloc: Global) -> Self {
        Pair {
            table: BlockTable::new(alloc),
            map: OrderedMap::new(alloc),
        }
    }

    pub fn put(&mut self, n: u32, bytes: &[u8; 2048]) -> Result<(), TableError> {
        self.table.put(n, bytes)?;
        self.map.add(n, &Fact::Known(*bytes))
    }

    pub fn join(&mut self, other: &Pair) -> Result<(), TableError> {
        self.table.join(&other.table)?;
        self.map.join(&other.map)
    }

    /// Whether the table and the map say the same by each call.
    pub fn agrees(&self) -> bool {
        self.states_agree() && self.counts_agree() && self.entries_agree()
    }

    fn states_agree(&self) -> bool {
        for n in BLOCKS.iter() {
            if self.table.state(*n) != self.map.state(*n) {
                return false;
            }
        }
        true
    }

    fn counts_agree(&self) -> bool {
        let mut known = 0u32;
        let mut conflicts = 0u32;
        for fact in self.map.blocks.values() {
            match fact {
                Fact::Unknown => {}
                Fact::Known(_) => known = known.wrapping_add(1),
                Fact::Conflict => conflicts = conflicts.wrapping_add(1),
            }
        }
        self.table.known() == known && self.table.conflicts() == conflicts
    }

    fn entries_agree(&self) -> bool {
        let mut entries = self.table.entries();
        for (n, fact) in self.map.blocks.iter() {
            match entries.next() {
                Some((block, state)) => {
                    if block != *n || state != borrowed(fact) {
                        return false;
                    }
                }
                None => return false,
            }
        }
        entries.next().is_none()
    }
}
