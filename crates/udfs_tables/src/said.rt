//! One of several inputs beside the join of those before it: of which blocks it says something, and where the two disagree.

use std::alloc::{AllocError, Global};

/// What an input says of the blocks of a packet: bit i stands for its block i.
#[derive(Clone, Copy)]
struct Marks {
    /// Something is said of the block.
    said: u32,
    /// The join before knows the block, and so does the input, by the same bytes.
    same: u32,
    /// Both know it, by other bytes.
    other: u32,
}

/// Nothing is said of a packet.
const UNSAID: Marks = Marks {
    said: 0,
    same: 0,
    other: 0,
};

/// In how many blocks an input disagrees with the join of those before it, of how many that both know. A block of which the input
/// itself has two contents is not known to it.
#[derive(Clone, Copy, Debug, PartialEq, Eq)]
pub struct Disagreement {
    pub blocks: u32,
    pub of: u32,
}

/// What an input says beside the join of those before it. It takes 12 bytes for each packet of 32 blocks.
#[derive(Drop)]
pub struct Said {
    packets: Vec<Marks>,
}

impl Said {
    /// An input of which nothing was read.
    pub fn new(alloc: Global) -> Said {
        Said {
            packets: Vec::new(alloc),
        }
    }

    /// The marks of the packet of a block.
    fn marks(&self, block: u32) -> Marks {
        match self.packets.get((block / 32) as usize) {
            Some(marks) => *marks,
            None => UNSAID,
        }
    }

    /// Keeps the marks of the packet of a block, where there is room for them.
    fn set_marks(&mut self, block: u32, marks: Marks) {
        if let Some(kept) = self.packets.get_mut((block / 32) as usize) {
            *kept = marks;
        }
    }

    /// Makes room for what is said of a block.
    ///
    /// # Errors
    ///
    /// `AllocError` where memory ran out.
    pub fn reach(&mut self, block: u32) -> Result<(), AllocError> {
        let place = (block / 32) as usize;
        for _ in self.packets.len()..place + 1 {
            self.packets.push(UNSAID)?;
        }
        Ok(())
    }

    /// Whether the input says something of a block.
    pub fn speaks_of(&self, block: u32) -> bool {
        self.marks(block).said >> (block % 32) & 1 == 1
    }

    /// Whether the first content that the input has for a block is another one than the join before it knows.
    pub fn differs_in(&self, block: u32) -> bool {
        self.marks(block).other >> (block % 32) & 1 == 1
    }

    /// The input has a content for a block, for which there is room. Of its first content `is_known` says whether the join before it
    /// knows the block, and `is_same` whether by the same bytes; of a later one `is_same` says whether it has the bytes of the first one.
    pub fn hear(&mut self, block: u32, is_known: bool, is_same: bool) {
        let bit = 1u32 << (block % 32);
        let mut marks = self.marks(block);
        if marks.said & bit == 0 {
            if is_known && is_same {
                marks.same |= bit;
            }
            if is_known && !is_same {
                marks.other |= bit;
            }
        } else if !is_same {
            marks.same &= !bit;
            marks.other &= !bit;
        }
        marks.said |= bit;
        self.set_marks(block, marks);
    }

    /// The input has a block in conflict, for which there is room.
    pub fn hear_conflict(&mut self, block: u32) {
        let bit = 1u32 << (block % 32);
        let mut marks = self.marks(block);
        marks.said |= bit;
        marks.same &= !bit;
        marks.other &= !bit;
        self.set_marks(block, marks);
    }

    /// In how many blocks the two disagree.
    pub fn disagreement(&self) -> Disagreement {
        let mut blocks = 0u32;
        let mut same = 0u32;
        for marks in self.packets.iter() {
            blocks = blocks.saturating_add(marks.other.count_ones());
            same = same.saturating_add(marks.same.count_ones());
        }
        Disagreement {
            blocks,
            of: blocks.saturating_add(same),
        }
    }
}
