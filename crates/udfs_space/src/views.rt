//! A table of blocks and the places in it, which always travel together.

ghost use Rattle.std.specs.Prelude.{◌≡◌, ◌≤◌, ◌<◌, ◌+◌, ℕ, IfOk, IfSome, IsSome, OnErr, Some, option_map};
ghost use Rattle.udfs_lattice.specs.Stores.{known_as};
ghost use Rattle.udfs_lattice.specs.declared.facts.Fact.TheVariants.{Unknown};
ghost use Rattle.udfs_space.specs.Places.{block_at, block_now};
ghost use Rattle.udfs_space.specs.Views.{view_by, view_now};

use crate::spaces::Space;
use udfs_lattice::{BlockStore, BlockTable, Fact, ReadFault};
use udfs_tag::LbAddr;

/// The number of the logical block that is `count` blocks after an address in its partition, which may pass 32 bits.
fn behind(address: LbAddr, count: u32) -> u64
    ensures { result ≡ address.block + count }
{
    u64::from(address.block) + u64::from(count)
}

/// A volume as the layers above see it: what is known of its blocks, and where the logical blocks of its partitions
/// are. It borrows both, so it is passed by value.
#[derive(Clone, Copy)]
pub struct View<'a> {
    /// What is known.
    pub table: &'a BlockTable,
    /// Where the logical blocks are.
    pub space: &'a Space,
}

impl<'a> View<'a> {
    /// The block of the volume that holds a logical block, and what is known of it: none where the logical
    /// block has no place. It takes no memory.
    pub fn block_at(self, address: LbAddr) -> Option<(u32, Fact<&'a [u8; 2048]>)>
        ensures value { block_now result ≡ block_at (view_now self.entry) address.reference address.block }
        ensures fits { IfSome result (λ found. found.0 ≤ 4194303) }
    {
        self.block_behind(address, 0)
    }

    /// The same of the logical block that is `count` blocks after an address in its partition. Its number may pass 32 bits, and then
    /// it has no place. It takes no memory.
    pub fn block_behind(self, address: LbAddr, count: u32) -> Option<(u32, Fact<&'a [u8; 2048]>)>
        ensures value { block_now result ≡ block_at (view_now self.entry) address.reference (address.block + count) }
        ensures small { IsSome result → address.block + count < 4294967296 }
        ensures fits { IfSome result (λ found. found.0 ≤ 4194303) }
    {
        self.space
            .block_at(self.table, address.reference, behind(address, count))
    }

    /// The block of the volume that holds the logical block `count` blocks after an address, and how many logical blocks from that one
    /// on are unknown and lie one after the other in the volume, as far as one call looks: at most up to the end of a packet of 32
    /// blocks. It takes no memory.
    pub fn unknown_ahead(self, address: LbAddr, count: u32) -> Option<(u32, u32)>
        ensures { IfSome result (λ ahead. (j : ℕ) → j < ahead.1 → block_at (view_now self.entry) address.reference (address.block + count + j) ≡ Some (ahead.0 + j, Unknown)) }
    {
        let first = address.block.checked_add(count)?;
        let place = self.space.place(address.reference, first)?;
        let beside = self.space.beside(LbAddr {
            block: first,
            reference: address.reference,
        });
        Some((place, beside.min(self.table.unknown_ahead(place))))
    }
}

/// A volume as the layers above see it, by any store of blocks: what is known of its blocks, wherever their bytes are, and where the
/// logical blocks of its partitions are. It borrows both, so it is passed by value.
#[derive_where(Clone, Copy)]
pub struct StoreView<'a, B: BlockStore> {
    /// What is known.
    pub blocks: &'a B,
    /// Where the logical blocks are.
    pub space: &'a Space,
}

impl<'a, B: BlockStore> StoreView<'a, B> {
    /// The block of the volume that holds the logical block `count` blocks after an address, and what is known of it, as
    /// [`View::block_behind`]. The bytes of a known block are lent from the store's memory, or from `room`.
    ///
    /// # Errors
    ///
    /// `ReadFault` where the bytes of a known block could not be read.
    pub fn block_behind<'r>(
        self,
        address: LbAddr,
        count: u32,
        room: &'r mut [u8; 2048],
    ) -> Result<Option<(u32, Fact<&'r [u8; 2048]>)>, ReadFault>
    where
        'a: 'r,
        ensures value { IfOk result (λ found. B.tells → block_now found ≡ block_at (view_by B.states self.entry) address.reference (address.block + count)) }
        ensures small { IfOk result (λ found. IsSome found → address.block + count < 4294967296) }
        ensures fits { IfOk result (λ found. IfSome found (λ found. found.0 ≤ 4194303)) }
        ensures fails { OnErr result B.fails }
    {
        self.space.block_in(self.blocks, address.reference, behind(address, count), room)
    }

    /// The block of the volume that holds a logical block, and what is known of it, as [`View::block_at`]. The bytes of a known block
    /// are lent from the store's memory, or from `room`.
    ///
    /// # Errors
    ///
    /// `ReadFault` where the bytes of a known block could not be read.
    pub fn block_at<'r>(
        self,
        address: LbAddr,
        room: &'r mut [u8; 2048],
    ) -> Result<Option<(u32, Fact<&'r [u8; 2048]>)>, ReadFault>
    where
        'a: 'r,
        ensures value { IfOk result (λ found. B.tells → block_now found ≡ block_at (view_by B.states self.entry) address.reference address.block) }
        ensures fits { IfOk result (λ found. IfSome found (λ found. found.0 ≤ 4194303)) }
        ensures fails { OnErr result B.fails }
    {
        self.block_behind(address, 0, room)
    }

    /// The block of the volume that holds the logical block `count` blocks after an address, and what is known of it, without its
    /// bytes: none where the logical block has no place. It takes no memory, reads nothing and cannot fail.
    pub fn knowledge_behind(self, address: LbAddr, count: u32) -> Option<(u32, Fact<()>)>
        ensures value { B.tells → result ≡ option_map (λ block. (block.0, known_as block.1)) (block_at (view_by B.states self.entry) address.reference (address.block + count)) }
        ensures fits { IfSome result (λ found. found.0 ≤ 4194303) }
    {
        self.space
            .knowledge_in(self.blocks, address.reference, behind(address, count))
    }

    /// The block of the volume that holds the logical block `count` blocks after an address, and how many logical blocks from that one
    /// on are unknown and lie one after the other in the volume, as [`View::unknown_ahead`]. It takes no memory, reads nothing and
    /// cannot fail.
    pub fn unknown_ahead(self, address: LbAddr, count: u32) -> Option<(u32, u32)>
        ensures { B.tells → IfSome result (λ ahead. (j : ℕ) → j < ahead.1 → block_at (view_by B.states self.entry) address.reference (address.block + count + j) ≡ Some (ahead.0 + j, Unknown)) }
    {
        let first = address.block.checked_add(count)?;
        let place = self.space.place(address.reference, first)?;
        let beside = self.space.beside(LbAddr {
            block: first,
            reference: address.reference,
        });
        Some((place, beside.min(self.blocks.unknown_ahead(place))))
    }
}
