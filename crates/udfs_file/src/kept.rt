//! A store of blocks that keeps one of them.

ghost use Rattle.std.specs.Option.{ForSome};
ghost use Rattle.std.specs.Prelude.{◌≡◌, true, Some, OnErr};
ghost use Rattle.udfs_lattice.specs.declared.facts.Fact.TheVariants.{Known};

use udfs_lattice::{BlockStore, Fact, ReadFault};

/// A store of blocks with the bytes of one of its known blocks. It lends these from its own memory, and so reads that block once,
/// however often it is asked for.
#[derive(Drop)]
pub(crate) struct KeptBlock<'a, B: BlockStore> {
    pub(crate) blocks: &'a B,
    /// The block that is kept, if one is.
    number: Option<u32>,
    bytes: [u8; 2048],
    ghost is_kept: { B.tells → ForSome number (λ n. B.states blocks.now n ≡ Known bytes) },
}

impl<'a, B: BlockStore> KeptBlock<'a, B> {
    /// The store, of which no block is kept yet.
    pub(crate) fn new(blocks: &'a B) -> KeptBlock<'a, B>
        ensures { result.blocks ≡ blocks.entry }
    {
        KeptBlock {
            blocks,
            number: None,
            bytes: [0; 2048],
        }
    }

    /// Whether this block is kept.
    fn keeps(&self, n: u32) -> bool
        ensures { result ≡ true → self.now.number ≡ Some n }
    {
        match self.number {
            Some(kept) => kept == n,
            None => false,
        }
    }

    /// Keeps block `n`, if it is known, in place of the one that is kept.
    ///
    /// # Errors
    ///
    /// `ReadFault` where the bytes of the block could not be read.
    pub(crate) fn keep(&mut self, n: u32) -> Result<(), ReadFault>
        ensures same { self.new.blocks ≡ self.old.blocks }
        ensures fails { OnErr result B.fails }
    {
        if self.keeps(n) {
            return Ok(());
        }
        if let Fact::Known(bytes) = self.blocks.read(n)? {
            self.bytes = bytes;
            self.number = Some(n);
        }
        Ok(())
    }
}

impl<'a, B: BlockStore> BlockStore for KeptBlock<'a, B> {
    ghost tells = { B.tells };

    ghost states = { λ k n. B.states k.blocks.now n };

    ghost fails = { B.fails };

    fn knowledge(&self, n: u32) -> Fact<()> {
        self.blocks.knowledge(n)
    }

    fn unknown_ahead(&self, n: u32) -> u32 {
        self.blocks.unknown_ahead(n)
    }

    fn read(&self, n: u32) -> Result<Fact<[u8; 2048]>, ReadFault> {
        if self.keeps(n) {
            return Ok(Fact::Known(self.bytes));
        }
        self.blocks.read(n)
    }

    fn lend<'s>(
        &'s self,
        n: u32,
        room: &'s mut [u8; 2048],
    ) -> Result<Fact<&'s [u8; 2048]>, ReadFault> {
        if self.keeps(n) {
            return Ok(Fact::Known(&self.bytes));
        }
        self.blocks.lend(n, room)
    }
}
