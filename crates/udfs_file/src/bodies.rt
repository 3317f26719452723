//! The bodies of entries (ECMA-167 4/12.1, 4/14.5, 4/14.14).

ghost use Rattle.std.specs.Prelude.{◌≡◌, ◌≤◌, length, IfOk, IsErrOf, OnErr, true};
ghost use Rattle.udfs_lattice.specs.Tables.{state_of};
ghost use Rattle.udfs_space.specs.Places as places;
ghost use Rattle.udfs_space.specs.Places.{view};
ghost use Rattle.udfs_space.specs.Views.{view_by, view_now};

use crate::areas::Area;
use crate::entries::Entry;
use crate::extents::{extent, follow};
use crate::faults::{NodeFault, WalkError};
use crate::stretches::{Follow, Run, Stretch};
use std::alloc::{AllocError, Global};
use std::marker::Model;
use udfs_lattice::{BlockStore, BlockTable, GaveUp, ReadFault};
use udfs_osta::OutOfMemory;
use udfs_space::{Space, StoreView, View};
use udfs_tag::{LbAddr, extent_types};

/// The body of an entry: as many bytes as its information length says, each of them known, zero or missing.
/// In contracts a body is its stretches; `cells_of` makes cells of them.
#[derive(Drop)]
pub struct Body {
    stretches: Vec<Stretch>,
}

impl Model for Body {
    ghost use Rattle.std.specs.Prelude.{List};
    ghost use Rattle.udfs_file.specs.declared.stretches.Stretch.{Stretch};
    ghost use Rattle.udfs_file.specs.Stretches.{LieInBlocks};

    ghost Value = { List Stretch };

    ghost view = { λ b. b.stretches.items };

    ghost invariant = { λ b. LieInBlocks b.stretches.items };
}

impl Body {
    ghost use Rattle.udfs_file.specs.Stretches.{GivesStretches, LieInBlocks, IsStanding, cells_of};
    ghost use Rattle.udfs_file.specs.Entries.{entry_of};
    ghost use Rattle.udfs_file.specs.Bodies.{body, extents_body_by, listed_body};
    ghost use Rattle.udfs_file.specs.TailBodies.{has_cells, is_tail_read};
    ghost use Rattle.udfs_file.specs.Told.{TellsBody};
    ghost use Rattle.std.specs.Prelude.{◌⊎◌, ◌<◌, ◌&&◌, Err, false, not};

    /// The stretches, in order. Each but the last fills its blocks, so at most 2048 bytes side by side lie in one
    /// block, or in the end of one and the beginning of the next. It takes no memory.
    pub fn stretches(&self) -> &[Stretch]
        ensures value { result.now ≡ self.now }
        ensures blocks { LieInBlocks self.now }
    {
        self.stretches.as_slice()
    }

    /// The body of `entry`, which is known at logical block `b` of the partition: the bytes embedded in it, or those
    /// of its extents, as far as they are known.
    ///
    /// The descriptors are taken in order while they cover less than the information length, and then no more.
    /// Recorded extents take consecutive logical blocks, others are zeros. A descriptor of type 3 goes on in an
    /// allocation extent descriptor (ECMA-167 4/14.5); where its block is not known, all further bytes are missing
    /// with it. It takes a walk over the descriptors, and memory for one stretch of each.
    ///
    /// Where the rules take the tail, the last extent of the list (a descriptor of length 0 follows it, or no descriptor)
    /// extends to the end of its last block, if the body needs that and has no fault with it: a file that grew inside its
    /// last block may still have the length that it had.
    ///
    /// Where the partitions are a part of complete ones, in which the body has no fault and is the one that the
    /// standard reads, it has none here, and each of its cells is that body's or missing: missing exactly if some
    /// block that it needs is not known, and the block that it names is one of these.
    ///
    /// # Errors
    ///
    /// A fault found anywhere on the walk is the body's, whatever is missing. Of one descriptor, in this order:
    /// [`NodeFault::Short`] where it is of length 0 or does not exist; [`NodeFault::Reference`] where it needs
    /// blocks of a partition that does not exist, [`NodeFault::Range`] where one of these blocks has no place;
    /// [`NodeFault::Chain`] where it continues in a block that is not an allocation extent descriptor there or has no
    /// room for what it says to hold, or that is the 257th, or where its length exceeds 2048; [`NodeFault::Odd`] where
    /// it ends before the body does and its length is not a multiple of 2048. [`WalkError::OutOfMemory`] where memory
    /// runs out: never for an empty body that is not embedded.
    pub fn read(
        alloc: Global,
        table: &BlockTable,
        space: &Space,
        entry: &Entry<'_>,
        reference: u16,
        b: u32,
    ) -> Result<Body, WalkError>
        requires { IsStanding (view (state_of table.now) space.now) reference b entry.now }
        ensures value { GivesStretches (view (state_of table.now) space.now) result (body (view (state_of table.now) space.now) reference b (entry_of entry.now)) }
        ensures complete { TellsBody (view (state_of table.now) space.now) reference b (entry_of entry.now) result }
        ensures memory { result ≡ Err WalkError.OutOfMemory → ((entry_of entry.now).form ≡ 3) ⊎ (0 < (entry_of entry.now).size) }
    {
        let view = StoreView {
            blocks: table,
            space,
        };
        match Body::read_by(alloc, view, entry, reference, b) {
            Ok(told) => told,
            Err(_) => unreachable!(),
        }
    }

    /// The same as [`Body::read`], by any store of blocks.
    ///
    /// # Errors
    ///
    /// `ReadFault` where the bytes of a known block could not be read. Nothing is told of the body then.
    pub fn read_by<B: BlockStore>(
        alloc: Global,
        view: StoreView<'_, B>,
        entry: &Entry<'_>,
        reference: u16,
        b: u32,
    ) -> Result<Result<Body, WalkError>, ReadFault>
        requires { B.tells → IsStanding (view_by B.states view) reference b entry.now }
        ensures value { IfOk result (λ told. B.tells → GivesStretches (view_by B.states view.entry) told (body (view_by B.states view.entry) reference b (entry_of entry.now))) }
        ensures complete { IfOk result (λ told. B.tells → TellsBody (view_by B.states view.entry) reference b (entry_of entry.now) told) }
        // Whatever is known of the blocks.
        ensures size { IfOk result (λ told. IfOk told (λ body. (v : places.View) → length (cells_of v body) ≡ (entry_of entry.now).size)) }
        ensures memory { IfOk result (λ told. told ≡ Err WalkError.OutOfMemory → ((entry_of entry.now).form ≡ 3) ⊎ (0 < (entry_of entry.now).size)) }
        ensures fails { OnErr result B.fails }
    {
        if entry.form() != 3 {
            return Body::listed(
                alloc,
                view,
                entry.form(),
                reference,
                entry.size(),
                entry.area(),
            );
        }
        let size = entry.size();
        if size > entry.area().len() as u64 {
            return Ok(Err(WalkError::Fault(NodeFault::Short)));
        }
        let run = Run {
            address: LbAddr {
                block: b,
                reference,
            },
            offset: entry.start(),
        };
        let mut stretches = Vec::new(alloc);
        if stretches.push(Stretch::Recorded(run, size as u32)).is_err() {
            return Ok(Err(WalkError::OutOfMemory));
        }
        Ok(Ok(Body { stretches }))
    }

    /// Whether the body of `entry` is read by the tail of its last extent: the rules of the view read it, and without the tail, as by the
    /// strict rules, it has a fault. The bytes of the tail are those of the extent's last block, whatever wrote them there.
    ///
    /// # Errors
    ///
    /// If memory runs out.
    pub fn is_tail_read(
        alloc: Global,
        view: View<'_>,
        entry: &Entry<'_>,
        reference: u16,
        b: u32,
    ) -> Result<bool, OutOfMemory>
        ensures { IfOk result (λ tail. tail ≡ is_tail_read (view_now view.entry) reference b (entry_of entry.now)) }
    {
        let stored = StoreView {
            blocks: view.table,
            space: view.space,
        };
        match Body::is_tail_read_by(alloc, stored, entry, reference, b) {
            Ok(tail) => Ok(tail),
            Err(GaveUp::OutOfMemory) => Err(AllocError),
            Err(GaveUp::Unread) => unreachable!(),
        }
    }

    /// The same as [`Body::is_tail_read`], by any store of blocks.
    ///
    /// # Errors
    ///
    /// `OutOfMemory` if memory runs out, and `Unread` where the bytes of a known block could not be read.
    pub fn is_tail_read_by<B: BlockStore>(
        alloc: Global,
        view: StoreView<'_, B>,
        entry: &Entry<'_>,
        reference: u16,
        b: u32,
    ) -> Result<bool, GaveUp>
        ensures value { IfOk result (λ tail. B.tells → tail ≡ is_tail_read (view_by B.states view.entry) reference b (entry_of entry.now)) }
        ensures fails { IsErrOf result GaveUp.Unread → B.fails }
    {
        if entry.form() == 3 || !view.space.profile().takes_tail() {
            return Ok(false);
        }
        Body::needs_tail(
            alloc,
            view,
            entry.form(),
            reference,
            entry.size(),
            entry.area(),
        )
    }

    /// Whether the descriptors in this area give a body with the tail of the last extent, and none without it.
    fn needs_tail<B: BlockStore>(
        alloc: Global,
        view: StoreView<'_, B>,
        form: u16,
        reference: u16,
        size: u64,
        area: &[u8],
    ) -> Result<bool, GaveUp>
        requires { length area.now ≤ 2048 }
        ensures value { IfOk result (λ tail. B.tells → tail ≡ (has_cells (listed_body true (view_by B.states view.entry) form reference size area.now)
            && not (has_cells (listed_body false (view_by B.states view.entry) form reference size area.now)))) }
        ensures fails { IsErrOf result GaveUp.Unread → B.fails }
    {
        if Body::is_listed(alloc, view, false, form, reference, size, area)? {
            return Ok(false);
        }
        Body::is_listed(alloc, view, true, form, reference, size, area)
    }

    /// Whether the descriptors in this area give a body.
    fn is_listed<B: BlockStore>(
        alloc: Global,
        view: StoreView<'_, B>,
        tail: bool,
        form: u16,
        reference: u16,
        size: u64,
        area: &[u8],
    ) -> Result<bool, GaveUp>
        requires { length area.now ≤ 2048 }
        ensures value { IfOk result (λ listed. B.tells → listed ≡ has_cells (listed_body tail (view_by B.states view.entry) form reference size area.now)) }
        ensures fails { IsErrOf result GaveUp.Unread → B.fails }
    {
        let mut room = [0; 2048];
        match Body::walk(alloc, view, tail, form, reference, size, area, &mut room)? {
            Ok(_) => Ok(true),
            Err(WalkError::Fault(_)) => Ok(false),
            Err(WalkError::OutOfMemory) => Err(GaveUp::OutOfMemory),
        }
    }

    /// The body of the descriptors in this area: with the tail of the last extent where the rules take it and it gives
    /// a body, else without it, and so with the fault that there is without it.
    fn listed<B: BlockStore>(
        alloc: Global,
        view: StoreView<'_, B>,
        form: u16,
        reference: u16,
        size: u64,
        area: &[u8],
    ) -> Result<Result<Body, WalkError>, ReadFault>
        requires { length area.now ≤ 2048 }
        ensures value { IfOk result (λ told. B.tells → GivesStretches (view_by B.states view.entry) told
            (extents_body_by (view_by B.states view.entry) form reference size area.now)) }
        ensures size { IfOk result (λ told. IfOk told (λ body. (v : places.View) → length (cells_of v body) ≡ size)) }
        ensures memory { IfOk result (λ told. told ≡ Err WalkError.OutOfMemory → 0 < size) }
        ensures fails { OnErr result B.fails }
    {
        let mut room = [0; 2048];
        if view.space.profile().takes_tail() {
            match Body::walk(alloc, view, true, form, reference, size, area, &mut room)? {
                Ok(body) => return Ok(Ok(body)),
                Err(WalkError::OutOfMemory) => return Ok(Err(WalkError::OutOfMemory)),
                Err(WalkError::Fault(_)) => {}
            }
        }
        Body::walk(alloc, view, false, form, reference, size, area, &mut room)
    }

    /// Follows the descriptors in this area, and at most 256 continuations.
    fn walk<B: BlockStore>(
        alloc: Global,
        view: StoreView<'_, B>,
        tail: bool,
        form: u16,
        reference: u16,
        size: u64,
        area: &[u8],
        room: &mut [u8; 2048],
    ) -> Result<Result<Body, WalkError>, ReadFault>
        requires { length area.now ≤ 2048 }
        ensures value { IfOk result (λ told. B.tells → GivesStretches (view_by B.states view.entry) told
            (listed_body tail (view_by B.states view.entry) form reference size area.now)) }
        ensures size { IfOk result (λ told. IfOk told (λ body. (v : places.View) → length (cells_of v body) ≡ size)) }
        ensures memory { IfOk result (λ told. told ≡ Err WalkError.OutOfMemory → 0 < size) }
        ensures fails { OnErr result B.fails }
    {
        let mut stretches = Vec::new(alloc);
        let mut area = Area::of(area);
        let mut i = 0;
        let mut left: u32 = 256;
        let mut c = 0;
        'walk: while c < size {
            if i >= area.descriptor_count(form) {
                return Ok(Err(WalkError::Fault(NodeFault::Short)));
            }
            let d = area.descriptor(tail, form, reference, i);
            if d.length == 0 {
                return Ok(Err(WalkError::Fault(NodeFault::Short)));
            }
            if d.kind == extent_types::NEXT_EXTENT {
                match follow(view, form, left == 0, d, room)? {
                    Follow::Broken(fault) => return Ok(Err(WalkError::Fault(fault))),
                    Follow::Unread(n) => {
                        if stretches.push(Stretch::Missing(n, size - c)).is_err() {
                            return Ok(Err(WalkError::OutOfMemory));
                        }
                        return Ok(Ok(Body { stretches }));
                    }
                    Follow::Area(next) => {
                        area = Area::of(next);
                        i = 0;
                        left -= 1;
                    }
                }
            } else {
                match extent(view.space, size, c, d) {
                    Err(fault) => return Ok(Err(WalkError::Fault(fault))),
                    Ok(stretch) => {
                        if stretches.push(stretch).is_err() {
                            return Ok(Err(WalkError::OutOfMemory));
                        }
                        c += stretch.count();
                        i += 1;
                    }
                }
            }
        }
        Ok(Ok(Body { stretches }))
    }
}
