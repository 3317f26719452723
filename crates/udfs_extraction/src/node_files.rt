//! The folders and files of nodes: each is made, or a file is written, or nothing.

ghost use Rattle.std.specs.Prelude.{◌≡◌, ◌≢◌, ◌<◌, ◌⊎◌, ◌++◌, ℕ, Bool, false, true, List, [], Some, IfErr, IfOk, IsErrOf, OnOk, length, slice_get, None, map, string_bytes};
ghost use Rattle.std.specs.Io.KnownBytes.{Appends};
ghost use Rattle.udfs_file.specs.declared.cells.Cell.{Cell};
ghost use Rattle.udfs_host_fs.specs.Disk.{Same, SameBut, Goes, Fails, SinkFails};
ghost use Rattle.udfs_tag.specs.declared.layouts.LongAd.{LongAd};
ghost use Rattle.udfs_space.specs.Places.{view};
ghost use Rattle.udfs_walk.specs.NodeFields.{NodeFields};
ghost use Rattle.udfs_salvage.specs.declared.extraction.ExtractError.TheVariants as extract_error;
ghost use Rattle.udfs_salvage.specs.declared.extraction.StoreExtractError.TheVariants as store_error;
ghost use Rattle.udfs_walk.specs.Cells.{HasCellsAt};
ghost use Rattle.udfs_salvage.specs.Extraction.{fill_byte, filled, is_offered};
ghost use Rattle.udfs_salvage.specs.Found.{Found, volume_now};
ghost use Rattle.udfs_salvage.specs.Listings.{full_in, listing_by};
ghost use Rattle.udfs_salvage.specs.WalkedNodes.{AreNodesFrom};
ghost use Rattle.udfs_extraction.specs.Extracting.{IsDone, IsFateOf, IsIn, Spares, Stay, deed, path_below};
ghost use Rattle.udfs_extraction.specs.Runs.{IsEnd, IsHeldAt};
ghost use Rattle.udfs_common.specs.Keeping.{IsKept};
ghost use Rattle.udfs_salvage.specs.Choosing.{is_chosen};
ghost use Rattle.udfs_extraction.specs.Manifests.{IsNoted};
ghost use Rattle.udfs_extraction.specs.ShortNames.{placed};

use crate::digesting::{Filled, fill_noting};
use crate::nodes::{Deed, Done, Fate};
use crate::spare::Spare;
use std::alloc::{AllocError, Global};
use std::marker::PhantomData;
use udfs_common::files::Files;
use udfs_file::Kind;
use udfs_host_fs::Job;
use udfs_lattice::{BlockStore, GaveUp};
use udfs_reading::{DeviceFault, Sink};
use udfs_salvage::choosing::{is_above, is_chosen};
use udfs_salvage::{ExtractError, Fill, Listing, StoreExtractError, is_offered, write_node_by};
use udfs_walk::{Node, Standing};

/// What is done with a node: a directory that is no loop is made as a folder, and a file that is to be written becomes a
/// file. Nothing else is ever made, so no link either.
fn deed_for(node: &Node, fill: Fill) -> Deed
    ensures { result ≡ deed node.now.kind node.now.standing node.now.size fill }
{
    match node.kind {
        Kind::Directory => match node.standing {
            Standing::Loop => Deed::Skip,
            _ => Deed::Folder,
        },
        Kind::File => {
            if is_offered(node, fill) {
                Deed::File
            } else {
                Deed::Skip
            }
        }
        _ => Deed::Skip,
    }
}

/// What became of a node of which no file was written.
fn without_file(fate: Fate) -> Done
    ensures { (result.fate ≡ fate) × (result.digest ≡ None) }
{
    Done { fate, digest: None }
}

/// The path of a node in a folder: the folder's, and its place, which is each name in its escaped form after a `/`. An escaped name has no
/// `/` and is neither `.` nor `..`, so the path leads nowhere but below the folder.
pub fn path_in(alloc: Global, folder: &str, place: &str) -> Result<String, AllocError>
    ensures { IfOk result (λ path. string_bytes path ≡ folder.now ++ place.now) }
{
    let mut path = String::from_str(alloc, folder)?;
    path.push_str(place)?;
    Ok(path)
}

/// The node of this index, without what is missing of it.
pub fn node_at<'a, B: BlockStore>(listing: &'a Listing<'_, B>, index: usize) -> &'a Node
    requires { index < length listing.now.nodes.items }
    ensures { slice_get (listing_by B.states listing.now).nodes index ≡ Some (full_in (B.states listing.now.table.now) (volume_now listing.now.volume) result.now) }
{
    &listing.nodes[index]
}

/// Why the bytes of a node, or of a lost file, were not written.
#[derive(Drop)]
pub struct NodeFault<B: BlockStore> {
    /// The error.
    pub error: StoreExtractError,
    /// The store of which the bytes were read.
    pub of: PhantomData<B>,
    ghost fails: { error ≡ store_error.Unread → (B.fails → ⊥) → ⊥ },
}

impl<B: BlockStore> NodeFault<B> {
    /// That memory ran out, or that a block could not be read again, where that is why.
    pub fn gave_up(&self) -> Option<GaveUp>
        ensures fails { result ≡ Some GaveUp.Unread → (B.fails → ⊥) → ⊥ }
        ensures other { result ≡ None → (self.now.error ≢ store_error.Extract extract_error.OutOfMemory) × (self.now.error ≢ store_error.Unread) }
    {
        match self.error {
            StoreExtractError::Extract(ExtractError::OutOfMemory) => Some(GaveUp::OutOfMemory),
            StoreExtractError::Extract(ExtractError::NotWhole | ExtractError::Write) => None,
            StoreExtractError::Unread => Some(GaveUp::Unread),
        }
    }
}

/// The bytes of the node of this index, as far as they are known and as `fill` says.
#[derive(Drop)]
struct NodeBytes<'a, 'r, B: BlockStore> {
    alloc: Global,
    listing: &'a Listing<'r, B>,
    index: usize,
    fill: Fill,
    spare: &'a Spare,
}

impl<'a, 'r, B: BlockStore> NodeBytes<'a, 'r, B> {
    /// Writes them.
    fn write<W: Sink>(&self, sink: &mut W) -> Result<(), StoreExtractError>
        ensures wrote { OnOk result (B.tells → (f : Found) (root : LongAd) (n : NodeFields) → (self.now.index < length self.now.listing.now.nodes.items) →
            AreNodesFrom (B.states self.now.listing.now.table.now) f root (listing_by B.states self.now.listing.now) → slice_get (listing_by B.states self.now.listing.now).nodes self.now.index ≡ Some n → is_offered n.standing n.size self.now.fill ≡ true →
            (cs : List Cell) × HasCellsAt (view (B.states self.now.listing.now.table.now) f.space) root self.now.index cs × Appends (W.stream sink.old).contents (W.stream sink.new).contents (filled (fill_byte self.now.fill) cs)) }
        ensures cause { IfErr result (λ error. (error ≢ store_error.Extract extract_error.OutOfMemory) → (error ≢ store_error.Unread) → B.tells → (self.now.index < length self.now.listing.now.nodes.items) → (f : Found) (root : LongAd) (n : NodeFields) →
            AreNodesFrom (B.states self.now.listing.now.table.now) f root (listing_by B.states self.now.listing.now) → slice_get (listing_by B.states self.now.listing.now).nodes self.now.index ≡ Some n → is_offered n.standing n.size self.now.fill ≡ true → SinkFails W.stream) }
        ensures fails { IsErrOf result StoreExtractError.Unread → B.fails }
    {
        if self.index >= self.listing.nodes.len() {
            return Err(StoreExtractError::Extract(ExtractError::NotWhole));
        }
        let Ok(mut out) = self.spare.take(self.alloc) else {
            return Err(StoreExtractError::Extract(ExtractError::OutOfMemory));
        };
        match write_node_by(
            self.alloc,
            self.listing,
            self.index,
            self.fill,
            &mut out,
            sink,
        ) {
            Ok(()) => {
                self.spare.keep(out);
                Ok(())
            }
            Err(error) => Err(error),
        }
    }
}

impl<'a, 'r, B: BlockStore> Job for NodeBytes<'a, 'r, B> {
    type Refusal = NodeFault<B>;

    ghost wrote = { λ job old new. B.tells → (f : Found) (root : LongAd) (n : NodeFields) → (job.index < length job.listing.now.nodes.items) →
        AreNodesFrom (B.states job.listing.now.table.now) f root (listing_by B.states job.listing.now) → slice_get (listing_by B.states job.listing.now).nodes job.index ≡ Some n → is_offered n.standing n.size job.fill ≡ true →
        (cs : List Cell) × HasCellsAt (view (B.states job.listing.now.table.now) f.space) root job.index cs × Appends old new (filled (fill_byte job.fill) cs) };

    ghost blames_sink = { λ job fault. (fault.error ≢ store_error.Extract extract_error.OutOfMemory) × (fault.error ≢ store_error.Unread) × B.tells × (job.index < length job.listing.now.nodes.items) × (f : Found) × (root : LongAd) × (n : NodeFields) ×
        AreNodesFrom (B.states job.listing.now.table.now) f root (listing_by B.states job.listing.now) × (slice_get (listing_by B.states job.listing.now).nodes job.index ≡ Some n) × (is_offered n.standing n.size job.fill ≡ true) };

    fn write_to<W: Sink>(&self, sink: &mut W) -> Result<(), NodeFault<B>> {
        match self.write(sink) {
            Ok(()) => Ok(()),
            Err(error) => Err(NodeFault {
                error,
                of: PhantomData,
            }),
        }
    }
}

/// Removes what was begun of a file.
pub fn give_up<F: Files>(path: &str, files: &mut F) -> Fate
    ensures gone { result ≡ Fate.Failed → F.tells → F.holds files.new path.now ≡ Some None }
    ensures fate { (result ≡ Fate.Failed) ⊎ (result ≡ Fate.Left) }
    ensures others { (q : List ℕ) → q ≢ path.now → F.holds files.new q ≡ F.holds files.old q }
    ensures crash { Goes F.moment F.may_leave F.left_since files.old files.new (SameBut path.now) }
{
    match files.remove(path) {
        Ok(()) => Fate::Failed,
        Err(DeviceFault) => Fate::Left,
    }
}

/// Brings a new file to the disk, with its name; or removes it.
pub fn finish_file<F: Files>(path: &str, output: F::Output, files: &mut F) -> Fate
    requires number { F.tells → F.Output.number output ≢ None }
    requires at { F.is_at files.old path.now (F.Output.number output) }
    requires open { F.holds files.old path.now ≡ None }
    ensures kept { result ≡ Fate.Written → F.tells → (bytes : List ℕ) → (F.Output.stream output).contents ≡ Some bytes → IsKept (F.holds files.new) (F.may_leave files.new) path.now bytes }
    ensures gone { result ≡ Fate.Failed → F.tells → F.holds files.new path.now ≡ Some None }
    ensures fate { IsFateOf Deed.File result }
    ensures cause { result ≢ Fate.Written → Fails F.faults }
    ensures others { (q : List ℕ) → q ≢ path.now → F.holds files.new q ≡ F.holds files.old q }
    ensures crash { Goes F.moment F.may_leave F.left_since files.old files.new (SameBut path.now) }
{
    match files.sync(path, output) {
        Ok(()) => {}
        Err(DeviceFault) => return give_up(path, files),
    }
    match files.sync_folder(path) {
        Ok(()) => Fate::Written,
        Err(DeviceFault) => give_up(path, files),
    }
}

/// Brings the bytes of a new file to the disk, and its name may not be there yet; or removes it.
fn sync_file<F: Files>(path: &str, output: F::Output, files: &mut F) -> Fate
    requires number { F.tells → F.Output.number output ≢ None }
    requires at { F.is_at files.old path.now (F.Output.number output) }
    requires open { F.holds files.old path.now ≡ None }
    ensures held { result ≡ Fate.Written → F.tells → (bytes : List ℕ) → (F.Output.stream output).contents ≡ Some bytes → F.holds files.new path.now ≡ Some (Some bytes) }
    ensures gone { result ≡ Fate.Failed → F.tells → F.holds files.new path.now ≡ Some None }
    ensures fate { IsFateOf Deed.File result }
    ensures cause { result ≢ Fate.Written → Fails F.faults }
    ensures others { (q : List ℕ) → q ≢ path.now → F.holds files.new q ≡ F.holds files.old q }
    ensures crash { Goes F.moment F.may_leave F.left_since files.old files.new (SameBut path.now) }
{
    match files.sync(path, output) {
        Ok(()) => Fate::Written,
        Err(DeviceFault) => give_up(path, files),
    }
}

/// Brings the name of a file to the disk that was written, or removes it.
pub fn name_file<F: Files>(path: &str, fate: Fate, files: &mut F) -> Fate
    ensures kept { result ≡ Fate.Written → F.tells → (bytes : List ℕ) → F.holds files.old path.now ≡ Some (Some bytes) → IsKept (F.holds files.new) (F.may_leave files.new) path.now bytes }
    ensures end { (named : Bool) × IsEnd named fate result × (named ≡ false → Fails F.faults) }
    ensures unwritten { fate ≢ Fate.Written → files.new ≡ files.old }
    ensures others { (q : List ℕ) → q ≢ path.now → F.holds files.new q ≡ F.holds files.old q }
    ensures crash { Goes F.moment F.may_leave F.left_since files.old files.new (SameBut path.now) }
{
    if fate != Fate::Written {
        return fate;
    }
    match files.sync_folder(path) {
        Ok(()) => Fate::Written,
        Err(DeviceFault) => give_up(path, files),
    }
}

/// Writes the node of this index to `output`, a new file at `path`. Where that fails, or an input can not be read again, or memory runs out, it tries to remove
/// the file.
fn fill_file<B: BlockStore, F: Files>(
    alloc: Global,
    listing: &Listing<'_, B>,
    index: usize,
    fill: Fill,
    digest: bool,
    path: &str,
    output: F::Output,
    spare: &Spare,
    files: &mut F,
) -> Result<Done, GaveUp>
    requires index { index < length listing.now.nodes.items }
    requires number { F.tells → F.Output.number output ≢ None }
    requires at { F.is_at files.old path.now (F.Output.number output) }
    requires empty { F.tells → (F.Output.stream output).contents ≡ Some [] }
    requires open { F.holds files.old path.now ≡ None }
    ensures written { IfOk result (λ done. B.tells → done.fate ≡ Fate.Written → F.tells → (f : Found) (root : LongAd) (n : NodeFields) →
        AreNodesFrom (B.states listing.now.table.now) f root (listing_by B.states listing.now) → slice_get (listing_by B.states listing.now).nodes index ≡ Some n → is_offered n.standing n.size fill ≡ true →
        (cs : List Cell) × HasCellsAt (view (B.states listing.now.table.now) f.space) root index cs × (F.holds files.new path.now ≡ Some (Some (filled (fill_byte fill) cs)))) }
    ensures gone { IfOk result (λ done. done.fate ≡ Fate.Failed → F.tells → F.holds files.new path.now ≡ Some None) }
    ensures fate { IfOk result (λ done. IsFateOf Deed.File done.fate) }
    ensures cause { IfOk result (λ done. B.tells → done.fate ≢ Fate.Written → (f : Found) (root : LongAd) (n : NodeFields) →
        AreNodesFrom (B.states listing.now.table.now) f root (listing_by B.states listing.now) → slice_get (listing_by B.states listing.now).nodes index ≡ Some n → is_offered n.standing n.size fill ≡ true → Fails F.faults ⊎ SinkFails F.Output.stream) }
    ensures digest { IfOk result (λ done. IsNoted digest F.tells (F.holds files.new) path.now done.fate done.digest) }
    ensures others { (q : List ℕ) → q ≢ path.now → F.holds files.new q ≡ F.holds files.old q }
    ensures crash { Goes F.moment F.may_leave F.left_since files.old files.new (SameBut path.now) }
    ensures fails { IsErrOf result GaveUp.Unread → (B.fails → ⊥) → ⊥ }
{
    let job = NodeBytes {
        alloc,
        listing,
        index,
        fill,
        spare,
    };
    match fill_noting::<F, NodeBytes<'_, '_, B>>(output, &job, digest) {
        Ok(Filled { output, digest }) => {
            let fate = sync_file(path, output, files);
            Ok(Done { fate, digest })
        }
        Err(fault) => match fault.gave_up() {
            Some(error) => {
                let _ = files.remove(path);
                Err(error)
            }
            None => Ok(without_file(give_up(path, files))),
        },
    }
}

/// Writes the node of this index to a new file, and then syncs it. Its name may not be on the disk yet. Where it could not be written, or memory ran out, it
/// tries to remove the new file. What another file of this path holds is untouched.
fn write_file<B: BlockStore, F: Files>(
    alloc: Global,
    listing: &Listing<'_, B>,
    index: usize,
    fill: Fill,
    digest: bool,
    path: &str,
    spare: &Spare,
    files: &mut F,
) -> Result<Done, GaveUp>
    requires index { index < length listing.now.nodes.items }
    ensures written { IfOk result (λ done. B.tells → done.fate ≡ Fate.Written → F.tells → (f : Found) (root : LongAd) (n : NodeFields) →
        AreNodesFrom (B.states listing.now.table.now) f root (listing_by B.states listing.now) → slice_get (listing_by B.states listing.now).nodes index ≡ Some n → is_offered n.standing n.size fill ≡ true →
        (cs : List Cell) × HasCellsAt (view (B.states listing.now.table.now) f.space) root index cs × (F.holds files.new path.now ≡ Some (Some (filled (fill_byte fill) cs)))) }
    ensures fresh { IfOk result (λ done. done.fate ≡ Fate.Written → F.tells → F.holds files.old path.now ≡ Some None) }
    ensures gone { IfOk result (λ done. done.fate ≡ Fate.Failed → F.tells → F.holds files.new path.now ≡ F.holds files.old path.now) }
    ensures fate { IfOk result (λ done. IsFateOf Deed.File done.fate) }
    ensures cause { IfOk result (λ done. B.tells → done.fate ≢ Fate.Written → (f : Found) (root : LongAd) (n : NodeFields) →
        AreNodesFrom (B.states listing.now.table.now) f root (listing_by B.states listing.now) → slice_get (listing_by B.states listing.now).nodes index ≡ Some n → is_offered n.standing n.size fill ≡ true → Fails F.faults ⊎ SinkFails F.Output.stream) }
    ensures digest { IfOk result (λ done. IsNoted digest F.tells (F.holds files.new) path.now done.fate done.digest) }
    ensures others { (q : List ℕ) → q ≢ path.now → F.holds files.new q ≡ F.holds files.old q }
    ensures there { F.tells → F.holds files.old path.now ≢ Some None → F.holds files.new path.now ≡ F.holds files.old path.now }
    ensures stays { F.tells → F.holds files.old path.now ≢ Some None → Goes F.moment F.may_leave F.left_since files.old files.new Same }
    ensures crash { Goes F.moment F.may_leave F.left_since files.old files.new (SameBut path.now) }
    ensures fails { IsErrOf result GaveUp.Unread → (B.fails → ⊥) → ⊥ }
{
    let Ok(output) = files.make_new(path) else {
        return Ok(without_file(Fate::Failed));
    };
    fill_file(
        alloc, listing, index, fill, digest, path, output, spare, files,
    )
}

/// Makes a folder, and brings its name to the disk.
pub fn put_folder<F: Files>(path: &str, files: &mut F) -> Fate
    ensures fate { IsFateOf Deed.Folder result }
    ensures cause { result ≢ Fate.Made → Fails F.faults }
    ensures others { (q : List ℕ) → F.holds files.new q ≡ F.holds files.old q }
    ensures crash { Goes F.moment F.may_leave F.left_since files.old files.new Same }
{
    match files.make_folder(path) {
        Ok(()) => {}
        Err(DeviceFault) => return Fate::Failed,
    }
    match files.sync_folder(path) {
        Ok(()) => Fate::Made,
        Err(DeviceFault) => Fate::Failed,
    }
}

/// Does at this path what is to be done with the node of this index. Of a file that is written the name may not be on the disk yet.
pub fn put_node<B: BlockStore, F: Files>(
    alloc: Global,
    listing: &Listing<'_, B>,
    index: usize,
    fill: Fill,
    digest: bool,
    path: &str,
    spare: &Spare,
    files: &mut F,
) -> Result<Done, GaveUp>
    requires index { index < length listing.now.nodes.items }
    ensures put { IfOk result (λ done. B.tells → (n : NodeFields) (short : Bool) (folder : List ℕ) → slice_get (listing_by B.states listing.now).nodes index ≡ Some n → path.now ≡ path_below folder (placed short (listing_by B.states listing.now) index n) →
        IsHeldAt F.Files F.Output.stream files.new (B.states listing.now.table.now) (listing_by B.states listing.now) fill short folder index n done.fate) }
    ensures file { IfOk result (λ done. done.fate ≡ Fate.Written → (n : NodeFields) → slice_get (listing_by B.states listing.now).nodes index ≡ Some n → deed n.kind n.standing n.size fill ≡ Deed.File) }
    ensures fresh { IfOk result (λ done. done.fate ≡ Fate.Written → F.tells → F.holds files.old path.now ≡ Some None) }
    ensures digest { IfOk result (λ done. IsNoted digest F.tells (F.holds files.new) path.now done.fate done.digest) }
    ensures stays { F.tells → Stay (F.holds files.old) (F.holds files.new) }
    ensures others { (q : List ℕ) → q ≢ path.now → F.holds files.new q ≡ F.holds files.old q }
    ensures elsewhere { (q : List ℕ) → ((n : NodeFields) → slice_get (listing_by B.states listing.now).nodes index ≡ Some n → deed n.kind n.standing n.size fill ≡ Deed.File → q ≢ path.now) → F.holds files.new q ≡ F.holds files.old q }
    ensures crash { F.tells → (folder : List ℕ) → IsIn folder path.now → Goes F.moment F.may_leave F.left_since files.old files.new (Spares folder (F.holds files.old)) }
    ensures fails { IsErrOf result GaveUp.Unread → (B.fails → ⊥) → ⊥ }
{
    match deed_for(node_at(listing, index), fill) {
        Deed::Folder => {
            let fate = put_folder(path, files);
            Ok(Done { fate, digest: None })
        }
        Deed::File => {
            let done = write_file(alloc, listing, index, fill, digest, path, spare, files)?;
            Ok(done)
        }
        Deed::Skip => Ok(Done {
            fate: Fate::Skipped,
            digest: None,
        }),
    }
}

/// Makes the folder of the node of this index, if it is one. Whether it could be made is seen by what is put into it.
fn put_way<B: BlockStore, F: Files>(
    listing: &Listing<'_, B>,
    index: usize,
    path: &str,
    files: &mut F,
)
    requires { index < length listing.now.nodes.items }
    ensures others { (q : List ℕ) → F.holds files.new q ≡ F.holds files.old q }
    ensures crash { Goes F.moment F.may_leave F.left_since files.old files.new Same }
{
    let node = node_at(listing, index);
    if deed_for(node, Fill::Refuse) == Deed::Folder {
        let _ = put_folder(path, files);
    }
}

/// Does at this path what is to be done with the node of this index, if it is asked for. If not, it is passed over, but for the folder that leads to one that is.
pub fn put_chosen<B: BlockStore, F: Files>(
    alloc: Global,
    listing: &Listing<'_, B>,
    index: usize,
    only: &[&str],
    fill: Fill,
    digest: bool,
    path: &str,
    spare: &Spare,
    files: &mut F,
) -> Result<Done, GaveUp>
    requires index { index < length listing.now.nodes.items }
    ensures put { IfOk result (λ done. B.tells → (n : NodeFields) (short : Bool) (folder : List ℕ) → slice_get (listing_by B.states listing.now).nodes index ≡ Some n → path.now ≡ path_below folder (placed short (listing_by B.states listing.now) index n) →
        IsDone (map (λ word. word.now) only.now) (IsHeldAt F.Files F.Output.stream files.new (B.states listing.now.table.now) (listing_by B.states listing.now) fill short folder) index n done.fate) }
    ensures file { IfOk result (λ done. done.fate ≡ Fate.Written → (n : NodeFields) → slice_get (listing_by B.states listing.now).nodes index ≡ Some n → (is_chosen (map (λ word. word.now) only.now) n.path ≡ true) × (deed n.kind n.standing n.size fill ≡ Deed.File)) }
    ensures fresh { IfOk result (λ done. done.fate ≡ Fate.Written → F.tells → F.holds files.old path.now ≡ Some None) }
    ensures digest { IfOk result (λ done. IsNoted digest F.tells (F.holds files.new) path.now done.fate done.digest) }
    ensures stays { F.tells → Stay (F.holds files.old) (F.holds files.new) }
    ensures others { (q : List ℕ) → q ≢ path.now → F.holds files.new q ≡ F.holds files.old q }
    ensures elsewhere { (q : List ℕ) → ((n : NodeFields) → slice_get (listing_by B.states listing.now).nodes index ≡ Some n → is_chosen (map (λ word. word.now) only.now) n.path ≡ true → deed n.kind n.standing n.size fill ≡ Deed.File → q ≢ path.now) → F.holds files.new q ≡ F.holds files.old q }
    ensures crash { F.tells → (folder : List ℕ) → IsIn folder path.now → Goes F.moment F.may_leave F.left_since files.old files.new (Spares folder (F.holds files.old)) }
    ensures fails { IsErrOf result GaveUp.Unread → (B.fails → ⊥) → ⊥ }
{
    let node = node_at(listing, index);
    if is_chosen(alloc, only, &node.path)? {
        return match put_node(alloc, listing, index, fill, digest, path, spare, files) {
            Ok(done) => Ok(done),
            Err(error) => Err(error),
        };
    }
    if is_above(alloc, only, &node.path)? {
        put_way(listing, index, path, files);
    }
    Ok(without_file(Fate::Passed))
}
