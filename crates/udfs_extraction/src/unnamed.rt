//! Lost files, which are written to a folder of their own: whole files with data that no name leads to.

ghost use Rattle.std.specs.Prelude.{◌≡◌, ◌≢◌, ◌<◌, ◌⊎◌, ◌++◌, ⊤, ℕ, Bool, false, true, List, [], Some, None, IfOk, IfErr, IsErrOf, MatchOption, OnOk, OnErr, length, slice_get, string_bytes};
ghost use Rattle.std.specs.Io.KnownBytes.{Appends};
ghost use Rattle.udfs_file.specs.declared.cells.Cell.{Cell};
ghost use Rattle.udfs_host_fs.specs.Disk.{Same, SameBut, Goes, Fails, SinkFails};
ghost use Rattle.udfs_volume.specs.declared.profiles.Profile.{Profile};
ghost use Rattle.udfs_walk.specs.declared.answers.Unnamed.{Unnamed};
ghost use Rattle.udfs_salvage.specs.declared.extraction.ExtractError.TheVariants as extract_error;
ghost use Rattle.udfs_salvage.specs.declared.extraction.StoreExtractError.TheVariants as store_error;
ghost use Rattle.udfs_salvage.specs.Extraction.{filled};
ghost use Rattle.udfs_salvage.specs.Found.{volume_now};
ghost use Rattle.udfs_salvage.specs.Listings.{AreUnnamedBy, listing_by};
ghost use Rattle.udfs_salvage.specs.Reports.{IsReportBy};
ghost use Rattle.udfs_salvage.specs.Texts.{has_two, line};
ghost use Rattle.udfs_salvage.specs.UnnamedExtraction.{HasUnnamedCellsBy, is_lost_file};
ghost use Rattle.udfs_extraction.specs.Extracting.{IsFateOf, TellsLines, TellsOn, all_good};
ghost use Rattle.udfs_common.specs.Keeping.{IsKept};
ghost use Rattle.udfs_extraction.specs.ByRequest.{MakesLost};
ghost use Rattle.udfs_extraction.specs.Refused.{LostCut, LostStops};
ghost use Rattle.udfs_extraction.specs.Stopping.{IfStopped};
ghost use Rattle.udfs_extraction.specs.LostFiles.{EachLost, IsLostPutAt, PutsLost, SparesLost, lost_line, lost_lines, lost_name, lost_path};

use crate::node_files::{NodeFault, finish_file, give_up, put_folder};
use crate::nodes::{Deed, Fate, still_good};
use crate::short_names::push_icb_number;
use crate::spare::Spare;
use crate::stopping::Stop;
use crate::times::set_lost_time;
use std::alloc::{AllocError, Global};
use std::marker::PhantomData;
use udfs_common::files::Files;
use udfs_common::known::Known;
use udfs_common::refusal::Refusal;
use udfs_host_fs::{Job, Times, fill_by};
use udfs_lattice::{BlockStore, GaveUp};
use udfs_reading::{Sink, WriteFault, write_all};
use udfs_salvage::{
    ExtractError, Listing, StoreExtractError, Volume, has_two_partitions, is_lost_file,
    list_unnamed_by, write_lost_by,
};
use udfs_walk::Unnamed;

/// Appends the name of the file of an entry: its logical block, with the partition reference in front where there are two partitions.
pub fn push_lost_name(text: &mut String, two: bool, entry: &Unnamed) -> Result<(), AllocError>
    ensures { OnOk result (string_bytes text.new ≡ string_bytes text.old ++ lost_name two entry.now) }
{
    push_icb_number(text, two, entry.address())
}

/// The path of the file of an entry in a folder.
pub fn lost_path(
    alloc: Global,
    folder: &str,
    two: bool,
    entry: &Unnamed,
) -> Result<String, AllocError>
    ensures { IfOk result (λ path. string_bytes path ≡ lost_path folder.now two entry.now) }
{
    let mut path = String::from_str(alloc, folder)?;
    path.push_str("/")?;
    push_lost_name(&mut path, two, entry)?;
    Ok(path)
}

/// `words`, the name of the file of an entry and a line feed.
fn line_of(alloc: Global, words: &str, two: bool, entry: &Unnamed) -> Result<String, AllocError>
    ensures { IfOk result (λ text. string_bytes text ≡ line (words.now ++ lost_name two entry.now)) }
{
    let mut text = String::from_str(alloc, words)?;
    push_lost_name(&mut text, two, entry)?;
    text.push('\n')?;
    Ok(text)
}

/// Prints what became of an entry, if the output took all before it, and returns whether it took this too. Where memory runs out, nothing is printed.
fn tell_lost<O: Sink>(
    alloc: Global,
    heard: bool,
    fate: Fate,
    two: bool,
    entry: &Unnamed,
    out: &mut O,
) -> Result<bool, AllocError>
    ensures lines { IfOk result (λ still. TellsOn heard still (O.stream out.old) (O.stream out.new) (lost_line two fate entry.now)) }
    ensures memory { OnErr result (out.new ≡ out.old) }
{
    if !heard {
        return Ok(false);
    }
    let line = match fate {
        Fate::Made | Fate::Passed | Fate::Skipped => return Ok(true),
        Fate::Written => line_of(alloc, "written unnamed ", two, entry)?,
        Fate::Failed | Fate::Left => line_of(alloc, "failed unnamed ", two, entry)?,
    };
    match write_all(out, line.as_bytes()) {
        Ok(()) => Ok(true),
        Err(WriteFault) => Ok(false),
    }
}

/// The entry of this index.
fn entry_at(entries: &[Unnamed], index: usize) -> &Unnamed
    requires { index < length entries.now }
    ensures { slice_get entries.now index ≡ Some result.now }
{
    &entries[index]
}

/// The bytes of the lost file of this index.
#[derive(Drop)]
struct LostBytes<'a, 'r, B: BlockStore> {
    alloc: Global,
    listing: &'a Listing<'r, B>,
    entries: &'a [Unnamed],
    index: usize,
    spare: &'a Spare,
}

impl<'a, 'r, B: BlockStore> LostBytes<'a, 'r, B> {
    /// Writes them.
    fn write<W: Sink>(&self, sink: &mut W) -> Result<(), StoreExtractError>
        ensures wrote { OnOk result (B.tells → (profile : Profile) (last : ℕ) (u : Unnamed) → (self.now.index < length self.now.entries.now) → AreUnnamedBy B.states self.now.listing.now self.now.entries.now →
            IsReportBy profile (B.states self.now.listing.now.table.now) last (listing_by B.states self.now.listing.now) → slice_get (listing_by B.states self.now.listing.now).unnamed self.now.index ≡ Some u → is_lost_file u ≡ true →
            (cs : List Cell) × HasUnnamedCellsBy profile (B.states self.now.listing.now.table.now) last u cs × Appends (W.stream sink.old).contents (W.stream sink.new).contents (filled 0 cs)) }
        ensures cause { IfErr result (λ error. (error ≢ store_error.Extract extract_error.OutOfMemory) → (error ≢ store_error.Unread) → B.tells → (self.now.index < length self.now.entries.now) → AreUnnamedBy B.states self.now.listing.now self.now.entries.now → (profile : Profile) (last : ℕ) (u : Unnamed) →
            IsReportBy profile (B.states self.now.listing.now.table.now) last (listing_by B.states self.now.listing.now) → slice_get (listing_by B.states self.now.listing.now).unnamed self.now.index ≡ Some u → is_lost_file u ≡ true → SinkFails W.stream) }
        ensures fails { IsErrOf result StoreExtractError.Unread → B.fails }
    {
        if self.index >= self.entries.len() {
            return Err(StoreExtractError::Extract(ExtractError::NotWhole));
        }
        let Ok(mut out) = self.spare.take(self.alloc) else {
            return Err(StoreExtractError::Extract(ExtractError::OutOfMemory));
        };
        match write_lost_by(
            self.alloc,
            self.listing,
            self.entries,
            self.index,
            &mut out,
            sink,
        ) {
            Ok(()) => {
                self.spare.keep(out);
                Ok(())
            }
            Err(error) => Err(error),
        }
    }
}

impl<'a, 'r, B: BlockStore> Job for LostBytes<'a, 'r, B> {
    type Refusal = NodeFault<B>;

    ghost wrote = { λ job old new. B.tells → (profile : Profile) (last : ℕ) (u : Unnamed) → (job.index < length job.entries.now) → AreUnnamedBy B.states job.listing.now job.entries.now →
        IsReportBy profile (B.states job.listing.now.table.now) last (listing_by B.states job.listing.now) → slice_get (listing_by B.states job.listing.now).unnamed job.index ≡ Some u → is_lost_file u ≡ true →
        (cs : List Cell) × HasUnnamedCellsBy profile (B.states job.listing.now.table.now) last u cs × Appends old new (filled 0 cs) };

    ghost blames_sink = { λ job fault. (fault.error ≢ store_error.Extract extract_error.OutOfMemory) × (fault.error ≢ store_error.Unread) × B.tells × (job.index < length job.entries.now) × AreUnnamedBy B.states job.listing.now job.entries.now × (profile : Profile) × (last : ℕ) × (u : Unnamed) ×
        IsReportBy profile (B.states job.listing.now.table.now) last (listing_by B.states job.listing.now) × (slice_get (listing_by B.states job.listing.now).unnamed job.index ≡ Some u) × (is_lost_file u ≡ true) };

    fn write_to<W: Sink>(&self, sink: &mut W) -> Result<(), NodeFault<B>> {
        match self.write(sink) {
            Ok(()) => Ok(()),
            Err(error) => Err(NodeFault {
                error,
                of: PhantomData,
            }),
        }
    }
}

/// Writes the lost file of this index to `output`, a new file at `path`. Where that fails, or an input can not be read again, or memory runs out, it tries to remove
/// the file.
fn fill_lost<B: BlockStore, F: Files>(
    alloc: Global,
    listing: &Listing<'_, B>,
    entries: &[Unnamed],
    index: usize,
    path: &str,
    output: F::Output,
    spare: &Spare,
    files: &mut F,
) -> Result<Fate, GaveUp>
    requires index { index < length entries.now }
    requires entries { B.tells → AreUnnamedBy B.states listing.now entries.now }
    requires number { F.tells → F.Output.number output ≢ None }
    requires at { F.is_at files.old path.now (F.Output.number output) }
    requires empty { F.tells → (F.Output.stream output).contents ≡ Some [] }
    requires open { F.holds files.old path.now ≡ None }
    ensures written { IfOk result (λ fate. B.tells → fate ≡ Fate.Written → F.tells → (profile : Profile) (last : ℕ) (u : Unnamed) →
        IsReportBy profile (B.states listing.now.table.now) last (listing_by B.states listing.now) → slice_get (listing_by B.states listing.now).unnamed index ≡ Some u → is_lost_file u ≡ true →
        (cs : List Cell) × HasUnnamedCellsBy profile (B.states listing.now.table.now) last u cs × IsKept (F.holds files.new) (F.may_leave files.new) path.now (filled 0 cs)) }
    ensures gone { IfOk result (λ fate. fate ≡ Fate.Failed → F.tells → F.holds files.new path.now ≡ Some None) }
    ensures fate { IfOk result (λ fate. IsFateOf Deed.File fate) }
    ensures cause { IfOk result (λ fate. B.tells → fate ≢ Fate.Written → (profile : Profile) (last : ℕ) (u : Unnamed) →
        IsReportBy profile (B.states listing.now.table.now) last (listing_by B.states listing.now) → slice_get (listing_by B.states listing.now).unnamed index ≡ Some u → is_lost_file u ≡ true → Fails F.faults ⊎ SinkFails F.Output.stream) }
    ensures others { (q : List ℕ) → q ≢ path.now → F.holds files.new q ≡ F.holds files.old q }
    ensures crash { Goes F.moment F.may_leave F.left_since files.old files.new (SameBut path.now) }
    ensures fails { IsErrOf result GaveUp.Unread → (B.fails → ⊥) → ⊥ }
{
    let job = LostBytes {
        alloc,
        listing,
        entries,
        index,
        spare,
    };
    match fill_by(output, &job) {
        Ok(output) => Ok(finish_file(path, output, files)),
        Err(fault) => match fault.gave_up() {
            Some(error) => {
                let _ = files.remove(path);
                Err(error)
            }
            None => Ok(give_up(path, files)),
        },
    }
}

/// Writes the lost file of this index to a new file, and then syncs it and its folder. Where it could not be written, or an input can not be read again, or memory ran
/// out, it tries to remove the new file. What another file of this path holds is untouched.
fn write_lost_file<B: BlockStore, F: Files>(
    alloc: Global,
    listing: &Listing<'_, B>,
    entries: &[Unnamed],
    index: usize,
    path: &str,
    spare: &Spare,
    files: &mut F,
) -> Result<Fate, GaveUp>
    requires index { index < length entries.now }
    requires entries { B.tells → AreUnnamedBy B.states listing.now entries.now }
    ensures written { IfOk result (λ fate. B.tells → fate ≡ Fate.Written → F.tells → (profile : Profile) (last : ℕ) (u : Unnamed) →
        IsReportBy profile (B.states listing.now.table.now) last (listing_by B.states listing.now) → slice_get (listing_by B.states listing.now).unnamed index ≡ Some u → is_lost_file u ≡ true →
        (cs : List Cell) × HasUnnamedCellsBy profile (B.states listing.now.table.now) last u cs × IsKept (F.holds files.new) (F.may_leave files.new) path.now (filled 0 cs)) }
    ensures gone { IfOk result (λ fate. fate ≡ Fate.Failed → F.tells → F.holds files.new path.now ≡ F.holds files.old path.now) }
    ensures fate { IfOk result (λ fate. IsFateOf Deed.File fate) }
    ensures cause { IfOk result (λ fate. B.tells → fate ≢ Fate.Written → (profile : Profile) (last : ℕ) (u : Unnamed) →
        IsReportBy profile (B.states listing.now.table.now) last (listing_by B.states listing.now) → slice_get (listing_by B.states listing.now).unnamed index ≡ Some u → is_lost_file u ≡ true → Fails F.faults ⊎ SinkFails F.Output.stream) }
    ensures others { (q : List ℕ) → q ≢ path.now → F.holds files.new q ≡ F.holds files.old q }
    ensures there { F.tells → F.holds files.old path.now ≢ Some None → F.holds files.new path.now ≡ F.holds files.old path.now }
    ensures stays { F.tells → F.holds files.old path.now ≢ Some None → Goes F.moment F.may_leave F.left_since files.old files.new Same }
    ensures crash { Goes F.moment F.may_leave F.left_since files.old files.new (SameBut path.now) }
    ensures fails { IsErrOf result GaveUp.Unread → (B.fails → ⊥) → ⊥ }
{
    let Ok(output) = files.make_new(path) else {
        return Ok(Fate::Failed);
    };
    fill_lost(alloc, listing, entries, index, path, output, spare, files)
}

/// Writes the file of the entry of this index, if it is a lost file; else it is passed over.
fn put_entry<B: BlockStore, F: Files>(
    alloc: Global,
    listing: &Listing<'_, B>,
    entries: &[Unnamed],
    index: usize,
    two: bool,
    folder: &str,
    spare: &Spare,
    files: &mut F,
) -> Result<Fate, GaveUp>
    requires index { index < length entries.now }
    requires entries { B.tells → AreUnnamedBy B.states listing.now entries.now }
    ensures put { IfOk result (λ fate. B.tells → (u : Unnamed) → slice_get (listing_by B.states listing.now).unnamed index ≡ Some u →
        IsLostPutAt F.Files F.Output.stream files.new (B.states listing.now.table.now) (listing_by B.states listing.now) folder.now two u fate) }
    ensures spares { SparesLost F.Files folder.now files.old files.new }
    ensures fails { IsErrOf result GaveUp.Unread → (B.fails → ⊥) → ⊥ }
{
    let entry = entry_at(entries, index);
    if !is_lost_file(entry) {
        return Ok(Fate::Skipped);
    }
    let path = lost_path(alloc, folder, two, entry)?;
    let fate = write_lost_file(alloc, listing, entries, index, path.as_str(), spare, files)?;
    Ok(fate)
}

/// What became of entries.
#[derive(Drop)]
struct ToldLost {
    /// Whether none failed.
    good: bool,
    /// Whether the output took all lines.
    heard: bool,
}

/// Goes through the entries that no name leads to, in order. Where the output fails, it goes on, but prints no more.
fn put_entries<B: BlockStore, F: Files, O: Sink>(
    alloc: Global,
    listing: &Listing<'_, B>,
    entries: &[Unnamed],
    two: bool,
    folder: &str,
    times: &Times,
    files: &mut F,
    out: &mut O,
) -> Result<ToldLost, GaveUp>
    requires { B.tells → AreUnnamedBy B.states listing.now entries.now }
    ensures put { B.tells → (heard : Bool) × (fates : List Fate) × EachLost (IsLostPutAt F.Files F.Output.stream files.new (B.states listing.now.table.now) (listing_by B.states listing.now) folder.now two) (listing_by B.states listing.now).unnamed fates ×
        TellsLines heard (O.stream out.old) (O.stream out.new) (lost_lines two (listing_by B.states listing.now).unnamed fates) ×
        IfOk result (λ told. (length fates ≡ length (listing_by B.states listing.now).unnamed) × (told.heard ≡ heard) × (told.good ≡ all_good fates)) }
    ensures spares { SparesLost F.Files folder.now files.old files.new }
    ensures fails { IsErrOf result GaveUp.Unread → (B.fails → ⊥) → ⊥ }
{
    let spare = Spare::new();
    let mut good = true;
    let mut heard = true;
    for index in 0..entries.len() {
        let fate = put_entry(alloc, listing, entries, index, two, folder, &spare, files)?;
        let entry = entry_at(entries, index);
        good = still_good(good, fate);
        heard = tell_lost(alloc, heard, fate, two, entry, out)?;
        set_lost_time(alloc, two, entry, fate, folder, times, files);
    }
    Ok(ToldLost { good, heard })
}

/// Where the volume opens, makes a folder and brings its name to the disk. Returns `false` where that failed, and else `true`.
pub fn make_if_open<F: Files>(volume: &Volume, folder: &str, files: &mut F) -> bool
    ensures cause { result ≡ false → Fails F.faults }
    ensures others { (q : List ℕ) → F.holds files.new q ≡ F.holds files.old q }
    ensures crash { Goes F.moment F.may_leave F.left_since files.old files.new Same }
{
    match volume {
        Volume::Open(_) => put_folder(folder, files) == Fate::Made,
        _ => true,
    }
}

/// Makes a folder where the volume opens, and writes each lost file of the report to it, named by the number of its block. Returns whether none failed.
fn put_lost<B: BlockStore, F: Files, O: Sink>(
    alloc: Global,
    listing: &Listing<'_, B>,
    entries: &[Unnamed],
    folder: &str,
    times: &Times,
    files: &mut F,
    out: &mut O,
) -> Result<bool, Stop>
    requires { B.tells → AreUnnamedBy B.states listing.now entries.now }
    ensures put { IfOk result (λ good. B.tells → PutsLost (IsLostPutAt F.Files F.Output.stream files.new (B.states listing.now.table.now) (listing_by B.states listing.now) folder.now (has_two (volume_now listing.now.volume)))
        (has_two (volume_now listing.now.volume)) (listing_by B.states listing.now).unnamed (O.stream out.old) (O.stream out.new) good) }
    ensures why { IfErr result (λ stop. B.tells → IfStopped (LostStops F.Files F.Output.stream folder.now files.new (O.stream out.old) (O.stream out.new) (B.states listing.now.table.now) (listing_by B.states listing.now))
        (LostCut F.Files F.Output.stream folder.now files.new (O.stream out.old) (O.stream out.new) (B.states listing.now.table.now) (listing_by B.states listing.now)) stop) }
    ensures spares { SparesLost F.Files folder.now files.old files.new }
    ensures no_node { (i : ℕ) → IsErrOf result (Stop.Refused (Refusal.NoNode i)) → ⊥ }
    ensures fails { IsErrOf result Stop.Unread → (B.fails → ⊥) → ⊥ }
{
    if !make_if_open(&listing.volume, folder, files) {
        return Err(Stop::Refused(Refusal::LostFolder));
    }
    let two = has_two_partitions(&listing.volume);
    let told = match put_entries(alloc, listing, entries, two, folder, times, files, out) {
        Ok(told) => told,
        Err(GaveUp::OutOfMemory) => return Err(Stop::Refused(Refusal::Memory(AllocError))),
        Err(GaveUp::Unread) => return Err(Stop::Unread),
    };
    if !told.heard {
        return Err(Stop::Refused(Refusal::Output));
    }
    Ok(told.good)
}

/// The entries that no name leads to, where lost files or lost folders are asked for; and else none, though there may be some.
pub fn lost_entries<B: BlockStore>(
    alloc: Global,
    listing: &Listing<'_, B>,
    lost: Option<&str>,
    trees: Option<&str>,
) -> Result<Vec<Unnamed>, GaveUp>
    ensures lost { IfOk result (λ entries. MatchOption lost.entry ⊤ (λ folder. B.tells → AreUnnamedBy B.states listing.now entries.items)) }
    ensures trees { IfOk result (λ entries. MatchOption trees.entry ⊤ (λ folder. B.tells → AreUnnamedBy B.states listing.now entries.items)) }
    ensures fails { IsErrOf result GaveUp.Unread → B.fails }
{
    match (lost, trees) {
        (None, None) => Ok(Vec::new(alloc)),
        _ => list_unnamed_by(alloc, listing),
    }
}

/// Writes the lost files of a report into a folder of their own, where they are asked for, and returns whether none failed.
pub fn add_lost<B: BlockStore, F: Files, O: Sink>(
    alloc: Global,
    listing: &Listing<'_, B>,
    entries: &[Unnamed],
    lost: Option<&str>,
    times: &Times,
    files: &mut F,
    out: &mut O,
) -> Result<bool, Stop>
    requires { MatchOption lost ⊤ (λ folder. B.tells → AreUnnamedBy B.states listing.now entries.now) }
    ensures made { IfOk result (λ good. B.tells → MakesLost ⟦<F as Known>⟧.reach O.stream lost.entry files.old files.new out.old out.new (B.states listing.now.table.now) (listing_by B.states listing.now) good) }
    ensures why { IfErr result (λ stop. B.tells → MatchOption lost.entry ⊥ (λ folder. IfStopped (LostStops F.Files F.Output.stream folder.now files.new (O.stream out.old) (O.stream out.new) (B.states listing.now.table.now) (listing_by B.states listing.now))
        (LostCut F.Files F.Output.stream folder.now files.new (O.stream out.old) (O.stream out.new) (B.states listing.now.table.now) (listing_by B.states listing.now)) stop)) }
    ensures spares { MatchOption lost.entry (files.new ≡ files.old) (λ folder. SparesLost F.Files folder.now files.old files.new) }
    ensures no_node { (i : ℕ) → IsErrOf result (Stop.Refused (Refusal.NoNode i)) → ⊥ }
    ensures fails { IsErrOf result Stop.Unread → (B.fails → ⊥) → ⊥ }
{
    match lost {
        None => Ok(true),
        Some(folder) => put_lost(alloc, listing, entries, folder, times, files, out),
    }
}
