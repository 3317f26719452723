//! Copies of a sparing table that do not say the same.

ghost use Rattle.std.specs.Prelude.{◌≡◌, ◌+◌, ◌++◌, ℕ, IfOk, IsTrue, OnErr, OnOk, drop, map, take};
ghost use Rattle.std.specs.List.{list_any};
ghost use Rattle.std.specs.String.{string_bytes};
ghost use Rattle.udfs_lattice.specs.States.{fact_now};
ghost use Rattle.udfs_lattice.specs.Tables.{state_of};
ghost use Rattle.udfs_volume.specs.Layout.{blocks_in};
ghost use Rattle.udfs_volume.specs.LayoutParts.{partition_now};
ghost use Rattle.udfs_volume.specs.Parts.{sparable_now};
ghost use Rattle.udfs_volume.specs.declared.profiles.Profile.{Profile};
ghost use Rattle.udfs_salvage.specs.Found.{volume_now};
ghost use Rattle.udfs_salvage.specs.Reports.{IsNothingPast, IsReportBy};
ghost use Rattle.udfs_salvage.specs.Surveys.{survey_now};
ghost use Rattle.udfs_salvage.specs.TreeReports.{AgreesWithNoneBy};
ghost use Rattle.udfs_overview.specs.Spares.{differ_in, differs, differs_from, differs_known, map_disagrees, partition_disagrees, said_in, spares_disagree, spares_line};

use udfs_lattice::{BlockStore, BlockTable, Fact, ReadFault};
use udfs_osta::OutOfMemory;
use udfs_salvage::{ReportStore, Survey, Volume};
use udfs_volume::{Partition, PartitionMap, SparableMap};

/// The bytes before a position, or all if there are not more than that.
#[tactic(auto, using(std::proofs::lemmas::List::take_all))]
fn front(bytes: &[u8], position: u64) -> &[u8]
    ensures { result.now ≡ take position bytes.now }
{
    if position >= bytes.len() as u64 {
        return bytes;
    }
    let (before, _) = bytes.split_at(position as usize);
    before
}

/// The bytes from a position on, if there are any.
#[tactic(auto, using(std::proofs::lemmas::List::drop_all))]
fn behind(bytes: &[u8], position: usize) -> &[u8]
    ensures { result.now ≡ drop position bytes.now }
{
    if position >= bytes.len() {
        return &[];
    }
    let (_, after) = bytes.split_at(position);
    after
}

/// What block `k` of a table of `size` bytes says: its bytes after the table's tag, and none after the table's size.
fn said_in(size: u32, k: u32, block: &[u8; 2048]) -> &[u8]
    ensures { result.now ≡ said_in size k block.now }
{
    let left = u64::from(size).saturating_sub(2048 * u64::from(k));
    behind(front(block, left), if k == 0 { 16 } else { 0 })
}

/// Whether block `k` of a copy does not say the same as that of another, if this is known.
fn differs_known(size: u32, k: u32, one: &[u8; 2048], other: Fact<&[u8; 2048]>) -> bool
    ensures { result ≡ differs_known size k one.now (fact_now other.entry) }
{
    match other {
        Fact::Known(other) => said_in(size, k, one) != said_in(size, k, other),
        _ => false,
    }
}

/// Whether block `k` of two copies is known in both, and does not say the same.
fn differs(size: u32, k: u32, one: Fact<&[u8; 2048]>, other: Fact<&[u8; 2048]>) -> bool
    ensures { result ≡ differs size k (fact_now one.entry) (fact_now other.entry) }
{
    match one {
        Fact::Known(one) => differs_known(size, k, one, other),
        _ => false,
    }
}

/// What is known of block `k` of a copy that begins at a block. No number of a block is greater than `u32::MAX`.
fn copy_at<'r, B: BlockStore>(
    blocks: &'r B,
    place: u32,
    k: u32,
    room: &'r mut [u8; 2048],
) -> Result<Fact<&'r [u8; 2048]>, ReadFault>
    requires small { B.tells → IsNothingPast (B.states blocks.now) 4294967295 }
    ensures value { IfOk result (λ fact. B.tells → fact_now fact ≡ B.states blocks.now (place + k)) }
    ensures fails { OnErr result B.fails }
{
    match place.checked_add(k) {
        Some(n) => blocks.lend(n, room),
        None => Ok(Fact::Unknown),
    }
}

/// Whether block `k` of the copies that begin at two blocks is known in both, and does not say the same.
fn differs_from<B: BlockStore>(
    blocks: &B,
    size: u32,
    k: u32,
    one: u32,
    other: u32,
) -> Result<bool, ReadFault>
    requires small { B.tells → IsNothingPast (B.states blocks.now) 4294967295 }
    ensures value { IfOk result (λ differs. B.tells → differs ≡ differs_from (B.states blocks.now) size k one other) }
    ensures fails { OnErr result B.fails }
{
    let mut room = [0; 2048];
    let mut spare = [0; 2048];
    let first = copy_at(blocks, one, k, &mut room)?;
    let second = copy_at(blocks, other, k, &mut spare)?;
    Ok(differs(size, k, first, second))
}

/// Whether block `k` of the copy at a place differs from that of one of the copies.
fn differs_from_any<B: BlockStore>(
    blocks: &B,
    size: u32,
    k: u32,
    place: u32,
    places: &[u32],
) -> Result<bool, ReadFault>
    requires small { B.tells → IsNothingPast (B.states blocks.now) 4294967295 }
    ensures value { IfOk result (λ differs. B.tells → differs ≡ list_any (differs_from (B.states blocks.now) size k place) places.now) }
    ensures fails { OnErr result B.fails }
{
    for other in places {
        if differs_from(blocks, size, k, place, *other)? {
            return Ok(true);
        }
    }
    Ok(false)
}

/// Whether some two of the copies differ in block `k`.
fn differ_in<B: BlockStore>(
    blocks: &B,
    size: u32,
    k: u32,
    places: &[u32],
) -> Result<bool, ReadFault>
    requires small { B.tells → IsNothingPast (B.states blocks.now) 4294967295 }
    ensures value { IfOk result (λ differ. B.tells → differ ≡ differ_in (B.states blocks.now) size places.now k) }
    ensures fails { OnErr result B.fails }
{
    for place in places {
        if differs_from_any(blocks, size, k, *place, places)? {
            return Ok(true);
        }
    }
    Ok(false)
}

/// How many blocks a table of `bytes` bytes takes.
fn blocks_in(bytes: u32) -> u32
    ensures { result ≡ blocks_in bytes }
{
    ((u64::from(bytes) + 2047) / 2048) as u32
}

/// Whether the copies of the sparing table of a map disagree in some block.
fn copies_disagree<B: BlockStore>(blocks: &B, map: &SparableMap) -> Result<bool, ReadFault>
    requires small { B.tells → IsNothingPast (B.states blocks.now) 4294967295 }
    ensures value { IfOk result (λ disagree. B.tells → disagree ≡ map_disagrees (B.states blocks.now) (sparable_now map.now)) }
    ensures fails { OnErr result B.fails }
{
    for k in 0..blocks_in(map.size) {
        if differ_in(blocks, map.size, k, &map.tables)? {
            return Ok(true);
        }
    }
    Ok(false)
}

/// Whether the copies of the sparing table of a partition disagree.
fn partition_disagrees<B: BlockStore>(blocks: &B, partition: &Partition) -> Result<bool, ReadFault>
    requires small { B.tells → IsNothingPast (B.states blocks.now) 4294967295 }
    ensures value { IfOk result (λ disagree. B.tells → disagree ≡ partition_disagrees (B.states blocks.now) (partition_now partition.now)) }
    ensures fails { OnErr result B.fails }
{
    match &partition.kind {
        PartitionMap::Type1 => Ok(false),
        PartitionMap::Sparable(map) => copies_disagree(blocks, map),
    }
}

/// Whether those of one of these partitions disagree.
fn any_disagrees<B: BlockStore>(blocks: &B, partitions: &[Partition]) -> Result<bool, ReadFault>
    requires small { B.tells → IsNothingPast (B.states blocks.now) 4294967295 }
    ensures value { IfOk result (λ disagree. B.tells → disagree ≡ list_any (partition_disagrees (B.states blocks.now)) (map partition_now partitions.now)) }
    ensures fails { OnErr result B.fails }
{
    for partition in partitions {
        if partition_disagrees(blocks, partition)? {
            return Ok(true);
        }
    }
    Ok(false)
}

/// The same as [`spares_disagree_in`], by any store of blocks.
///
/// # Errors
///
/// `ReadFault` where the bytes of a known block could not be read.
#[tactic(auto, unfolding(crate::specs::Spares::spares_disagree))]
pub(crate) fn spares_disagree_by<B: ReportStore>(
    blocks: &B,
    volume: &Volume,
) -> Result<bool, ReadFault>
    ensures value { IfOk result (λ disagree. B.tells → disagree ≡ spares_disagree (B.states blocks.now) (volume_now volume.now)) }
    ensures fails { OnErr result B.fails }
{
    let Volume::Open(opened) = volume else {
        return Ok(false);
    };
    match blocks.first_past(u32::MAX) {
        None => any_disagrees(blocks, &opened.parts.partitions),
        // There is none.
        Some(_) => Ok(false),
    }
}

/// Whether copies of a sparing table of a volume disagree by what this table knows, as [`spares_disagree`] says of a survey.
pub fn spares_disagree_in(table: &BlockTable, volume: &Volume) -> bool
    ensures { result ≡ spares_disagree (state_of table.now) (volume_now volume.now) }
{
    match spares_disagree_by(table, volume) {
        Ok(disagree) => disagree,
        Err(_) => unreachable!(),
    }
}

/// Whether copies of a sparing table disagree (UDF 2.01 2.2.11), of a volume that opens: a block of the table is known in two of the
/// places that its map names, and does not say the same in both, from byte 16 of the table on and within its size. Then the volume is
/// not lawful, by whatever rules, and files in spared packets may be old. It allocates no memory.
pub fn spares_disagree(survey: &Survey<'_>) -> bool
    ensures value { result ≡ spares_disagree (state_of survey.now.table.now) (volume_now survey.now.volume) }

    // Where the survey is that of its table, no lawful volume agrees with the table.
    ensures not_lawful { (profile : Profile) (last : ℕ) → IsReportBy profile (state_of survey.now.table.now) last (survey_now survey.now)
        → IsTrue result → AgreesWithNoneBy profile (state_of survey.now.table.now) last }
{
    spares_disagree_in(survey.table, &survey.volume)
}

/// Appends the line that says so, where copies of a sparing table disagree.
///
/// # Errors
///
/// If memory runs out. Then a part may be appended.
pub fn push_spares(text: &mut String, disagree: bool) -> Result<(), OutOfMemory>
    ensures { OnOk result (string_bytes text.new ≡ string_bytes text.old ++ spares_line disagree) }
{
    if !disagree {
        return Ok(());
    }
    text.push_str(
        "Spares     sparing copies disagree: the volume is not lawful, and files in spared packets may be old\n",
    )
}
