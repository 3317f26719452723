//! What the layouts of sample volumes say, as texts.

use std::alloc::{AllocError, Global};
use std::test::Fail;
use udfs_lattice::BlockTable;
use udfs_osta::Label;
use udfs_samples::LAST;
use udfs_volume::differences::{anchors_apart, copies_differ};
use udfs_volume::layouts::{Partition, layout, layout_by};
use udfs_volume::maps::PartitionMap;
use udfs_volume::seen::Seen;
use udfs_volume::{Profile, VolumeParts};

/// The layout by the rules of a profile.
fn seen_by(alloc: Global, table: &BlockTable, profile: Profile) -> Seen<VolumeParts> {
    match profile {
        Profile::Strict => layout(alloc, table, LAST),
        Profile::Wide => layout_by(alloc, table, LAST, profile),
    }
}

/// What the layout says: `ok`, the revision and the maps, or holes, or a fault with its number.
pub fn layout_text(alloc: Global, table: &BlockTable, profile: Profile) -> Result<String, Fail> {
    match seen_by(alloc, table, profile) {
        Seen::Got(parts) => {
            let high = parts.revision / 256;
            let low = parts.revision % 256;
            let mut text = format!(in alloc; "ok revision {high:x}.{low:02x} map")?;
            for partition in &parts.partitions {
                let kind = map_text(alloc, &partition.kind)?;
                text.push_str(kind.as_str())?;
            }
            Ok(text)
        }
        Seen::Holes(blocks) => holes_text(alloc, &blocks),
        Seen::Fault(fault) => {
            let number = fault as u8;
            Ok(format!(in alloc; "fault {number} {fault}")?)
        }
        Seen::OutOfMemory => Ok(format!(in alloc; "out of memory")?),
    }
}

/// The blocks that are not known.
pub fn holes_text(alloc: Global, blocks: &[u32]) -> Result<String, Fail> {
    let mut text = format!(in alloc; "holes")?;
    for n in blocks {
        let number = format!(in alloc; " {n}")?;
        text.push_str(number.as_str())?;
    }
    Ok(text)
}

fn map_text(alloc: Global, kind: &PartitionMap) -> Result<String, AllocError> {
    match kind {
        PartitionMap::Type1 => format!(in alloc; " type1"),
        PartitionMap::Sparable(map) => {
            let packet = map.packet;
            format!(in alloc; " sparable {packet}")
        }
    }
}

/// The last block, the revision, the file set's address, and each partition: its first block, its length and its map.
pub fn parts_text(alloc: Global, table: &BlockTable, profile: Profile) -> Result<String, Fail> {
    let Seen::Got(parts) = seen_by(alloc, table, profile) else {
        return Ok(format!(in alloc; "no layout")?);
    };
    let (last, revision, set) = (parts.last, parts.revision, parts.file_set);
    let (kind, length, block, reference) = (set.kind, set.length, set.block, set.reference);
    let mut text = format!(in alloc; "{last} {revision:04x} {kind} {length} {reference}:{block}")?;
    for partition in &parts.partitions {
        let one = partition_text(alloc, partition)?;
        text.push_str(one.as_str())?;
    }
    Ok(text)
}

fn partition_text(alloc: Global, partition: &Partition) -> Result<String, AllocError> {
    let (start, length) = (partition.start, partition.length);
    match &partition.kind {
        PartitionMap::Type1 => format!(in alloc; ", {start}+{length} type1"),
        PartitionMap::Sparable(map) => {
            let (packet, size, tables) = (map.packet, map.size, map.tables.as_slice());
            format!(in alloc; ", {start}+{length} sparable {packet} {size} {tables:?}")
        }
    }
}

/// The label of the layout: `empty`, `invalid`, or `name` and its escaped form.
pub fn label(alloc: Global, table: &BlockTable) -> Result<String, Fail> {
    let Seen::Got(parts) = layout(alloc, table, LAST) else {
        return Ok(format!(in alloc; "none")?);
    };
    match &parts.label {
        Label::Empty => Ok(format!(in alloc; "empty")?),
        Label::Invalid => Ok(format!(in alloc; "invalid")?),
        Label::Name(name) => {
            let mut text = format!(in alloc; "name ")?;
            name.write_escaped(&mut text)?;
            Ok(text)
        }
    }
}

/// The anchors that name different extents.
pub fn anchors(alloc: Global, table: &BlockTable) -> Result<String, Fail> {
    match anchors_apart(table, LAST) {
        Some((one, other)) => Ok(format!(in alloc; "{one} and {other}")?),
        None => Ok(format!(in alloc; "alike")?),
    }
}

/// Whether the known copies of descriptors differ in what is read of them.
pub fn copies(alloc: Global, table: &BlockTable, profile: Profile) -> Result<String, Fail> {
    if copies_differ(alloc, table, LAST, profile) {
        Ok(format!(in alloc; "apart")?)
    } else {
        Ok(format!(in alloc; "alike")?)
    }
}
