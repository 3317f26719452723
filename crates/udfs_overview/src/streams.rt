//! Files with named streams, which are ignored.

ghost use Rattle.std.specs.Prelude.{◌≡◌, ◌≤◌, ◌++◌, IfOk, OnErr, OnOk, count_by, length};
ghost use Rattle.std.specs.String.{string_bytes};
ghost use Rattle.udfs_lattice.specs.States.{fact_now};
ghost use Rattle.udfs_space.specs.Places.{block_at};
ghost use Rattle.udfs_space.specs.Views.{view_by};
ghost use Rattle.udfs_salvage.specs.Surveys.{survey_by};
ghost use Rattle.udfs_overview.specs.Streams.{block_names_streams, entry_has_streams, has_streams, is_read_file, many_streams_line, names_streams, some_streams_line, state_names_streams, stream_count, streams_line};

use crate::sentences::push_counted;
use crate::tallies::NodeSort;
use byteorder::{ByteOrder, LittleEndian};
use udfs_file::Kind;
use udfs_lattice::{BlockStore, Fact, ReadFault};
use udfs_osta::OutOfMemory;
use udfs_salvage::{Survey, Volume};
use udfs_space::StoreView;
use udfs_tag::{LbAddr, LongAd, identifiers};
use udfs_walk::{Node, Standing, Unnamed};

/// Whether an entry has a stream directory: an extended entry whose address of one, at byte 152, has a length (ECMA-167 4/14.17).
fn names_streams(block: &[u8; 2048]) -> bool
    ensures { result ≡ names_streams block.now }
{
    LittleEndian::read_u16(block) == identifiers::EXTENDED_FILE_ENTRY
        && LongAd::read(&block[152..]).length > 0
}

/// Whether a block is known to hold such an entry.
fn fact_names_streams(fact: Fact<&[u8; 2048]>) -> bool
    ensures { result ≡ state_names_streams (fact_now fact.entry) }
{
    match fact {
        Fact::Known(block) => names_streams(block),
        _ => false,
    }
}

/// Whether a logical block is known to hold such an entry.
fn block_names_streams<B: BlockStore>(
    view: StoreView<'_, B>,
    address: LbAddr,
) -> Result<bool, ReadFault>
    ensures value { IfOk result (λ named. B.tells → named ≡ block_names_streams (block_at (view_by B.states view.entry) address.reference address.block)) }
    ensures fails { OnErr result B.fails }
{
    let mut room = [0; 2048];
    match view.block_at(address, &mut room)? {
        Some((_, fact)) => Ok(fact_names_streams(fact)),
        None => Ok(false),
    }
}

/// Whether something of this standing and kind is a file, whole or torn.
fn is_read_file(standing: &Standing, kind: Kind) -> bool
    ensures { result ≡ is_read_file standing.now kind }
{
    NodeSort::WholeFile.has(standing, kind) || NodeSort::TornFile.has(standing, kind)
}

/// Whether a node is a file whose entry has a stream directory.
fn has_streams<B: BlockStore>(view: StoreView<'_, B>, node: &Node) -> Result<bool, ReadFault>
    ensures value { IfOk result (λ named. B.tells → named ≡ has_streams (view_by B.states view.entry) node.now) }
    ensures fails { OnErr result B.fails }
{
    if !is_read_file(&node.standing, node.kind) {
        return Ok(false);
    }
    block_names_streams(view, node.icb.address())
}

/// Whether an entry that no name leads to is that of a file with a stream directory.
fn entry_has_streams<B: BlockStore>(
    view: StoreView<'_, B>,
    entry: &Unnamed,
) -> Result<bool, ReadFault>
    ensures value { IfOk result (λ named. B.tells → named ≡ entry_has_streams (view_by B.states view.entry) entry.now) }
    ensures fails { OnErr result B.fails }
{
    if !is_read_file(&entry.standing, entry.kind) {
        return Ok(false);
    }
    block_names_streams(view, entry.address())
}

/// How many nodes are such files.
fn count_named<B: BlockStore>(view: StoreView<'_, B>, nodes: &[Node]) -> Result<usize, ReadFault>
    ensures value { IfOk result (λ count. B.tells → count ≡ count_by (has_streams (view_by B.states view.entry)) nodes.now) }
    ensures fits { IfOk result (λ count. count ≤ length nodes.now) }
    ensures fails { OnErr result B.fails }
{
    let mut count = 0;
    for node in nodes {
        if has_streams(view, node)? {
            count += 1;
        }
    }
    Ok(count)
}

/// How many entries that no name leads to are those of such files.
fn count_nameless<B: BlockStore>(
    view: StoreView<'_, B>,
    entries: &[Unnamed],
) -> Result<usize, ReadFault>
    ensures value { IfOk result (λ count. B.tells → count ≡ count_by (entry_has_streams (view_by B.states view.entry)) entries.now) }
    ensures fits { IfOk result (λ count. count ≤ length entries.now) }
    ensures fails { OnErr result B.fails }
{
    let mut count = 0;
    for entry in entries {
        if entry_has_streams(view, entry)? {
            count += 1;
        }
    }
    Ok(count)
}

/// Counts the files with named streams in the report that a survey represents: whole and torn ones whose entries have a stream
/// directory (ECMA-167 4/14.17), once for each of their names, and those that no name leads to. It allocates no memory.
///
/// # Errors
///
/// `ReadFault` where the bytes of a known block could not be read.
#[tactic(auto, using(crate::proofs::Streaming::streams_full), unfolding(crate::specs::Streams::stream_count))]
pub(crate) fn count_streams<B: BlockStore>(survey: &Survey<'_, B>) -> Result<usize, ReadFault>
    ensures value { IfOk result (λ count. B.tells → count ≡ stream_count (B.states survey.now.table.now) (survey_by B.states survey.now)) }
    ensures fails { OnErr result B.fails }
{
    match &survey.volume {
        Volume::Open(opened) => {
            let view = opened.view_by(survey.table);
            let named = count_named(view, &survey.nodes)?;
            let nameless = count_nameless(view, &survey.unnamed)?;
            Ok(named + nameless)
        }
        _ => Ok(0),
    }
}

/// The line of several files with named streams.
fn push_many_streams(text: &mut String, files: usize) -> Result<(), OutOfMemory>
    ensures { OnOk result (string_bytes text.new ≡ string_bytes text.old ++ many_streams_line files) }
{
    text.push_str("Streams    ")?;
    push_counted(
        text,
        files as u64,
        " files with named streams, which are ignored\n",
    )
}

/// The line of one file with named streams, or of several.
fn push_some_streams(text: &mut String, files: usize) -> Result<(), OutOfMemory>
    ensures { OnOk result (string_bytes text.new ≡ string_bytes text.old ++ some_streams_line files) }
{
    if files == 1 {
        return text.push_str("Streams    1 file with named streams, which are ignored\n");
    }
    push_many_streams(text, files)
}

/// Appends the line of the files with named streams, if there are any.
///
/// # Errors
///
/// If memory runs out. Then a part may be appended.
pub fn push_streams(text: &mut String, files: usize) -> Result<(), OutOfMemory>
    ensures { OnOk result (string_bytes text.new ≡ string_bytes text.old ++ streams_line files) }
{
    if files == 0 {
        return Ok(());
    }
    push_some_streams(text, files)
}
