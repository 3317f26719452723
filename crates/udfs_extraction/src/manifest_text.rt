//! The text of a manifest is made line by line while it is written, so that the paths of all files are never held together.

ghost use Rattle.std.specs.Prelude.{◌≡◌, ◌++◌, List, ℕ, IfErr, IfOk, OnErr, OnOk};
ghost use Rattle.std.specs.Io.KnownBytes.{Appends};
ghost use Rattle.udfs_host_fs.specs.Disk.{SinkFails};
ghost use Rattle.udfs_salvage.specs.Listings.{listing_by};
ghost use Rattle.udfs_extraction.specs.Manifests.{note_text, notes_text};
ghost use Rattle.udfs_extraction.specs.ShortNames.{IsWay};

use crate::manifest::{Noted, behind_slash, push_sum_line};
use crate::places::place_from;
use std::alloc::{AllocError, Global};
use udfs_host_fs::Job;
use udfs_lattice::BlockStore;
use udfs_reading::{Sink, WriteFault, write_all};
use udfs_salvage::Listing;

/// Lines are written once this many bytes of them are held: never more are held than these and one line.
const PIECE: usize = 262_144;

/// Why the text of a manifest was not written.
#[derive(Clone, Copy, Debug, PartialEq, Eq)]
pub enum TextError {
    /// Memory ran out.
    OutOfMemory,
    /// The sink failed.
    NotWritten,
}

impl From<AllocError> for TextError {
    ghost use Rattle.std.specs.Prelude.{◌≡◌};
    ghost use Rattle.udfs_extraction.specs.declared.manifest_text.TextError.TheVariants as text_error;

    ghost from_gives = { λ _ e. e ≡ text_error.OutOfMemory };

    fn from(_error: AllocError) -> TextError {
        TextError::OutOfMemory
    }
}

impl From<WriteFault> for TextError {
    ghost use Rattle.std.specs.Prelude.{◌≡◌};
    ghost use Rattle.udfs_extraction.specs.declared.manifest_text.TextError.TheVariants as text_error;

    ghost from_gives = { λ _ e. e ≡ text_error.NotWritten };

    fn from(_fault: WriteFault) -> TextError {
        TextError::NotWritten
    }
}

/// Appends the line of a file that was noted. `way` has the way to the node of the index `at`, and then to the node whose index is returned.
fn push_noted<B: BlockStore>(
    alloc: Global,
    listing: &Listing<'_, B>,
    short: bool,
    noted: Noted,
    at: usize,
    way: &mut Vec<usize>,
    text: &mut Vec<u8>,
) -> Result<usize, AllocError>
    ensures line { IfOk result (λ next. IsWay (listing_by B.states listing.now).nodes at way.old.items → text.new.items ≡ text.old.items ++ note_text short (listing_by B.states listing.now) noted) }
    ensures way { IfOk result (λ next. IsWay (listing_by B.states listing.now).nodes at way.old.items → IsWay (listing_by B.states listing.now).nodes next way.new.items) }
{
    if noted.index >= listing.nodes.len() {
        return Ok(at);
    }
    let place = place_from(alloc, listing, at, noted.index, short, way)?;
    push_sum_line(
        alloc,
        text,
        &noted.digest,
        behind_slash(place.as_str().as_bytes()),
    )?;
    Ok(noted.index)
}

/// Writes the bytes that are held where they are many.
fn pour<W: Sink>(text: &mut Vec<u8>, sink: &mut W) -> Result<(), WriteFault>
    ensures poured { OnOk result ((out : List ℕ) × Appends (W.stream sink.old).contents (W.stream sink.new).contents out × (text.old.items ≡ out ++ text.new.items)) }
    ensures fault { OnErr result (SinkFails W.stream) }
{
    if text.len() < PIECE {
        return Ok(());
    }
    write_all(sink, text.as_slice())?;
    text.clear();
    Ok(())
}

/// Writes the lines of the files that were noted, in order.
fn write_lines<B: BlockStore, W: Sink>(
    alloc: Global,
    listing: &Listing<'_, B>,
    short: bool,
    noted: &[Noted],
    sink: &mut W,
) -> Result<(), TextError>
    ensures wrote { OnOk result (Appends (W.stream sink.old).contents (W.stream sink.new).contents (notes_text short (listing_by B.states listing.now) noted.now)) }
    ensures cause { IfErr result (λ error. error ≡ TextError.NotWritten → SinkFails W.stream) }
{
    let mut text = Vec::new(alloc);
    let mut way = Vec::new(alloc);
    let mut at = 0;
    for one in noted {
        at = push_noted(alloc, listing, short, *one, at, &mut way, &mut text)?;
        pour(&mut text, sink)?;
    }
    write_all(sink, text.as_slice())?;
    Ok(())
}

/// The text of the manifest of these files, each with the place of its node in the folder.
#[derive(Drop)]
pub struct ManifestText<'a, 'r, B: BlockStore> {
    /// Where memory is taken from.
    pub alloc: Global,
    /// The listing that has the nodes.
    pub listing: &'a Listing<'r, B>,
    /// Whether names that are too long have short ones.
    pub short: bool,
    /// The files.
    pub noted: &'a [Noted],
}

impl<'a, 'r, B: BlockStore> Job for ManifestText<'a, 'r, B> {
    ghost use Rattle.udfs_extraction.specs.declared.manifest_text.TextError.TheVariants as text_error;

    type Refusal = TextError;

    ghost wrote = { λ job old new. Appends old new (notes_text job.short (listing_by B.states job.listing.now) job.noted.now) };

    ghost blames_sink = { λ _ error. error ≡ text_error.NotWritten };

    fn write_to<W: Sink>(&self, sink: &mut W) -> Result<(), TextError> {
        write_lines(self.alloc, self.listing, self.short, self.noted, sink)
    }
}
