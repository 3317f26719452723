//! Where nodes are written below the folder: by the names of their paths, or by short ones in the place of those that are too long.

ghost use Rattle.std.specs.Prelude.{◌≡◌, ◌<◌, ◌≤◌, ◌++◌, ℕ, suc, List, Some, IfOk, OnOk, length, slice_get, string_bytes, unwrap_or};
ghost use Rattle.udfs_salvage.specs.Found.{volume_now};
ghost use Rattle.udfs_salvage.specs.NodeTexts.{name_text, names_text};
ghost use Rattle.udfs_salvage.specs.Listings.{listing_by};
ghost use Rattle.udfs_salvage.specs.Texts.{has_two};
ghost use Rattle.udfs_walk.specs.NodeFields.{NodeFields};
ghost use Rattle.udfs_extraction.specs.ShortNames.{IsWay, icb_above, own_name, parts, placed, shortened};

use crate::node_files::node_at;
use crate::short_names::shortened;
use std::alloc::{AllocError, Global};
use udfs_lattice::BlockStore;
use udfs_osta::Name;
use udfs_salvage::{Listing, has_two_partitions, push_names};
use udfs_tag::LbAddr;

/// Appends zeros to a list until it has more than `depth` numbers.
fn lengthen(way: &mut Vec<usize>, depth: usize) -> Result<(), AllocError>
    ensures long { OnOk result (depth < length way.new.items) }
    ensures same { OnOk result ((d : ℕ) → unwrap_or (slice_get way.new.items d) 0 ≡ unwrap_or (slice_get way.old.items d) 0) }
{
    while way.len() <= depth {
        way.push(0)?;
    }
    Ok(())
}

/// Notes where a walk through the nodes of a report has come: for each length of a path, the last node that has it.
fn enter<B: BlockStore>(
    way: &mut Vec<usize>,
    listing: &Listing<'_, B>,
    index: usize,
) -> Result<(), AllocError>
    requires { index < length listing.now.nodes.items }
    ensures { OnOk result ((k : ℕ) → suc k ≡ index → IsWay (listing_by B.states listing.now).nodes k way.old.items → IsWay (listing_by B.states listing.now).nodes index way.new.items) }
{
    let depth = node_at(listing, index).path.len();
    lengthen(way, depth)?;
    way[depth] = index;
    Ok(())
}

/// The information control block of the last node up to this index whose path has `depth` names.
fn icb_at<B: BlockStore>(
    listing: &Listing<'_, B>,
    way: &[usize],
    index: usize,
    depth: usize,
) -> LbAddr
    requires { index < length listing.now.nodes.items }
    ensures { (n : NodeFields) → slice_get (listing_by B.states listing.now).nodes index ≡ Some n → IsWay (listing_by B.states listing.now).nodes index way.now → result ≡ icb_above (listing_by B.states listing.now).nodes index n depth }
{
    let above = if depth < way.len() { way[depth] } else { 0 };
    if above < listing.nodes.len() {
        node_at(listing, above).icb.address()
    } else {
        node_at(listing, index).icb.address()
    }
}

/// Appends a `/`, and then a name in its escaped form, or its short name where it is too long.
fn push_part(
    alloc: Global,
    text: &mut String,
    two: bool,
    icb: LbAddr,
    name: &Name,
) -> Result<(), AllocError>
    ensures { OnOk result (string_bytes text.new ≡ string_bytes text.old ++ name_text (unwrap_or (shortened two icb name.now) name.now)) }
{
    text.push('/')?;
    match shortened(alloc, two, icb, name)? {
        Some(short) => short.write_escaped(text),
        None => name.write_escaped(text),
    }
}

/// Appends the names of the path of the node of this index, each after a `/`, and short names in place of those that are too long.
fn push_parts<B: BlockStore>(
    alloc: Global,
    text: &mut String,
    listing: &Listing<'_, B>,
    index: usize,
    way: &[usize],
) -> Result<(), AllocError>
    requires { index < length listing.now.nodes.items }
    ensures text { OnOk result ((n : NodeFields) → slice_get (listing_by B.states listing.now).nodes index ≡ Some n → IsWay (listing_by B.states listing.now).nodes index way.now →
        string_bytes text.new ≡ string_bytes text.old ++ names_text (parts (has_two (volume_now listing.now.volume)) (icb_above (listing_by B.states listing.now).nodes index n) 1 n.path)) }
    ensures names { OnOk result ((names : List (List ℕ)) × (string_bytes text.new ≡ string_bytes text.old ++ names_text names)) }
{
    let two = has_two_partitions(&listing.volume);
    let path = &node_at(listing, index).path;
    for depth in 0..path.len() {
        if let Some(name) = path.get(depth) {
            let icb = icb_at(listing, way, index, depth + 1);
            push_part(alloc, text, two, icb, name)?;
        }
    }
    Ok(())
}

/// Where a node is written.
#[derive(Drop)]
pub struct Place {
    /// Its place below the folder: names in their escaped forms, each after a `/`.
    pub text: String,
    /// Its short name, where it has one.
    pub own: Option<Name>,
}

/// The place of the node of this index. With `short`, names that are too long are shortened by the nodes that they lead to.
fn place_text<B: BlockStore>(
    alloc: Global,
    listing: &Listing<'_, B>,
    index: usize,
    short: bool,
    way: &[usize],
) -> Result<String, AllocError>
    requires { index < length listing.now.nodes.items }
    ensures text { IfOk result (λ text. (n : NodeFields) → slice_get (listing_by B.states listing.now).nodes index ≡ Some n → IsWay (listing_by B.states listing.now).nodes index way.now → string_bytes text ≡ names_text (placed short (listing_by B.states listing.now) index n)) }
    ensures names { IfOk result (λ text. (names : List (List ℕ)) × (string_bytes text ≡ names_text names)) }
{
    let mut text = String::new(alloc);
    if short {
        push_parts(alloc, &mut text, listing, index, way)?;
    } else {
        push_names(&mut text, &node_at(listing, index).path)?;
    }
    Ok(text)
}

/// The short name of the node of this index, where short ones are asked for and its own is too long.
fn own_name<B: BlockStore>(
    alloc: Global,
    listing: &Listing<'_, B>,
    index: usize,
    short: bool,
) -> Result<Option<Name>, AllocError>
    requires { index < length listing.now.nodes.items }
    ensures { IfOk result (λ own. (n : NodeFields) → slice_get (listing_by B.states listing.now).nodes index ≡ Some n → own ≡ own_name short (listing_by B.states listing.now) n) }
{
    if !short {
        return Ok(None);
    }
    let node = node_at(listing, index);
    let two = has_two_partitions(&listing.volume);
    match node.path.last() {
        Some(name) => shortened(alloc, two, node.icb.address(), name),
        None => Ok(None),
    }
}

/// Where the node of this index is written. `way` has the way to the node before it, and then the way to this one.
pub fn place_of<B: BlockStore>(
    alloc: Global,
    listing: &Listing<'_, B>,
    index: usize,
    short: bool,
    way: &mut Vec<usize>,
) -> Result<Place, AllocError>
    requires { index < length listing.now.nodes.items }
    ensures way { IfOk result (λ place. (k : ℕ) → suc k ≡ index → IsWay (listing_by B.states listing.now).nodes k way.old.items → IsWay (listing_by B.states listing.now).nodes index way.new.items) }
    ensures text { IfOk result (λ place. (n : NodeFields) (k : ℕ) → slice_get (listing_by B.states listing.now).nodes index ≡ Some n → suc k ≡ index → IsWay (listing_by B.states listing.now).nodes k way.old.items →
        string_bytes place.text ≡ names_text (placed short (listing_by B.states listing.now) index n)) }
    ensures names { IfOk result (λ place. (names : List (List ℕ)) × (string_bytes place.text ≡ names_text names)) }
    ensures own { IfOk result (λ place. (n : NodeFields) → slice_get (listing_by B.states listing.now).nodes index ≡ Some n → place.own ≡ own_name short (listing_by B.states listing.now) n) }
{
    enter(way, listing, index)?;
    let text = place_text(alloc, listing, index, short, way.as_slice())?;
    let own = own_name(alloc, listing, index, short)?;
    Ok(Place { text, own })
}

/// Where the first node of a listing is written: at no name at all, where it is the root of a walk.
pub fn first_place<B: BlockStore>(
    alloc: Global,
    listing: &Listing<'_, B>,
    short: bool,
) -> Result<Place, AllocError>
    requires { 0 < length listing.now.nodes.items }
    ensures text { IfOk result (λ place. (n : NodeFields) → slice_get (listing_by B.states listing.now).nodes 0 ≡ Some n → string_bytes place.text ≡ names_text (placed short (listing_by B.states listing.now) 0 n)) }
    ensures names { IfOk result (λ place. (names : List (List ℕ)) × (string_bytes place.text ≡ names_text names)) }
    ensures own { IfOk result (λ place. (n : NodeFields) → slice_get (listing_by B.states listing.now).nodes 0 ≡ Some n → place.own ≡ own_name short (listing_by B.states listing.now) n) }
{
    let text = place_text(alloc, listing, 0, short, &[])?;
    let own = own_name(alloc, listing, 0, short)?;
    Ok(Place { text, own })
}

/// The index from which a walk goes on to `index`: `at`, or where `at` is greater, 0, that of the root, and then `way` is cleared.
fn begin(way: &mut Vec<usize>, at: usize, index: usize) -> usize
    ensures before { result ≤ index }
    ensures way { (nodes : List NodeFields) → IsWay nodes at way.old.items → IsWay nodes result way.new.items }
{
    if at <= index {
        return at;
    }
    way.clear();
    0
}

/// Goes from one node to another, each by its index. `way` has the way to the one, and then the way to the other.
fn go_to<B: BlockStore>(
    way: &mut Vec<usize>,
    listing: &Listing<'_, B>,
    at: usize,
    index: usize,
) -> Result<(), AllocError>
    requires { index < length listing.now.nodes.items }
    ensures { OnOk result (IsWay (listing_by B.states listing.now).nodes at way.old.items → IsWay (listing_by B.states listing.now).nodes index way.new.items) }
{
    let from = begin(way, at, index);
    for passed in from..index {
        enter(way, listing, passed + 1)?;
    }
    Ok(())
}

/// The place of the node of this index, whichever node was gone to before. `way` has the way to that one, and then the way to this one.
pub fn place_from<B: BlockStore>(
    alloc: Global,
    listing: &Listing<'_, B>,
    at: usize,
    index: usize,
    short: bool,
    way: &mut Vec<usize>,
) -> Result<String, AllocError>
    requires { index < length listing.now.nodes.items }
    ensures way { IfOk result (λ text. IsWay (listing_by B.states listing.now).nodes at way.old.items → IsWay (listing_by B.states listing.now).nodes index way.new.items) }
    ensures text { IfOk result (λ text. (n : NodeFields) → slice_get (listing_by B.states listing.now).nodes index ≡ Some n → IsWay (listing_by B.states listing.now).nodes at way.old.items →
        string_bytes text ≡ names_text (placed short (listing_by B.states listing.now) index n)) }
{
    go_to(way, listing, at, index)?;
    let text = place_text(alloc, listing, index, short, way.as_slice())?;
    Ok(text)
}
