//! Names that are found behind holes of torn folders, by which what is lost may be written. They are evidence and no proof.

ghost use Rattle.std.specs.Prelude.{◌≡◌, ⊤, [], Contains, IfOk, IsErrOf, MatchOption, None, OnOk, Option, Some};
ghost use Rattle.udfs_space.specs.Views.{view_by};
ghost use Rattle.udfs_walk.specs.Targets.{Icb};
ghost use Rattle.udfs_lost.specs.FoundNames.{unplaced};
ghost use Rattle.udfs_extraction.specs.Adding.{Adds};
ghost use Rattle.udfs_extraction.specs.Seats.{FoundAt, IsFoundAmong, IsFoundAt, IsFoundBelow, IsFoundIn, found_at};

use std::alloc::{AllocError, Global};
use std::collections::BTreeMap;
use std::marker::Model;
use udfs_lattice::{BlockStore, GaveUp};
use udfs_lost::{FoundName, LostTree, Unplaced, found_names_by, torn_folders, unplaced_by};
use udfs_osta::OutOfMemory;
use udfs_salvage::push_names;
use udfs_space::StoreView;
use udfs_tag::LbAddr;
use udfs_walk::{Node, Unnamed};

/// The most names that are kept, and the most bytes that they have with their folders: 16 MiB. What has none that is kept is written by its number.
const MOST_NAMES: usize = 65_536;

const MOST_BYTES: usize = 16_777_216;

/// A name that is found behind a hole of a torn folder: what it names, and where that is.
#[derive(Drop)]
pub struct FoundPlace {
    /// The information control block of the lost file or folder that it names.
    pub icb: LbAddr,
    /// That of the folder of the lost tree in which the torn folder is, where this is no node of the volume.
    pub tree: Option<LbAddr>,
    /// The path of the torn folder, each name in its escaped form after a `/`.
    pub folder: String,
    /// A `/`, and the name in its escaped form.
    pub name: String,
}

impl Model for FoundPlace {
    ghost use Rattle.std.specs.String.{string_bytes};
    ghost use Rattle.udfs_extraction.specs.Seats.{FoundAt};

    ghost Value = { FoundAt };

    ghost view = { λ p. record { icb = p.icb; tree = p.tree; folder = string_bytes p.folder; name = string_bytes p.name } };
}

/// Names that are found, the first for each entry, which are looked up by what they name. In contracts they are their list.
#[derive(Drop)]
pub struct FoundPlaces {
    /// Where the name of an entry is among them, by the entry's number.
    numbers: BTreeMap<u64, usize>,
    /// All of them.
    places: Vec<FoundPlace>,
    /// How many bytes they have.
    bytes: usize,
}

impl Model for FoundPlaces {
    ghost use Rattle.std.specs.Prelude.{List};
    ghost use Rattle.udfs_extraction.specs.Seats.{FoundAt};

    ghost Value = { List FoundAt };

    ghost view = { λ p. p.places.items };
}

impl FoundPlaces {
    /// None.
    pub fn none(alloc: Global) -> FoundPlaces
        ensures { result ≡ [] }
    {
        FoundPlaces {
            numbers: BTreeMap::new(alloc),
            places: Vec::new(alloc),
            bytes: 0,
        }
    }

    /// A name for what has this information control block, if one was found. It takes no memory.
    pub fn at(&self, icb: LbAddr) -> Option<&FoundPlace>
        ensures { MatchOption result ⊤ (λ place. Contains self.now place.now × (place.now.icb ≡ icb)) }
    {
        let index = match self.numbers.get(&icb.number()) {
            Some(index) => *index,
            None => return None,
        };
        if index < self.places.len() && self.places[index].icb == icb {
            return Some(&self.places[index]);
        }
        None
    }

    /// Adds a name, unless one for the same entry is there, or there are as many as may be.
    fn add(&mut self, place: FoundPlace) -> Result<(), AllocError>
        ensures { OnOk result (Adds (λ p. p ≡ place) self.old self.new) }
    {
        let number = place.icb.number();
        let bytes = self
            .bytes
            .saturating_add(place.folder.len())
            .saturating_add(place.name.len());
        if self.numbers.contains_key(&number)
            || self.places.len() >= MOST_NAMES
            || bytes > MOST_BYTES
        {
            return Ok(());
        }
        self.numbers.insert(number, self.places.len())?;
        self.places.push(place)?;
        self.bytes = bytes;
        Ok(())
    }
}

/// A name that is found in a torn folder.
fn place_of(
    alloc: Global,
    tree: Option<LbAddr>,
    folder: &Node,
    found: &FoundName<'_>,
) -> Result<FoundPlace, OutOfMemory>
    ensures { IfOk result (λ place. place ≡ found_at tree folder.now found.now) }
{
    let mut path = String::new(alloc);
    push_names(&mut path, &folder.path)?;
    let mut name = String::new(alloc);
    name.push('/')?;
    found.name.write_escaped(&mut name)?;
    Ok(FoundPlace {
        icb: found.lost.address(),
        tree,
        folder: path,
        name,
    })
}

/// Adds the names of these entries that are found in a torn folder.
fn add_folder<B: BlockStore>(
    alloc: Global,
    view: StoreView<'_, B>,
    lost: &Unplaced<'_>,
    tree: Option<LbAddr>,
    folder: &Node,
    places: &mut FoundPlaces,
) -> Result<(), GaveUp>
    ensures added { OnOk result (B.tells → Adds (IsFoundAt (view_by B.states view.entry) lost.now tree folder.now) places.old places.new) }
    ensures fails { IsErrOf result GaveUp.Unread → B.fails }
{
    let names = found_names_by(alloc, view, lost, folder)?;
    for found in &names {
        let place = place_of(alloc, tree, folder, found)?;
        places.add(place)?;
    }
    Ok(())
}

/// Adds those that are found in the torn folders among nodes.
fn add_nodes<B: BlockStore>(
    alloc: Global,
    view: StoreView<'_, B>,
    lost: &Unplaced<'_>,
    tree: Option<LbAddr>,
    nodes: &[Node],
    places: &mut FoundPlaces,
) -> Result<(), GaveUp>
    ensures added { OnOk result (B.tells → Adds (IsFoundAmong (view_by B.states view.entry) lost.now tree nodes.now) places.old places.new) }
    ensures fails { IsErrOf result GaveUp.Unread → B.fails }
{
    let folders = torn_folders(alloc, nodes)?;
    for folder in &folders {
        add_folder(alloc, view, lost, tree, folder, places)?;
    }
    Ok(())
}

/// Adds those that are found in the torn folders of lost trees.
fn add_trees<B: BlockStore>(
    alloc: Global,
    view: StoreView<'_, B>,
    lost: &Unplaced<'_>,
    trees: &[LostTree],
    places: &mut FoundPlaces,
) -> Result<(), GaveUp>
    ensures added { OnOk result (B.tells → Adds (IsFoundBelow (view_by B.states view.entry) lost.now trees.now) places.old places.new) }
    ensures fails { IsErrOf result GaveUp.Unread → B.fails }
{
    for tree in trees {
        add_nodes(alloc, view, lost, Some(tree.folder), &tree.nodes, places)?;
    }
    Ok(())
}

/// The names that are found behind holes of torn folders, of lost files among these entries and of the folders of lost trees: of a volume that has these nodes, and
/// then of these trees. They are the first for each, as many as are kept.
///
/// # Errors
///
/// `OutOfMemory` where memory runs out, and `Unread` where the bytes of a known block could not be read.
pub fn find_names<B: BlockStore>(
    alloc: Global,
    view: StoreView<'_, B>,
    deleted: bool,
    nodes: &[Node],
    trees: &[LostTree],
    entries: &[Unnamed],
) -> Result<FoundPlaces, GaveUp>
    ensures found { IfOk result (λ places. B.tells → (p : FoundAt) → Contains places p → IsFoundIn (view_by B.states view.entry) (unplaced (view_by B.states view.entry) deleted trees.now entries.now) nodes.now trees.now p) }
    ensures fails { IsErrOf result GaveUp.Unread → B.fails }
{
    let lost = unplaced_by(alloc, view, deleted, trees, entries)?;
    let mut places = FoundPlaces::none(alloc);
    add_nodes(alloc, view, &lost, None, nodes, &mut places)?;
    add_trees(alloc, view, &lost, trees, &mut places)?;
    Ok(places)
}
