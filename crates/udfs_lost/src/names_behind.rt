//! Names that are found behind a hole of a torn directory, of entries that no name leads to otherwise.

ghost use Rattle.std.specs.Prelude.{◌≡◌, [], IfOk, IsErrOf, List, filter_map, fold, length, map, option_map, take};
ghost use Rattle.std.specs.List.{cons_option};
ghost use Rattle.udfs_tag.specs.Fields.{number_of};
ghost use Rattle.udfs_space.specs.Views.{view_by};
ghost use Rattle.udfs_file.specs.FoundNames.{entries_in};
ghost use Rattle.udfs_lost.specs.Folders.{icb_of_entry};
ghost use Rattle.udfs_lost.specs.FoundNames.{Found, found_names, found_of, is_torn, is_torn_folder, torn_folders, with_name};

use crate::folders::is_directory;
use crate::met::Met;
use crate::unplaced_entries::Unplaced;
use std::alloc::{AllocError, Global};
use std::collections::BTreeSet;
use std::marker::Model;
use udfs_file::file_sets::address_fault;
use udfs_file::{DirEntry, FoundNames};
use udfs_lattice::{BlockStore, GaveUp};
use udfs_osta::{Name, OutOfMemory};
use udfs_space::StoreView;
use udfs_walk::{Node, Standing, Unnamed, body_by};

/// The most names that are told of one directory.
const MOST_NAMES: usize = 65_536;

/// A name that is found behind a hole of a torn directory, and the entry that it names.
#[derive(Drop)]
pub struct FoundName<'a> {
    /// The name.
    pub name: Name,
    /// The entry.
    pub lost: &'a Unnamed,
}

impl<'a> Model for FoundName<'a> {
    ghost use Rattle.udfs_lost.specs.FoundNames.{Found};

    ghost Value = { Found };

    ghost view = { λ f. record { name = f.name; lost = f.lost.now } };
}

/// Whether something is missing.
fn is_torn(standing: &Standing) -> bool
    ensures { result ≡ is_torn standing.now }
{
    matches!(standing, Standing::Torn(_))
}

/// Whether a node is a directory of which something is missing.
fn is_torn_folder(node: &Node) -> bool
    ensures { result ≡ is_torn_folder node.now }
{
    is_directory(node.kind) && is_torn(&node.standing)
}

/// The directories among nodes of which something is missing, each once, at the first of its paths.
///
/// # Errors
///
/// [`OutOfMemory`] where memory runs out.
pub fn torn_folders<'a>(alloc: Global, nodes: &'a [Node]) -> Result<Vec<&'a Node>, OutOfMemory>
    ensures { IfOk result (λ folders. map (λ folder. folder.now) folders.items ≡ torn_folders nodes.now) }
{
    let mut met = Met::none(alloc);
    let mut folders = Vec::new(alloc);
    for node in nodes {
        if is_torn_folder(node) && !met.contains(node.icb.address()) {
            met = met.meet(node.icb.address())?;
            folders.push(node)?;
        }
    }
    Ok(folders)
}

/// The entry that an entry of a directory names, if its address is good and leads to one of these.
fn lost_at<'a, B: BlockStore>(
    view: StoreView<'_, B>,
    lost: &Unplaced<'a>,
    entry: &DirEntry,
) -> Option<&'a Unnamed>
    ensures { option_map (λ u. record { name = entry.now.name; lost = u.now }) result ≡ found_of (view_by B.states view.entry) lost.now entry.now }
{
    match address_fault(view.space, entry.icb) {
        Some(_) => None,
        None => lost.at(entry.icb.address()),
    }
}

/// What tells names of entries apart: the number of the entry, and the units of the name.
fn key_of(alloc: Global, found: &FoundName<'_>) -> Result<(u64, Vec<u16>), AllocError>
    ensures { IfOk result (λ key. (key.0 ≡ number_of (icb_of_entry found.now.lost)) × (key.1.items ≡ found.now.name)) }
{
    let mut units = Vec::new(alloc);
    units.extend_from_slice(found.name.units())?;
    Ok((found.lost.address().number(), units))
}

/// Names that are found, each name of an entry once, in the order in which they were found. In contracts they are that list.
#[derive(Drop)]
struct Told<'a> {
    /// What tells them apart.
    keys: BTreeSet<(u64, Vec<u16>)>,
    /// All of them.
    names: Vec<FoundName<'a>>,
}

impl<'a> Model for Told<'a> {
    ghost use Rattle.std.specs.Prelude.{List};
    ghost use Rattle.udfs_lost.specs.FoundNames.{Found};
    ghost use Rattle.udfs_lost.specs.Told.{AreKeysOf};

    ghost Value = { List Found };

    ghost view = { λ t. t.names.items };

    ghost invariant = { λ t. AreKeysOf t.keys t.names.items };
}

impl<'a> Told<'a> {
    /// None.
    fn none(alloc: Global) -> Told<'a>
        ensures { result ≡ [] }
    {
        Told {
            keys: BTreeSet::new(alloc),
            names: Vec::new(alloc),
        }
    }

    /// How many there are.
    fn len(&self) -> usize
        ensures { result ≡ length self.now }
    {
        self.names.len()
    }

    /// The names.
    fn into_names(self) -> Vec<FoundName<'a>>
        ensures { result.items ≡ self.entry }
    {
        self.names
    }

    /// These, and one more behind them, unless it is there.
    fn with(self, alloc: Global, found: FoundName<'a>) -> Result<Told<'a>, AllocError>
        ensures { IfOk result (λ more. more ≡ with_name self.entry found.entry) }
    {
        let key = key_of(alloc, &found)?;
        let Told {
            mut keys,
            mut names,
        } = self;
        if !keys.insert(key)? {
            return Ok(Told { keys, names });
        }
        names.push(found)?;
        Ok(Told { keys, names })
    }
}

/// These, and behind them the name of an entry of a directory, if it names one of these entries.
fn with_entry<'a, B: BlockStore>(
    alloc: Global,
    view: StoreView<'_, B>,
    lost: &Unplaced<'a>,
    told: Told<'a>,
    entry: DirEntry,
) -> Result<Told<'a>, AllocError>
    ensures { IfOk result (λ more. more ≡ fold with_name told.entry (cons_option (found_of (view_by B.states view.entry) lost.now entry) [])) }
{
    let Some(lost) = lost_at(view, lost, &entry) else {
        return Ok(told);
    };
    let DirEntry { name, .. } = entry;
    told.with(alloc, FoundName { name, lost })
}

/// Those names that name one of these entries, at most as many as are told, each name of an entry once.
fn names_in<'a, B: BlockStore>(
    alloc: Global,
    view: StoreView<'_, B>,
    lost: &Unplaced<'a>,
    names: FoundNames<'_, B>,
) -> Result<Vec<FoundName<'a>>, GaveUp>
    ensures value { IfOk result (λ found. B.tells → found.items ≡ take 65536 (fold with_name [] (filter_map (found_of (view_by B.states view.entry) lost.now) (entries_in names.entry)))) }
    ensures fails { IsErrOf result GaveUp.Unread → B.fails }
{
    let mut names = names;
    let mut told = Told::none(alloc);
    'names: while let Some(entry) = names.next_by(alloc)? {
        if told.len() == MOST_NAMES {
            return Ok(told.into_names());
        }
        told = with_entry(alloc, view, lost, told, entry)?;
    }
    Ok(told.into_names())
}

/// The names that are found in a torn directory behind what it lists, as [`FoundNames`] finds them, of entries that no name leads to: at most 65,536, in the order
/// of their places. Where two different names name one entry, both are among them; the same name of an entry is there once. The body of the directory is read once.
///
/// They are evidence and no proof: the bytes of such a name may be left over from an older state of the directory.
///
/// # Errors
///
/// `OutOfMemory` where memory runs out, and `Unread` where the bytes of a known block could not be read.
pub fn found_names_by<'a, B: BlockStore>(
    alloc: Global,
    view: StoreView<'_, B>,
    lost: &Unplaced<'a>,
    folder: &Node,
) -> Result<Vec<FoundName<'a>>, GaveUp>
    ensures value { IfOk result (λ found. B.tells → found.items ≡ found_names (view_by B.states view.entry) lost.now folder.now.icb) }
    ensures fails { IsErrOf result GaveUp.Unread → B.fails }
{
    match body_by(alloc, view, folder.icb)? {
        None => Ok(Vec::new(alloc)),
        Some(body) => {
            let names = FoundNames::new_by(view, &body)?;
            let found = names_in(alloc, view, lost, names)?;
            Ok(found)
        }
    }
}
