//! The entries that a name which is found may name, by their information control blocks.

ghost use Rattle.std.specs.Prelude.{◌≡◌, ◌++◌, ◌∷◌, [], IfOk, IsErrOf, List, cond, filter, map, option_map};
ghost use Rattle.std.specs.List.{list_any};
ghost use Rattle.udfs_space.specs.Views.{view_by};
ghost use Rattle.udfs_walk.specs.Targets.{Icb, is_icb};
ghost use Rattle.udfs_walk.specs.declared.answers.Unnamed.{Unnamed};
ghost use Rattle.udfs_lost.specs.Folders.{icb_of_entry};
ghost use Rattle.udfs_lost.specs.FoundNames.{entry_of_icb, unplaced};
ghost use Rattle.udfs_lost.specs.Unplaced.{AgreeAt};

use crate::files::lost_files_by;
use crate::met::Met;
use crate::trees::LostTree;
use std::alloc::{AllocError, Global};
use std::collections::BTreeMap;
use std::marker::Model;
use udfs_lattice::{BlockStore, GaveUp};
use udfs_space::StoreView;
use udfs_tag::LbAddr;
use udfs_walk::Unnamed;

/// Entries that no name leads to, which are looked up by their information control blocks. In contracts they are their list.
#[derive(Drop)]
pub struct Unplaced<'a> {
    /// The first of them at each number.
    numbers: BTreeMap<u64, &'a Unnamed>,
    /// All of them.
    entries: Vec<&'a Unnamed>,
}

impl<'a> Model for Unplaced<'a> {
    ghost use Rattle.std.specs.Prelude.{List, map};
    ghost use Rattle.udfs_walk.specs.declared.answers.Unnamed.{Unnamed};
    ghost use Rattle.udfs_lost.specs.Unplaced.{AgreeAt};

    ghost Value = { List Unnamed };

    ghost view = { λ p. map (λ u. u.now) p.entries.items };

    ghost invariant = { λ p. AgreeAt p.numbers (map (λ u. u.now) p.entries.items) };
}

impl<'a> Unplaced<'a> {
    /// None.
    pub(crate) fn none(alloc: Global) -> Unplaced<'a>
        ensures { result ≡ [] }
    {
        Unplaced {
            numbers: BTreeMap::new(alloc),
            entries: Vec::new(alloc),
        }
    }

    /// The first of them at an information control block. It takes no memory.
    pub(crate) fn at(&self, icb: LbAddr) -> Option<&'a Unnamed>
        ensures { option_map (λ u. u.now) result ≡ entry_of_icb self.now icb }
    {
        match self.numbers.get(&icb.number()) {
            Some(entry) => Some(*entry),
            None => None,
        }
    }

    /// These, and one more behind them.
    pub(crate) fn with(self, entry: &'a Unnamed) -> Result<Unplaced<'a>, AllocError>
        ensures { IfOk result (λ more. more ≡ self.entry ++ entry.now ∷ []) }
    {
        let Unplaced {
            numbers,
            mut entries,
        } = self;
        let numbers = numbered(numbers, entry.address(), entry)?;
        entries.push(entry)?;
        Ok(Unplaced { numbers, entries })
    }
}

/// The table of the first entries at each number, with one more behind the others.
fn numbered<'a>(
    numbers: BTreeMap<u64, &'a Unnamed>,
    icb: LbAddr,
    entry: &'a Unnamed,
) -> Result<BTreeMap<u64, &'a Unnamed>, AllocError>
    requires { icb ≡ icb_of_entry entry.now }
    ensures { IfOk result (λ more. (us : List Unnamed) → AgreeAt numbers.entry us → AgreeAt more (us ++ entry.now ∷ [])) }
{
    let mut numbers = numbers;
    let number = icb.number();
    if numbers.contains_key(&number) {
        return Ok(numbers);
    }
    numbers.insert(number, entry)?;
    Ok(numbers)
}

/// These, and one more behind them, if it is wanted.
fn with_wanted<'a>(
    found: Unplaced<'a>,
    wanted: bool,
    entry: &'a Unnamed,
) -> Result<Unplaced<'a>, AllocError>
    ensures { IfOk result (λ more. more ≡ found.entry ++ cond wanted (entry.now ∷ []) []) }
{
    if wanted {
        return found.with(entry);
    }
    Ok(found)
}

/// These, and all files behind them.
fn with_files<'a>(found: Unplaced<'a>, files: &[&'a Unnamed]) -> Result<Unplaced<'a>, AllocError>
    ensures { IfOk result (λ more. more ≡ found.entry ++ map (λ file. file.now) files.now) }
{
    let mut found = found;
    for file in files {
        found = found.with(*file)?;
    }
    Ok(found)
}

/// The folders of lost trees.
fn roots_of(alloc: Global, trees: &[LostTree]) -> Result<Met, AllocError>
    ensures { IfOk result (λ roots. (icb : Icb) → list_any (is_icb icb) roots ≡ list_any (λ t. is_icb icb t.folder) trees.now) }
{
    let mut roots = Met::none(alloc);
    for tree in trees {
        roots = roots.meet(tree.folder)?;
    }
    Ok(roots)
}

/// These, and behind them the entries that were met.
fn with_roots<'a>(
    found: Unplaced<'a>,
    roots: &Met,
    entries: &'a [Unnamed],
) -> Result<Unplaced<'a>, AllocError>
    ensures { IfOk result (λ more. more ≡ found.entry ++ filter (λ u. list_any (is_icb (icb_of_entry u)) roots.now) entries.now) }
{
    let mut found = found;
    for entry in entries {
        let wanted = roots.contains(entry.address());
        found = with_wanted(found, wanted, entry)?;
    }
    Ok(found)
}

/// Of entries that no name leads to the lost files, and then those from which one of these lost trees is walked: with `deleted` also files of link count 0.
///
/// # Errors
///
/// `OutOfMemory` where memory runs out, and `Unread` where the bytes of a known block could not be read.
pub fn unplaced_by<'a, B: BlockStore>(
    alloc: Global,
    view: StoreView<'_, B>,
    deleted: bool,
    trees: &[LostTree],
    entries: &'a [Unnamed],
) -> Result<Unplaced<'a>, GaveUp>
    ensures value { IfOk result (λ found. B.tells → found ≡ unplaced (view_by B.states view.entry) deleted trees.now entries.now) }
    ensures fails { IsErrOf result GaveUp.Unread → B.fails }
{
    let files = lost_files_by(alloc, view, deleted, trees, entries)?;
    let roots = roots_of(alloc, trees)?;
    let found = with_files(Unplaced::none(alloc), &files)?;
    let found = with_roots(found, &roots, entries)?;
    Ok(found)
}
