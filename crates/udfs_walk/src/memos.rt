//! What the bodies of entries say, each found once for its information control block, whichever routes lead there.

ghost use Rattle.std.specs.Prelude.{◌≡◌, ◌≤◌, ◌+◌, ℕ, List, IfErr, IfOk, IsErrOf, IsSome, None, OnOk, Some, false, length, Contains};
ghost use Rattle.std.specs.BTreeMap.{IsEmpty, IsOrdered, Updates, btree_map_len, get, insert_entry};
ghost use Rattle.std.specs.Ordering.{nat_cmp};
ghost use Rattle.udfs_tag.specs.Fields.{number_of};
ghost use Rattle.udfs_space.specs.Views.{view_by};
ghost use Rattle.udfs_file.specs.Stretches.{IsStanding};
ghost use Rattle.udfs_file.specs.Entries.{entry_of};
ghost use Rattle.udfs_file.specs.Bodies.{body};
ghost use Rattle.udfs_file.specs.declared.directories.DirEntry.{DirEntry};
ghost use Rattle.udfs_walk.specs.Bare.{bare_standing};
ghost use Rattle.udfs_walk.specs.GivingUp.{IfTold};
ghost use Rattle.udfs_walk.specs.Routes.{kind_entries};
ghost use Rattle.udfs_walk.specs.Standings.{body_standing};
ghost use Rattle.udfs_lattice.specs.Volumes.{ascending};
ghost use Rattle.udfs_walk.specs.Visits.{AreListed, AreRefused, count_listed};
ghost use Rattle.udfs_walk.specs.Counting.{IsCounted};
ghost use Rattle.udfs_walk.specs.Memos.{HasWords, IsMemo, deep_word, known_of, known_standing, standing_of, word_of};

use crate::answers::NodesGaveUp;
use crate::bare::no_lists;
use crate::children::{Children, shared_entries};
use crate::counting::{Walks, body_walked, entered_walked};
use crate::standings::Standing;
use crate::told::Told;
use std::alloc::{AllocError, Global};
use std::collections::BTreeMap;
use std::sync::ledger::Ledger;
use udfs_file::{Entry, NodeFault};
use udfs_lattice::{BlockStore, GaveUp};
use udfs_space::StoreView;
use udfs_tag::LbAddr;

/// A standing without its blocks and holes.
#[derive(Clone, Copy)]
pub(crate) enum Word {
    /// Whole.
    Whole,
    /// Torn.
    Torn,
    /// A loop.
    Loop,
    /// With this fault.
    Fault(NodeFault),
}

/// A standing without its blocks and holes.
fn in_a_word(standing: &Standing) -> Word
    ensures { result ≡ word_of standing.now }
{
    match standing {
        Standing::Whole => Word::Whole,
        Standing::Torn(_) => Word::Torn,
        Standing::Loop => Word::Loop,
        Standing::Fault(fault) => Word::Fault(*fault),
    }
}

/// The standing of a directory that lists entries: the fault `Depth` if it is too deep to be entered and has no other fault.
fn deep(word: Word, is_deep: bool) -> Word
    ensures { result ≡ deep_word is_deep word }
{
    if !is_deep {
        return word;
    }
    match word {
        Word::Fault(fault) => Word::Fault(fault),
        _ => Word::Fault(NodeFault::Depth),
    }
}

/// What the body of an entry says.
#[derive(Clone, Copy)]
pub(crate) struct Known {
    /// How whole the entry is, where it is no loop and fewer than 64 names lead to it.
    word: Word,
    /// Whether it lists entries, as a directory.
    lists: bool,
}

/// What is known of an entry by what its body says.
fn known_by(told: &Told) -> Known
    ensures word { result.word ≡ word_of told.now.standing }
    ensures lists { result.lists ≡ told.now.lists }
{
    Known {
        word: in_a_word(&told.standing),
        lists: told.lists,
    }
}

impl Known {
    /// The standing of the entry, without the blocks and the holes, where it is no loop.
    pub(crate) fn standing(self, alloc: Global, is_deep: bool) -> Standing
        ensures { result ≡ known_standing is_deep self }
    {
        match deep(self.word, is_deep && self.lists) {
            Word::Whole => Standing::Whole,
            Word::Torn => Standing::Torn(no_lists(alloc)),
            Word::Loop => Standing::Loop,
            Word::Fault(fault) => Standing::Fault(fault),
        }
    }
}

/// What is kept of an entry.
#[derive(Drop)]
struct Kept {
    /// What its body says.
    known: Known,
    /// What it lists, if it lists entries and a route went on to them.
    entries: Option<Children>,
}

impl Kept {
    /// The standing of the entry, where it is no loop and fewer than 64 names lead to it, and the kept entries that it lists. If
    /// these are more than `most`, the error is `TooManyPaths`.
    fn told(&self, alloc: Global, most: usize) -> Result<(Standing, Option<Children>), NodesGaveUp>
        ensures standing { IfOk result (λ told. told.0 ≡ known_standing false self.now.known) }
        ensures entries { IfOk result (λ told. (es : List DirEntry) → AreListed self.now.entries es → AreListed told.1 es) }
        ensures few { IfOk result (λ told. count_listed told.1 ≤ most) }
        ensures refused { IfErr result (λ error. (es : List DirEntry) → AreListed self.now.entries es → IfTold (AreRefused most es) error) }
        ensures read { ¬ IsErrOf result NodesGaveUp.Unread }
    {
        let standing = self.known.standing(alloc, false);
        match &self.entries {
            None => Ok((standing, None)),
            Some(entries) => {
                if entries.len() > most {
                    return Err(NodesGaveUp::TooManyPaths);
                }
                let entries = entries.clone()?;
                Ok((standing, Some(entries)))
            }
        }
    }
}

/// What is kept of entries, by the numbers of their information control blocks.
#[derive(Drop)]
pub(crate) struct Memo {
    kept: BTreeMap<u64, Kept>,
}

impl Memo {
    /// Nothing is kept.
    pub(crate) fn new(alloc: Global) -> Memo
        ensures { IsEmpty result.kept }
    {
        Memo {
            kept: BTreeMap::new(alloc),
        }
    }

    /// What the body of the entry at `address` says, and the entries that it lists, of which there are at most `most`. It is found
    /// once: if it is kept, no body is walked.
    pub(crate) fn entered<L: Ledger, B: BlockStore>(
        &mut self,
        alloc: Global,
        view: StoreView<'_, B>,
        entry: &Entry<'_>,
        address: LbAddr,
        most: usize,
        walks: &mut Walks<L>,
    ) -> Result<(Standing, Option<Children>), NodesGaveUp>
        requires stands { B.tells → IsStanding (view_by B.states view) address.reference address.block entry.now }
        requires memo { B.tells → IsMemo (view_by B.states view) self.old }
        ensures standing { IfOk result (λ told. B.tells → told.0 ≡ bare_standing (body_standing (view_by B.states view.entry).profile (entry_of entry.now).kind false
            (body (view_by B.states view.entry) address.reference address.block (entry_of entry.now)))) }
        ensures entries { IfOk result (λ told. B.tells → AreListed told.1 (kind_entries (view_by B.states view.entry).profile (entry_of entry.now).kind
            (body (view_by B.states view.entry) address.reference address.block (entry_of entry.now)))) }
        ensures few { IfOk result (λ told. count_listed told.1 ≤ most) }
        ensures refused { IfErr result (λ e. B.tells → IfTold (AreRefused most (kind_entries (view_by B.states view.entry).profile (entry_of entry.now).kind
            (body (view_by B.states view.entry) address.reference address.block (entry_of entry.now)))) e) }
        ensures memo { IfOk result (λ told. B.tells → IsMemo (view_by B.states view.entry) self.new) }
        ensures again { IsSome (get nat_cmp self.old.kept (number_of address)) → walks.new ≡ walks.old }
        ensures once { walks.new ≤ walks.old + 1 }
        ensures counted { IfOk result (λ told. (start : ℕ) (icbs : List ℕ) → Contains icbs (number_of address)
            → IsCounted start icbs self.old walks.old → IsCounted start icbs self.new walks.new) }
        ensures fails { IsErrOf result NodesGaveUp.Unread → B.fails }
    {
        let number = address.number();
        if let Some(before) = self.kept.get(&number) {
            return before.told(alloc, most);
        }
        let (told, entries) = entered_walked(alloc, view, entry, address, most, walks)?;
        let kept = Kept {
            known: known_by(&told),
            entries: shared_entries(alloc, entries)?,
        };
        let told = kept.told(alloc, most)?;
        keep(&mut self.kept, number, kept)?;
        Ok(told)
    }

    /// What the body of the entry at `address` says, where no route goes on to what the entry lists. It is found once: if it is
    /// kept, no body is walked, and otherwise no entry of a directory is kept.
    pub(crate) fn known<L: Ledger, B: BlockStore>(
        &mut self,
        alloc: Global,
        view: StoreView<'_, B>,
        entry: &Entry<'_>,
        address: LbAddr,
        walks: &mut Walks<L>,
    ) -> Result<Known, GaveUp>
        requires stands { B.tells → IsStanding (view_by B.states view) address.reference address.block entry.now }
        requires words { B.tells → HasWords (view_by B.states view) self.old }
        ensures known { IfOk result (λ known. B.tells → known ≡ known_of (view_by B.states view.entry).profile (entry_of entry.now).kind
            (body (view_by B.states view.entry) address.reference address.block (entry_of entry.now))) }
        ensures words { IfOk result (λ known. B.tells → HasWords (view_by B.states view.entry) self.new) }
        ensures again { IsSome (get nat_cmp self.old.kept (number_of address)) → walks.new ≡ walks.old }
        ensures counted { IfOk result (λ known. (start : ℕ) (icbs : List ℕ) → Contains icbs (number_of address)
            → IsCounted start icbs self.old walks.old → IsCounted start icbs self.new walks.new) }
        ensures within { (start : ℕ) (icbs : List ℕ) → Contains icbs (number_of address)
            → IsCounted start icbs self.old walks.old → walks.new ≤ start + length (ascending icbs) }
        ensures fails { IsErrOf result GaveUp.Unread → B.fails }
    {
        let number = address.number();
        if let Some(kept) = self.kept.get(&number) {
            return Ok(kept.known);
        }
        let told = body_walked(alloc, view, entry, address, walks)?;
        let known = known_by(&told);
        let entries = None;
        keep(&mut self.kept, number, Kept { known, entries })?;
        Ok(known)
    }
}

/// Keeps what is known of the entry with the information control block of this number.
fn keep(memo: &mut BTreeMap<u64, Kept>, number: u64, kept: Kept) -> Result<(), AllocError>
    ensures updates { OnOk result (Updates nat_cmp memo.old memo.new number (Some kept)) }
    ensures entries { OnOk result (memo.new.entries ≡ insert_entry nat_cmp memo.old.entries number kept) }
    ensures count { OnOk result (get nat_cmp memo.old number ≡ None → btree_map_len memo.new ≡ btree_map_len memo.old + 1) }
    ensures ordered { OnOk result (IsOrdered nat_cmp memo.new) }
{
    memo.insert(number, kept)?;
    Ok(())
}
