//! How many walks over bodies were made.

ghost use Rattle.std.specs.Prelude.{◌≡◌, ◌+◌, ◌≤◌, IfErr, IfOk, IsErrOf, false, length, nat_lt};
ghost use Rattle.udfs_space.specs.Views.{view_by};
ghost use Rattle.udfs_file.specs.Stretches.{IsStanding};
ghost use Rattle.udfs_file.specs.Entries.{entry_of};
ghost use Rattle.udfs_file.specs.Bodies.{body};
ghost use Rattle.udfs_walk.specs.Bare.{bare_standing};
ghost use Rattle.udfs_walk.specs.GivingUp.{IfTold};
ghost use Rattle.udfs_walk.specs.Standings.{body_standing};
ghost use Rattle.udfs_walk.specs.Routes.{kind_entries};
ghost use Rattle.udfs_walk.specs.Visits.{AreRefused};

use crate::answers::NodesGaveUp;
use crate::told::{Told, body_entered, body_told};
use std::alloc::Global;
use std::marker::Model;
use std::sync::ledger::{Blank, Book, Ledger, Share};
use udfs_file::{DirEntry, Entry};
use udfs_lattice::{BlockStore, GaveUp};
use udfs_space::StoreView;
use udfs_tag::LbAddr;

/// How many walks over bodies were made. It takes no bytes and no time: only the proofs see it.
#[derive(Drop)]
pub struct Walks<L: Ledger> {
    book: Book<L>,
    share: Share<L>,
}

impl<L: Ledger> Model for Walks<L> {
    ghost use Rattle.std.specs.Prelude.{ℕ, ◌<◌};

    ghost Value = { ℕ };

    ghost view = { λ w. w.book.total };

    ghost invariant = { λ w. 0 < w.share.parts };
}

impl<L: Ledger> Walks<L> {
    /// No walk was made.
    pub fn none(blank: Blank) -> Walks<L>
        requires name { blank.name ≡ L.name }
        requires parts { blank.parts ≡ L.parts }
        requires one { blank.parts ≡ 1 }
        ensures { result ≡ 0 }
    {
        let (book, share) = blank.open::<L>();
        Walks { book, share }
    }

    /// One more walk is made.
    fn count(&mut self)
        ensures { self.new ≡ self.old + 1 }
    {
        self.book.add(&mut self.share, 1);
    }
}

/// What the body of the entry at `address` says, as [`body_told`] returns it. It counts one walk.
pub(crate) fn body_walked<L: Ledger, B: BlockStore>(
    alloc: Global,
    view: StoreView<'_, B>,
    entry: &Entry<'_>,
    address: LbAddr,
    walks: &mut Walks<L>,
) -> Result<Told, GaveUp>
    requires { B.tells → IsStanding (view_by B.states view) address.reference address.block entry.now }
    ensures standing { IfOk result (λ told. B.tells → told.standing ≡ bare_standing (body_standing (view_by B.states view.entry).profile (entry_of entry.now).kind false
        (body (view_by B.states view.entry) address.reference address.block (entry_of entry.now)))) }
    ensures lists { IfOk result (λ told. B.tells → told.lists ≡ nat_lt 0 (length (kind_entries (view_by B.states view.entry).profile (entry_of entry.now).kind
        (body (view_by B.states view.entry) address.reference address.block (entry_of entry.now))))) }
    ensures walks { walks.new ≡ walks.old + 1 }
    ensures fails { IsErrOf result GaveUp.Unread → B.fails }
{
    walks.count();
    body_told(alloc, view, entry, address)
}

/// What the body of the entry at `address` says, and what the entry lists, as [`body_entered`] returns both. It counts one
/// walk.
pub(crate) fn entered_walked<L: Ledger, B: BlockStore>(
    alloc: Global,
    view: StoreView<'_, B>,
    entry: &Entry<'_>,
    address: LbAddr,
    most: usize,
    walks: &mut Walks<L>,
) -> Result<(Told, Vec<DirEntry>), NodesGaveUp>
    requires { B.tells → IsStanding (view_by B.states view) address.reference address.block entry.now }
    ensures standing { IfOk result (λ entered. B.tells → entered.0.standing ≡ bare_standing (body_standing (view_by B.states view.entry).profile (entry_of entry.now).kind false
        (body (view_by B.states view.entry) address.reference address.block (entry_of entry.now)))) }
    ensures lists { IfOk result (λ entered. B.tells → entered.0.lists ≡ nat_lt 0 (length (kind_entries (view_by B.states view.entry).profile (entry_of entry.now).kind
        (body (view_by B.states view.entry) address.reference address.block (entry_of entry.now))))) }
    ensures entries { IfOk result (λ entered. B.tells → entered.1.items ≡ kind_entries (view_by B.states view.entry).profile (entry_of entry.now).kind
        (body (view_by B.states view.entry) address.reference address.block (entry_of entry.now))) }
    ensures few { IfOk result (λ entered. length entered.1.items ≤ most) }
    ensures refused { IfErr result (λ e. B.tells → IfTold (AreRefused most (kind_entries (view_by B.states view.entry).profile (entry_of entry.now).kind
        (body (view_by B.states view.entry) address.reference address.block (entry_of entry.now)))) e) }
    ensures walks { walks.new ≡ walks.old + 1 }
    ensures fails { IsErrOf result NodesGaveUp.Unread → B.fails }
{
    walks.count();
    body_entered(alloc, view, entry, address, most)
}
