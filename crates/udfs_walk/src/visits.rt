//! One node: what is at the end of a route.

ghost use Rattle.std.specs.Prelude.{◌≤◌, ◌≡◌, [], ◌+◌, ◌||◌, ℕ, IfErr, IfOk, IsErrOf, List, cond, false, length, Contains};
ghost use Rattle.std.specs.List.{list_any};
ghost use Rattle.udfs_tag.specs.Fields.{number_of};
ghost use Rattle.udfs_space.specs.Views.{view_by};
ghost use Rattle.udfs_file.specs.Stretches.{IsStanding};
ghost use Rattle.udfs_file.specs.Entries.{entry_of};
ghost use Rattle.udfs_file.specs.Bodies.{body};
ghost use Rattle.udfs_walk.specs.Bare.{bare_standing};
ghost use Rattle.udfs_walk.specs.GivingUp.{IfTold};
ghost use Rattle.udfs_walk.specs.Counting.{IsCounted};
ghost use Rattle.udfs_walk.specs.Memos.{IsMemo};
ghost use Rattle.udfs_walk.specs.Standings.{body_standing};
ghost use Rattle.udfs_walk.specs.Targets.{Icb, icb_of, is_icb};
ghost use Rattle.udfs_walk.specs.Routes.{kind_entries, entries_below};
ghost use Rattle.udfs_walk.specs.Nodes.{told, untold};
ghost use Rattle.udfs_walk.specs.Unsettled.{unsettled};
ghost use Rattle.udfs_walk.specs.Visits.{AreListed, AreRefused, count_listed, end_at};

use crate::answers::{Node, NodesGaveUp};
use crate::bare::no_lists;
use crate::children::Children;
use crate::counting::Walks;
use crate::kinds::kind_by;
use crate::memos::Memo;
use crate::paths::Path;
use crate::standings::Standing;
use crate::targets::{Target, target_at};
use std::alloc::Global;
use std::sync::ledger::Ledger;
use udfs_file::{Entry, Kind};
use udfs_lattice::BlockStore;
use udfs_space::StoreView;
use udfs_tag::{LbAddr, LongAd};
use udfs_volume::Profile;

/// A directory with this many names in its path is not entered.
pub(crate) const MOST_NAMES: usize = 64;

/// Whether an ICB is one of these.
fn is_loop(address: LbAddr, above: &[LbAddr]) -> bool
    ensures { result ≡ list_any (is_icb address) above.now }
{
    for icb in above {
        if address.reference == icb.reference && address.block == icb.block {
            return true;
        }
    }
    false
}

/// What is known of an entry at the end of a route: its standing, without the blocks and the holes, and the entries to which
/// a route goes on. A loop, and an entry to which 64 names lead, has no such entries, and no body is walked for it. The latter,
/// where it is no loop, counts as whole until its node is settled.
fn entry_told<L: Ledger, B: BlockStore>(
    alloc: Global,
    view: StoreView<'_, B>,
    entry: &Entry<'_>,
    address: LbAddr,
    is_loop: bool,
    is_deep: bool,
    most: usize,
    memo: &mut Memo,
    walks: &mut Walks<L>,
) -> Result<(Standing, Option<Children>), NodesGaveUp>
    requires stands { B.tells → IsStanding (view_by B.states view) address.reference address.block entry.now }
    requires memo { B.tells → IsMemo (view_by B.states view) memo.old }
    ensures standing { IfOk result (λ told. B.tells → told.0 ≡ cond is_loop Standing.Loop (cond is_deep Standing.Whole (bare_standing (body_standing (view_by B.states view.entry).profile (entry_of entry.now).kind false
        (body (view_by B.states view.entry) address.reference address.block (entry_of entry.now)))))) }
    ensures entries { IfOk result (λ told. B.tells → AreListed told.1 (cond (is_loop || is_deep) [] (kind_entries (view_by B.states view.entry).profile (entry_of entry.now).kind
        (body (view_by B.states view.entry) address.reference address.block (entry_of entry.now))))) }
    ensures few { IfOk result (λ told. count_listed told.1 ≤ most) }
    ensures memo { IfOk result (λ told. B.tells → IsMemo (view_by B.states view.entry) memo.new) }
    ensures once { walks.new ≤ walks.old + 1 }
    ensures counted { IfOk result (λ told. (start : ℕ) (icbs : List ℕ) → Contains icbs (number_of address)
        → IsCounted start icbs memo.old walks.old → IsCounted start icbs memo.new walks.new) }
    ensures refused { IfErr result (λ e. B.tells → IfTold (AreRefused most (cond (is_loop || is_deep) [] (kind_entries (view_by B.states view.entry).profile (entry_of entry.now).kind
        (body (view_by B.states view.entry) address.reference address.block (entry_of entry.now))))) e) }
    ensures fails { IsErrOf result NodesGaveUp.Unread → B.fails }
{
    if is_loop {
        return Ok((Standing::Loop, None));
    }
    if is_deep {
        return Ok((Standing::Whole, None));
    }
    let told = memo.entered(alloc, view, entry, address, most, walks)?;
    Ok(told)
}

/// What is at the end of a route: its node, and the entries to which a route goes on.
#[derive(Drop)]
pub(crate) struct Visit {
    pub(crate) node: Node,
    pub(crate) entries: Option<Children>,
}

/// A node whose entry is not read.
fn unread(address: LongAd, path: Path, hidden: bool, standing: Standing) -> Node
    ensures { (above : List Icb) → result ≡ untold (end_at address path above hidden) standing }
{
    Node {
        path,
        icb: address,
        kind: Kind::Unread,
        size: None,
        stamp: None,
        hidden,
        standing,
    }
}

/// A node whose entry is read, by these rules.
fn read(
    profile: Profile,
    entry: &Entry<'_>,
    address: LongAd,
    path: Path,
    hidden: bool,
    standing: Standing,
) -> Node
    ensures { (above : List Icb) → result ≡ told profile (end_at address path above hidden) (entry_of entry.now) standing }
{
    Node {
        path,
        icb: address,
        kind: kind_by(profile, entry.kind()),
        size: Some(entry.size()),
        stamp: Some(entry.stamp()),
        hidden,
        standing,
    }
}

/// What is at the end of a route: the node is without the blocks and the holes, and not yet settled.
#[tactic(auto, unfolding(crate::specs::Unsettled::unsettled, crate::specs::Routes::entries_below))]
pub(crate) fn visited<L: Ledger, B: BlockStore>(
    alloc: Global,
    view: StoreView<'_, B>,
    address: LongAd,
    path: Path,
    above: &[LbAddr],
    hidden: bool,
    most: usize,
    memo: &mut Memo,
    walks: &mut Walks<L>,
) -> Result<Visit, NodesGaveUp>
    requires { B.tells → IsMemo (view_by B.states view) memo.old }
    ensures node { IfOk result (λ visit. B.tells → visit.node ≡ unsettled (view_by B.states view.entry) (end_at address path above.now hidden)) }
    ensures entries { IfOk result (λ visit. B.tells → AreListed visit.entries (entries_below (view_by B.states view.entry) (end_at address path above.now hidden))) }
    ensures few { IfOk result (λ visit. count_listed visit.entries ≤ most) }
    ensures memo { IfOk result (λ visit. B.tells → IsMemo (view_by B.states view.entry) memo.new) }
    ensures once { walks.new ≤ walks.old + 1 }
    ensures counted { IfOk result (λ visit. (start : ℕ) (icbs : List ℕ) → Contains icbs (number_of (icb_of address))
        → IsCounted start icbs memo.old walks.old → IsCounted start icbs memo.new walks.new) }
    ensures refused { IfErr result (λ e. B.tells → IfTold (AreRefused most (entries_below (view_by B.states view.entry) (end_at address path above.now hidden))) e) }
    ensures fails { IsErrOf result NodesGaveUp.Unread → B.fails }
{
    let mut room = [0; 2048];
    match target_at(view, address, &mut room)? {
        Target::Fault(fault) => Ok(Visit {
            node: unread(address, path, hidden, Standing::Fault(fault)),
            entries: None,
        }),
        Target::Unread(_) => Ok(Visit {
            node: unread(address, path, hidden, Standing::Torn(no_lists(alloc))),
            entries: None,
        }),
        Target::Entry(entry) => {
            let icb = address.address();
            let is_loop = is_loop(icb, above);
            let is_deep = path.len() >= MOST_NAMES;
            let profile = view.space.profile();
            let (standing, entries) = entry_told(
                alloc, view, &entry, icb, is_loop, is_deep, most, memo, walks,
            )?;
            Ok(Visit {
                node: read(profile, &entry, address, path, hidden, standing),
                entries,
            })
        }
    }
}
