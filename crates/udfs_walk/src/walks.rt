//! The walk over all routes, in lexicographic order.

ghost use Rattle.std.specs.Prelude.{◌≡◌, ◌+◌, ◌≤◌, ◌∷◌, ℕ, List, [], ◌++◌, IfErr, IfOk, IsErrOf, MatchOption, MatchResult, length, map, Contains};
ghost use Rattle.udfs_lattice.specs.Tables.{state_of};
ghost use Rattle.udfs_space.specs.Places.{view};
ghost use Rattle.udfs_space.specs.Views.{view_by, view_now};
ghost use Rattle.udfs_walk.specs.Bare.{full_node};
ghost use Rattle.udfs_walk.specs.Counting.{IsCounted, IsWithinTaken, KeepsCount, icb_key, icbs_of};
ghost use Rattle.udfs_walk.specs.GivingUp.{IfTold};
ghost use Rattle.udfs_walk.specs.Memos.{IsMemo};
ghost use Rattle.udfs_walk.specs.Unsettled.{AreUnsettled, unsettled};
ghost use Rattle.udfs_walk.specs.Visits.{AreRefused, end_at};
ghost use Rattle.udfs_walk.specs.Walks.{AreNodes, IsNodesRefused};
ghost use Rattle.udfs_walk.specs.Routes.{entries_below};
ghost use Rattle.udfs_walk.specs.Frames.{IsFrameOf, IsOneFewer, IsStepRefused, IsEntryTaken, count_left, frame_at, frames_with};

use crate::answers::{Node, NodesError, NodesGaveUp};
use crate::bare::full_nodes;
use crate::children::Children;
use crate::counting::Walks;
use crate::memos::Memo;
use crate::paths::{Names, Path};
use crate::settling::settled_nodes;
use crate::visits::{Visit, visited};
use bitflags::Flags;
use std::alloc::{AllocError, Global};
use std::marker::{Brand, Model};
use std::sync::ledger::{Blank, Ledger};
use udfs_file::Marks;
use udfs_lattice::{BlockStore, BlockTable};
use udfs_space::{Space, StoreView, View};
use udfs_tag::{LbAddr, LongAd};

/// The nodes that a volume may have.
const MOST_NODES: usize = 65_536;

/// A directory of which some entries may be left.
#[derive(Drop)]
struct Frame {
    /// The names that lead to it.
    names: Names,
    /// The ICBs of the directories on the way, its own among them.
    above: Vec<LbAddr>,
    /// Its entries.
    entries: Children,
    /// How many of them were gone into.
    passed: usize,
}

impl Model for Frame {
    ghost use Rattle.std.specs.Prelude.{drop};
    ghost use Rattle.udfs_walk.specs.Frames.{FrameFields};
    ghost use Rattle.udfs_walk.specs.Paths.{shared};

    ghost Value = { FrameFields };

    ghost view = { λ f. record { path = shared f.names.value.items; above = f.above.items; left = drop f.passed f.entries.value.items } };
}

/// The ICBs above a directory, and its own.
fn with_icb(alloc: Global, above: &[LbAddr], address: LbAddr) -> Result<Vec<LbAddr>, AllocError>
    ensures { IfOk result (λ icbs. icbs.items ≡ above.now ++ address ∷ []) }
{
    let mut icbs = Vec::with_capacity(alloc, above.len() + 1)?;
    icbs.extend_from_slice(above)?;
    icbs.push(address)?;
    Ok(icbs)
}

impl Frame {
    /// Enters the end of a route: returns its node, not yet settled, and itself as a directory, where a route goes on.
    fn enter<L: Ledger, B: BlockStore>(
        alloc: Global,
        view: StoreView<'_, B>,
        address: LongAd,
        path: Path,
        above: &[LbAddr],
        hidden: bool,
        most: usize,
        memo: &mut Memo,
        walks: &mut Walks<L>,
    ) -> Result<(Node, Option<Frame>), NodesGaveUp>
        requires { B.tells → IsMemo (view_by B.states view) memo.old }
        ensures node { IfOk result (λ entered. B.tells → entered.0 ≡ unsettled (view_by B.states view.entry) (end_at address path above.now hidden)) }
        ensures frame { IfOk result (λ entered. B.tells → IsFrameOf entered.1 (frame_at (view_by B.states view.entry) (end_at address path above.now hidden))) }
        ensures few { IfOk result (λ entered. count_left entered.1 ≤ most) }
        ensures memo { IfOk result (λ entered. B.tells → IsMemo (view_by B.states view.entry) memo.new) }
        ensures once { walks.new ≤ walks.old + 1 }
        ensures counted { IfOk result (λ entered. B.tells → (start : ℕ) (icbs : List ℕ) → Contains icbs (icb_key entered.0)
            → IsCounted start icbs memo.old walks.old → IsCounted start icbs memo.new walks.new) }
        ensures refused { IfErr result (λ e. B.tells → IfTold (AreRefused most (entries_below (view_by B.states view.entry) (end_at address path above.now hidden))) e) }
        ensures fails { IsErrOf result NodesGaveUp.Unread → B.fails }
    {
        let Visit { node, entries } = visited(
            alloc, view, address, path, above, hidden, most, memo, walks,
        )?;
        let Some(entries) = entries else {
            return Ok((node, None));
        };
        let frame = Frame {
            names: node.path.names(alloc)?,
            above: with_icb(alloc, above, address.address())?,
            entries,
            passed: 0,
        };
        Ok((node, Some(frame)))
    }

    /// Goes into the next entry, if one is left.
    fn step<L: Ledger, B: BlockStore>(
        &mut self,
        alloc: Global,
        view: StoreView<'_, B>,
        most: usize,
        memo: &mut Memo,
        walks: &mut Walks<L>,
    ) -> Result<Option<(Node, Option<Frame>)>, NodesGaveUp>
        requires { B.tells → IsMemo (view_by B.states view) memo.old }
        ensures taken { IfOk result (λ taken. B.tells → IsEntryTaken (view_by B.states view.entry) self.old taken self.new) }
        ensures few { IfOk result (λ taken. MatchOption taken (Unit {0}) (λ entered. count_left entered.1 ≤ most)) }
        ensures memo { IfOk result (λ taken. B.tells → IsMemo (view_by B.states view.entry) memo.new) }
        ensures once { walks.new ≤ walks.old + 1 }
        ensures idle { self.old.left ≡ [] → walks.new ≡ walks.old }
        ensures one { IfOk result (λ taken. IsOneFewer (length self.old.left) taken (length self.new.left)) }
        ensures counted { IfOk result (λ taken. B.tells → (start : ℕ) (icbs : List ℕ) → IsWithinTaken icbs taken
            → IsCounted start icbs memo.old walks.old → IsCounted start icbs memo.new walks.new) }
        ensures refused { IfErr result (λ e. B.tells → IfTold (IsStepRefused (view_by B.states view.entry) most self.old) e) }
        ensures fails { IsErrOf result NodesGaveUp.Unread → B.fails }
    {
        let Some(entry) = self.entries.get(self.passed) else {
            return Ok(None);
        };
        self.passed += 1;
        let path = Path::inside(&self.names, entry.name.clone()?)?;
        let hidden = entry.marks.contains(Marks::HIDDEN);
        let entered = Frame::enter(
            alloc,
            view,
            entry.icb,
            path,
            &self.above,
            hidden,
            most,
            memo,
            walks,
        )?;
        Ok(Some(entered))
    }
}

/// Appends a directory, if there is one.
fn keep(frames: &mut Vec<Frame>, frame: Option<Frame>) -> Result<(), AllocError>
    ensures kept { IfOk result (λ done. frames.new.items ≡ frames_with frames.old.items frame) }
    ensures most { IfOk result (λ done. length frames.new.items ≤ length frames.old.items + 1) }
{
    if let Some(frame) = frame {
        frames.push(frame)?;
    }
    Ok(())
}

/// How many entries are left in a directory, if there is one.
fn count_left(frame: &Option<Frame>) -> usize
    ensures { result ≡ count_left frame.now }
{
    match frame {
        Some(frame) => frame.entries.len().saturating_sub(frame.passed),
        None => 0,
    }
}

/// Appends a node.
fn put(nodes: &mut Vec<Node>, node: Node) -> Result<(), AllocError>
    ensures { IfOk result (λ done. nodes.new.items ≡ nodes.old.items ++ node ∷ []) }
{
    nodes.push(node)?;
    Ok(())
}

/// The nodes of a volume, in lexicographic order of their routes: the root, and after each directory its entries in their
/// order, each followed by all that is below it. The root's address is the one that the file set names.
///
/// An entry that is a directory on its own path is a loop, and is not entered; nor is a directory with 64 names in
/// its path. The walk reads the body of an entry at most once, however many routes lead there; the body of a torn node
/// is then read again for its blocks and holes.
///
/// # Errors
///
/// [`NodesError::TooManyPaths`] where more than 65,536 routes lead from the root to a node, unless memory runs out before,
/// and [`NodesError::OutOfMemory`] where memory runs out.
pub fn nodes(
    alloc: Global,
    table: &BlockTable,
    space: &Space,
    root: LongAd,
) -> Result<Vec<Node>, NodesError>
    ensures { MatchResult result (λ found. AreNodes (view (state_of table.now) space.now) root found.items)
        (IsNodesRefused (view (state_of table.now) space.now) root) }
{
    let view = View { table, space };
    let bare = bare_nodes(alloc, view, root)?;
    let full = full_nodes(alloc, view, bare)?;
    Ok(full)
}

/// The nodes of a volume as [`nodes`] lists them, but a torn one without its blocks and holes, which
/// [`full_standing`](crate::full_standing) finds again: so no more of these lists than one node's is held at a time.
///
/// # Errors
///
/// As those of [`nodes`].
pub fn bare_nodes(alloc: Global, view: View<'_>, root: LongAd) -> Result<Vec<Node>, NodesError>
    ensures { MatchResult result (λ found. AreNodes (view_now view.entry) root (map (full_node (view_now view.entry)) found.items))
        (IsNodesRefused (view_now view.entry) root) }
{
    let stored = StoreView {
        blocks: view.table,
        space: view.space,
    };
    match bare_nodes_by(alloc, stored, root) {
        Ok(found) => Ok(found),
        Err(NodesGaveUp::TooManyPaths) => Err(NodesError::TooManyPaths),
        Err(NodesGaveUp::OutOfMemory) => Err(NodesError::OutOfMemory),
        Err(NodesGaveUp::Unread) => unreachable!(),
    }
}

/// The same as [`bare_nodes`], by any store of blocks.
///
/// # Errors
///
/// As those of [`nodes`], and `Unread` where the bytes of a known block could not be read.
pub fn bare_nodes_by<B: BlockStore>(
    alloc: Global,
    view: StoreView<'_, B>,
    root: LongAd,
) -> Result<Vec<Node>, NodesGaveUp>
    ensures value { B.tells → MatchResult result (λ found. AreNodes (view_by B.states view.entry) root (map (full_node (view_by B.states view.entry)) found.items))
        (IfTold (IsNodesRefused (view_by B.states view.entry) root)) }
    ensures fails { IsErrOf result NodesGaveUp.Unread → B.fails }
{
    let found = begun_nodes::<Brand, B>(alloc, view, root, Blank::new(1));
    found
}

/// The nodes as [`counted_nodes`] lists them, over a count that begins.
fn begun_nodes<L: Ledger, B: BlockStore>(
    alloc: Global,
    view: StoreView<'_, B>,
    root: LongAd,
    blank: Blank,
) -> Result<Vec<Node>, NodesGaveUp>
    requires name { blank.name ≡ L.name }
    requires parts { blank.parts ≡ L.parts }
    requires one { blank.parts ≡ 1 }
    ensures value { B.tells → MatchResult result (λ found. AreNodes (view_by B.states view.entry) root (map (full_node (view_by B.states view.entry)) found.items))
        (IfTold (IsNodesRefused (view_by B.states view.entry) root)) }
    ensures fails { IsErrOf result NodesGaveUp.Unread → B.fails }
{
    let mut walks = Walks::<L>::none(blank);
    let found = counted_nodes_by(alloc, view, root, &mut walks);
    found
}

/// The nodes at the ends of all routes from a root, not yet settled. What is found of their bodies is kept: no body of which
/// something is kept is walked over.
pub(crate) fn unsettled_nodes<L: Ledger, B: BlockStore>(
    alloc: Global,
    view: StoreView<'_, B>,
    root: LongAd,
    memo: &mut Memo,
    walks: &mut Walks<L>,
) -> Result<Vec<Node>, NodesGaveUp>
    requires { B.tells → IsMemo (view_by B.states view) memo.old }
    ensures nodes { B.tells → MatchResult result (λ found. AreUnsettled (view_by B.states view.entry) root found.items)
        (IfTold (IsNodesRefused (view_by B.states view.entry) root)) }
    ensures memo { IfOk result (λ found. B.tells → IsMemo (view_by B.states view.entry) memo.new) }
    ensures counted { IfOk result (λ found. B.tells → KeepsCount (map icb_key found.items) memo.old walks.old memo.new walks.new) }
    ensures few { walks.new ≤ walks.old + 65536 }
    ensures fails { IsErrOf result NodesGaveUp.Unread → B.fails }
{
    let path = Path::root(alloc)?;
    // `room` more nodes may still be found, besides those that were and the entries that are left.
    let mut room: usize = MOST_NODES - 1;
    let (node, frame) = Frame::enter(alloc, view, root, path, &[], false, room, memo, walks)?;
    room -= count_left(&frame);
    let mut nodes = Vec::new(alloc);
    put(&mut nodes, node)?;
    let mut frames = Vec::new(alloc);
    keep(&mut frames, frame)?;
    'walk: while let Some(mut frame) = frames.pop() {
        let (node, below) = match frame.step(alloc, view, room, memo, walks)? {
            None => continue,
            Some(taken) => taken,
        };
        room -= count_left(&below);
        put(&mut nodes, node)?;
        keep(&mut frames, Some(frame))?;
        keep(&mut frames, below)?;
    }
    Ok(nodes)
}

/// The same as [`counted_nodes`], by any store of blocks.
///
/// # Errors
///
/// As those of [`nodes`], and `Unread` where the bytes of a known block could not be read.
pub fn counted_nodes_by<L: Ledger, B: BlockStore>(
    alloc: Global,
    view: StoreView<'_, B>,
    root: LongAd,
    walks: &mut Walks<L>,
) -> Result<Vec<Node>, NodesGaveUp>
    ensures nodes { B.tells → MatchResult result (λ found. AreNodes (view_by B.states view.entry) root (map (full_node (view_by B.states view.entry)) found.items))
        (IfTold (IsNodesRefused (view_by B.states view.entry) root)) }
    ensures once { IfOk result (λ found. B.tells → walks.new ≤ walks.old + length (icbs_of found.items)) }
    ensures few { B.tells → walks.new ≤ walks.old + 65536 }
    ensures fails { IsErrOf result NodesGaveUp.Unread → B.fails }
{
    let mut memo = Memo::new(alloc);
    let found = unsettled_nodes(alloc, view, root, &mut memo, walks)?;
    let nodes = settled_nodes(alloc, view, found, &mut memo, walks)?;
    Ok(nodes)
}

/// The nodes as [`bare_nodes`] lists them, with a count of the walks over bodies that this takes: at most one for each
/// information control block, however many routes lead there, and never more than 65,536.
///
/// # Errors
///
/// As those of [`nodes`].
pub fn counted_nodes<L: Ledger>(
    alloc: Global,
    view: View<'_>,
    root: LongAd,
    walks: &mut Walks<L>,
) -> Result<Vec<Node>, NodesError>
    ensures nodes { MatchResult result (λ found. AreNodes (view_now view.entry) root (map (full_node (view_now view.entry)) found.items))
        (IsNodesRefused (view_now view.entry) root) }
    ensures once { IfOk result (λ found. walks.new ≤ walks.old + length (icbs_of found.items)) }
    ensures few { walks.new ≤ walks.old + 65536 }
{
    let stored = StoreView {
        blocks: view.table,
        space: view.space,
    };
    match counted_nodes_by(alloc, stored, root, walks) {
        Ok(found) => Ok(found),
        Err(NodesGaveUp::TooManyPaths) => Err(NodesError::TooManyPaths),
        Err(NodesGaveUp::OutOfMemory) => Err(NodesError::OutOfMemory),
        Err(NodesGaveUp::Unread) => unreachable!(),
    }
}
