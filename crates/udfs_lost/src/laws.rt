//! Laws of lost trees, each the contract of a function that does nothing.
ghost use Rattle.udfs_lost.specs.FoundNames.{BareNamesWillDo};
ghost use Rattle.udfs_lost.specs.LostFiles.{BareEntriesWillDo};
ghost use Rattle.udfs_lost.specs.Subtrees.{LostTreesFit, LostTreesReach, LostTreesTell, NeededBelow, SubtreeIsBelow, SubtreeIsLawful};

/// The tree from a directory of a lawful tree is lawful.
pub fn subtree_is_lawful()
    ensures { SubtreeIsLawful }
{}

/// A file is in the tree from a directory of a lawful tree exactly if it is in that tree at the directory's path and then its
/// own.
pub fn subtree_is_below()
    ensures { SubtreeIsBelow }
{}

/// Each group of blocks that a node needs from such a directory on is one that it needs in the whole tree.
pub fn needed_below()
    ensures { NeededBelow }
{}

/// Where a directory of a lawful volume is read by itself, each of its nodes is the node of the volume's tree at the directory's
/// path and then its own. What is whole has the tree's kind, size, time and bytes, and of each group of blocks that it needs from
/// the directory on one is known. Back, what is below the directory's path and has such blocks is whole.
pub fn lost_trees_tell()
    ensures { LostTreesTell }
{}

/// From a directory of a lawful volume no more routes lead than a tree may have.
pub fn lost_trees_fit()
    ensures { LostTreesFit }
{}

/// What names lead to from a directory of a lawful volume, as far as they are known, is a node of its lost tree. So each lost
/// folder of such a volume is in the tree of a root.
pub fn lost_trees_reach()
    ensures { LostTreesReach }
{}

/// Of entries without their blocks and holes, as `bare_unnamed` of `udfs_walk` lists them, the same ones are lost folders and
/// lost files.
pub fn bare_entries_will_do()
    ensures { BareEntriesWillDo }
{}

/// Of nodes and entries without their blocks and holes the same names are found behind holes.
pub fn bare_names_will_do()
    ensures { BareNamesWillDo }
{}
