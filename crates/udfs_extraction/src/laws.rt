//! Laws of what `extract` writes, each the contract of a function that does nothing.
ghost use Rattle.udfs_extraction.specs.Laws.{LostTreesAreTheVolumes, LostTreesAreWalked, ReportsAreWalked};

/// What is told of a lost tree that is written is told of the nodes of the walk from its folder, or from its file.
pub fn lost_trees_are_walked()
    ensures { LostTreesAreWalked }
{}

/// Where a lost tree that is written is that of a directory of a lawful volume, each of its nodes is the node of the volume's tree at the directory's path and then its
/// own, and what is whole has the tree's kind, size, time and bytes; back, what is below the directory's path and has its blocks is whole in the lost tree.
pub fn lost_trees_are_the_volumes()
    ensures { LostTreesAreTheVolumes }
{}

/// The nodes of a report are those from the root of its volume: what is said of the files of nodes from some root is said of the files of a report's nodes.
pub fn reports_are_walked()
    ensures { ReportsAreWalked }
{}
