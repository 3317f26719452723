//! Laws of the tree, each the contract of a function that does nothing.
ghost use Rattle.udfs_walk.specs.TreeLaws.{CompleteNodes, FewerRoutes, OneFile, OncePerPath, OneReading, PartialNodes, RootInTree, WholeAlike};
ghost use Rattle.udfs_walk.specs.TreeSample.{SampleTree};
ghost use Rattle.udfs_walk.specs.Sound.{SoundIsLawful};

/// Over a complete view with a lawful tree, the nodes are those of the tree, each once and all whole, with the tree's
/// bytes.
pub fn complete_nodes()
    ensures { CompleteNodes }
{}

/// Over a part of a complete view with a lawful tree, each node is one of the tree at its path, with no fault and no
/// loop. Either its entry was not read, or its kind, size and stamp are the tree's, as is each byte outside its holes.
/// What is whole has all its bytes, and of each group of blocks that it needs one is known.
pub fn partial_nodes()
    ensures { PartialNodes }
{}

/// No two nodes of a part of a complete view with a lawful tree have one path.
pub fn once_per_path()
    ensures { OncePerPath }
{}

/// A part has no more routes than the whole: where the tree is lawful, there are never too many paths.
pub fn fewer_routes()
    ensures { FewerRoutes }
{}

/// A path of a lawful tree leads to one file: its fields and its bytes are determined.
pub fn one_file()
    ensures { OneFile }
{}

/// The root of a lawful tree is a file of it, so the tree is not empty.
pub fn root_is_in_tree()
    ensures { RootInTree }
{}

/// The cells of a node are determined by the view and the node's place in the list.
pub fn one_reading()
    ensures { OneReading }
{}

/// Where a node is whole as two files, they have the same kind, size, stamp and bytes: whatever is whole as the one is whole
/// as the other.
pub fn whole_alike()
    ensures { WholeAlike }
{}

/// A tree of the sample volumes' nodes is lawful, in any view, and has their files below its root: so there are lawful trees.
pub fn sample_tree_is_lawful()
    ensures { SampleTree }
{}

/// Over a complete view whose places are in its partitions, a tree is sound exactly if it is lawful. Soundness uses the standard's
/// reading alone: each path leads to a file, the body of each directory is a list of descriptors of at most 2048 bytes, no directory
/// is inside itself, names in a directory differ, and there are at most 64 names in a path and 65,536 paths. A tree is lawful if all
/// nodes are whole, names in a directory differ, and at most 65,536 routes lead anywhere.
pub fn sound_is_lawful()
    ensures { SoundIsLawful }
{}
