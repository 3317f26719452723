//! Laws of what is known enough, and of what is missing, each the contract of a function that does nothing.

ghost use Rattle.udfs_walk.specs.KnownLaws.{ChosenIsWanted, MetIsWhole, MissingIsWanted};

/// Over a part of a complete view with a lawful tree, a node of the tree is listed whole, with the tree's bytes, where of
/// each group of blocks that it needs one is known.
pub fn met_is_whole()
    ensures { MetIsWhole }
{}

/// None of the blocks that are missing in the nodes is known, and each is needed for a node of the tree. Each node of the
/// tree is listed whole, or the missing blocks include all of a group that it needs and of which no block is known. So no
/// block is missing exactly if all of the tree is listed whole.
pub fn missing_is_wanted()
    ensures { MissingIsWanted }
{}

/// The same of the nodes at some paths, where with each path all above it are chosen: the blocks that are missing in chosen nodes are needed for them,
/// and none is missing exactly if all chosen nodes of the tree are listed whole.
pub fn chosen_is_wanted()
    ensures { ChosenIsWanted }
{}
