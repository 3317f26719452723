//! Laws of the walk over all routes, each the contract of a function that does nothing.
ghost use Rattle.udfs_walk.specs.Laws.{MoreRoutes, NoMoreRoutes, NodeCells, OnlyWalk, PathsHaveParts, RoutesStandOnce, SomeWalk};
ghost use Rattle.udfs_walk.specs.Kinds.{KindsByRules};
ghost use Rattle.udfs_walk.specs.Sample.{HaveSampleNodes};

/// Every volume has a walk: at most 64 names lead anywhere.
pub fn some_walk()
    ensures { SomeWalk }
{}

/// There is only one walk, so the nodes listed are determined, and their order.
pub fn only_walk()
    ensures { OnlyWalk }
{}

/// Where the walk has at most `count` ends, no more than `count` routes lead anywhere. So, unless memory runs out, listing the
/// nodes fails with `TooManyPaths` exactly where more than 65,536 routes do.
pub fn no_more_routes()
    ensures { NoMoreRoutes }
{}

/// Where the walk has more than `count` ends, more than `count` routes lead anywhere.
pub fn more_routes()
    ensures { MoreRoutes }
{}

/// Among routes in lexicographic order each occurs once, so an index in the list of nodes is one route.
pub fn routes_stand_once()
    ensures { RoutesStandOnce }
{}

/// Each part of a node's path, in its escaped form, is a valid path component: it is not empty, not `.` or `..`, and has no `/` and
/// no control character.
pub fn paths_have_parts()
    ensures { PathsHaveParts }
{}

/// A listed node that is whole, or torn and of known size, has the address at the end of the route with the same index. An entry
/// without a fault is known there, whose body has cells.
pub fn node_has_cells()
    ensures { NodeCells }
{}

/// By the strict rules an entry is what its file type says. By the wide ones the types 0 and 249 are files too, and no other.
pub fn kinds_go_by_the_rules()
    ensures { KindsByRules }
{}

/// In each sample volume the root and the files A and B are whole nodes, and nothing else is reached.
pub fn sample_nodes_are_whole()
    ensures { HaveSampleNodes }
{}
