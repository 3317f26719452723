//! What is reported of nodes, and of entries that no name leads to.

use crate::paths::Path;
use crate::standings::Standing;
use crate::targets::entry_address;
use std::alloc::AllocError;
use std::error::Error;
use std::fmt;
use std::marker::Model;
use udfs_file::Kind;
use udfs_lattice::{GaveUp, ReadFault};
use udfs_osta::Stamp;
use udfs_tag::{LbAddr, LongAd};

/// What is reported of a node: of what is at the end of one route from the root. Two equal names in a directory are
/// two nodes, and so is every path to a file that has several.
#[derive(Debug, Drop)]
pub struct Node {
    /// The names on the way from the root, whose own path is empty.
    pub path: Path,
    /// The recorded address of its information control block.
    pub icb: LongAd,
    /// Its kind, by the rules by which the volume is read: by the wide ones the file types 0 and 249 are files too.
    pub kind: Kind,
    /// Its information length, if its entry is read.
    pub size: Option<u64>,
    /// The time of its last change, if its entry is read.
    pub stamp: Option<Stamp>,
    /// Whether its name is marked as hidden.
    pub hidden: bool,
    /// How whole it is.
    pub standing: Standing,
}

impl Model for Node {
    ghost use Rattle.udfs_walk.specs.NodeFields.{NodeFields};

    ghost Value = { NodeFields };

    ghost view = { λ n. record {
      path = n.path;
      icb = n.icb;
      kind = n.kind;
      size = n.size;
      stamp = n.stamp;
      hidden = n.hidden;
      standing = n.standing;
    } };
}

/// An entry that no name leads to.
#[derive(Debug, Drop)]
pub struct Unnamed {
    /// The partition reference.
    pub reference: u16,
    /// The logical block that holds it.
    pub block: u32,
    /// Its kind, by the same rules as a node's.
    pub kind: Kind,
    /// Its information length.
    pub size: u64,
    /// The time of its last change.
    pub stamp: Stamp,
    /// How whole it is.
    pub standing: Standing,
}

impl Unnamed {
    ghost use Rattle.std.specs.Prelude.{◌≡◌};
    ghost use Rattle.udfs_walk.specs.Targets.{icb_at};
    ghost use Rattle.udfs_walk.specs.UnnamedEntries.{address_of};

    /// The address of its information control block.
    pub fn address(&self) -> LbAddr
        ensures { result ≡ icb_at self.now.reference self.now.block }
    {
        LbAddr {
            block: self.block,
            reference: self.reference,
        }
    }

    /// Its information control block, as an entry of a directory would name it.
    pub fn icb(&self) -> LongAd
        ensures { result ≡ address_of (icb_at self.now.reference self.now.block) }
    {
        entry_address(self.address())
    }
}

/// Why nodes are not listed.
#[derive(Clone, Copy, Debug, PartialEq, Eq)]
pub enum NodesError {
    /// More than 65,536 routes lead from the root to a node.
    TooManyPaths,
    /// Memory ran out.
    OutOfMemory,
}

impl From<AllocError> for NodesError {
    ghost use Rattle.std.specs.Prelude.{◌≡◌};
    ghost use Rattle.udfs_walk.specs.declared.answers.NodesError.TheVariants as nodes_error;

    ghost from_gives = { λ _ e. e ≡ nodes_error.OutOfMemory };

    fn from(_error: AllocError) -> NodesError {
        NodesError::OutOfMemory
    }
}

impl fmt::Display for NodesError {
    fn fmt<W: fmt::Write>(&self, f: &mut fmt::Formatter<W>) -> fmt::Result {
        f.write_str(match self {
            NodesError::TooManyPaths => "more than 65536 paths",
            NodesError::OutOfMemory => "out of memory",
        })
    }
}

impl Error for NodesError {}

/// Why nodes of a store of blocks are not listed.
#[derive(Clone, Copy, Debug, PartialEq, Eq)]
pub enum NodesGaveUp {
    /// More than 65,536 routes lead from the root to a node.
    TooManyPaths,
    /// Memory ran out.
    OutOfMemory,
    /// The bytes of a known block could not be read.
    Unread,
}

impl From<AllocError> for NodesGaveUp {
    ghost use Rattle.std.specs.Prelude.{◌≡◌};
    ghost use Rattle.udfs_walk.specs.declared.answers.NodesGaveUp.TheVariants as gave_up;

    ghost from_gives = { λ _ e. e ≡ gave_up.OutOfMemory };

    fn from(_error: AllocError) -> NodesGaveUp {
        NodesGaveUp::OutOfMemory
    }
}

impl From<ReadFault> for NodesGaveUp {
    ghost use Rattle.std.specs.Prelude.{◌≡◌};
    ghost use Rattle.udfs_walk.specs.declared.answers.NodesGaveUp.TheVariants as gave_up;

    ghost from_gives = { λ _ e. e ≡ gave_up.Unread };

    fn from(_fault: ReadFault) -> NodesGaveUp {
        NodesGaveUp::Unread
    }
}

impl From<GaveUp> for NodesGaveUp {
    ghost use Rattle.std.specs.Prelude.{◌≡◌};
    ghost use Rattle.udfs_walk.specs.GivingUp.{nodes_gave_up};

    ghost from_gives = { λ why e. e ≡ nodes_gave_up why };

    fn from(why: GaveUp) -> NodesGaveUp {
        match why {
            GaveUp::OutOfMemory => NodesGaveUp::OutOfMemory,
            GaveUp::Unread => NodesGaveUp::Unread,
        }
    }
}
