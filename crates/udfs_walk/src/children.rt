//! The entries of a directory, which all routes through it share.

ghost use Rattle.std.specs.Prelude.{◌≡◌, IfOk};
ghost use Rattle.udfs_walk.specs.Visits.{AreListed};

use std::alloc::{AllocError, Global};
use std::marker::Model;
use std::rc::Rc;
use udfs_file::{DirEntry, Marks};
use udfs_osta::Name;
use udfs_tag::LongAd;

/// An entry of a directory, with a name for all paths in which it is the last one.
#[derive(Drop)]
pub(crate) struct Child {
    pub(crate) name: Rc<Name>,
    pub(crate) icb: LongAd,
    pub(crate) marks: Marks,
}

impl Model for Child {
    ghost use Rattle.udfs_file.specs.declared.directories.DirEntry.{DirEntry};

    ghost Value = { DirEntry };

    ghost view = { λ c. record { name = c.name.value; icb = c.icb; marks = c.marks } };
}

/// The entries of a directory, for all routes through it.
pub(crate) type Children = Rc<Vec<Child>>;

/// An entry whose name can be shared.
fn shared_entry(alloc: Global, entry: DirEntry) -> Result<Child, AllocError>
    ensures { IfOk result (λ child. child ≡ entry) }
{
    let DirEntry { name, icb, marks } = entry;
    let name = Rc::new(alloc, name)?;
    Ok(Child { name, icb, marks })
}

/// Entries that can be shared, if there are any: none take no memory.
pub(crate) fn shared_entries(
    alloc: Global,
    entries: Vec<DirEntry>,
) -> Result<Option<Children>, AllocError>
    ensures { IfOk result (λ children. AreListed children entries.items) }
{
    if entries.is_empty() {
        return Ok(None);
    }
    let mut children = Vec::with_capacity(alloc, entries.len())?;
    for entry in entries {
        let child = shared_entry(alloc, entry)?;
        children.push_reserved(child);
    }
    let children = Rc::new(alloc, children)?;
    Ok(Some(children))
}
