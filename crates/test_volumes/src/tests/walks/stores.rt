//! Volumes of a store that copies a block each time it is asked for, as one of files does, and whose reads may fail.

ghost use Rattle.udfs_lattice.specs.Tables.{state_of};

use super::told::{rooted, told_by};
use crate::tests::assert_text_in;
use std::alloc::Global;
use std::test::Fail;
use udfs_lattice::{BlockStore, BlockTable, Fact, ReadFault};
use udfs_samples::Disc;
use udfs_space::StoreView;
use udfs_walk::answers::NodesGaveUp;

/// A table that lends no block from its own memory, and of which one block can not be read.
#[derive(Drop)]
struct Copied<'a> {
    table: &'a BlockTable,
    broken: u32,
}

impl<'a> BlockStore for Copied<'a> {
    ghost tells = { Unit {0} };

    ghost states = { λ s n. state_of s.table.now n };

    ghost fails = { Unit {0} };

    fn knowledge(&self, n: u32) -> Fact<()> {
        self.table.knowledge(n)
    }

    fn unknown_ahead(&self, n: u32) -> u32 {
        self.table.unknown_ahead(n)
    }

    fn read(&self, n: u32) -> Result<Fact<[u8; 2048]>, ReadFault> {
        if n == self.broken {
            return Err(ReadFault);
        }
        Ok(self.table.state(n).copied())
    }

    fn lend<'s>(
        &'s self,
        n: u32,
        room: &'s mut [u8; 2048],
    ) -> Result<Fact<&'s [u8; 2048]>, ReadFault> {
        if n == self.broken {
            return Err(ReadFault);
        }
        match self.table.state(n) {
            Fact::Unknown => Ok(Fact::Unknown),
            Fact::Conflict => Ok(Fact::Conflict),
            Fact::Known(bytes) => {
                *room = *bytes;
                Ok(Fact::Known(room))
            }
        }
    }
}

/// What is reported of a whole volume.
const WHOLE: &str =
    "whole directory 120 2001-07-04T09:30:00.000000Z \nwhole file 5000 2001-07-04T09:30:00.000000Z /A\nwhole file 2 2001-07-04T09:30:00.000000Z /B\n";

/// What is reported where the blocks 277 and 279 of the file A are not known, or block 278.
const WITHOUT_TWO: &str =
    "whole directory 120 2001-07-04T09:30:00.000000Z \ntorn missing 277 missing 279 hole 0 2048 hole 4096 904 file 5000 2001-07-04T09:30:00.000000Z /A\nwhole file 2 2001-07-04T09:30:00.000000Z /B\nreread 277\nreread 279\n";

const WITHOUT_278: &str =
    "whole directory 120 2001-07-04T09:30:00.000000Z \ntorn missing 278 hole 2048 2048 file 5000 2001-07-04T09:30:00.000000Z /A\nwhole file 2 2001-07-04T09:30:00.000000Z /B\nreread 278\n";

/// The blocks that are not known, the one that can not be read, whether entries that no name leads to are asked for, and what is reported.
type Row = (&'static [u32], u32, bool, &'static str);

static ROWS: [Row; 18] = [
    // blocks that are copied tell the same as blocks that are lent
    (
        &[275, 277, 278, 279],
        u32::MAX,
        true,
        "whole directory 120 2001-07-04T09:30:00.000000Z \ntorn missing 275 unread /A\nwhole file 2 2001-07-04T09:30:00.000000Z /B\nreread 275\n",
    ),
    (&[278], u32::MAX, true, WITHOUT_278),
    (&[279, 277], u32::MAX, true, WITHOUT_TWO),
    (
        &[274],
        u32::MAX,
        true,
        "torn missing 274 hole 0 120 directory 120 2001-07-04T09:30:00.000000Z \nunnamed 0:3 whole file 5000 2001-07-04T09:30:00.000000Z\nunnamed 0:4 whole file 2 2001-07-04T09:30:00.000000Z\nreread 274\n",
    ),
    // a block that can not be read is told as such, and not as one that is not known: the entry of the root, what it lists, and the
    // entries that this names
    (&[], 0, true, WHOLE),
    (&[], 273, true, "unread"),
    (&[], 274, true, "unread"),
    (&[], 275, true, "unread"),
    (&[], 276, true, "unread"),
    // how whole a file is, is told without its bytes: blocks of the file A that can not be read change nothing
    (&[], 277, false, WHOLE),
    (&[], 278, false, WHOLE),
    (&[], 279, false, WHOLE),
    (&[278], 277, false, WITHOUT_278),
    (&[278], 278, false, WITHOUT_278),
    (&[278], 279, false, WITHOUT_278),
    (&[279, 277], 277, false, WITHOUT_TWO),
    (&[279, 277], 278, false, WITHOUT_TWO),
    (&[279, 277], 279, false, WITHOUT_TWO),
];

/// What is reported of a table's volume where one block can not be read.
fn told(
    alloc: Global,
    table: &BlockTable,
    broken: u32,
    with_entries: bool,
) -> Result<String, Fail> {
    let (space, root) = rooted(alloc, table).ok_or("no root")?;
    let view = StoreView {
        blocks: &Copied { table, broken },
        space: &space,
    };
    match told_by(alloc, view, root, with_entries) {
        Ok(text) => Ok(text),
        Err(NodesGaveUp::Unread) => Ok(format!(in alloc; "unread")?),
        Err(_) => Ok(format!(in alloc; "no report")?),
    }
}

#[test]
fn copied_blocks(rt: HostRuntime) -> Result<(), Fail> {
    let alloc = rt.alloc();
    for (i, &(unread, broken, with_entries, expected)) in ROWS.iter().enumerate() {
        let table = Disc::type1(alloc)?.known_but(alloc, unread)?;
        let text = told(alloc, &table, broken, with_entries)?;
        assert_text_in(&rt, text, expected, i);
    }
    Ok(())
}
