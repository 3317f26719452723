//! A listing of the volume of type 1, and the bytes of a torn node.

use super::extraction::runs;
use crate::tests::assert_same;
use std::test::Fail;
use udfs_reading::{Outgoing, Writer};
use udfs_salvage::{ExtractError, Fill, list_volume_by, reread_blocks, write_node};
use udfs_samples::{Disc, LAST};
use udfs_volume::Profile;
use udfs_walk::Standing;

/// Block 278 is not read: the file is torn, and it is not kept of which block.
#[test]
fn a_torn_node_is_filled_only_where_asked(rt: HostRuntime) -> Result<(), Fail> {
    let alloc = rt.alloc();
    let table = Disc::type1(alloc)?.known_but(alloc, &[278])?;
    let listing = list_volume_by(alloc, &table, LAST, Profile::Strict)?;
    assert_eq!(rt; listing.nodes.len(), 3);
    assert!(rt;
        matches!(&listing.nodes[1].standing, Standing::Torn(torn) if torn.missing.is_empty())
    );
    assert_same(
        &rt,
        reread_blocks(alloc, &listing)?.as_slice(),
        [278].as_slice(),
    );
    assert!(rt; !listing.all_whole());
    let mut out = Outgoing::new();
    let mut none = Writer::new(Vec::new(alloc));
    let refused = write_node(alloc, &listing, 1, Fill::Refuse, &mut out, &mut none);
    assert!(rt; refused == Err(ExtractError::NotWhole));
    assert!(rt; none.into_inner().is_empty());
    let mut out = Outgoing::new();
    let mut filled = Writer::new(Vec::new(alloc));
    write_node(alloc, &listing, 1, Fill::Byte(0xEE), &mut out, &mut filled)?;
    let expected = runs(alloc, &[(0x61, 2048), (0xEE, 2048), (0x63, 904)])?;
    assert_same(&rt, filled.into_inner().as_slice(), expected.as_slice());
    Ok(())
}
