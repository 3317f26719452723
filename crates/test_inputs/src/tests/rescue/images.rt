//! The image of a table.

use crate::tests::assert_case;
use std::test::Fail;
use udfs_lattice::{BlockTable, Fact};
use udfs_reading::Writer;
use udfs_rescue::write_image;

/// The byte at the front and the one at the end of a block of the image.
fn ends(image: &[u8], block: usize) -> (u8, u8) {
    let front = block.saturating_mul(2048);
    match image.get(front..front.saturating_add(2048)) {
        Some([first, .., last]) => (*first, *last),
        _ => (255, 255),
    }
}

#[test]
fn an_image_of_all_states(rt: HostRuntime) -> Result<(), Fail> {
    let mut table = BlockTable::new(rt.alloc());
    static CASES: [(u32, u8); 5] = [(1, 1), (2, 2), (4, 4), (299, 43), (300, 44)];
    for &(n, byte) in &CASES {
        table.put(n, &[byte; 2048])?;
    }
    table.add(2, Fact::Conflict)?;
    table.add(3, Fact::Conflict)?;
    let mut sink = Writer::new(Vec::new(rt.alloc()));
    assert!(rt; write_image(&table, 299, &mut sink).is_ok());
    let image = sink.into_inner();
    assert!(rt; image.len() == 614_400);
    static ENDS: [(usize, u8); 8] = [
        (0, 0),
        (1, 1),
        (2, 0),
        (3, 0),
        (4, 4),
        (5, 0),
        (298, 0),
        (299, 43),
    ];
    for &(block, byte) in &ENDS {
        assert_case(&rt, ends(&image, block) == (byte, byte), block);
    }
    Ok(())
}
