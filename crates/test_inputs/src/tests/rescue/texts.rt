//! Mapfiles that are written.

ghost use Rattle.std.specs.Prelude.{ℕ, ◌≤◌, List, Option, None};
ghost use Rattle.std.specs.List.Sorted.{IsNonDecreasing};

use crate::tests::assert_text;
use std::test::Fail;
use udfs_lattice::{BlockTable, Fact};
use udfs_reading::{DeviceFault, Reader, Sink, Writer};
use udfs_rescue::{
    BlockRange, KnownBlocks, MapError, MapFault, Mapfile, write_domain, write_image_map,
};

/// Whether the domain of these blocks has this text.
fn is_domain(rt: HostRuntime, wanted: &[u32], last: u32, text: &[u8]) -> bool
    requires rises { IsNonDecreasing wanted.now }
    requires last { last ≤ 4194303 }
{
    let mut sink = Writer::new(Vec::new(rt.alloc()));
    write_domain(wanted, last, &mut sink).is_ok() && sink.into_inner().as_slice() == text
}

#[test]
fn domains(rt: HostRuntime) -> Result<(), Fail> {
    // No block is wanted.
    assert!(rt;
        is_domain(
            rt,
            &[],
            599,
            b"\
# Mapfile. Created by udfsalvage 0.1.0
# Blocks to read again, for ddrescue -m: not the mapfile of a pass
0x00000000     +               1
0x00000000  0x0012C000  ?
"
        )
    );
    // One.
    assert!(rt;
        is_domain(
            rt,
            &[3],
            599,
            b"\
# Mapfile. Created by udfsalvage 0.1.0
# Blocks to read again, for ddrescue -m: not the mapfile of a pass
0x00000000     +               1
0x00000000  0x00001800  ?
0x00001800  0x00000800  +
0x00002000  0x0012A000  ?
"
        )
    );
    // Two that touch are one run, and two that do not are two.
    assert!(rt;
        is_domain(
            rt,
            &[3, 4, 6],
            599,
            b"\
# Mapfile. Created by udfsalvage 0.1.0
# Blocks to read again, for ddrescue -m: not the mapfile of a pass
0x00000000     +               1
0x00000000  0x00001800  ?
0x00001800  0x00001000  +
0x00002800  0x00000800  ?
0x00003000  0x00000800  +
0x00003800  0x00128800  ?
"
        )
    );
    // The first and the last one.
    assert!(rt;
        is_domain(
            rt,
            &[0, 599],
            599,
            b"\
# Mapfile. Created by udfsalvage 0.1.0
# Blocks to read again, for ddrescue -m: not the mapfile of a pass
0x00000000     +               1
0x00000000  0x00000800  +
0x00000800  0x0012B000  ?
0x0012B800  0x00000800  +
"
        )
    );
    // A volume of one block.
    assert!(rt;
        is_domain(
            rt,
            &[0],
            0,
            b"\
# Mapfile. Created by udfsalvage 0.1.0
# Blocks to read again, for ddrescue -m: not the mapfile of a pass
0x00000000     +               1
0x00000000  0x00000800  +
"
        )
    );
    Ok(())
}

#[test]
fn positions_of_nine_digits(rt: HostRuntime) -> Result<(), Fail> {
    assert!(rt;
        is_domain(
            rt,
            &[2_097_151, 2_097_152],
            2_097_153,
            b"\
# Mapfile. Created by udfsalvage 0.1.0
# Blocks to read again, for ddrescue -m: not the mapfile of a pass
0x00000000     +               1
0x00000000  0xFFFFF800  ?
0xFFFFF800  0x00001000  +
0x100000800  0x00000800  ?
"
        )
    );
    Ok(())
}

#[test]
fn a_table_of_all_states(rt: HostRuntime) -> Result<(), Fail> {
    let mut table = BlockTable::new(rt.alloc());
    table.add(1, Fact::Known(&[7; 2048]))?;
    table.add(2, Fact::Known(&[8; 2048]))?;
    table.add(3, Fact::Conflict)?;
    table.add(5, Fact::Conflict)?;
    table.add(6, Fact::Known(&[9; 2048]))?;
    let mut sink = Writer::new(Vec::new(rt.alloc()));
    assert!(rt; write_image_map(&table, 6, &mut sink).is_ok());
    let text = sink.into_inner();
    assert!(rt;
        text.as_slice()
            == b"\
# Mapfile. Created by udfsalvage 0.1.0
0x00000000     +               1
0x00000000  0x00000800  ?
0x00000800  0x00001000  +
0x00001800  0x00000800  -
0x00002000  0x00000800  ?
0x00002800  0x00000800  -
0x00003000  0x00000800  +
"
                .as_slice()
    );
    // It is read back.
    let map = Mapfile::read(rt.alloc(), &mut Reader::new(text.as_slice()))?;
    let known = KnownBlocks::of_map(rt.alloc(), &map)?;
    assert!(rt; map.end() == Some(14_336));
    assert!(rt;
        known.ranges()
            == [
                BlockRange { start: 1, end: 3 },
                BlockRange { start: 6, end: 7 },
            ]
            .as_slice()
    );
    Ok(())
}

/// The map of wanted blocks is no pass; without its second line it makes the wanted blocks known.
#[test]
fn a_domain_is_no_pass(rt: HostRuntime) -> Result<(), Fail> {
    let mut sink = Writer::new(Vec::new(rt.alloc()));
    assert!(rt; write_domain(&[3, 4], 599, &mut sink).is_ok());
    let text = sink.into_inner();
    match Mapfile::read(rt.alloc(), &mut Reader::new(text.as_slice())) {
        Err(MapError::Line(found)) => {
            assert!(rt; found.line == 2 && found.fault == MapFault::NotPass);
            assert_text(
                &rt,
                found.to_string(rt.alloc())?,
                "mapfile line 2: blocks to read again, not a pass",
            );
        }
        _ => assert!(rt; false),
    }
    let pass = b"\
# Mapfile. Created by udfsalvage 0.1.0
0x00000000     +               1
0x00000000  0x00001800  ?
0x00001800  0x00001000  +
0x00002800  0x00129800  ?
";
    let map = Mapfile::read(rt.alloc(), &mut Reader::new(pass.as_slice()))?;
    let known = KnownBlocks::of_map(rt.alloc(), &map)?;
    assert!(rt; known.ranges() == [BlockRange { start: 3, end: 5 }].as_slice());
    Ok(())
}

/// A sink that fails at once.
#[derive(Drop)]
struct Full {
    faults: u64,
}

impl Sink for Full {
    ghost stream = { λ f. record { contents = None; faults = f.faults } };

    fn write(&mut self, _buf: &[u8]) -> Result<usize, DeviceFault> {
        self.faults = self.faults.wrapping_add(1);
        Err(DeviceFault)
    }
}

#[test]
fn a_full_sink(rt: HostRuntime) -> Result<(), Fail> {
    let mut full = Full { faults: 0 };
    assert!(rt; write_domain(&[3], 599, &mut full).is_err());
    assert!(rt; full.faults == 1);
    Ok(())
}
