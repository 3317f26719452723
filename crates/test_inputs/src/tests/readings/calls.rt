//! A table and its files after each call of a row, beside an ordered map of single blocks.

use super::ordered::{BLOCKS, Pair};
use super::steps::STEPS;
use crate::tests::{assert_case, assert_same};
use std::alloc::{AllocError, Global};
use std::collections::BTreeMap;
use std::io;
use std::test::Fail;
use udfs_lattice::{BlockTable, Fact};
use udfs_reading::{Writer, write_table, write_table_v1};

/// The table file of version 1 of the map, as the format spells it.
fn file_of_v1(alloc: Global, map: &BTreeMap<u32, Fact<[u8; 2048]>>) -> Result<Vec<u8>, AllocError> {
    let mut file = Vec::new(alloc);
    file.extend_from_slice(b"UDFTABL1\x00\x08\x00\x00")?;
    file.extend_from_slice(&(map.len().min(6) as u32).to_le_bytes())?;
    for (n, fact) in map.iter() {
        file.extend_from_slice(&n.to_le_bytes())?;
        match fact {
            Fact::Unknown => {}
            Fact::Known(bytes) => {
                file.push(1)?;
                file.extend_from_slice(bytes)?;
            }
            Fact::Conflict => file.push(2)?,
        }
    }
    Ok(file)
}

/// The numbers of the packets of the row's blocks, of which each is the first or the last of a packet.
static PACKETS: [u32; 3] = [0, 1, 131_071];

/// The table file of version 2 of the map, as the format spells it.
fn file_of_v2(alloc: Global, map: &BTreeMap<u32, Fact<[u8; 2048]>>) -> Result<Vec<u8>, AllocError> {
    let mut packets = Vec::new(alloc);
    let mut count = 0u8;
    for &p in &PACKETS {
        let mut known = 0u32;
        let mut conflict = 0u32;
        let mut blocks = Vec::new(alloc);
        for (bit, block) in [
            (1u32, p.wrapping_mul(32)),
            (0x8000_0000, p.wrapping_mul(32).wrapping_add(31)),
        ] {
            match map.get(&block) {
                Some(Fact::Known(bytes)) => {
                    known |= bit;
                    blocks.extend_from_slice(bytes)?;
                }
                Some(Fact::Conflict) => conflict |= bit,
                _ => {}
            }
        }
        if known > 0 || conflict > 0 {
            count = count.wrapping_add(1);
            packets.extend_from_slice(&p.to_le_bytes())?;
            packets.extend_from_slice(&known.to_le_bytes())?;
            packets.extend_from_slice(&conflict.to_le_bytes())?;
            packets.extend_from_slice(blocks.as_slice())?;
        }
    }
    let mut file = Vec::new(alloc);
    file.extend_from_slice(b"UDFTABL2\x00\x08\x00\x00")?;
    file.extend_from_slice(&[count, 0, 0, 0])?;
    file.extend_from_slice(packets.as_slice())?;
    Ok(file)
}

/// The files of both versions of a table.
fn files(alloc: Global, table: &BlockTable) -> Result<(Vec<u8>, Vec<u8>), Fail> {
    let mut first = Writer::new(Vec::new(alloc));
    let mut second = Writer::new(Vec::new(alloc));
    if write_table_v1(table, &mut first).is_err() || write_table(table, &mut second).is_err() {
        return Err(Fail::from(io::Error::from(io::ErrorKind::Other)));
    }
    Ok((first.into_inner(), second.into_inner()))
}

/// A call of the row.
enum Call {
    Put(u32, u8),
    Join,
}

/// The call that a character encodes, whether it is made on an empty table, and whether the two tables are swapped
/// after it.
fn call_of(character: u8) -> (Call, bool, bool) {
    let skipped = match character {
        ..=57 => 35,
        58..=92 => 45,
        _ => 46,
    };
    let code = character.wrapping_sub(skipped);
    let which = code % 19;
    let call = if which == 18 {
        Call::Join
    } else {
        Call::Put(BLOCKS[(which / 3) as usize % 6], which % 3)
    };
    (call, code / 38 == 1, code / 19 % 2 == 1)
}

#[test]
fn ten_thousand_calls_agree_with_the_ordered_map(rt: HostRuntime) -> Result<(), Fail> {
    let alloc = rt.alloc();
    let mut first = Pair::new(alloc);
    let mut second = Pair::new(alloc);
    let mut calls = 0u32;
    let mut most_known = 0u32;
    let mut most_conflicts = 0u32;
    for line in STEPS.iter() {
        for character in line.as_bytes() {
            let (call, begins_anew, change_places) = call_of(*character);
            if begins_anew {
                first = Pair::new(alloc);
            }
            match call {
                Call::Join => first.join(&second)?,
                Call::Put(n, byte) => first.put(n, &[byte; 2048])?,
            }
            assert_case(&rt, first.agrees(), calls);
            let (one, two) = files(alloc, &first.table)?;
            assert_case(&rt, one == file_of_v1(alloc, &first.map.blocks)?, calls);
            assert_case(&rt, two == file_of_v2(alloc, &first.map.blocks)?, calls);
            most_known = most_known.max(first.table.known());
            most_conflicts = most_conflicts.max(first.table.conflicts());
            calls = calls.wrapping_add(1);
            if change_places {
                std::mem::swap(&mut first, &mut second);
            }
        }
    }
    assert_same(&rt, calls, 10_000);
    // The row comes to tables in which all blocks are known, and to such in which all are in conflict.
    assert_same(&rt, most_known, 6);
    assert_same(&rt, most_conflicts, 6);
    Ok(())
}
