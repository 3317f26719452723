//! Packets of 32 blocks.

use crate::tests::assert_same;
use std::test::Fail;
use udfs_lattice::{Fact, Join, Packet, TableError};

#[test]
fn adds_at_each_place(rt: HostRuntime) -> Result<(), Fail> {
    let mut packet = Packet::new(rt.alloc());
    assert_same(&rt, packet.known_mask(), 0);
    // 13 and 32 have no common divisor, so that each place comes once, in no order.
    for step in 0..32u32 {
        let i = step * 13 % 32;
        assert!(rt; matches!(packet.state(i), Fact::Unknown));
        packet.add(i, Fact::Known(&[i as u8; 2048]))?;
    }
    assert_same(&rt, packet.known_mask(), u32::MAX);
    assert_same(&rt, packet.known(), 32);
    assert_same(&rt, packet.conflict_mask(), 0);
    for i in 0..32u32 {
        assert!(rt; matches!(packet.state(i), Fact::Known(bytes) if *bytes == [i as u8; 2048]));
    }
    for step in 0..32u32 {
        let i = step * 5 % 32;
        packet.add(i, Fact::Known(&[99; 2048]))?;
        assert!(rt; matches!(packet.state(i), Fact::Conflict));
        let next = (i + 5) % 32;
        assert!(rt;
            step == 31
                || matches!(packet.state(next), Fact::Known(bytes) if *bytes == [next as u8; 2048])
        );
    }
    assert_same(&rt, packet.known_mask(), 0);
    assert_same(&rt, packet.conflict_mask(), u32::MAX);
    Ok(())
}

#[test]
fn adds_states(rt: HostRuntime) -> Result<(), Fail> {
    let mut packet = Packet::new(rt.alloc());
    packet.add(7, Fact::Unknown)?;
    assert_same(&rt, packet.known_mask() | packet.conflict_mask(), 0);
    packet.add(7, Fact::Known(&[1; 2048]))?;
    packet.add(7, Fact::Known(&[1; 2048]))?;
    assert_same(&rt, packet.known_mask(), 1 << 7);
    packet.add(31, Fact::Conflict)?;
    packet.add(31, Fact::Known(&[1; 2048]))?;
    packet.add(7, Fact::Conflict)?;
    packet.add(7, Fact::Unknown)?;
    assert_same(&rt, packet.known_mask(), 0);
    assert_same(&rt, packet.conflict_mask(), 1 << 7 | 1 << 31);
    assert_same(&rt, packet.conflicts(), 2);
    assert_same(&rt, packet.known(), 0);
    Ok(())
}

#[test]
fn lists_its_entries(rt: HostRuntime) -> Result<(), Fail> {
    let alloc = rt.alloc();
    let mut packet = Packet::new(alloc);
    assert!(rt; packet.entries().next().is_none());
    packet.add(31, Fact::Known(&[3; 2048]))?;
    packet.add(0, Fact::Known(&[1; 2048]))?;
    packet.add(7, Fact::Conflict)?;
    packet.add(8, Fact::Known(&[2; 2048]))?;
    let mut places = Vec::new(alloc);
    for (i, fact) in packet.entries() {
        assert!(rt; fact == packet.state(i));
        places.push(i)?;
    }
    assert_same(&rt, places.as_slice(), [0, 7, 8, 31].as_slice());
    Ok(())
}

fn joined<J: Join + Drop>(mut first: J, second: &J) -> Result<J, TableError> {
    first.join(second)?;
    Ok(first)
}

#[test]
fn joins_packets(rt: HostRuntime) -> Result<(), Fail> {
    let mut first = Packet::new(rt.alloc());
    let mut second = Packet::new(rt.alloc());
    first.add(0, Fact::Known(&[1; 2048]))?;
    first.add(4, Fact::Known(&[2; 2048]))?;
    first.add(9, Fact::Known(&[3; 2048]))?;
    first.add(31, Fact::Conflict)?;
    second.add(2, Fact::Known(&[4; 2048]))?;
    second.add(4, Fact::Known(&[5; 2048]))?;
    second.add(9, Fact::Known(&[3; 2048]))?;
    second.add(30, Fact::Conflict)?;
    second.add(31, Fact::Known(&[6; 2048]))?;
    let both = joined(first, &second)?;
    assert_same(&rt, both.known_mask(), 1 | 1 << 2 | 1 << 9);
    assert_same(&rt, both.conflict_mask(), 1 << 4 | 1 << 30 | 1 << 31);
    assert!(rt; matches!(both.state(0), Fact::Known(bytes) if *bytes == [1; 2048]));
    assert!(rt; matches!(both.state(2), Fact::Known(bytes) if *bytes == [4; 2048]));
    assert!(rt; matches!(both.state(9), Fact::Known(bytes) if *bytes == [3; 2048]));
    let again = joined(both, &second)?;
    assert_same(&rt, again.known(), 3);
    assert_same(&rt, again.conflicts(), 3);
    Ok(())
}
