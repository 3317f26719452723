//! Tags and their CRC.

ghost use Rattle.std.specs.Prelude.{◌≤◌, length};

use crate::tests::assert_same;
use std::process::Abort;
use udfs_tag::{Tag, TagFault, crc};

/// A tag and the three bytes that its CRC covers.
const X: [u8; 19] = [
    0x01, 0x01, 0x02, 0x00, 0xd9, 0x00, 0x00, 0x00, 0x99, 0x32, 0x03, 0x00, 0x07, 0x00, 0x00, 0x00,
    0x70, 0x6a, 0x77,
];

#[test]
fn crc_of_three_bytes(rt: HostRuntime) {
    assert_same(&rt, crc(&[0x70, 0x6a, 0x77]), 0x3299);
    assert_same(&rt, crc(&[]), 0);
    // the check value of this polynomial with a start of 0
    assert_same(&rt, crc(b"123456789"), 0x31c3);
}

#[test]
fn accepted_before_zeros(rt: HostRuntime) {
    let mut block = [0u8; 512];
    block[0] = 8;
    block[2] = 2;
    block[4] = 0xfc;
    block[10] = 0xf0;
    block[11] = 1;
    block[13] = 1;
    assert_same(&rt, Tag::check(&block, 256), Ok(Tag { identifier: 8 }));
    assert_same(&rt, Tag::check(&block, 257), Err(TagFault::Location));
    assert!(rt; Tag::is_valid(&block, 256, 8));
    assert!(rt; !Tag::is_valid(&block, 256, 7));
    assert!(rt; !Tag::is_valid(&block, 257, 8));
}

#[test]
fn covered_bytes_past_the_end(rt: HostRuntime) {
    let mut block = [0u8; 2048];
    block[0] = 8;
    block[2] = 2;
    block[4] = 3;
    block[10] = 0xf1;
    block[11] = 7;
    block[13] = 1;
    assert_same(&rt, Tag::check(&block, 256), Err(TagFault::CrcLength));
}

/// Asserts that the check of the bytes has this outcome, whole and cut into two pieces at any place.
fn assert_answer(rt: &impl Abort, bytes: &[u8], location: u32, answer: Result<Tag, TagFault>)
    requires { 16 ≤ length bytes.now }
{
    assert_eq!(rt; Tag::check(bytes, location), answer);
    for cut in 0..=bytes.len() {
        let (first, second) = bytes.split_at(cut);
        assert_eq!(rt;
            Tag::check2(first, second, location),
            answer,
            "cut at {cut}"
        );
    }
}

#[test]
fn each_fault_at_each_cut(rt: HostRuntime) {
    assert_answer(&rt, &X, 7, Ok(Tag { identifier: 257 }));
    assert_answer(&rt, &X, 8, Err(TagFault::Location));
    assert_answer(&rt, &X[..18], 7, Err(TagFault::CrcLength));
    let mut last = X;
    last[18] = 0x78;
    assert_answer(&rt, &last, 7, Err(TagFault::Crc));
    let mut sum = X;
    sum[4] = 0xd8;
    assert_answer(&rt, &sum, 7, Err(TagFault::Checksum));
    let mut version = X;
    version[2] = 4;
    version[4] = 0xdb;
    assert_answer(&rt, &version, 7, Err(TagFault::Version));
    version[2] = 3;
    version[4] = 0xda;
    assert_answer(&rt, &version, 7, Ok(Tag { identifier: 257 }));
}
