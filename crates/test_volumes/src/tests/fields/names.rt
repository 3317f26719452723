//! Names, their faults and their escaped form.

use crate::tests::{assert_same, assert_text};
use std::test::Fail;
use udfs_osta::{Name, NameFault, is_dots, paired_char, write_escape, write_escapes};

fn escaped(rt: &HostRuntime, bytes: &[u8]) -> Result<String, Fail> {
    let name = Name::read(rt.alloc(), bytes)?;
    let mut text = String::new(rt.alloc());
    name.write_escaped(&mut text)?;
    Ok(text)
}

/// The escaped form, from its pieces.
fn in_pieces(rt: &HostRuntime, bytes: &[u8]) -> Result<Vec<u8>, Fail> {
    let name = Name::read(rt.alloc(), bytes)?;
    let mut left = name.escaped_bytes();
    let mut text = Vec::new(rt.alloc());
    let mut piece = [0; 64];
    for _ in 0..bytes.len() {
        let count = left.next_piece(&mut piece);
        text.extend_from_slice(&piece[..count])?;
    }
    Ok(text)
}

fn fault_of(rt: &HostRuntime, bytes: &[u8]) -> Option<NameFault> {
    match Name::read(rt.alloc(), bytes) {
        Ok(_) => None,
        Err(fault) => Some(fault),
    }
}

/// Names as they are recorded, of units of one byte and of two, and their escaped form.
static NAMES: [(&[u8], &str); 21] = [
    // plain units, an escaped one, one in a pair
    (b"\x08ab/c", "ab\\u002Fc"),
    (b"\x10\xd8\x3d\xde\x00\x00a", "\u{1f600}a"),
    (b"\x08A file.txt", "A file.txt"),
    (
        b"\x080123456789012345678901234567890123456789012345678901234567890123456789/abcabcabcabcabcabcabcabcabcabcabcabcabcabcabcabcabcabcabcabcabcabcabcabcabcabcabcabcabcabc",
        "0123456789012345678901234567890123456789012345678901234567890123456789\\u002Fabcabcabcabcabcabcabcabcabcabcabcabcabcabcabcabcabcabcabcabcabcabcabcabcabcabcabcabcabcabc",
    ),
    (b"\x08..", "\\u002E\\u002E"),
    (b"\x08.", "\\u002E"),
    (b"\x08...", "..."),
    (b"\x08/", "\\u002F"),
    (b"\x08\xe9", "\u{e9}"),
    (b"\x08\x00\x1f\x20\x7e\x7f", "\\u0000\\u001F ~\\u007F"),
    (b"\x08a\\b", "a\\u005Cb"),
    (b"\x10\x00A", "A"),
    (b"\x10\x00.\x00.", "\\u002E\\u002E"),
    (b"\x10\x00\xe9\x4e\x2d", "\u{e9}\u{4e2d}"),
    (
        b"\x10\x00\x0a\x00/\x00\\\x00\x7f",
        "\\u000A\\u002F\\u005C\\u007F",
    ),
    (b"\x10\xd8\x3d\xde\x00", "\u{1f600}"),
    (b"\x10\xdb\xff\xdf\xff", "\u{10ffff}"),
    (b"\x10\xd8\x00", "\\uD800"),
    (b"\x10\xdc\x00\xd8\x00", "\\uDC00\\uD800"),
    (b"\x10\xd8\x00\xd8\x00\xdc\x00", "\\uD800\u{10000}"),
    (b"\x10\xff\xff\xe0\x00\xd7\xff", "\u{ffff}\u{e000}\u{d7ff}"),
];

#[test]
fn escaped_names(rt: HostRuntime) -> Result<(), Fail> {
    for &(bytes, expected) in &NAMES {
        assert_text(&rt, escaped(&rt, bytes)?, expected);
        let pieces = in_pieces(&rt, bytes)?;
        assert_same(&rt, pieces.as_slice(), expected.as_bytes());
    }
    Ok(())
}

#[test]
fn units_of_names(rt: HostRuntime) -> Result<(), Fail> {
    let name = Name::read(rt.alloc(), b"\x08\xe9A")?;
    assert_same(&rt, name.units(), [0xe9, 0x41].as_slice());
    let name = Name::read(rt.alloc(), b"\x10\xd8\x3d\xde\x00")?;
    assert_same(&rt, name.units(), [0xd83d, 0xde00].as_slice());
    let copy = name.clone()?;
    assert_same(&rt, copy.units(), [0xd83d, 0xde00].as_slice());
    Ok(())
}

#[test]
fn faults_of_names(rt: HostRuntime) -> Result<(), Fail> {
    static CASES: [(&[u8], Option<NameFault>); 8] = [
        (b"", Some(NameFault::Empty)),
        (b"\x08", Some(NameFault::Empty)),
        (b"\x10", Some(NameFault::Empty)),
        (b"\x09", Some(NameFault::Compression)),
        (b"\x09A", Some(NameFault::Compression)),
        (b"\x10A", Some(NameFault::Odd)),
        (b"\x10\x00A\x00", Some(NameFault::Odd)),
        (b"\x08A", None),
    ];
    for &(bytes, fault) in &CASES {
        assert_same(&rt, fault_of(&rt, bytes), fault);
    }
    static TEXTS: [(NameFault, u8, &str); 4] = [
        (NameFault::Empty, 1, "the name has no unit"),
        (
            NameFault::Compression,
            2,
            "the name begins with neither 8 nor 16",
        ),
        (NameFault::Odd, 3, "the name ends inside a unit"),
        (NameFault::OutOfMemory, 4, "out of memory"),
    ];
    for &(fault, number, text) in &TEXTS {
        assert_same(&rt, fault as u8, number);
        assert_text(&rt, format!(in rt.alloc(); "{fault}")?, text);
    }
    Ok(())
}

#[test]
fn parts_of_names(rt: HostRuntime) -> Result<(), Fail> {
    assert_same(&rt, paired_char(&[0xd83d, 0xde00, 0x41]), Some('\u{1f600}'));
    assert_same(&rt, paired_char(&[0xde00, 0xd83d]), None);
    assert_same(&rt, paired_char(&[0xd83d]), None);
    for (units, want) in [
        ([0x2e].as_slice(), true),
        (&[0x2e, 0x2e], true),
        (&[0x2e, 0x2e, 0x2e], false),
        (&[0x2e, 0x41], false),
    ] {
        assert_same(&rt, is_dots(units), want);
    }
    let mut text = String::new(rt.alloc());
    write_escape(0x202e, &mut text)?;
    write_escapes(&[0x2e, 0xd83d], &mut text)?;
    assert_same(&rt, text.as_str(), "\\u202E\\u002E\\uD83D");
    Ok(())
}
