//! Times.

use crate::tests::{assert_same, assert_text};
use std::test::Fail;
use udfs_osta::{Name, Stamp};

fn printed(rt: &HostRuntime, stamp: Stamp) -> Result<String, Fail> {
    let mut text = String::new(rt.alloc());
    stamp.write_text(&mut text)?;
    Ok(text)
}

#[test]
fn times(rt: HostRuntime) -> Result<(), Fail> {
    static CASES: [(&[u8; 12], &str); 14] = [
        (
            b"\x3c\x10\xd1\x07\x07\x04\x0a\x1e\0\0\0\0",
            "2001-07-04T09:30:00.000000Z",
        ),
        // 29 February of a common and of a leap year
        (b"\x3c\x10\xd1\x07\x02\x1d\x0a\x1e\0\0\0\0", "invalid"),
        (
            b"\x3c\x10\xd0\x07\x02\x1d\x0a\x1e\0\0\0\0",
            "2000-02-29T09:30:00.000000Z",
        ),
        // no offset
        (
            b"\x01\x18\xd1\x07\x07\x04\x0a\x1e\0\0\0\0",
            "2001-07-04T10:30:00.000000",
        ),
        (
            b"\x01\x18\xd1\x07\x07\x04\x0a\x1e\0\x63\x63\x63",
            "2001-07-04T10:30:00.999999",
        ),
        // an offset of -300 minutes, into the next year
        (
            b"\xd4\x1e\xd1\x07\x0c\x1f\x14\0\0\0\0\0",
            "2002-01-01T01:00:00.000000Z",
        ),
        // the first and the last year, out of them by the offset
        (
            b"\x3c\x10\x01\0\x01\x01\0\0\0\0\0\0",
            "0000-12-31T23:00:00.000000Z",
        ),
        (
            b"\x60\x1a\x0e\x27\x0c\x1f\x17\x3b\x3b\x63\x63\x63",
            "9999-01-01T23:59:59.999999Z",
        ),
        // the years 0 and 9999, and the offsets 1441 and -2048
        (b"\x3c\x10\0\0\x01\x01\0\0\0\0\0\0", "invalid"),
        (b"\x3c\x10\x0f\x27\x01\x01\0\0\0\0\0\0", "invalid"),
        (b"\xa1\x15\xd1\x07\x07\x04\x0a\x1e\0\0\0\0", "invalid"),
        (b"\0\x18\xd1\x07\x07\x04\x0a\x1e\0\0\0\0", "invalid"),
        // type 0, and the 60th second
        (b"\x3c\0\xd1\x07\x07\x04\x0a\x1e\0\0\0\0", "invalid"),
        (b"\x3c\x10\xd1\x07\x07\x04\x0a\x1e\x3c\0\0\0", "invalid"),
    ];
    for &(bytes, text) in &CASES {
        assert_text(&rt, printed(&rt, Stamp::read(bytes))?, text);
    }
    Ok(())
}

/// Times that no bytes tell, from the first that is printed to the last.
static TIMES: [(Stamp, &str); 8] = [
    (Stamp::Local(0), "1970-01-01T00:00:00.000000"),
    (Stamp::Utc(-1), "1969-12-31T23:59:59.999999Z"),
    (
        Stamp::Utc(-62_167_219_200_000_000),
        "0000-01-01T00:00:00.000000Z",
    ),
    (Stamp::Utc(-62_167_219_200_000_001), "invalid"),
    (
        Stamp::Utc(253_402_207_200_999_999),
        "9999-12-30T22:00:00.999999Z",
    ),
    (Stamp::Utc(253_402_207_201_000_000), "invalid"),
    (Stamp::Local(i64::MAX), "invalid"),
    (Stamp::Utc(i64::MIN), "invalid"),
];

#[test]
fn times_that_no_bytes_tell(rt: HostRuntime) -> Result<(), Fail> {
    for &(stamp, text) in &TIMES {
        assert_text(&rt, printed(&rt, stamp)?, text);
    }
    Ok(())
}

/// Both writers append to what the text held.
#[test]
fn text_is_appended(rt: HostRuntime) -> Result<(), Fail> {
    let mut text = String::new(rt.alloc());
    text.push_str("/")?;
    Name::read(rt.alloc(), b"\x08a")?.write_escaped(&mut text)?;
    text.push_str(" ")?;
    Stamp::Local(1).write_text(&mut text)?;
    assert_same(&rt, text.as_str(), "/a 1970-01-01T00:00:00.000001");
    Ok(())
}
