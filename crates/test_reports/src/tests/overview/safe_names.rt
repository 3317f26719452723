//! Names as a person is shown them.

use crate::tests::assert_same;
use std::test::Fail;
use udfs_osta::Name;
use udfs_overview::push_safe_name;

#[test]
fn names(rt: HostRuntime) -> Result<(), Fail> {
    static CASES: [(&[u8], &str); 11] = [
        (b"\x08A file.txt", "A file.txt"),
        (b"\x08.", "\\u002E"),
        (b"\x08..", "\\u002E\\u002E"),
        (b"\x08a/b\\", "a\\u002Fb\\u005C"),
        (
            b"\x08\x1f\x20\x7e\x7f\x80\x9f\xa0",
            "\\u001F ~\\u007F\\u0080\\u009F\u{a0}",
        ),
        (b"\x10\x06\x1b\x06\x1c\x06\x1d", "\u{61b}\\u061C\u{61d}"),
        (
            b"\x10\x20\x0d\x20\x0e\x20\x0f\x20\x10",
            "\u{200d}\\u200E\\u200F\u{2010}",
        ),
        (
            b"\x10\x20\x27\x20\x28\x20\x29\x20\x2a\x20\x2e\x20\x2f",
            "\u{2027}\\u2028\\u2029\\u202A\\u202E\u{202f}",
        ),
        (
            b"\x10\x20\x65\x20\x66\x20\x69\x20\x6a",
            "\u{2065}\\u2066\\u2069\u{206a}",
        ),
        (b"\x10\xd8\x3d\xde\x00", "\u{1f600}"),
        (b"\x10\xd8\x00\x4e\x2d", "\\uD800\u{4e2d}"),
    ];
    for &(bytes, expected) in &CASES {
        let name = Name::read(rt.alloc(), bytes)?;
        let mut text = String::new(rt.alloc());
        push_safe_name(&name, &mut text)?;
        assert_same(&rt, text.as_str(), expected);
    }
    Ok(())
}
