//! Labels.

use crate::tests::assert_text;
use std::test::Fail;
use udfs_osta::Label;

/// What a label says: nothing, a name by its escaped form, or that it is invalid.
fn label_text(rt: &HostRuntime, front: &[u8], used: u8) -> Result<String, Fail> {
    let mut bytes = [0; 128];
    for (place, byte) in bytes.iter_mut().zip(front) {
        *place = *byte;
    }
    bytes[127] = used;
    let mut text = String::new(rt.alloc());
    match Label::read(rt.alloc(), &bytes)? {
        Label::Empty => {}
        Label::Name(name) => name.write_escaped(&mut text)?,
        Label::Invalid => text.push_str("(invalid)")?,
    }
    Ok(text)
}

/// The front of the field, how many of its bytes are used, and what the label says.
static LABELS: [(&[u8], u8, &str); 9] = [
    (b"\x08TAPE", 0, ""),
    (b"\x08TAPE", 5, "TAPE"),
    (b"\x08TAPE", 3, "TA"),
    (b"\x08.", 2, "\\u002E"),
    (b"\x10\x00T", 3, "T"),
    (b"\x08TAPE", 128, "(invalid)"),
    (b"\x08TAPE", 1, "(invalid)"),
    (b"\x09TAPE", 5, "(invalid)"),
    (b"\x10\x00T", 2, "(invalid)"),
];

#[test]
fn labels(rt: HostRuntime) -> Result<(), Fail> {
    for &(front, used, expected) in &LABELS {
        assert_text(&rt, label_text(&rt, front, used)?, expected);
    }
    assert_eq!(rt; label_text(&rt, &[8; 127], 127)?.len(), 6 * 126);
    Ok(())
}
