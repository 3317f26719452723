//! The texts of faults.

use crate::tests::assert_same;
use std::test::Fail;
use udfs_tag::TagFault;

#[test]
fn fault_texts(rt: HostRuntime) -> Result<(), Fail> {
    for (fault, text) in [
        (
            TagFault::Checksum,
            "the tag's checksum is not that of its bytes",
        ),
        (TagFault::Version, "the tag's version is not 2 or 3"),
        (
            TagFault::CrcLength,
            "the CRC covers more bytes than there are",
        ),
        (TagFault::Crc, "the CRC is not that of the covered bytes"),
        (TagFault::Location, "the tag says that it stands elsewhere"),
    ] {
        let shown = format!(in rt.alloc(); "{fault}")?;
        assert_same(&rt, shown.as_str(), text);
    }
    Ok(())
}
