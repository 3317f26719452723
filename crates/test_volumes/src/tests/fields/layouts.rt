//! The small fields that descriptors share.

use crate::tests::assert_same;
use udfs_tag::{ExtentAd, LongAd, RegId, ShortAd};

#[test]
fn small_fields(rt: HostRuntime) {
    let bytes: [u8; 32] = [
        1, 2, 3, 0xc4, 5, 6, 7, 8, 9, 10, 11, 12, 13, 14, 15, 16, 17, 18, 19, 20, 21, 22, 23, 24,
        25, 26, 27, 28, 29, 30, 31, 32,
    ];
    assert_same(
        &rt,
        ExtentAd::read(&bytes),
        ExtentAd {
            length: 0xc403_0201,
            block: 0x0807_0605,
        },
    );
    assert_same(
        &rt,
        ShortAd::read(&bytes),
        ShortAd {
            kind: 3,
            length: 0x0403_0201,
            block: 0x0807_0605,
        },
    );
    let long = LongAd {
        kind: 3,
        length: 0x0403_0201,
        block: 0x0807_0605,
        reference: 0x0a09,
    };
    assert_same(&rt, LongAd::read(&bytes), long);
    let id = RegId::read(&bytes);
    assert_same(&rt, id.name[0], 2);
    assert_same(&rt, id.name[22], 24);
    assert_same(&rt, id.suffix, [25, 26, 27, 28, 29, 30, 31, 32]);
}
