//! A sparing table of two blocks, whose blocks come from either copy.

use crate::tests::rows::{Asked, Row, check};
use crate::tests::starts::Start;
use std::test::Fail;

/// The blocks that are not known: each block is that of its first known copy.
static UNREAD: [Row; 8] = [
    (&[], &[], "ok 400"),
    (&[], &[100], "ok 400"),
    (&[], &[100, 201], "ok 400"),
    (&[], &[101], "fault 13 SparingShape"),
    (&[], &[100, 101], "fault 13 SparingShape"),
    (&[], &[101, 201], "holes 101 201"),
    (&[], &[100, 200], "holes 100 200"),
    (&[], &[200, 101, 201, 100], "holes 100 101 200 201"),
];

#[test]
fn each_block_from_its_first_known_copy(rt: HostRuntime) -> Result<(), Fail> {
    check(&rt, rt.alloc(), Start::TwoBlocks, Asked::Space, &UNREAD)
}
