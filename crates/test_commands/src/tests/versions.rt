//! Which version of the table file is written.

use crate::tests::check;
use std::test::Fail;

static SCRIPT: &str = r"
= version_2_is_written_unless_asked_otherwise
passes

$ merge --out t.tab a.rd c.rd a.rd
silent
has t.tab text UDFTABL2\0\x08\0\0\x01\0\0\0\t\0\0\0\0\0\0\0\0\x10\0\0

$ merge --out u.tab --v1 a.rd c.rd a.rd
silent
has u.tab text UDFTABL1\0\x08\0\0\x01\0\0\0,\x01\0\0\x02

= either_version_gives_the_same_file
# `merge` of either version of one table gives the same file, in each version.
passes
$ merge --out t.tab a.rd b.rd c.rd
silent
$ merge --v1 --out u.tab a.rd b.rd c.rd
silent
$ merge --out two.tab a.rd b.rd c.rd
silent
$ merge --v1 --out one.tab a.rd b.rd c.rd
silent
then equal two.tab t.tab
then equal one.tab u.tab

$ merge --out two.tab t.tab
silent
$ merge --v1 --out one.tab t.tab
silent

$ merge --out two.tab u.tab
silent
$ merge --v1 --out one.tab u.tab
silent

$ merge --out two.tab u.tab t.tab
silent
$ merge --v1 --out one.tab u.tab t.tab
silent

$ merge --out two.tab t.tab a.rd u.tab
silent
$ merge --v1 --out one.tab t.tab a.rd u.tab
silent

= the_sample_volume_is_nineteen_packets
# The last packet has the blocks 576 to 600.
file s.rd sample

$ merge --out s.tab s.rd
silent
length s.tab 1231092
has-at s.tab 12 \x13\0\0\0
has-at s.tab 1179880 \x12\0\0\0\xff\xff\xff\x01\0\0\0\0

$ merge --v1 --out s1.tab s.rd
silent
length s1.tab 1233869
";

#[test]
fn either_version(rt: HostRuntime) -> Result<(), Fail> {
    check(&rt, rt.alloc(), SCRIPT)
}
