//! Discs that somebody made to do harm, by `report` and `extract`.

use crate::tests::check;
use std::test::Fail;

static DISCS_OF_HARM: &str = r"
= changes_that_lead_nowhere
# The continuation in block 278 names itself; and two spared packets whose originals do not rise: 32 and then 0.

disc continued
write 278 24 \0\x08\0\xc0\x06\0\0\0
but
$ report --last 600 disc.tab
line node 1 fault-8 file 4096 2001-07-04T09:30:00.000000Z /A

disc sparable
write 100 48 \x02
write 100 56  \0\0\0\xb0\x01\0\0\0\0\0\0\x90\x01\0\0
but
$ report --last 600 disc.tab
line volume fault 14 SparingOrder

= a_directory_of_zeros
disc zeros
but

$ report --last 600 disc.tab
line node 0 fault-10 directory 1099511627776 2001-07-04T09:30:00.000000Z /

= a_path_of_64_names
# The directory with 64 names in its path is whole where it is empty, and else not entered.

disc nested 64
but
$ report --last 600 disc.tab
line node 64 whole directory 0 2001-07-04T09:30:00.000000Z «64*/D»

disc nested 65
but
$ report --last 600 disc.tab
line node 64 fault-13 directory 40 2001-07-04T09:30:00.000000Z «64*/D»

# So is one with 64 names below a lost folder: the root's block is not read, and the link count of the entry at logical block 3 is 1.
disc nested 65
write 275 48 \x01
but 274
$ list --lost --last 600 disc.tab
line whole\tdirectory\t0\t0\t2001-07-04T09:30:00Z\tlost:3«64*/D»

disc nested 66
write 275 48 \x01
but 274
$ list --lost --last 600 disc.tab
line fault 13\tdirectory\t-\t40\t2001-07-04T09:30:00Z\tlost:3«64*/D»
";

#[test]
fn discs_of_harm(rt: HostRuntime) -> Result<(), Fail> {
    check(&rt, rt.alloc(), DISCS_OF_HARM)
}

static NODES_65535_ARE_REPORTED: &str = r"
= nodes_65535_are_reported
disc doubling 0
but

$ report --last 600 disc.tab
out-lines 65535 node\x20
";

#[test]
fn nodes_65535_are_reported(rt: HostRuntime) -> Result<(), Fail> {
    check(&rt, rt.alloc(), NODES_65535_ARE_REPORTED)
}

static NODES_65536_ARE_REPORTED: &str = r"
= nodes_65536_are_reported
disc doubling 1

but
$ report --last 600 disc.tab
out-lines 65536 node\x20

# Where the file set is not read, the root is a lost folder with as many; its link count is 1.
write 273 48 \x01
but 272
$ list --lost --paths --last 600 disc.tab
out-lines 65536 lost:1/
";

#[test]
fn nodes_65536_are_reported(rt: HostRuntime) -> Result<(), Fail> {
    check(&rt, rt.alloc(), NODES_65536_ARE_REPORTED)
}

static NODES_65537_HAVE_NO_REPORT: &str = r"
= nodes_65537_have_no_report
disc doubling 2

but
$ report --last 600 disc.tab
refused udfsalvage: fault 3 TooManyPaths\n

write 273 48 \x01
but 272
$ list --lost --last 600 disc.tab
refused udfsalvage: fault 3 TooManyPaths\n
";

#[test]
fn nodes_65537_have_no_report(rt: HostRuntime) -> Result<(), Fail> {
    check(&rt, rt.alloc(), NODES_65537_HAVE_NO_REPORT)
}

static NODES_65537_MAKE_NO_FOLDER: &str = r"
= nodes_65537_make_no_folder
disc doubling 2
but

$ extract --last 600 --to out disc.tab
refused udfsalvage: fault 3 TooManyPaths\n
no-folder out
";

#[test]
fn nodes_65537_make_no_folder(rt: HostRuntime) -> Result<(), Fail> {
    check(&rt, rt.alloc(), NODES_65537_MAKE_NO_FOLDER)
}
