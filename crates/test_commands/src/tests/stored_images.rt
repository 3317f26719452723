//! `merge` of images with their mapfiles, of which no block is held.

use crate::tests::check;
use std::test::Fail;

static SCRIPT: &str = r"
* files
# An image of three blocks, of which the second is not rescued, and a pass with the first and with another third. What is in `dev/` is a
# device: then the blocks are held.
file p.img text «2048*a»«2048*b»«2048*c»
file dev/p.img text «2048*a»«2048*b»«2048*c»
file p.map text 0x0 + 1\n0 0x800 +\n0x800 0x800 -\n0x1000 0x800 +\n
file dev/p.map text 0x0 + 1\n0 0x800 +\n0x800 0x800 -\n0x1000 0x800 +\n
file one.rd reading 2:64 0:61
file dev/one.rd reading 2:64 0:61

= images_and_devices_make_one_table
# Packet 0 with block 0 known and block 2 in conflict.
* files
then silent
then has t.tab text UDFTABL2\0\x08\0\0\x01\0\0\0\0\0\0\0\x01\0\0\0\x04\0\0\0«2048*a»

$ merge --out t.tab --ddrescue p.img p.map one.rd

$ merge --out t.tab --ddrescue p.img p.map dev/one.rd

$ merge --out t.tab --ddrescue dev/p.img p.map one.rd

$ merge --out t.tab --ddrescue p.img dev/p.map one.rd

= a_long_run_of_an_image
# The blocks 1 to 68 of an image of 70 are rescued, each of its own byte: three packets, and runs that go on from one to the next. A device
# that moves less in one call gives no other bytes.
file p.img blocks 0..70:own
file p.map text 0x0 + 1\n0 0x800 ?\n0x800 0x22000 +\n
then silent
then length t.tab 139316
then has u.tab table 1..69:own

$ merge --out t.tab --ddrescue p.img p.map
$ merge --v1 --out u.tab t.tab

inputs-move 2049
$ merge --out t.tab --ddrescue p.img p.map
$ merge --v1 --out u.tab t.tab

inputs-move 2048
$ merge --out t.tab --ddrescue p.img p.map
$ merge --v1 --out u.tab t.tab

inputs-move 1000
$ merge --out t.tab --ddrescue p.img p.map
$ merge --v1 --out u.tab t.tab

= a_long_run_of_an_image_in_packets
file p.img blocks 0..70:own
file p.map text 0x0 + 1\n0 0x800 ?\n0x800 0x22000 +\n

$ merge --out t.tab --ddrescue p.img p.map
silent
has-at t.tab 0 UDFTABL2\0\x08\0\0\x03\0\0\0\0\0\0\0\xfe\xff\xff\xff\0\0\0\0«2048*\x01»«2048*\x02»
has-at t.tab 61468 «2048*\x1f»\x01\0\0\0\xff\xff\xff\xff\0\0\0\0«2048*\x20»
has-at t.tab 127016 «2048*\x3f»\x02\0\0\0\x1f\0\0\0\0\0\0\0«2048*\x40»
has-at t.tab 135220 «2048*\x43»«2048*\x44»

= an_image_that_fails_is_told
# Of the image each rescued block is read once, when it is written. The mapfile, which has 47 bytes, is read before, to its end. The device fails
# for good, so the record that is sought from the front is the first, whichever it was.
* files
file t.tab text UDFTABL«4993*w»
then has t.tab text UDFTABL«4993*w»

inputs-fail 47
$ merge --v1 --out t.tab --ddrescue p.img p.map
refused udfsalvage: input 1: fault 8 Io at record 0\n

inputs-fail 2047
$ merge --v1 --out t.tab --ddrescue p.img p.map
refused udfsalvage: input 1: fault 8 Io at record 1\n

inputs-fail 2048
$ merge --v1 --out t.tab --ddrescue p.img p.map
refused udfsalvage: input 1: fault 8 Io at record 1\n

inputs-fail 4095
$ merge --v1 --out t.tab --ddrescue p.img p.map
refused udfsalvage: input 1: fault 8 Io at record 1\n

= an_image_that_is_read_once_makes_its_table
* files

inputs-fail 4096
$ merge --v1 --out t.tab --ddrescue p.img p.map
silent
has t.tab table 0:61 2:63
";

#[test]
fn images_of_which_no_block_is_held(rt: HostRuntime) -> Result<(), Fail> {
    check(&rt, rt.alloc(), SCRIPT)
}
