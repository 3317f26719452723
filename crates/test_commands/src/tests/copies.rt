//! Files with named streams, and what a summary says of copies that disagree.

use crate::tests::check;
use std::test::Fail;

static STREAMS: &str = r"
* an extended entry of A
# The entry of the file A, in block 275, is made an extended one (ECMA-167 4/14.17), whose stream directory's address is at byte 152.
fill 275 00
tag 275 266 3
write 275 20 \x04
write 275 27 \x05
write 275 56 \x88\x13
write 275 92 \x3c\x10\xd1\x07\x07\x04\x0a\x1e
write 275 212 \x08
write 275 216 \x88\x13\0\0\x05

= a_file_whole_torn_or_without_a_name
# The stream directory has one block, the logical block 9 of the first partition. Of the file a block is not known, and then the root's body, without which no
# name leads to it; then its entry, and the file set, without which the volume does not open.
* an extended entry of A
write 275 152 \0\x08\0\0\x09
let ONE Streams    1 file with named streams, which are ignored

but
$ summary --last 600 disc.tab
out-lines 1 «ONE»

but 278
$ summary --last 600 disc.tab
out-lines 1 «ONE»

but 274
$ summary --last 600 disc.tab
out TEST   UDF 1.50, type 1   601 blocks, 1.2 MB\nNo file is complete,\nnames may be missing in 1 folder;\nat least 1 block is worth reading again\nFiles      0 whole (0 B)\nFolders    0 whole   1 torn\n           names may be missing in /\n«ONE»\nDeleted    2 entries\nGuarantee  nothing seen contradicts the standard;\n           1 unknown block could\nDisc       600 known   1 not known   0 in conflict\n           1 of these is needed, in 1 place\nNext       udfsalvage reread --last 600 --group 16 --mapfile want.map disc.tab\n           ddrescue -d -r3 -b2048 -m want.map /dev/sr0 p600.img p600.map\n           udfsalvage merge --out disc.tab disc.tab --ddrescue p600.img p600.map\n

but 275
$ summary --last 600 disc.tab
out-lines 0 Streams

but 272
$ summary --last 600 disc.tab
out-lines 0 Streams

directory 1 a=3 b=3 c=4
but
$ summary --last 600 disc.tab
out-lines 1 Streams    2 files with named streams, which are ignored

directory 1 a=3 b=3 c=3
but
$ summary --last 600 disc.tab
out-lines 1 Streams    3 files with named streams, which are ignored

= the_length_decides
# An address of length 0, with and without bits of a type; one of length 1; and one whose length has bits in its highest byte alone.
* an extended entry of A

write 275 152 \0\0\0\0\x09
but
$ summary --last 600 disc.tab
out-lines 0 Streams

write 275 152 \0\0\0\x40\x09
but
$ summary --last 600 disc.tab
out-lines 0 Streams

write 275 152 \x01
but
$ summary --last 600 disc.tab
out-lines 1 Streams    1 file

write 275 152 \0\0\0\x20
but
$ summary --last 600 disc.tab
out-lines 1 Streams    1 file

= other_entries_have_no_streams
# A file entry that is no extended one has other fields there, and a directory is no file.
then status 0
then error

write 275 152 \0\x08\0\0\x09
but
$ summary --last 600 disc.tab
out-lines 0 Streams

fill 273 00
tag 273 266 1
write 273 20 \x04
write 273 27 \x04
write 273 56 \x78
write 273 212 \x08
write 273 216 \x78\0\0\0\x02
write 273 152 \0\x08\0\0\x09
but
$ summary --last 600 disc.tab
out-lines 0 Streams
out-lines 1 Files      2 whole
out-lines 1 Folders    1 whole
";

#[test]
fn named_streams(rt: HostRuntime) -> Result<(), Fail> {
    check(&rt, rt.alloc(), STREAMS)
}

static SPARING_COPIES: &str = r"
= sparing_copies_that_agree
# Those of the sample volumes (UDF 2.01 2.2.11) are in the blocks 100 and 200, and have 2,048 bytes.
then status 0
then out-lines 0 Spares

but
$ summary --last 600 disc.tab

disc sparable
but
$ summary --last 600 disc.tab

disc two-maps
but
$ summary --last 600 disc.tab

= from_byte_16_on
# Bytes of the tag, which holds its own location in each copy, are not compared; the bytes after it, up to the last, are.
disc sparable
let ONE Spares     sparing copies disagree: the volume is not lawful, and files in spared packets may be old

write 200 0 \x07
but
$ summary --last 600 disc.tab
out-lines 0 Spares

write 200 15 \x07
but
$ summary --last 600 disc.tab
out-lines 0 Spares

write 200 16 \x07
but
$ summary --last 600 disc.tab
out-lines 1 «ONE»

write 200 60 \x07
but
$ summary --last 600 disc.tab
out-lines 1 «ONE»

write 200 2047 \x07
but
$ summary --last 600 disc.tab
out-lines 1 «ONE»

write 200 56 \x20
but
$ summary --last 600 disc.tab
out TEST   UDF 1.50, sparable   601 blocks, 1.2 MB\n2 files are complete\nFiles      2 whole (5.0 kB)\nFolders    1 whole\n«ONE»\nGuarantee  does not hold: two copies of the sparing table differ:\n           blocks 100 and 200\nDisc       601 known   0 not known   0 in conflict\nNext       All is whole. Write it out:\n           udfsalvage extract --last 600 --to files disc.tab\n

= within_the_size
# Both maps say that a table has 72 bytes.
disc sparable
write 32 484 \x48\0
write 48 484 \x48\0

write 200 71 \x07
but
$ summary --last 600 disc.tab
out-lines 1 Spares

write 200 72 \x07
but
$ summary --last 600 disc.tab
out-lines 0 Spares

= known_in_both
# Tables of 4,096 bytes in three places, of which the second and the third differ at the first byte of the second block. A block that is not known, or is in
# conflict, is reported as different from no other copy of it; and the first blocks are not asked for the second ones.
disc sparable
write 32 482 \x03
write 48 482 \x03
write 32 484 \0\x10
write 48 484 \0\x10
write 32 496 \x2c\x01
write 48 496 \x2c\x01
write 300 0 \0\0\x02\0\x2f\0\0\0\0\0\0\0\0\x2c\x01
write 301 0 \x07
write 300 17 *UDF Sparing Table
write 300 48 \x01
write 300 56 \0\0\0\0\x90\x01\0\0

but
$ summary --last 600 disc.tab
out-lines 1 Spares

but 101
$ summary --last 600 disc.tab
out-lines 1 Spares

but 101 201
$ summary --last 600 disc.tab
out-lines 0 Spares

but 301
$ summary --last 600 disc.tab
out-lines 0 Spares

but 200 300
$ summary --last 600 disc.tab
out-lines 1 Spares

but
also 301 09
$ summary --last 600 disc.tab
out-lines 0 Spares

= of_the_second_map
# The second map's, where there are two; and none where the volume does not open.
disc two-maps
write 200 56 \x20

but
$ summary --last 600 disc.tab
out-lines 1 Spares

but 272
$ summary --last 600 disc.tab
out-lines 0 Spares
";

#[test]
fn sparing_copies(rt: HostRuntime) -> Result<(), Fail> {
    check(&rt, rt.alloc(), SPARING_COPIES)
}

static ANCHORS_AND_DESCRIPTORS: &str = r"
= anchors_and_descriptors
# Known anchors, and known copies of the volume's descriptors, that do not say the same (ECMA-167 3/8.4). Of one that is not known, or not valid, nothing is
# said; and the last is a reserve sequence without an end.
let HEAD TEST   UDF 1.50, type 1   601 blocks, 1.2 MB\n
let REST 2 files are complete\nFiles      2 whole (5.0 kB)\nFolders    1 whole\n
let DISC Disc\x20\x20\x20\x20\x20\x20\x20
let NEXT \x20not known   0 in conflict\nNext       All is whole. Write it out:\n           udfsalvage extract --last 600 --to files disc.tab\n
let COPIES Copies     copies of the volume's descriptors differ: the volume is not lawful, and the guarantee does not hold for it\n

write 600 20 \x30
but
$ summary --last 600 disc.tab
done 0 «HEAD»Anchors    anchors differ: block 256 opens another state of the disc than block 600: the volume is not lawful, and the guarantee does not hold for it\n«REST»Guarantee  does not hold: two anchors name different extents:\n           blocks 256 and 600\n«DISC»601 known   0«NEXT»

write 600 20 \x30
but 256
$ summary --last 600 disc.tab
done 0 «HEAD»«REST»Guarantee  nothing seen contradicts the standard;\n           1 unknown block could\n«DISC»600 known   1«NEXT»

write 600 0 \x03
but
$ summary --last 600 disc.tab
done 0 «HEAD»«REST»Guarantee  holds: nothing on this disc contradicts the standard\n«DISC»601 known   0«NEXT»

write 48 240 \x01\x02
but
$ summary --last 600 disc.tab
done 0 «HEAD»«COPIES»«REST»Guarantee  does not hold: two copies of a volume descriptor differ:\n           blocks 32 and 48\n«DISC»601 known   0«NEXT»

write 49 192 \0
but
$ summary --last 600 disc.tab
done 0 «HEAD»«COPIES»«REST»Guarantee  does not hold: two copies of a volume descriptor differ:\n           blocks 33 and 49\n«DISC»601 known   0«NEXT»

write 48 240 \x01\x02
but 48
$ summary --last 600 disc.tab
done 0 «HEAD»«REST»Guarantee  nothing seen contradicts the standard;\n           1 unknown block could\n«DISC»600 known   1«NEXT»

write 50 0 \0
but
$ summary --last 600 disc.tab
done 0 «HEAD»«COPIES»«REST»Guarantee  does not hold: two copies of a volume descriptor differ:\n           blocks 34 and 50\n«DISC»601 known   0«NEXT»
";

#[test]
fn anchors_and_descriptors(rt: HostRuntime) -> Result<(), Fail> {
    check(&rt, rt.alloc(), ANCHORS_AND_DESCRIPTORS)
}
