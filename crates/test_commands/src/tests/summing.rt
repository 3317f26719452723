//! What `summary` prints. The discs have 601 blocks, which are 1,230,848 bytes.

use crate::tests::check;
use std::test::Fail;

static SCRIPT: &str = r"
= a_volume_on_one_screen
# Of a volume that is whole, one of which a file is torn, and one that does not open.

but
$ summary --last 600 disc.tab
done 0 TEST   UDF 1.50, type 1   601 blocks, 1.2 MB\n2 files are complete\nFiles      2 whole (5.0 kB)\nFolders    1 whole\nGuarantee  holds: nothing on this disc contradicts the standard\nDisc       601 known   0 not known   0 in conflict\nNext       All is whole. Write it out:\n           udfsalvage extract --last 600 --to files disc.tab\n

but 277 279
$ summary --size 1230848 disc.tab
done 1 TEST   UDF 1.50, type 1   601 blocks, 1.2 MB\n1 file is complete, 1 damaged;\n2 blocks are worth reading again\nFiles      1 whole (2 B)\n           1 torn (3.0 kB of 5.0 kB lost)\nFolders    1 whole\nGuarantee  holds: nothing on this disc contradicts the standard\nDisc       599 known   2 not known   0 in conflict\n           2 of these are needed, in 2 places\nTorn       59.0 %  /A   3.0 kB of 5.0 kB lost\nNext       udfsalvage reread --size 1230848 --group 16 --mapfile want.map disc.tab\n           ddrescue -d -r3 -b2048 -m want.map /dev/sr0 p599.img p599.map\n           udfsalvage merge --out disc.tab disc.tab --ddrescue p599.img p599.map\n

but 256 344 600
$ summary --last 600 disc.tab
done 1 does not open: at least one of the blocks 256, 344 and 600 is needed\nGuarantee  nothing seen contradicts the standard;\n           3 unknown blocks could\nDisc       598 known   3 not known   0 in conflict\n           3 of these are needed, in 3 places\nNext       udfsalvage reread --last 600 --group 16 --mapfile want.map disc.tab\n           ddrescue -d -r3 -b2048 -m want.map /dev/sr0 p598.img p598.map\n           udfsalvage merge --out disc.tab disc.tab --ddrescue p598.img p598.map\n

= what_to_do_next
# A block in conflict that is needed has to be forgotten first; the rules are kept in what is suggested; and a volume that the strict rules refuse for its revision is read by the wide ones.
then status 1
then error

but 279
also 277 07
$ summary --last 600 disc.tab
out-ends Disc       599 known   1 not known   1 in conflict\n           2 of these are needed, in 2 places\nTorn       59.0 %  /A   3.0 kB of 5.0 kB lost\nNext       udfsalvage forget --conflicts --out clean.tab disc.tab\n           udfsalvage reread --last 600 --group 16 --mapfile want.map clean.tab\n           ddrescue -d -r3 -b2048 -m want.map /dev/sr0 p599.img p599.map\n           udfsalvage merge --out clean.tab clean.tab --ddrescue p599.img p599.map\n

write 32 240 \0\x02
write 48 240 \0\x02
but 277
$ summary --last 600 --profile wide disc.tab
out-ends Next       udfsalvage reread --last 600 --profile wide --group 16 --mapfile want.map disc.tab\n           ddrescue -d -r3 -b2048 -m want.map /dev/sr0 p600.img p600.map\n           udfsalvage merge --out disc.tab disc.tab --ddrescue p600.img p600.map\n

write 32 240 \0\x02
write 48 240 \0\x02
but
$ summary --last 600 disc.tab
out-ends Disc       601 known   0 not known   0 in conflict\nNext       UDF 2.00 (a camcorder or recorder disc): add --profile wide\n           udfsalvage summary --last 600 --profile wide disc.tab\n

= what_the_wide_rules_read_of_the_rest
# The file A has 5,010 bytes and one extent of 5,000, which ends in its third block: a fault by the strict rules alone.

write 275 56 \x92\x13
but
$ summary --last 600 disc.tab
done 1 TEST   UDF 1.50, type 1   601 blocks, 1.2 MB\n1 file is complete,\n1 with faults\nFiles      1 whole (2 B)\nFolders    1 whole\nFaults     1 with faults\nWide       1 with a fault is read by the wide rules: add --profile wide\nGuarantee  does not hold: a file or folder has fault 9:\n           /A\nDisc       601 known   0 not known   0 in conflict\nNext       No block is worth reading again. Write out what is whole:\n           udfsalvage extract --last 600 --to files disc.tab\n

= what_refuses_a_summary
file empty.rd reading

$ summary --last 512 empty.rd
refused udfsalvage: fault 1 LastRange\n

$ summary --last 600 empty.rd absent.rd
refused udfsalvage: cannot open input 2\n
";

#[test]
fn volumes_on_one_screen(rt: HostRuntime) -> Result<(), Fail> {
    check(&rt, rt.alloc(), SCRIPT)
}

static OF_SAMPLE_VOLUMES: &str = r#"
= what_is_and_is_not_known
# A block of a file, which holds 2,048 of its 5,000 bytes, and two of its blocks; the entry of a file; the root's body, without which no name leads to the
# files; and the file set.
let HEAD TEST   UDF 1.50, type 1   601 blocks, 1.2 MB\n
let NEXT Next       udfsalvage reread --last 600 --group 16 --mapfile want.map disc.tab\n           ddrescue -d -r3 -b2048 -m want.map /dev/sr0
let P600 «NEXT» p600.img p600.map\n           udfsalvage merge --out disc.tab disc.tab --ddrescue p600.img p600.map\n
let P599 «NEXT» p599.img p599.map\n           udfsalvage merge --out disc.tab disc.tab --ddrescue p599.img p599.map\n

but 278
$ summary --last 600 disc.tab
done 1 «HEAD»1 file is complete, 1 damaged;\n1 block is worth reading again\nFiles      1 whole (2 B)\n           1 torn (2.0 kB of 5.0 kB lost)\nFolders    1 whole\nGuarantee  holds: nothing on this disc contradicts the standard\nDisc       600 known   1 not known   0 in conflict\n           1 of these is needed, in 1 place\nTorn       41.0 %  /A   2.0 kB of 5.0 kB lost\n«P600»

but 278 279
$ summary --last 600 disc.tab
done 1 «HEAD»1 file is complete, 1 damaged;\n2 blocks are worth reading again\nFiles      1 whole (2 B)\n           1 torn (3.0 kB of 5.0 kB lost)\nFolders    1 whole\nGuarantee  holds: nothing on this disc contradicts the standard\nDisc       599 known   2 not known   0 in conflict\n           2 of these are needed, in 1 place\nTorn       59.0 %  /A   3.0 kB of 5.0 kB lost\n«P599»

but 275
$ summary --last 600 disc.tab
done 1 «HEAD»1 file is complete, 1 could not be looked at;\nat least 1 block is worth reading again\nFiles      1 whole (2 B)\n           1 not yet known: a file or a whole folder\nFolders    1 whole\nGuarantee  nothing seen contradicts the standard;\n           1 unknown block could\nDisc       600 known   1 not known   0 in conflict\n           1 of these is needed, in 1 place\nUnread     1 entry, a file or a whole folder of unknown size:\n           /A\n«P600»

but 274
$ summary --last 600 disc.tab
done 1 «HEAD»No file is complete,\nnames may be missing in 1 folder;\nat least 1 block is worth reading again\nFiles      0 whole (0 B)\nFolders    0 whole   1 torn\n           names may be missing in /\nDeleted    2 entries\nGuarantee  nothing seen contradicts the standard;\n           1 unknown block could\nDisc       600 known   1 not known   0 in conflict\n           1 of these is needed, in 1 place\n«P600»

but 272
$ summary --last 600 disc.tab
done 1 does not open: block 272 is needed\nDeleted    3 entries\nGuarantee  nothing seen contradicts the standard;\n           1 unknown block could\nDisc       600 known   1 not known   0 in conflict\n           1 of these is needed, in 1 place\n«P600»

= what_else_is_counted
# A folder that lies in itself, a node with a fault, a block in conflict that no file needs, and an empty file of type 0 beside one of type 249, which the wide
# rules take for files.
then error

write 274 64 \x01
but
$ summary --last 600 disc.tab
out-has \nFiles      1 whole (2 B)\nFolders    1 whole\nLoops      1 folder that is inside itself\n
out-lines 0 Other
out-lines 0 Faults

disc two-maps
write 274 108 \x02
but
$ summary --last 600 disc.tab
out-lines 1 Faults     1 with faults
out-lines 0 Other
out-lines 0 Loops

but
also 590 01
$ summary --last 600 disc.tab
out-lines 1 Disc       600 known   0 not known   1 in conflict

write 275 27 \xf9
write 276 27 \0
write 276 56 \0
write 276 172 \0
but
$ summary --last 600 disc.tab
out-has \nFiles      0 whole (0 B)\n
out-has \nOther      1 link or device\nOther      1 file of a type that is not written (249, real-time): --profile wide writes it\n

write 275 27 \xf9
write 276 27 \0
write 276 56 \0
write 276 172 \0
but
$ summary --last 600 --profile wide disc.tab
out-has \nFiles      2 whole (5.0 kB)\n
out-lines 0 Other

write 275 27 \xf9
write 276 27 \0
write 276 56 \0
write 276 172 \0
but
$ report -v --last 600 disc.tab
remarked 1 file of a type that is not written (249, real-time): --profile wide writes it\nThe guarantee holds: nothing on this disc contradicts the standard\n

write 275 27 \xf9
write 276 27 \0
write 276 56 \0
write 276 172 \0
but
$ report -v --last 600 --profile wide disc.tab
remarked The guarantee holds: nothing on this disc contradicts the standard\n

= why_the_guarantee_does_not_hold
# The name A leads to the root; two names are A; the tags of the entry of A and of the descriptor of B are wrong; the tag of the second copy of the sparing table
# is; and a name that would turn the direction of text leads to the root.

write 274 64 \x01
but
$ summary --last 600 disc.tab
out-has \nGuarantee  does not hold: a folder is inside itself:\n           /A\nDisc

write 274 119 A
but
$ summary --last 600 disc.tab
out-has \nGuarantee  does not hold: two entries have the same path:\n           /A\nDisc

write 275 0 \x02
but
$ summary --last 600 disc.tab
out-has \nGuarantee  does not hold: a file or folder has fault 1:\n           /A\nDisc

write 274 80 \x02
but
$ summary --last 600 disc.tab
out-has \nGuarantee  does not hold: a file or folder has fault 10:\n           /\nDisc

disc sparable
write 200 0 \x01
but
$ summary --last 600 disc.tab
out-has \nGuarantee  does not hold: a copy of the sparing table has no valid tag:\n           block 200\nDisc

directory 1 turned=1
but
$ summary --last 600 disc.tab
out-has \nGuarantee  does not hold: a folder is inside itself:\n           /\\u202Ea\nDisc

= equal_names_in_other_folders
# The files of the folders `/`, `/D`, `/D/D` and `/E` have the same names. Then `/D` has one of them a second time, behind its folder; and `/E` is a second time in `/`.

directory 1 D=10 E=30 X=3
directory 10 D=20 X=3
directory 20 D=3 E=4 X=3
directory 30 D=3 X=4
but
$ summary --last 600 disc.tab
out-has \nGuarantee  holds: nothing on this disc contradicts the standard\nDisc

directory 1 D=10 E=30 X=3
directory 10 X=4 D=20 X=3
directory 20 D=3 E=4 X=3
directory 30 D=3 X=4
but
$ summary --last 600 disc.tab
out-has \nGuarantee  does not hold: two entries have the same path:\n           /D/X\nDisc

directory 1 D=10 E=30 E=20 X=3
directory 10 X=3
directory 20 F=4
directory 30 D=3 X=4
but
$ summary --last 600 disc.tab
out-has \nGuarantee  does not hold: two entries have the same path:\n           /E\nDisc

= the_first_line
# A disc without an anchor; a map of a disc that is written once (UDF 2.2.8); the kinds of maps; and a volume without a label, of another revision.

disc blank
but
$ summary --last 600 disc.tab
out does not open: there is no anchor\nGuarantee  does not hold: the volume does not open:\n           there is no anchor\nDisc       601 known   0 not known   0 in conflict\nNext       Reading blocks again will not help:\n           man udfsalvage-errors explains this fault\n

disc sparable
write 32 445 *UDF Virtual Partition\0
write 48 445 *UDF Virtual Partition\0
but
$ summary --last 600 disc.tab
out-begins does not open: a partition map is of a kind that cannot be read, such as that of write-once discs (VAT) or metadata partitions\n

disc sparable
but
$ summary --last 600 disc.tab
out-begins TEST   UDF 1.50, sparable   601 blocks, 1.2 MB\n

disc two-maps
but
$ summary --last 600 disc.tab
out-begins TEST   UDF 1.50, type 1, sparable   601 blocks, 1.2 MB\n

write 32 84 \0\0\0\0\0
write 48 84 \0\0\0\0\0
write 32 211 \0
write 48 211 \0
write 32 240 \x01\x02
write 48 240 \x01\x02
but
$ summary --last 600 disc.tab
out-begins (no label)   UDF 2.01, type 1   601 blocks, 1.2 MB\n

= a_disc_that_is_twice_as_large_as_its_volume
# The partition ends with block 571: of a disc of 1,145 blocks it is at least half, and of one of 1,147 it is not.
but

$ summary --last 1144 disc.tab
out-begins TEST   UDF 1.50, type 1   1,145 blocks, 2.3 MB\n2 files are complete\n

$ summary --last 1146 disc.tab
out-begins TEST   UDF 1.50, type 1   1,147 blocks, 2.3 MB\n           the volume ends before block 572: is the size of the disc right?\n2 files are complete\n

= of_which_readings_differ
# Two readings of block 278 differ, which holds 2,048 of 5,000 bytes: the file is disputed, and not torn. Where 277 is not known either, it is torn.

but
also 278 01
$ summary --last 600 disc.tab
out-has 1 file is complete,\n1 disputed: two readings differ;\n
out-has Files      1 whole (2 B)\n           1 disputed: two readings differ, nothing is lost\nFolders
out-has Torn       disputed  /A   2.0 kB of 5.0 kB differ\nNext

but 277
also 278 01
$ summary --last 600 disc.tab
out-has 1 file is complete, 1 damaged;\n
out-has Torn       81.9 %  /A   4.1 kB of 5.0 kB lost\n

= what_is_lost_is_counted
# The folder at 10 has the files A, of 5,000 bytes, and B, of 2. All link counts are 1. The root's body is not read, then also a block of A, then the folder's body.
# Last the file set is not read, and the root is a lost folder too.
directory 1 D=10
directory 10 A=3 B=4
write 273 48 \x01
write 282 48 \x01
write 275 48 \x01
write 276 48 \x01

but 274
$ summary --last 600 disc.tab
out-has \nLost       1 folder with 2 files whole (5.0 kB)\n           what is whole of these: extract --lost lost\nGuarantee

but 274 278
$ summary --last 600 disc.tab
out-has \nLost       1 folder with 1 file whole (2 B), 1 torn\n           what is whole of these: extract --lost lost\nGuarantee

but 274 283
$ summary --last 600 disc.tab
out-has \nLost       1 folder with 0 files whole (0 B)\n           2 files without a folder\n           what is whole of these: extract --lost lost\nGuarantee

but 272
$ summary --last 600 disc.tab
out-begins does not open: block 272 is needed\nLost       2 folders with 2 files whole (5.0 kB)\n           what is whole of these: extract --lost lost\nGuarantee

but
$ summary --last 600 disc.tab
out-lines 0 Lost

= a_summary_that_cannot_be_printed
but 278
then status 2
then error udfsalvage: cannot write output\n
then out-front TEST   UDF 1.50, type 1   601 blocks, 1.2 MB\n1 file is complete, 1 damaged;\n1 block is worth reading again\nFiles      1 whole (2 B)\n           1 torn (2.0 kB of 5.0 kB lost)\nFolders    1 whole\nGuarantee  holds: nothing on this disc contradicts the standard\nDisc       600 known   1 not known   0 in conflict\n           1 of these is needed, in 1 place\nTorn       41.0 %  /A   2.0 kB of 5.0 kB lost\nNext       udfsalvage reread --last 600 --group 16 --mapfile want.map disc.tab\n           ddrescue -d -r3 -b2048 -m want.map /dev/sr0 p600.img p600.map\n           udfsalvage merge --out disc.tab disc.tab --ddrescue p600.img p600.map\n

terminal-fails 0
$ summary --last 600 disc.tab

terminal-fails 1
$ summary --last 600 disc.tab

terminal-fails 80
$ summary --last 600 disc.tab

terminal-fails 400
$ summary --last 600 disc.tab

terminal-fails 619
$ summary --last 600 disc.tab
"#;

#[test]
fn sample_volumes_on_one_screen(rt: HostRuntime) -> Result<(), Fail> {
    check(&rt, rt.alloc(), OF_SAMPLE_VOLUMES)
}

static PATHS: &str = r#"
= torn_files_by_loss_and_by_path
# Three names of the file of which 2,048 of 5,000 bytes are lost, one of them two wide letters, and a name of a file of which 952 of 3,000 are, its entry at the
# logical block 20 and its bytes from the logical block 8 on.
directory 1 c=20 japan=3 b=3 a=3
fill 292 00
tag 292 261 20
write 292 20 \x04
write 292 27 \x05
write 292 56 \xb8\x0b
write 292 172 \x08
write 292 176 \xb8\x0b\0\0\x08

but 278 281
$ summary --last 600 disc.tab
out TEST   UDF 1.50, type 1   601 blocks, 1.2 MB\nNo file is complete, 4 damaged;\n2 blocks are worth reading again\nFiles      0 whole (0 B)\n           4 torn (7.1 kB of 18.0 kB lost)\nFolders    1 whole\nDeleted    1 entry\nGuarantee  holds: nothing on this disc contradicts the standard\nDisc       599 known   2 not known   0 in conflict\n           2 of these are needed, in 2 places\nTorn       41.0 %  /a      2.0 kB of 5.0 kB lost\n           41.0 %  /b      2.0 kB of 5.0 kB lost\n           41.0 %  /日本   2.0 kB of 5.0 kB lost\n           31.7 %  /c       952 B of 3.0 kB lost\nNext       udfsalvage reread --last 600 --group 16 --mapfile want.map disc.tab\n           ddrescue -d -r3 -b2048 -m want.map /dev/sr0 p599.img p599.map\n           udfsalvage merge --out disc.tab disc.tab --ddrescue p599.img p599.map\n

= no_more_than_twenty_torn_files
directory 1 v=3 u=3 t=3 s=3 r=3 q=3 p=3 o=3 n=3 m=3 l=3 k=3 j=3 i=3 h=3 g=3 f=3 e=3 d=3 c=3 b=3 a=3
let LOST \x20\x20\x202.0 kB of 5.0 kB lost\n\x20\x20\x20\x20\x20\x20\x20\x20\x20\x20\x20

but 278
$ summary --last 600 disc.tab
out-has \nTorn       41.0 %  /a«LOST»41.0 %  /b«LOST»41.0 %  /c«LOST»41.0 %  /d«LOST»41.0 %  /e«LOST»41.0 %  /f«LOST»41.0 %  /g«LOST»41.0 %  /h«LOST»41.0 %  /i«LOST»41.0 %  /j«LOST»41.0 %  /k«LOST»41.0 %  /l«LOST»41.0 %  /m«LOST»41.0 %  /n«LOST»41.0 %  /o«LOST»41.0 %  /p«LOST»41.0 %  /q«LOST»41.0 %  /r«LOST»41.0 %  /s«LOST»41.0 %  /t«LOST»and 2 more\n

= no_name_turns_the_text
# A mark that turns the direction of text.
directory 1 turned=3

but 278
$ summary --last 600 disc.tab
out-lines 1 Torn       41.0 %  /\\u202Ea   2.0 kB of 5.0 kB lost

= several_torn_folders
# Two directories, at the logical blocks 20 and 22, whose bodies are not known.
directory 1 p=20 q=22
directory 20 x=3
directory 22 y=3

but 293 295
$ summary --last 600 disc.tab
out-has Folders    1 whole   2 torn\n           names may be missing in /p\n           and 1 more\n

= a_long_path_is_cut_in_the_middle
# A name of 70 letters: each line has at most 80 columns, and the path its beginning and its end.
directory 1 letters=3

but 278
$ summary --last 600 disc.tab
out-has Torn       41.0 %  /abcdefghijkl...fghijklmnopqr   2.0 kB of 5.0 kB lost\n

but 275
$ summary --last 600 disc.tab
out-has            /abcdefghijklmnopqrstuvwxyzabcdef...lmnopqrstuvwxyzabcdefghijklmnopqr\n
"#;

#[test]
fn paths_on_one_screen(rt: HostRuntime) -> Result<(), Fail> {
    check(&rt, rt.alloc(), PATHS)
}
