//! `list`, `report`, `summary` and `page` of regular files, of which no block is held: what is printed, what is read, and what an input does that cannot be read.

use crate::tests::check;
use std::test::Fail;

static SCRIPT: &str = r#"
= the_same_lines_of_files_and_devices
# Block 278 is one of the file `A`. What is in `dev/` is a device: then the blocks are held.
file dev/none.rd reading
let A torn\tfile\t2048\t5000\t2001-07-04T09:30:00Z\t/A\n
let B whole\tfile\t0\t2\t2001-07-04T09:30:00Z\t/B\n
but 278
then status 1
then error

$ list --last 600 disc.tab
out «A»«B»

$ list --last 600 disc.tab dev/none.rd
out «A»«B»

$ merge --v1 --out one.tab disc.tab
$ list --last 600 one.tab
out «A»«B»

$ image --last 600 --out p.img --mapfile p.map disc.tab
$ list --ddrescue p.img p.map
out «A»«B»

$ list --torn --header --last 600 disc.tab
out standing\tkind\tlost\tsize\ttime\tpath\n«A»

$ list --torn --header --last 600 disc.tab dev/none.rd
out standing\tkind\tlost\tsize\ttime\tpath\n«A»

$ list --json --null --last 600 dev/none.rd disc.tab
out {"standing":"torn","kind":"file","lost":2048,"size":5000,"time":"2001-07-04T09:30:00.000000Z","path":"/A"}\0{"standing":"whole","kind":"file","lost":0,"size":2,"time":"2001-07-04T09:30:00.000000Z","path":"/B"}\0

= the_whole_volume
file all.rd reading
file /dev/stdin sample
file dev/all.rd sample
then done 0 whole\tfile\t0\t5000\t2001-07-04T09:30:00Z\t/A\nwhole\tfile\t0\t2\t2001-07-04T09:30:00Z\t/B\n

$ list --last 600 -

$ list --last 600 all.rd dev/all.rd

= two_passes
# What the first has not read the second has, alone; and then block 278 differs, and is as one that is not known.

but 278
$ merge --out one.tab disc.tab
at 278
$ list --last 600 one.tab disc.tab
done 0 whole\tfile\t0\t5000\t2001-07-04T09:30:00Z\t/A\nwhole\tfile\t0\t2\t2001-07-04T09:30:00Z\t/B\n

but
$ merge --out one.tab disc.tab
at 275
$ merge --out two.tab disc.tab
file three.rd reading 278:00
$ list --last 600 two.tab one.tab three.rd
done 1 torn\tfile\t2048\t5000\t2001-07-04T09:30:00Z\t/A\nwhole\tfile\t0\t2\t2001-07-04T09:30:00Z\t/B\n

= what_is_known_after_the_last_block
but

$ list --last 513 disc.tab
refused udfsalvage: fault 2 PastEnd 514\n

= blocks_that_are_not_looked_at_are_not_read
# The table has 601 blocks in 19 packets, of which the headers are read twice, 488 bytes; and the volume has fewer than 40 blocks that are no file's, of which
# each is read at most three times: to find the nodes, for the lines, and for the remarks.
but

inputs-fail 246248
$ list -v --last 600 disc.tab
done 0 whole\tfile\t0\t5000\t2001-07-04T09:30:00Z\t/A\nwhole\tfile\t0\t2\t2001-07-04T09:30:00Z\t/B\n
remarked

= a_device_that_fails_in_the_middle_of_a_walk
# The table has 2076 bytes: the headers, 28 bytes, are read twice, and then the anchor, which names the blocks 32 and 48. The device fails for good, so
# the record that is sought from the front is the first, whichever it was. What is remarked is found in the anchor, which is read again.
at 256

some 0 2104
inputs-fail «n»
$ list --last 600 disc.tab
refused udfsalvage: input 1: fault 8 Io at record 0\n

inputs-fail 2104
$ list -v --last 600 disc.tab
done 1
remarked no remarks on the volume: an input could not be read again\n

inputs-fail 4152
$ list -v --last 600 disc.tab
done 1
remarked the volume does not open: at least one of the blocks 32 and 48 is needed\n

= a_device_that_fails_in_the_middle_of_a_list_of_what_is_lost
# The headers are read twice, 56 bytes, and then the anchor: to open the volume, again for the places of its blocks, and again for what is remarked.
at 256

some 0 4152
inputs-fail «n»
$ list --lost --last 600 disc.tab
refused udfsalvage: input 1: fault 8 Io at record 0\n

inputs-fail 4152
$ list --lost -v --last 600 disc.tab
done 1
remarked no remarks on the volume: an input could not be read again\n

inputs-fail 6200
$ list --lost -v --last 600 disc.tab
done 1
remarked the volume does not open: at least one of the blocks 32 and 48 is needed\n

= a_device_that_fails_while_a_lost_folder_is_walked
# The headers of the table, which are read twice, have 488 bytes, and the volume is opened by more than six blocks.
directory 1 D=10
directory 10 A=3
write 282 48 \x01
write 275 48 \x01
but 274

inputs-fail 12776
$ list --lost --last 600 disc.tab
refused udfsalvage: input 1: fault 8 Io at record 0\n

= a_device_that_fails_in_the_middle_of_a_report
# The same reads as for a list; and then those for the remark on the guarantee.
at 256

some 0 2104
inputs-fail «n»
$ report --last 600 disc.tab
refused udfsalvage: input 1: fault 8 Io at record 0\n

inputs-fail 2104
$ report -v --last 600 disc.tab
done 1 UDFREPORT1 last 600\nknown 1 conflict 0\nvolume holes 32 48\nreread 32 unknown\nreread 48 unknown\nend\n
remarked no remarks on the volume: an input could not be read again\n

inputs-fail 4152
$ report -v --last 600 disc.tab
done 1 UDFREPORT1 last 600\nknown 1 conflict 0\nvolume holes 32 48\nreread 32 unknown\nreread 48 unknown\nend\n
remarked the volume does not open: at least one of the blocks 32 and 48 is needed\nwhether the guarantee holds is not known: an input could not be read again\n

= a_device_that_fails_in_the_middle_of_a_summary_or_a_page
# The anchor is read for the report, for whether the guarantee holds, and for what is counted, before anything is printed; the page is begun before it is counted.
at 256

some 0 6200
inputs-fail «n»
$ summary --last 600 disc.tab
refused udfsalvage: input 1: fault 8 Io at record 0\n

some 0 6200
inputs-fail «n»
$ page --last 600 --out p.html disc.tab
refused udfsalvage: input 1: fault 8 Io at record 0\n
files 1

= a_device_that_fails_in_the_middle_of_an_extraction
# The anchor is read to open the volume, again for the places of its blocks, and again for what is remarked: where only that fails, all is printed, and then the input
# is named. Nothing is made of a volume that does not open.
at 256
then no-folder out
then files 1

some 0 2104
inputs-fail «n»
$ extract --last 600 --to out disc.tab
refused udfsalvage: input 1: fault 8 Io at record 0\n

inputs-fail 4152
$ extract --last 600 --to out disc.tab
status 2
out volume holes 32 48\n
error udfsalvage: input 1: fault 8 Io at record 0\n

inputs-fail 6200
$ extract --last 600 --to out disc.tab
done 1 volume holes 32 48\n

= the_same_files_of_files_and_devices
# What is in `dev/` is a device: then the blocks are held.
file dev/none.rd reading
but
then done 0 written /A\nwritten /B\n
then has out/A text «2048*a»«2048*b»«904*c»
then has out/B text Hi

$ extract --last 600 --to out disc.tab

$ extract --last 600 --to out disc.tab dev/none.rd

$ extract --last 600 --unnamed more --lost lost --to out disc.tab

$ extract --last 600 --unnamed more --lost lost --to out disc.tab dev/none.rd

= the_same_report_of_files_and_devices
# What is in `dev/` is a device: then the blocks are held.
at 32 33 34 256 272 273 274 275 276 277 279
file dev/none.rd reading
then status 1
then out UDFREPORT1 last 600\nknown 11 conflict 0\nvolume ok revision 1.50 map type1\nlabel name TEST\nnode 0 whole directory 120 2001-07-04T09:30:00.000000Z /\nnode 1 torn file 5000 2001-07-04T09:30:00.000000Z /A\nmissing 278\nhole 2048 2048\nnode 2 whole file 2 2001-07-04T09:30:00.000000Z /B\nreread 278 unknown\nend\n

$ report --last 600 disc.tab

$ report --last 600 disc.tab dev/none.rd

= a_file_that_is_no_input
file x text no reading
but

$ list --last 600 x
refused udfsalvage: input 1: fault 1 Magic at record 0\n

$ list --last 600 disc.tab x
refused udfsalvage: input 2: fault 1 Magic at record 0\n

$ list --last 600 disc.tab absent
refused udfsalvage: cannot open input 2\n
"#;

#[test]
fn lists_of_files_of_which_no_block_is_held(rt: HostRuntime) -> Result<(), Fail> {
    check(&rt, rt.alloc(), SCRIPT)
}

static LINES_THAT_ARE_OUT: &str = r"
= a_device_that_fails_while_lines_are_printed
# The entries of 65,535 nodes are read to find them, and those of 65,534 again for their lines, 268,429,312 bytes in all; nothing else has as much as one
# megabyte. The lines have some megabytes, and are printed in pieces.
disc doubling 0
but

inputs-fail 200000000
$ list --last 600 disc.tab
status 2
error udfsalvage: input 1: fault 8 Io at record 0\n
out-begins whole\tdirectory\t0\t80\t2001-07-04T09:30:00Z\t/A\nwhole\tdirectory\t0\t80\t2001-07-04T09:30:00Z\t/A/A\n
";

#[test]
fn a_device_fails_while_lines_are_printed(rt: HostRuntime) -> Result<(), Fail> {
    check(&rt, rt.alloc(), LINES_THAT_ARE_OUT)
}
