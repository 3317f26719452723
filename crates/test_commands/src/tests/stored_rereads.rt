//! `reread` of regular files, of which no block is held: what it prints, what it reads, and what an input does that cannot be read.

use crate::tests::check;
use std::test::Fail;

static SCRIPT: &str = r"
= the_same_numbers_of_files_and_devices
# Nothing that is known names a volume, so the anchors are wanted. What is in `dev/` is a device: then the blocks are held.
file a.rd reading 300:61 301:62
file dev/a.rd reading 300:61 301:62
file p.img text «2048*a»
file p.map text 0x0 + 1\n0 0x800 +\n
then done 1 256\n344\n600\n

$ reread --last 600 a.rd

$ reread --last 600 dev/a.rd

$ merge --out t.tab a.rd
$ reread --last 600 t.tab

$ merge --v1 --out t.tab a.rd
$ reread --last 600 t.tab

$ reread --last 600 --ddrescue p.img p.map

$ reread --last 600 a.rd --ddrescue p.img p.map a.rd

$ reread --last 600 a.rd --ddrescue p.img p.map dev/a.rd

= the_numbers_of_a_volume
# Block 278 is one of the file `A`, as are 277 and 279.
but 278
then done 1 278\n

$ reread --last 600 disc.tab

$ merge --v1 --out one.tab disc.tab
$ reread --last 600 one.tab

$ merge --v1 --out one.tab disc.tab
$ reread --last 600 disc.tab one.tab

= what_is_known_after_the_last_block
but

$ reread --last 513 disc.tab
refused udfsalvage: fault 2 PastEnd 514\n

= blocks_that_are_not_looked_at_are_not_read
# The table has 601 blocks in 19 packets, of which the headers are read twice, 488 bytes; and the volume has fewer than 40 blocks that are no file's.
but

inputs-fail 82408
$ reread --last 600 disc.tab
done 0

= a_device_that_fails_in_the_middle_of_a_walk
# The table has 2076 bytes: the headers, 28 bytes, are read twice, and then the anchor, which names the blocks 32 and 48. The device fails for good, so
# the record that is sought from the front is the first, whichever it was.
at 256

some 0 2104
inputs-fail «n»
$ reread --last 600 disc.tab
refused udfsalvage: input 1: fault 8 Io at record 0\n

inputs-fail 2104
$ reread --last 600 disc.tab
done 1 32\n48\n

= a_device_that_fails_on_the_way_to_a_path_or_a_mapfile
# The headers of the table, which are read twice, have 488 bytes, and the volume is opened by more than six blocks.
but 278

inputs-fail 12776
$ reread --only /A --last 600 disc.tab
refused udfsalvage: input 1: fault 8 Io at record 0\n

inputs-fail 12776
$ reread --mapfile m.map --last 600 disc.tab
refused udfsalvage: input 1: fault 8 Io at record 0\n
files 1

= a_file_that_is_no_input
file x text no reading
but

$ reread --last 600 x
refused udfsalvage: input 1: fault 1 Magic at record 0\n

$ reread --last 600 disc.tab x
refused udfsalvage: input 2: fault 1 Magic at record 0\n

$ reread --last 600 disc.tab absent
refused udfsalvage: cannot open input 2\n
";

#[test]
fn rereads_of_files_of_which_no_block_is_held(rt: HostRuntime) -> Result<(), Fail> {
    check(&rt, rt.alloc(), SCRIPT)
}
