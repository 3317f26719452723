//! Images with GNU ddrescue's mapfiles among the inputs.

use crate::tests::check;
use std::test::Fail;

static SCRIPT: &str = r"
* files
file p.img text «2048*a»«2048*b»«2048*c»«2048*d»
file p.map text # GNU ddrescue\n0x0 + 1\n0 0x800 +\n0x800 0x800 -\n0x1000 0xA00 +\n0x1A00 0x600 /\n
file a.rd reading 300:61

= a_pair_is_merged_as_the_reading_of_its_rescued_blocks
* files

$ merge --v1 --out t.tab --ddrescue p.img p.map
silent
has t.tab table 0:61 2:63

$ merge --v1 --ddrescue p.img p.map --out t.tab a.rd
silent
has t.tab table 0:61 2:63 300:61

$ merge --v1 --ddrescue p.img p.map --out t.tab --ddrescue p.img p.map a.rd
silent
has t.tab table 0:61 2:63 300:61

= a_pair_that_has_no_reading_is_told
# All files count before all pairs.
* files
then absent t.tab

file t.map text 0 + 1\n0 2048 +\n2047 1 +\n
$ merge --out t.tab --ddrescue p.img t.map a.rd
refused udfsalvage: input 2: mapfile line 3: runs are not contiguous\n

file t.map text 0 + 1\n0 2048\n
$ merge --out t.tab --ddrescue p.img t.map a.rd
refused udfsalvage: input 2: mapfile line 2: not a run\n

file t.map text \0\x01
$ merge --out t.tab --ddrescue p.img t.map a.rd
refused udfsalvage: input 2: mapfile line 1: not a status line\n

file t.map text 0 + 1\n0 2048 -\n2048 8192 +\n
$ merge --out t.tab --ddrescue p.img t.map a.rd
refused udfsalvage: input 2: image ends before block 4\n

file t.map text 0 + 1\n0 2048 +\n2048 0x200000000 -\n0x200000800 2048 +\n
$ merge --out t.tab --ddrescue p.img t.map a.rd
refused udfsalvage: input 2: fault 3 BlockNumber at record 2\n

= an_image_or_a_mapfile_that_is_not_there_is_told
* files

$ report --last 600 --ddrescue q.img p.map a.rd
refused udfsalvage: cannot open input 2\n

$ reread --last 600 --ddrescue p.img q.map a.rd
refused udfsalvage: cannot open input 2\n

= a_device_that_fails_is_told_with_the_record
# The mapfile has 77 bytes.
* files

inputs-fail 76
$ merge --out t.tab --ddrescue p.img p.map
refused udfsalvage: input 1: fault 8 Io at record 0\n

inputs-fail 2047
$ merge --out t.tab --ddrescue p.img p.map
refused udfsalvage: input 1: fault 8 Io at record 1\n
";

#[test]
fn pairs_among_the_inputs(rt: HostRuntime) -> Result<(), Fail> {
    check(&rt, rt.alloc(), SCRIPT)
}
