//! Pairs of an image and a mapfile that are no pair, or not of one disc.

use crate::tests::check;
use std::test::Fail;

static SCRIPT: &str = r"
* files
file p.map text 0x0 + 1\n0 0x800 +\n0x800 0x800 -\n0x1000 0x800 +\n
file p.img text «6144*a»

= each_fault_of_a_mapfile_is_told_with_its_line
# Comments, empty lines and CR LF count as lines, and the fault is at the first line that has one.
* files
then absent t.tab

file t.map text 0 0x800 +\n
$ merge --out t.tab --ddrescue p.img p.map --ddrescue p.img t.map
refused udfsalvage: input 2: mapfile line 1: not a status line\n

# A mapfile that is empty, or has no run, is no pass that has read nothing.
file t.map text
$ merge --out t.tab --ddrescue p.img p.map --ddrescue p.img t.map
refused udfsalvage: input 2: mapfile line 1: no runs\n

file t.map text # Mapfile. Created by GNU ddrescue\n0 + 1\n# pos size status\n
$ merge --out t.tab --ddrescue p.img p.map --ddrescue p.img t.map
refused udfsalvage: input 2: mapfile line 4: no runs\n

file t.map text # c\r\n\r\n0 + 0\r\n
$ merge --out t.tab --ddrescue p.img p.map --ddrescue p.img t.map
refused udfsalvage: input 2: mapfile line 3: not a status line\n

file t.map text 0 x 1\n0 2048\n
$ merge --out t.tab --ddrescue p.img p.map --ddrescue p.img t.map
refused udfsalvage: input 2: mapfile line 1: not a status line\n

file t.map text 0 + 1\n0 08 +\n
$ merge --out t.tab --ddrescue p.img p.map --ddrescue p.img t.map
refused udfsalvage: input 2: mapfile line 2: not a run\n

file t.map text 0 + 1\n0 2048 +\n\n2048 0x +\n
$ merge --out t.tab --ddrescue p.img p.map --ddrescue p.img t.map
refused udfsalvage: input 2: mapfile line 4: not a run\n

file t.map text # c\n0x8000000000000000 +\n
$ merge --out t.tab --ddrescue p.img p.map --ddrescue p.img t.map
refused udfsalvage: input 2: mapfile line 2: number too large\n

file t.map text 0 + 1\n0 0x8000000000000000 +\n
$ merge --out t.tab --ddrescue p.img p.map --ddrescue p.img t.map
refused udfsalvage: input 2: mapfile line 2: number too large\n

file t.map text 0 + 1\n0 1 +\n1 0x7fffffffffffffff +\n
$ merge --out t.tab --ddrescue p.img p.map --ddrescue p.img t.map
refused udfsalvage: input 2: mapfile line 3: number too large\n

file t.map text 0 + 1\n0 1 +\n2 1 +\n
$ merge --out t.tab --ddrescue p.img p.map --ddrescue p.img t.map
refused udfsalvage: input 2: mapfile line 3: runs are not contiguous\n

file t.map text 0 + 1\n# c\n0 2 +\n1 2 +\n
$ merge --out t.tab --ddrescue p.img p.map --ddrescue p.img t.map
refused udfsalvage: input 2: mapfile line 4: runs are not contiguous\n

file t.map text 0 + 1\n5 0 ?\n
$ merge --out t.tab --ddrescue p.img p.map --ddrescue p.img t.map
refused udfsalvage: input 2: mapfile line 2: run of size 0\n

file t.map text 0 + 1\n0 5 ?\n5 0 ?\n5 x ?\n
$ merge --out t.tab --ddrescue p.img p.map --ddrescue p.img t.map
refused udfsalvage: input 2: mapfile line 3: run of size 0\n

= an_image_in_the_place_of_its_mapfile_is_told
# The image has no line of a mapfile.
* files

$ merge --out t.tab --ddrescue p.map p.img
refused udfsalvage: input 1: mapfile line 1: not a status line\n
absent t.tab

= an_image_of_an_odd_size
# Bytes after the last rescued block do not matter, and each byte of a rescued block does.
file p.map text 0x0 + 1\n0 0x800 +\n0x800 0x800 -\n0x1000 0x800 +\n

file p.img text «2047*a»
$ merge --out t.tab --ddrescue p.img p.map
refused udfsalvage: input 1: image ends before block 0\n
absent t.tab

file p.img text «2049*a»
$ merge --out t.tab --ddrescue p.img p.map
refused udfsalvage: input 1: image ends before block 2\n
absent t.tab

file p.img text «6143*a»
$ merge --out t.tab --ddrescue p.img p.map
refused udfsalvage: input 1: image ends before block 2\n
absent t.tab

file p.img text «6145*a»
$ merge --v1 --out t.tab --ddrescue p.img p.map
silent
has t.tab table 0:61 2:61

= maps_of_two_sizes_need_the_last_block
# Maps whose ends differ do not tell the last block.
* files
file q.map text 0 + 1\n0 1230848 ?\n

$ report --ddrescue p.img p.map --ddrescue p.img q.map
status 2
out
error-begins error: the following required arguments were not provided:\n  --last <N>\n
";

#[test]
fn faults_of_pairs(rt: HostRuntime) -> Result<(), Fail> {
    check(&rt, rt.alloc(), SCRIPT)
}
