//! What GNU ddrescue 1.27 accepts of a mapfile and rejects, and what is read here; and lists of blocks.

use crate::tests::check;
use std::test::Fail;

static KNOWN: &str = r"
= what_is_known_by_a_mapfile
# Plain, an octal size behind comments, CR LF and blanks, upper case, two runs that join in a block, a run that is rounded inward, one that does not begin at 0,
# and a run of no bytes at 0.
file p.img text «8192*a»
then silent

file t.map text 0x0 +\n0x0 0x800 +\n
$ merge --v1 --out t.tab --ddrescue p.img t.map
has t.tab table 0:61

file t.map text # c\n\n0 + 1\n0 04000 +
$ merge --v1 --out t.tab --ddrescue p.img t.map
has t.tab table 0:61

file t.map text 0 +\r\n  0\t2048 + # c\r\n
$ merge --v1 --out t.tab --ddrescue p.img t.map
has t.tab table 0:61

file t.map text 0X0 +\n0X0 0X800 +\n0x800 0x800 -\n
$ merge --v1 --out t.tab --ddrescue p.img t.map
has t.tab table 0:61

file t.map text 0 +\n0 1000 +\n1000 1048 +\n2048 512 -\n
$ merge --v1 --out t.tab --ddrescue p.img t.map
has t.tab table 0:61

file t.map text 0 +\n1 4096 +\n
$ merge --v1 --out t.tab --ddrescue p.img t.map
has t.tab table 1:61

file t.map text 0 +\n0x800 0x800 +\n
$ merge --v1 --out t.tab --ddrescue p.img t.map
has t.tab table 1:61

file t.map text 0 +\n0 0 ?\n0 0x800 +\n
$ merge --v1 --out t.tab --ddrescue p.img t.map
has t.tab table 0:61

= what_is_not_known_by_a_mapfile
# A run of no bytes alone, and statuses of which none is +.
file p.img text «8192*a»
then silent
then has t.tab table

file t.map text 0 +\n0 0 ?\n
$ merge --v1 --out t.tab --ddrescue p.img t.map

file t.map text 0 F 01\n0 2048 ?\n2048 2048 *\n4096 2048 /\n6144 2048 -\n
$ merge --v1 --out t.tab --ddrescue p.img t.map

= comments_that_are_no_mark
# A line that only contains the comment of a list of blocks to read again is a comment: with a byte more, with a byte less, and with a blank in front.
file p.img text «2048*a»
then silent
then has t.tab table 0:61

file t.map text # Blocks to read again, for ddrescue -m: not the mapfile of a pass.\n0 +\n0 2048 +\n
$ merge --v1 --out t.tab --ddrescue p.img t.map

file t.map text # Blocks to read again, for ddrescue -m: not the mapfile of a pas\n0 +\n0 2048 +\n
$ merge --v1 --out t.tab --ddrescue p.img t.map

file t.map text  # Blocks to read again, for ddrescue -m: not the mapfile of a pass\n0 +\n0 2048 +\n
$ merge --v1 --out t.tab --ddrescue p.img t.map

= a_text_of_127_bytes_is_a_line
# Comments and leading blanks do not count.
file p.img text «2048*a»

file t.map text 0 +\n«300* »0 «118*0»4000 + #«300*#»
$ merge --v1 --out t.tab --ddrescue p.img t.map
silent
has t.tab table 0:61
";

#[test]
fn what_is_known_by_mapfiles(rt: HostRuntime) -> Result<(), Fail> {
    check(&rt, rt.alloc(), KNOWN)
}

static FAULTS: &str = r"
= faults_of_a_mapfile
file p.img text «8192*a»
then absent t.tab

file t.map text 0 0x800 +\n
$ merge --out t.tab --ddrescue p.img t.map
refused udfsalvage: input 1: mapfile line 1: not a status line\n

file t.map text 0 + 0\n
$ merge --out t.tab --ddrescue p.img t.map
refused udfsalvage: input 1: mapfile line 1: not a status line\n

file t.map text 0 x\n
$ merge --out t.tab --ddrescue p.img t.map
refused udfsalvage: input 1: mapfile line 1: not a status line\n

file t.map text 0 x
$ merge --out t.tab --ddrescue p.img t.map
refused udfsalvage: input 1: mapfile line 1: not a status line\n

file t.map text # c\n0x8000000000000000 +\n
$ merge --out t.tab --ddrescue p.img t.map
refused udfsalvage: input 1: mapfile line 2: number too large\n

file t.map text 0 +\n0 08 +\n
$ merge --out t.tab --ddrescue p.img t.map
refused udfsalvage: input 1: mapfile line 2: not a run\n

file t.map text 0 +\n0 0x +\n
$ merge --out t.tab --ddrescue p.img t.map
refused udfsalvage: input 1: mapfile line 2: not a run\n

file t.map text 0 +\n0 0x800+\n
$ merge --out t.tab --ddrescue p.img t.map
refused udfsalvage: input 1: mapfile line 2: not a run\n

file t.map text 0 +\n0 2048 + x\n
$ merge --out t.tab --ddrescue p.img t.map
refused udfsalvage: input 1: mapfile line 2: not a run\n

file t.map text 0 +\n0 2048#c +\n
$ merge --out t.tab --ddrescue p.img t.map
refused udfsalvage: input 1: mapfile line 2: not a run\n

file t.map text 0 +\n0 0x8000000000000000 +\n
$ merge --out t.tab --ddrescue p.img t.map
refused udfsalvage: input 1: mapfile line 2: number too large\n

file t.map text 0 +\n1 0x7fffffffffffffff +\n
$ merge --out t.tab --ddrescue p.img t.map
refused udfsalvage: input 1: mapfile line 2: number too large\n

file t.map text 0 +\n\n0 1 +\n2 1 +\n
$ merge --out t.tab --ddrescue p.img t.map
refused udfsalvage: input 1: mapfile line 4: runs are not contiguous\n

file t.map text 0 +\n5 0 ?\n
$ merge --out t.tab --ddrescue p.img t.map
refused udfsalvage: input 1: mapfile line 2: run of size 0\n

file t.map text 0 +\n1 0 ?\n
$ merge --out t.tab --ddrescue p.img t.map
refused udfsalvage: input 1: mapfile line 2: run of size 0\n

# A gap comes before the size 0.
file t.map text 0 +\n0 5 ?\n6 0 ?\n
$ merge --out t.tab --ddrescue p.img t.map
refused udfsalvage: input 1: mapfile line 3: runs are not contiguous\n

# A text of 128 bytes is too long.
file t.map text 0 +\n«300* »0 «119*0»4000 + #«300*#»
$ merge --out t.tab --ddrescue p.img t.map
refused udfsalvage: input 1: mapfile line 2: not a run\n
";

#[test]
fn faults_of_mapfiles(rt: HostRuntime) -> Result<(), Fail> {
    check(&rt, rt.alloc(), FAULTS)
}

static NO_PASSES: &str = r"
= no_runs
# A mapfile without a run is none: the fault is at its last line, the one behind the last line feed. The last is the front of what ddrescue writes.
file p.img text «8192*a»

file t.map text
$ merge --out t.tab --ddrescue p.img t.map
refused udfsalvage: input 1: mapfile line 1: no runs\n

file t.map text \n
$ merge --out t.tab --ddrescue p.img t.map
refused udfsalvage: input 1: mapfile line 2: no runs\n

file t.map text # c
$ merge --out t.tab --ddrescue p.img t.map
refused udfsalvage: input 1: mapfile line 1: no runs\n

file t.map text # c\n
$ merge --out t.tab --ddrescue p.img t.map
refused udfsalvage: input 1: mapfile line 2: no runs\n

file t.map text 0 +\n
$ merge --out t.tab --ddrescue p.img t.map
refused udfsalvage: input 1: mapfile line 2: no runs\n

file t.map text # c\n0 + 1\n#  pos  size  status\n
$ merge --out t.tab --ddrescue p.img t.map
refused udfsalvage: input 1: mapfile line 4: no runs\n

= a_list_of_blocks_to_read_again_is_no_pass
# A line that is the comment of such a list is a fault wherever it is; the last has an earlier fault.
file p.img text «8192*a»

file t.map text # c\n# Blocks to read again, for ddrescue -m: not the mapfile of a pass\n0 + 1\n
$ merge --out t.tab --ddrescue p.img t.map
refused udfsalvage: input 1: mapfile line 2: blocks to read again, not a pass\n

file t.map text 0 +\r\n0 2048 +\r\n# Blocks to read again, for ddrescue -m: not the mapfile of a pass\r\n
$ merge --out t.tab --ddrescue p.img t.map
refused udfsalvage: input 1: mapfile line 3: blocks to read again, not a pass\n

file t.map text # Blocks to read again, for ddrescue -m: not the mapfile of a pass
$ merge --out t.tab --ddrescue p.img t.map
refused udfsalvage: input 1: mapfile line 1: blocks to read again, not a pass\n

file t.map text 0 x\n# Blocks to read again, for ddrescue -m: not the mapfile of a pass\n
$ merge --out t.tab --ddrescue p.img t.map
refused udfsalvage: input 1: mapfile line 1: not a status line\n
";

#[test]
fn mapfiles_of_no_pass(rt: HostRuntime) -> Result<(), Fail> {
    check(&rt, rt.alloc(), NO_PASSES)
}

static LISTS: &str = r"
= blocks_that_are_listed
# What is left is told by the table file of version 1 that `merge` makes of the output.
file t.rd reading 0:60 3:63 7:67 9:69 12:6c
then silent

file list text
$ forget --blocks list --out t.tab t.rd
silent
$ merge --v1 --out u.tab t.tab
has u.tab table 0:60 3:63 7:67 9:69 12:6c

file list text 7\n
$ forget --blocks list --out t.tab t.rd
silent
$ merge --v1 --out u.tab t.tab
has u.tab table 0:60 3:63 9:69 12:6c

file list text 7
$ forget --blocks list --out t.tab t.rd
silent
$ merge --v1 --out u.tab t.tab
has u.tab table 0:60 3:63 9:69 12:6c

file list text 7\r\n12\n
$ forget --blocks list --out t.tab t.rd
silent
$ merge --v1 --out u.tab t.tab
has u.tab table 0:60 3:63 9:69

file list text 9\n3\n9\n0
$ forget --blocks list --out t.tab t.rd
silent
$ merge --v1 --out u.tab t.tab
has u.tab table 7:67 12:6c

file last.rd reading 7:67 4194303:7f
file list text 4194303\n
$ forget --blocks list --out t.tab last.rd
silent
$ merge --v1 --out u.tab t.tab
has u.tab table 7:67

file list text 000000000000000000000000000000012\n
$ forget --blocks list --out t.tab t.rd
silent
$ merge --v1 --out u.tab t.tab
has u.tab table 0:60 3:63 7:67 9:69

= lists_with_a_fault
passes

file list text \n
$ forget --blocks list --out t.tab a.rd
refused udfsalvage: list line 1: not a block number\n

file list text 7\n\n8\n
$ forget --blocks list --out t.tab a.rd
refused udfsalvage: list line 2: not a block number\n

file list text 7\n\r\n
$ forget --blocks list --out t.tab a.rd
refused udfsalvage: list line 2: not a block number\n

file list text 7\r
$ forget --blocks list --out t.tab a.rd
refused udfsalvage: list line 1: not a block number\n

file list text 7\r8\n
$ forget --blocks list --out t.tab a.rd
refused udfsalvage: list line 1: not a block number\n

file list text 7\r\r\n
$ forget --blocks list --out t.tab a.rd
refused udfsalvage: list line 1: not a block number\n

file list text 1\n2\n x\n
$ forget --blocks list --out t.tab a.rd
refused udfsalvage: list line 3: not a block number\n

file list text  7\n
$ forget --blocks list --out t.tab a.rd
refused udfsalvage: list line 1: not a block number\n

file list text 7 \n
$ forget --blocks list --out t.tab a.rd
refused udfsalvage: list line 1: not a block number\n

file list text +7\n
$ forget --blocks list --out t.tab a.rd
refused udfsalvage: list line 1: not a block number\n

file list text -1\n
$ forget --blocks list --out t.tab a.rd
refused udfsalvage: list line 1: not a block number\n

file list text 0x7\n
$ forget --blocks list --out t.tab a.rd
refused udfsalvage: list line 1: not a block number\n

file list text A\n
$ forget --blocks list --out t.tab a.rd
refused udfsalvage: list line 1: not a block number\n

file list text 4194304\n
$ forget --blocks list --out t.tab a.rd
refused udfsalvage: list line 1: not a block number\n

file list text 1\n18446744073709551616\n
$ forget --blocks list --out t.tab a.rd
refused udfsalvage: list line 2: not a block number\n

file list text 1\n2\n3\n# four
$ forget --blocks list --out t.tab a.rd
refused udfsalvage: list line 4: not a block number\n
";

#[test]
fn lists_of_blocks(rt: HostRuntime) -> Result<(), Fail> {
    check(&rt, rt.alloc(), LISTS)
}
