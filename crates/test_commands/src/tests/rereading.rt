//! What `reread` prints.

use crate::tests::check;
use std::test::Fail;

static NUMBERS_TO_READ_AGAIN: &str = r"
= the_blocks_to_read_again
# The blocks that are not known, and what is printed then.

but
$ reread --last 600 disc.tab
done 0

but 33 49
$ reread --last 600 disc.tab
done 1 33\n49\n

but 274
$ reread --last 600 disc.tab
done 1 274\n

but 279 277
$ reread --last 600 disc.tab
done 1 277\n279\n

= little_is_known
# Only the entry of a file is not read; and nothing is.

at 256 32 33 34 272 273 274 276
$ reread --last 600 disc.tab
status 1
out 275\n

file empty.rd reading
$ reread --last 600 empty.rd
status 1
out 256\n344\n600\n

= what_refuses_it
but

$ reread --last 512 disc.tab
refused udfsalvage: fault 1 LastRange\n

$ reread --last 513 disc.tab
refused udfsalvage: fault 2 PastEnd 514\n

$ reread --last 600 disc.tab absent.rd
refused udfsalvage: cannot open input 2\n
";

#[test]
fn numbers_to_read_again(rt: HostRuntime) -> Result<(), Fail> {
    check(&rt, rt.alloc(), NUMBERS_TO_READ_AGAIN)
}

static MAPFILES_TO_READ_AGAIN: &str = r"
* files
but
file p.img text x
file p.map text # Mapfile. Created by GNU ddrescue\n0 + 1\n
file image.map text # Mapfile. Created by udfsalvage 0.1.0\n0x00000000     +               1\n0x00000000  0x0012C800  +\n
file old.map text # Mapfile. Created by udfsalvage 0.1.0\n# Blocks to read again, for ddrescue -m: not the mapfile of a pass\n0x00000000     +               1\n0x00000000  0x00000800  +\n
file note text # Mapfile. Created by udfsalvage 0.1.0\n# Blocks to read again, for ddrescue -m: not the mapfile of a pass

= the_blocks_to_read_again_are_a_mapfile
# Of the disc whose file `A` lacks block 278 that block is wanted. Beside it the known blocks are asked for that name the volume: the anchor at 256, the
# logical volume descriptor at 32, the file set at 272 and the root's entry at 273. An old mapfile is written over, and nothing else.
at 32 33 34 256 272 273 274 275 276 277 279
then status 1
then out 1 block in 1 run, and 4 known ones to compare\n
then error
then has want.map text # Mapfile. Created by udfsalvage 0.1.0\n# Blocks to read again, for ddrescue -m: not the mapfile of a pass\n0x00000000     +               1\n0x00000000  0x00010000  ?\n0x00010000  0x00000800  +\n0x00010800  0x0006F800  ?\n0x00080000  0x00000800  +\n0x00080800  0x00007800  ?\n0x00088000  0x00001000  +\n0x00089000  0x00002000  ?\n0x0008B000  0x00000800  +\n0x0008B800  0x000A1000  ?\n
then survives want.map text # Mapfile. Created by udfsalvage 0.1.0\n# Blocks to read again, for ddrescue -m: not the mapfile of a pass\n0x00000000     +               1\n0x00000000  0x00010000  ?\n0x00010000  0x00000800  +\n0x00010800  0x0006F800  ?\n0x00080000  0x00000800  +\n0x00080800  0x00007800  ?\n0x00088000  0x00001000  +\n0x00089000  0x00002000  ?\n0x0008B000  0x00000800  +\n0x0008B800  0x000A1000  ?\n

$ reread --last 600 --mapfile want.map disc.tab

$ reread --last 600 --mapfile want.map disc.tab
done 1 1 block in 1 run, and 4 known ones to compare\n
$ reread --size 1230848 disc.tab --domain=want.map

= the_counts_of_a_mapfile
# Nothing is wanted of a disc of which all is known, and then nothing is compared; of an unread one the anchors are wanted, and no block is known. Blocks 277
# and 278 are one run. Where the partition's descriptors are not read the volume does not open: its file set and its root are not found then, but block
# 272 is the first of the fifth ninth of the disc whose bytes are not all equal. The anchors at 344, all zeros here, and 600 are known too.

but
$ reread --last 600 --mapfile m disc.tab
status 0
out 0 blocks in 0 runs\n

but 33 49
$ reread --last 600 --mapfile m disc.tab
status 1
out 2 blocks in 2 runs, and 5 known ones to compare\n

but 277 278
$ reread --last 600 --mapfile m disc.tab
status 1
out 2 blocks in 1 run, and 6 known ones to compare\n

but 277 279
$ reread --last 600 --mapfile m disc.tab
status 1
out 2 blocks in 2 runs, and 6 known ones to compare\n

but
$ reread --last 600 --mapfile m disc.tab
status 0
has m text # Mapfile. Created by udfsalvage 0.1.0\n# Blocks to read again, for ddrescue -m: not the mapfile of a pass\n0x00000000     +               1\n0x00000000  0x0012C800  ?\n

file empty.rd reading
$ reread --last 600 --mapfile m empty.rd
status 1
out 3 blocks in 3 runs\n
has m text # Mapfile. Created by udfsalvage 0.1.0\n# Blocks to read again, for ddrescue -m: not the mapfile of a pass\n0x00000000     +               1\n0x00000000  0x00080000  ?\n0x00080000  0x00000800  +\n0x00080800  0x0002B800  ?\n0x000AC000  0x00000800  +\n0x000AC800  0x0007F800  ?\n0x0012C000  0x00000800  +\n

= known_blocks_are_asked_for_beside_those_to_read_again
# Of the whole disc but block 278: the three anchors, the logical volume descriptor at 32, the file set at 272 and the root's entry at 273. In each ninth
# of the disc the first block whose bytes are not all equal is one of them, or there is none. They are left out where that is asked for.

but 278
$ reread --last 600 --mapfile m disc.tab
status 1
out 1 block in 1 run, and 6 known ones to compare\n
has m text # Mapfile. Created by udfsalvage 0.1.0\n# Blocks to read again, for ddrescue -m: not the mapfile of a pass\n0x00000000     +               1\n0x00000000  0x00010000  ?\n0x00010000  0x00000800  +\n0x00010800  0x0006F800  ?\n0x00080000  0x00000800  +\n0x00080800  0x00007800  ?\n0x00088000  0x00001000  +\n0x00089000  0x00002000  ?\n0x0008B000  0x00000800  +\n0x0008B800  0x00020800  ?\n0x000AC000  0x00000800  +\n0x000AC800  0x0007F800  ?\n0x0012C000  0x00000800  +\n

but 278
$ reread --last 600 --no-witnesses --mapfile m disc.tab
status 1
out 1 block in 1 run\n
has m text # Mapfile. Created by udfsalvage 0.1.0\n# Blocks to read again, for ddrescue -m: not the mapfile of a pass\n0x00000000     +               1\n0x00000000  0x0008B000  ?\n0x0008B000  0x00000800  +\n0x0008B800  0x000A1000  ?\n

= known_blocks_from_all_over_the_disc
# Of a disc whose anchors are not read the blocks 70 and 140 stand for the second and the third ninth: block 68, of zeros throughout, does not, nor does 71,
# which is not the first. Only the anchors are wanted, and no volume opens.

write 70 0 a
write 71 0 a
write 140 9 b
at 68 70 71 140 141
$ reread --last 600 --mapfile m disc.tab
status 1
out 3 blocks in 3 runs, and 2 known ones to compare\n

= what_a_mapfile_is_not_written_over, 1
# No file but a map of blocks to read again is written over, no mapfile of a pass, and no image or mapfile of the inputs; no input is read then.
* files
then calls 0

$ reread --last 600 --mapfile disc.tab disc.tab
refused udfsalvage: cannot write output\n

$ reread --last 600 --mapfile disc.tab absent.rd
refused udfsalvage: cannot write output\n

$ reread --last 600 --mapfile note absent.rd
refused udfsalvage: cannot write output\n

$ reread --last 600 --mapfile p.map disc.tab
refused udfsalvage: cannot write output\n

$ reread --last 600 --mapfile image.map disc.tab
refused udfsalvage: cannot write output\n

$ reread --last 600 --mapfile p.map disc.tab --ddrescue p.img p.map
refused udfsalvage: cannot write output\n

$ reread --last 600 --mapfile p.img disc.tab --ddrescue p.img p.map
refused udfsalvage: cannot write output\n

$ reread --last 600 --mapfile old.map disc.tab --ddrescue p.img old.map
refused udfsalvage: cannot write output\n

$ reread --last 600 --mapfile want.map absent.rd
refused udfsalvage: cannot open input 1\n

$ reread --last 512 --mapfile want.map disc.tab
refused udfsalvage: fault 1 LastRange\n

= what_a_mapfile_is_not_written_over, 2
* files

$ reread --last 600 --mapfile old.map disc.tab
status 0
has old.map text # Mapfile. Created by udfsalvage 0.1.0\n# Blocks to read again, for ddrescue -m: not the mapfile of a pass\n0x00000000     +               1\n0x00000000  0x0012C800  ?\n

= a_line_that_cannot_be_printed_leaves_the_mapfile
# Where the line cannot be printed, which has 46 bytes, the mapfile is not begun: what was there stays.
but 278
file p.img text x
file p.map text # Mapfile. Created by GNU ddrescue\n0 + 1\n
file image.map text # Mapfile. Created by udfsalvage 0.1.0\n0x00000000     +               1\n0x00000000  0x0012C800  +\n
file old.map text # Mapfile. Created by udfsalvage 0.1.0\n# Blocks to read again, for ddrescue -m: not the mapfile of a pass\n0x00000000     +               1\n0x00000000  0x00000800  +\n
file note text # Mapfile. Created by udfsalvage 0.1.0\n# Blocks to read again, for ddrescue -m: not the mapfile of a pass

each 0 46
terminal-fails «n»
$ reread --last 600 --mapfile old.map disc.tab
status 2
error udfsalvage: cannot write output\n
calls 0

each 46 47
terminal-fails «n»
$ reread --last 600 --mapfile old.map disc.tab
status 1

= blocks_to_read_again_are_no_pass
# What `reread` wrote counts for no pass: what it marks `+` was not read.
but 278
file p.img text «4096*\0»
$ reread --last 600 --mapfile want.map disc.tab
status 1
then no-call

$ merge --out t.tab --ddrescue p.img want.map
refused udfsalvage: input 1: mapfile line 2: blocks to read again, not a pass\n

$ report -v --last 600 disc.tab --ddrescue p.img want.map
refused udfsalvage: input 2: mapfile line 2: blocks to read again, not a pass\n  want.map lists blocks to read: use the mapfile that ddrescue wrote for p.img\n

$ extract --last 600 --to out --ddrescue p.img want.map
refused udfsalvage: input 1: mapfile line 2: blocks to read again, not a pass\n
";

#[test]
fn mapfiles_to_read_again(rt: HostRuntime) -> Result<(), Fail> {
    check(&rt, rt.alloc(), MAPFILES_TO_READ_AGAIN)
}

static WHOLE_GROUPS: &str = r"
= a_group_of_blocks
# Block 278 is wanted, and 285 is not known either, which no file has. In groups of 16 both are of 272 to 287, and what is known before and after them is left
# out; of 8 blocks they are not of one group. Of a disc of which little is known the group ends with its last block that is not known, 287 or 279.
then status 1
then error

but 278 285
$ reread --last 600 --group 16 --no-witnesses --mapfile m disc.tab
out 1 block in 1 run, 8 in the map\n
has m text # Mapfile. Created by udfsalvage 0.1.0\n# Blocks to read again, for ddrescue -m: not the mapfile of a pass\n0x00000000     +               1\n0x00000000  0x0008B000  ?\n0x0008B000  0x00004000  +\n0x0008F000  0x0009D800  ?\n

but 278 285
$ reread --last 600 --mapfile m --group=32 --no-witnesses disc.tab
out 1 block in 1 run, 8 in the map\n

but 278 285
$ reread --last 600 --group 8 --no-witnesses --mapfile m disc.tab
out 1 block in 1 run, 1 in the map\n

but 278 285
$ reread --last 600 --no-witnesses --mapfile m disc.tab
out 1 block in 1 run\n

at 32 33 34 256 272 273 274 275 276 277 279
$ reread --last 600 --group 16 --no-witnesses --mapfile m disc.tab
out 1 block in 1 run, 10 in the map\n
has m text # Mapfile. Created by udfsalvage 0.1.0\n# Blocks to read again, for ddrescue -m: not the mapfile of a pass\n0x00000000     +               1\n0x00000000  0x0008B000  ?\n0x0008B000  0x00005000  +\n0x00090000  0x0009C800  ?\n

at 32 33 34 256 272 273 274 275 276 277 279
$ reread --last 600 --group 4 --no-witnesses --mapfile m disc.tab
out 1 block in 1 run, 1 in the map\n

= the_last_group_ends_with_the_disc
# Of an unread disc the anchors are wanted, with 256 to 271, 336 to 351, and 592 to 600, the last block.

file empty.rd reading
$ reread --last 600 --group 16 --mapfile m empty.rd
status 1
out 3 blocks in 3 runs, 41 in the map\n
has m text # Mapfile. Created by udfsalvage 0.1.0\n# Blocks to read again, for ddrescue -m: not the mapfile of a pass\n0x00000000     +               1\n0x00000000  0x00080000  ?\n0x00080000  0x00008000  +\n0x00088000  0x00020000  ?\n0x000A8000  0x00008000  +\n0x000B0000  0x00078000  ?\n0x00128000  0x00004800  +\n

= groups_and_known_blocks
# Two of the known blocks to compare, 272 and 273, lie in the group between 271, which no file has, and 278: the mapfile has the 8 blocks from 271 to 278, and 4
# known ones elsewhere. Where nothing is wanted, no group is.

but 271 278
$ reread --last 600 --group 32 --mapfile m disc.tab
status 1
out 1 block in 1 run, and 6 known ones to compare, 12 in the map\n

but 271
$ reread --last 600 --group 32 --mapfile m disc.tab
status 0
out 0 blocks in 0 runs, 0 in the map\n

= what_is_no_group
# A size that no group has, and a group without a mapfile. No input is opened then.
then status 2
then out
then calls 0

$ reread --last 600 --group 3 --mapfile m absent.rd
error error: invalid value '3' for '--group <G>'\n  [possible values: 2, 4, 8, 16, 32]\n\nFor more information, try '--help'.\n

$ reread --last 600 --group 1 --mapfile m absent.rd
error-begins error: invalid value '1' for '--group <G>'\n

$ reread --last 600 --group 64 --mapfile m absent.rd
error-begins error: invalid value '64' for '--group <G>'\n

$ reread --last 600 --group 016 --mapfile m absent.rd
error-begins error: invalid value '016' for '--group <G>'\n

$ reread --last 600 --group 16 absent.rd
error error: the following required arguments were not provided:\n  --mapfile <FILE>\n\nFor more information, try '--help'.\n

$ report --last 600 --group 16 absent.rd
error-begins error: unexpected argument '--group' found\n
";

#[test]
fn whole_groups(rt: HostRuntime) -> Result<(), Fail> {
    check(&rt, rt.alloc(), WHOLE_GROUPS)
}
