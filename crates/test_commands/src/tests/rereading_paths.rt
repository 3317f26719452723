//! What `reread --only` asks for.

use crate::tests::check;
use std::test::Fail;

static SCRIPT: &str = r"
= only_the_blocks_of_what_is_asked_for
# The folder `D` has the file `A` of the blocks 277 to 279, and its neighbour of the same beginning the file `C`, whose entry is in block 276. Each has its
# own blocks alone, and several have the blocks of all of them. Nothing is lacking of `E`.
fill 274 00
directory 1 D=20 DX=30 E=50
directory 20 A=3
directory 30 C=4
directory 50
but 276 278

$ reread --last 600 disc.tab
done 1 276\n278\n

$ reread --last 600 --only / disc.tab
done 1 276\n278\n

$ reread --last 600 --only /D disc.tab
done 1 278\n

$ reread --last 600 --only /D/A disc.tab
done 1 278\n

$ reread --last 600 --only /DX/ disc.tab
done 1 276\n

$ reread --last 600 --only=/DX/C disc.tab
done 1 276\n

$ reread --last 600 --only /E disc.tab
done 0

$ reread --last 600 --only /E --only /D disc.tab
done 1 278\n

$ reread --last 600 --only /D --only /DX/C disc.tab
done 1 276\n278\n

$ reread --last 600 --only /D/A --only / disc.tab
done 1 276\n278\n

= a_pattern_stands_for_all_that_fit_it
# `*` is any part of a name, `?` one character, and a name `**` any number of names. Only `**` passes a `/`, and letters differ by their case. The entry of the file
# `C` is not read: for `/**/A` and `/*/*/none` it may be a folder that has the name.
fill 274 00
directory 1 D=20 DX=30 E=50
directory 20 A=3
directory 30 C=4
directory 50
but 276 278

$ reread --last 600 --only /D* disc.tab
done 1 276\n278\n

$ reread --last 600 --only /D? disc.tab
done 1 276\n

$ reread --last 600 --only /D*/A disc.tab
done 1 278\n

$ reread --last 600 --only /*/C disc.tab
done 1 276\n

$ reread --last 600 --only /D/**/A disc.tab
done 1 278\n

$ reread --last 600 --only /**/A disc.tab
done 1 276\n278\n

$ reread --last 600 --only /D/? --only /?X/C disc.tab
done 1 276\n278\n

$ reread --last 600 --only /E* disc.tab
done 0

$ reread --last 600 --only /*/*/none disc.tab
done 1 276\n

$ reread --last 600 --only /*/none disc.tab
refused udfsalvage: --only 1 is no node\n

$ reread --last 600 --only /*C disc.tab
refused udfsalvage: --only 1 is no node\n

$ reread --last 600 --only /D --only D* disc.tab
refused udfsalvage: --only 2 is no node\n

$ reread -v --last 600 --only /d* disc.tab
refused udfsalvage: --only 1 is no node\n  /d* is not one of the paths that list --paths prints, and as a pattern it fits none: * and ? do not pass a /, and ** is a whole name\n

= a_torn_folder_above
# The folder `D` has two blocks, 293 and 294, and the second is not known. The file `A` is found in the first, so it is whole, and the names in the second may
# lie below `D` too. Nothing is lacking of `DX`.
fill 274 00
directory 1 D=20 DX=30
directory 20 A=3 long=4 long=4 long=4 long=4 long=4 long=4 long=4
directory 30 A=3
but 294

$ reread --last 600 --only /D/A disc.tab
done 1 294\n

$ reread --last 600 --only /D disc.tab
done 1 294\n

$ reread --last 600 --only /D/none disc.tab
done 1 294\n

$ reread --last 600 --only /D/none/below disc.tab
done 1 294\n

$ reread --last 600 --only /DX/A disc.tab
done 0

$ reread --last 600 --only /*/none disc.tab
done 1 294\n

$ reread --last 600 --only /DX*/none disc.tab
refused udfsalvage: --only 1 is no node\n

but 278 294
$ reread --last 600 --only /D/A disc.tab
done 1 278\n294\n

but 278 294
$ reread --last 600 --only /*/none disc.tab
done 1 294\n

but 278 294
$ reread --last 600 --only /D*/A disc.tab
done 1 278\n294\n

but 278 294
$ reread --last 600 --only /DX/ disc.tab
done 1 278\n

= a_path_of_which_no_folder_is_read
# What the entry of `D` lacks is asked for, and what the root lacks.
fill 274 00
directory 1 D=20 DX=30
directory 20 A=3
directory 30 C=4

but 292
$ reread --last 600 --only /D/A disc.tab
done 1 292\n

but 274 276
$ reread --last 600 --only /D/A disc.tab
done 1 274\n

but 273
$ reread --last 600 --only /D/A --only /none disc.tab
done 1 273\n

= a_folder_with_a_fault
# It may hide a name too, but nothing can be read again for it.
fill 274 00
directory 1 D=20 DX=30
fill 292 00
directory 30 C=4
but 276

$ reread --last 600 --only /D/A disc.tab
done 1

$ reread --last 600 --only /D/A --only /DX disc.tab
done 1 276\n

= a_path_that_is_no_node
# All folders above it are whole. A torn file is no folder, and a torn folder beside it hides nothing.
fill 274 00
directory 1 D=20 DX=30 B=4
directory 20 A=3
directory 30 C=4
but 278 303

$ reread --last 600 --only /none disc.tab
refused udfsalvage: --only 1 is no node\n

$ reread --last 600 --only /D --only D disc.tab
refused udfsalvage: --only 2 is no node\n

$ reread --last 600 --only /D/A --only /D/none disc.tab
refused udfsalvage: --only 2 is no node\n

$ reread --last 600 --only /D/A/none disc.tab
refused udfsalvage: --only 1 is no node\n

$ reread --last 600 --only /DX/none --only /DY --only /none disc.tab
refused udfsalvage: --only 2 is no node\n

$ reread -v --last 600 --only /none disc.tab
refused udfsalvage: --only 1 is no node\n  /none is not one of the paths that list --paths prints: capital and small letters differ\n

$ reread --last 600 --only /none --mapfile m disc.tab
refused udfsalvage: --only 1 is no node\n
calls 0

= a_volume_that_does_not_open
# All that it lacks is asked for, and no path is judged.

but 33 49
$ reread --last 600 --only /A disc.tab
done 1 33\n49\n

but 33 49
$ reread --last 600 --only /none disc.tab
done 1 33\n49\n

file empty.rd reading
$ reread --last 600 --only /A --mapfile m empty.rd
status 1
out 3 blocks in 3 runs\n

= a_mapfile_for_some_paths
# Block 276 is in the group of 278, and not known, so it is in the mapfile of `D` where groups are asked for. The known blocks beside them are the three anchors,
# 32, 272 and 273. Where nothing is wanted of what is asked for, nothing is compared.
fill 274 00
directory 1 D=20 DX=30 E=50
directory 20 A=3
directory 30 C=4
directory 50
but 276 278
then error

$ reread --last 600 --only /D --no-witnesses --mapfile m disc.tab
status 1
out 1 block in 1 run\n
has m text # Mapfile. Created by udfsalvage 0.1.0\n# Blocks to read again, for ddrescue -m: not the mapfile of a pass\n0x00000000     +               1\n0x00000000  0x0008B000  ?\n0x0008B000  0x00000800  +\n0x0008B800  0x000A1000  ?\n

$ reread --last 600 --only /D --only /DX --no-witnesses --mapfile m disc.tab
status 1
out 2 blocks in 2 runs\n

$ reread --last 600 --only /D --group 16 --no-witnesses --mapfile m disc.tab
status 1
out 1 block in 1 run, 3 in the map\n
has m text # Mapfile. Created by udfsalvage 0.1.0\n# Blocks to read again, for ddrescue -m: not the mapfile of a pass\n0x00000000     +               1\n0x00000000  0x0008A000  ?\n0x0008A000  0x00001800  +\n0x0008B800  0x000A1000  ?\n

$ reread --last 600 --only /D --group 16 --mapfile m disc.tab
status 1
out 1 block in 1 run, and 6 known ones to compare, 9 in the map\n

$ reread --last 600 --only /E --group 16 --mapfile m disc.tab
status 0
out 0 blocks in 0 runs, 0 in the map\n
has m text # Mapfile. Created by udfsalvage 0.1.0\n# Blocks to read again, for ddrescue -m: not the mapfile of a pass\n0x00000000     +               1\n0x00000000  0x0012C800  ?\n
";

#[test]
fn blocks_of_some_paths(rt: HostRuntime) -> Result<(), Fail> {
    check(&rt, rt.alloc(), SCRIPT)
}
