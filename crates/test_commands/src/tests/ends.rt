//! The last block by the ends of mapfiles: of one that is named, or of those of all inputs where neither it nor the size of the disc is given. A disc of
//! 1,230,848 bytes, 12C800 in hexadecimal, ends with block 600.

use crate::tests::check;
use std::test::Fail;

static SCRIPT: &str = r#"
* files
file a.img text
file b.img text
file a.map text 0x0 ? 1\n0x0 0x12C800 ?\n
file b.map text 0x0 ? 1\n0x800 0x1000 -\n0x1800 0x12B000 *\n
file c.map text 0x0 ? 1\n0x0 0x12D000 ?\n
file odd.map text 0x0 ? 1\n0x0 0x12C801 ?\n
file none.map text 0x0 ? 1\n
file zero.map text 0x0 ? 1\n0x0 0x0 ?\n
file small.map text 0x0 ? 1\n0x0 0x800 ?\n
file bad.map text 0x0 ? 1\n0x0 0x800\n

= mapfiles_tell_the_last_block
* files
then status 1
then error

$ report --ddrescue a.img a.map
out-begins UDFREPORT1 last 600\n

$ report --ddrescue a.img a.map --ddrescue b.img b.map
out-begins UDFREPORT1 last 600\n

$ report --ddrescue a.img c.map
out-begins UDFREPORT1 last 601\n

$ report --json --ddrescue b.img b.map
out-begins {"conflict":0,"known":0,"label":null,"last":600,

$ report --last 700 --ddrescue a.img a.map
out-begins UDFREPORT1 last 700\n

$ report --size 1232896 --ddrescue a.img a.map --ddrescue b.img b.map
out-begins UDFREPORT1 last 601\n

= each_command_takes_it, 1
# In every command that wants a last block the answer is that with the block in words.
* files
then error

$ reread --ddrescue a.img a.map
keep

$ reread --last 600 --ddrescue a.img a.map
as-kept

$ reread --mapfile want.map --ddrescue a.img a.map
keep

$ reread --mapfile want.map --last 600 --ddrescue a.img a.map
as-kept

$ list --ddrescue a.img a.map
keep

$ list --last 600 --ddrescue a.img a.map
as-kept

$ summary --ddrescue a.img a.map
keep

$ summary --last 600 --ddrescue a.img a.map
as-kept

$ extract --to out --ddrescue a.img a.map
keep

$ extract --last 600 --to out --ddrescue a.img a.map
as-kept

$ image --out i.img --mapfile i.map --ddrescue a.img a.map
keep

$ image --last 600 --out i.img --mapfile i.map --ddrescue a.img a.map
as-kept

= each_command_takes_it, 2
* files

$ image --out i.img --mapfile i.map --ddrescue a.img a.map
status 0
has i.img text «1230848*\0»

= what_does_not_tell_it_is_refused
# A file among the inputs, mapfiles that end at two places, or inside a block, or nowhere, tell none.
let MISSING error: the following required arguments were not provided:\n  --last <N>\n\nUsage: udfsalvage 
* files
then status 2
then out
then error-begins «MISSING»
then absent i.img
then no-folder out

$ report absent.rd --ddrescue absent.img absent.map

$ report --ddrescue a.img a.map absent.rd

$ report --ddrescue a.img a.map --ddrescue b.img c.map

$ summary --ddrescue a.img c.map --ddrescue b.img b.map

$ list --ddrescue a.img odd.map

$ reread --ddrescue a.img zero.map

$ extract --to out --ddrescue a.img zero.map

$ image --out i.img --mapfile i.map --ddrescue a.img zero.map

= the_inputs_are_judged_first
# What is wrong with the inputs is told before it, and a number that is none of a disc after it.
* files

$ report --ddrescue a.img bad.map
refused udfsalvage: input 1: mapfile line 2: not a run\n

$ reread --ddrescue a.img none.map
refused udfsalvage: input 1: mapfile line 2: no runs\n

$ report --ddrescue a.img a.map --ddrescue b.img absent.map
refused udfsalvage: cannot open input 2\n

$ summary --ddrescue a.img c.map --ddrescue absent.img a.map
refused udfsalvage: cannot open input 2\n

$ report --ddrescue a.img small.map
refused udfsalvage: fault 1 LastRange\n
"#;

static OF_ONE: &str = r#"
* maps
file a.map text 0x0 ? 1\n0x0 0x12C800 ?\n
file odd.map text 0x0 ? 1\n0x0 0x12C801 ?\n
file none.map text 0x0 ? 1\n
file small.map text 0x0 ? 1\n0x0 0x800 ?\n
file least.map text 0x0 ? 1\n0x0 0x101000 ?\n
file bad.map text 0x0 ? 1\n0x0 0x800\n
file wanted.map text # Mapfile. Created by udfsalvage 0.1.0\n# Blocks to read again, for ddrescue -m: not the mapfile of a pass\n0x0 ? 1\n0x0 0x12C800 ?\n

= one_mapfile_gives_the_size, 1
but 33 49
* maps
then status 1
then out 33\n49\n
then error

$ reread --size-of a.map disc.tab

$ reread disc.tab --size-of=a.map

= one_mapfile_gives_the_size, 2
# In every command that wants a last block the answer is that with the block in words, also where the inputs' own mapfiles do not tell it.
but 33 49
* maps
file b.img text
file b.map text 0x0 ? 1\n0x0 0x12D000 ?\n
then error

$ report --last 600 disc.tab --ddrescue b.img b.map
keep

$ report --size-of a.map disc.tab --ddrescue b.img b.map
as-kept

$ reread --last 600 --mapfile want.map disc.tab
keep

$ reread --size-of a.map --mapfile want.map disc.tab
as-kept

$ list --last 600 disc.tab
keep

$ list --size-of a.map disc.tab
as-kept

$ summary --last 600 disc.tab
keep

$ summary --size-of a.map disc.tab
as-kept

$ extract --last 600 --to out disc.tab
keep

$ extract --size-of a.map --to out disc.tab
as-kept

$ image --last 600 --out i.img --mapfile i.map disc.tab
keep

$ image --size-of a.map --out i.img --mapfile i.map disc.tab
as-kept

= one_mapfile_gives_the_size, 3
but 33 49
* maps

$ page --size-of a.map --out p.html disc.tab
status 1
error
file-has p.html <div>does not open: at least one of the blocks 33 and 49 is needed</div>\n<div>Guarantee  nothing seen contradicts the standard;</div>\n<div>           2 unknown blocks could</div>\n<div>Disc       599 known   2 not known   0 in conflict</div>\n

= a_mapfile_that_gives_none
# One that is not there, or is no mapfile of a pass, is refused before an input is opened; one that ends where no disc does gives a number out of range.
but
* maps

$ report --size-of absent.map absent.rd
refused udfsalvage: cannot take the size from the mapfile\n

$ list --size-of bad.map absent.rd
refused udfsalvage: cannot take the size from the mapfile\n

$ summary -v --size-of absent.map absent.rd
refused udfsalvage: cannot take the size from the mapfile\n  absent.map does not exist\n

$ summary -v --size-of none.map absent.rd
refused udfsalvage: cannot take the size from the mapfile\n  none.map is not a mapfile of GNU ddrescue, or has no runs\n

$ reread --size-of wanted.map absent.rd
refused udfsalvage: cannot take the size from the mapfile\n

$ page --size-of disc.tab --out p.html disc.tab
refused udfsalvage: cannot take the size from the mapfile\n

$ report -v --size-of odd.map disc.tab
refused udfsalvage: fault 1 LastRange\n  the last block must be from 513 to 4194303: give the disc's size with --size, in bytes, or in blocks with s after the number\n

$ extract --size-of small.map --to out disc.tab
refused udfsalvage: fault 1 LastRange\n

$ image --size-of odd.map --out i.img --mapfile i.map disc.tab
refused udfsalvage: fault 1 LastRange\n

$ report -v --size-of least.map disc.tab
refused udfsalvage: fault 2 PastEnd 514\n  block 514 is known, so the disc does not end where least.map does\n

= one_of_the_three_is_given
* maps
then status 2
then out

$ report --last 600 --size-of a.map absent.rd
error-begins error: the argument '--last <N>' cannot be used with '--size-of <MAPFILE>'\n\nFor more information, try '--help'.\n

$ report --size-of a.map --size 1230848 absent.rd
error-begins error: the argument '--size <BYTES>' cannot be used with '--size-of <MAPFILE>'\n\nFor more information, try '--help'.\n

$ merge --size-of a.map --out t.tab absent.rd
error-begins error: unexpected argument '--size-of' found

= where_to_find_it
# Where the last block is missing, it is said where to find it.
let MISSING error: the following required arguments were not provided:\n  --last <N>\n\nUsage: udfsalvage report [OPTIONS] [--last <N> | --size <BYTES>] <IN>...\n\nFor more information, try '--help'.\n
let WHERE \x20\x20blockdev --getsize64 /dev/sr0 prints the disc's size for --size; --size-of MAPFILE takes it from a mapfile\n
* maps
file a.img text
then status 2
then out

$ report -v absent.rd
error «MISSING»«WHERE»

$ report absent.rd
error «MISSING»

$ report -v -q absent.rd
error «MISSING»

$ report -v a.map --ddrescue a.img a.map
error «MISSING»«WHERE»

$ report -v --last 600
error-begins error: the following required arguments were not provided:\n  <IN>...\n

$ report -v --wide --last 600 a.map
error-begins error: unexpected argument '--wide' found\n

$ list -v --whole --last 600 a.map
error error: unexpected argument '--whole' found\n\n  tip: to pass '--whole' as a value, use '-- --whole'\n\nUsage: udfsalvage list [OPTIONS] [--last <N> | --size <BYTES>] <IN>...\n\nFor more information, try '--help'.\n  the first column of list is the standing: udfsalvage list ... | grep ^whole\n

$ report -v --torn --last 600 a.map
error error: unexpected argument '--torn' found\n\n  tip: to pass '--torn' as a value, use '-- --torn'\n\nUsage: udfsalvage report [OPTIONS] [--last <N> | --size <BYTES>] <IN>...\n\nFor more information, try '--help'.\n  list --torn prints what is not whole\n

$ report -v
error error: the following required arguments were not provided:\n  --last <N>\n  <IN>...\n\nUsage: udfsalvage report [OPTIONS] [--last <N> | --size <BYTES>] <IN>...\n\nFor more information, try '--help'.\n«WHERE»
"#;

#[test]
fn the_ends_of_mapfiles(rt: HostRuntime) -> Result<(), Fail> {
    check(&rt, rt.alloc(), SCRIPT)
}

#[test]
fn the_end_of_one_mapfile(rt: HostRuntime) -> Result<(), Fail> {
    check(&rt, rt.alloc(), OF_ONE)
}
