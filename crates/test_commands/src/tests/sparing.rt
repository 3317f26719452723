//! What `merge` does not write over.

use crate::tests::check;
use std::test::Fail;

static SCRIPT: &str = r"
= a_pass_is_not_written_over
# Neither a reading, an image, a mapfile or another file that is no input, nor an image or a mapfile of the inputs, by whichever of its names; and nothing is
# read: the input that is not there is not told.
passes
file p.img text «2048*c»
twin q.img
file p.map text # GNU ddrescue\n0x0 + 1\n0 0x800 +\n
twin q.map
file near text UDFTABX1\0\x08\0\0\0\0\0\0
file short text UDFTAB
then refused udfsalvage: cannot write output\n
then calls 0
then has b.rd reading 301:62
then has p.map text # GNU ddrescue\n0x0 + 1\n0 0x800 +\n

$ merge --out b.rd a.rd

$ merge -o b.rd a.rd absent.rd

$ merge --out p.img a.rd absent.rd

$ merge --out p.map a.rd absent.rd

$ merge --out near a.rd absent.rd

$ merge --out short a.rd absent.rd

$ merge --out b.rd --ddrescue p.img p.map

$ merge --out p.img --ddrescue p.img p.map a.rd absent.rd

$ merge --out p.map a.rd --ddrescue p.img p.map

$ merge --force --out p.map --ddrescue p.img p.map

$ merge --out p.img p.img --ddrescue p.img p.map

$ merge --force --out q.img a.rd absent.rd --ddrescue p.img p.map

$ merge --force --out q.map --ddrescue p.img p.map

$ forget --conflicts --force --out q.img a.rd --ddrescue p.img p.map

$ image --force --last 600 --out d.img --mapfile q.map --ddrescue p.img p.map

= what_is_written_over
# An input, by whichever of its names, by force any file, a table file of either version, a file without bytes, and a device.
passes
twin d.rd
file p.img text «2048*c»
file first text UDFTABL1\0\x08\0\0\0\0\0\0
file second text UDFTABL2\0\x08\0\0\0\0\0\0
file empty text
file dev/tab text UDFREAD1\0\x08\0\0\0\0\0\0

$ merge --v1 --out a.rd a.rd
silent
has a.rd table 300:61

$ merge --v1 --out d.rd c.rd
silent
has d.rd table 300:63
has c.rd reading 300:63

$ merge --v1 --force --out b.rd a.rd
silent
has b.rd table 300:61

$ merge --v1 -o first a.rd
silent
has first table 300:61

$ merge --v1 -o second a.rd
silent
has second table 300:61

$ merge --v1 -o empty a.rd
silent
has empty table 300:61

$ merge --v1 --force --out p.img a.rd
silent
has p.img table 300:61

$ merge --v1 -o dev/tab a.rd
silent
has dev/tab table 300:61
";

#[test]
fn what_a_merge_writes_over(rt: HostRuntime) -> Result<(), Fail> {
    check(&rt, rt.alloc(), SCRIPT)
}
