//! `merge`, `forget` and `image` of regular files, of which no block is held: what they write, and what an input does that cannot be read a second time.

use crate::tests::check;
use std::test::Fail;

static SCRIPT: &str = r"
= files_and_devices_make_one_table
file one.rd reading 301:62 300:61 7:63
file two.rd reading 300:64 301:62 4194303:65
file dev/two.rd reading 300:64 301:62 4194303:65
then silent
then has t.tab text UDFTABL2\0\x08\0\0\x03\0\0\0\0\0\0\0\x80\0\0\0\0\0\0\0«2048*c»\t\0\0\0\0 \0\0\0\x10\0\0«2048*b»\xff\xff\x01\0\0\0\0\x80\0\0\0\0«2048*e»

$ merge --out t.tab one.rd two.rd

$ merge --out t.tab two.rd one.rd

$ merge --out t.tab one.rd dev/two.rd

$ merge --out t.tab dev/two.rd one.rd

= files_and_devices_forget_the_same
file one.rd reading 300:61 301:62
file two.rd reading 301:63 302:64
file dev/two.rd reading 301:63 302:64
file list text 300\n
then silent
then has t.tab text UDFTABL2\0\x08\0\0\x01\0\0\0\t\0\0\0\0@\0\0\0\0\0\0«2048*d»

$ forget --conflicts --blocks list --out t.tab one.rd two.rd

$ forget --conflicts --blocks list --out t.tab one.rd dev/two.rd

= files_and_devices_make_one_image
file one.rd reading 300:61 301:62
file two.rd reading 301:63 302:64
file dev/two.rd reading 301:63 302:64
then silent
then has d.img text «614400*\0»«2048*a»«2048*\0»«2048*d»«432128*\0»
then has d.map text # Mapfile. Created by udfsalvage 0.1.0\n0x00000000     +               1\n0x00000000  0x00096000  ?\n0x00096000  0x00000800  +\n0x00096800  0x00000800  -\n0x00097000  0x00000800  +\n0x00097800  0x00069800  ?\n

$ image --last 513 --out d.img --mapfile d.map one.rd two.rd

$ image --last 513 --out d.img --mapfile d.map one.rd dev/two.rd

= an_input_that_fails_when_it_is_read_again_is_told, 1
# The reading has 4120 bytes, which are read once from its front. For the table file both blocks are read again at once, 4100 bytes with
# the number between them. The device then fails for good, so the record that is sought from the front is not found behind the header.
file two.rd reading 300:61 301:62
file t.tab text UDFTABL«4993*w»
then refused udfsalvage: input 1: fault 8 Io at record 0\n
then has t.tab text UDFTABL«4993*w»
then survives t.tab text UDFTABL«4993*w»
then files 2

inputs-fail 4121
$ merge --v1 --out t.tab two.rd

inputs-fail 4122
$ merge --v1 --out t.tab two.rd

inputs-fail 6000
$ merge --v1 --out t.tab two.rd

inputs-fail 6168
$ merge --v1 --out t.tab two.rd

inputs-fail 6169
$ merge --v1 --out t.tab two.rd

inputs-fail 8219
$ merge --v1 --out t.tab two.rd

inputs-fail 6000
$ forget --conflicts --out t.tab two.rd

inputs-fail 8219
$ forget --conflicts --out t.tab two.rd

inputs-fail 6000
$ image --last 513 --out d.img --mapfile d.map two.rd

inputs-fail 8219
$ image --last 513 --out d.img --mapfile d.map two.rd

= an_input_that_fails_when_it_is_read_again_is_told, 2
file two.rd reading 300:61 301:62

inputs-fail 8220
$ merge --v1 --out t.tab two.rd
silent
has t.tab table 300:61 301:62

inputs-fail 9000
$ image --last 513 --out d.img --mapfile d.map two.rd
silent
has d.img text «614400*\0»«2048*a»«2048*b»«434176*\0»
";

#[test]
fn files_of_which_no_block_is_held(rt: HostRuntime) -> Result<(), Fail> {
    check(&rt, rt.alloc(), SCRIPT)
}
