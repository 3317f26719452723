//! What `forget` writes.

use crate::tests::check;
use std::test::Fail;

static SCRIPT: &str = r"
* files
passes
file 300 text 300\n
file more text 301\r\n0\n301
file none text
file zeros text 0000000000300\r\n
file /dev/stdin text 301\n
file word text 300\nx\n
file above text 4194303\n4194304\n
file gap text 300\n\n301\n
file sign text +300\n
file p.img text «2048*d»
file p.map text # GNU ddrescue\n0x0 + 1\n0 0x800 +\n

= what_is_named_is_unknown_again
# What is left is told by the table file of version 1 that `merge` makes of the output.
* files

$ forget --blocks 300 --out t.tab a.rd b.rd
silent
$ merge --v1 --out u.tab t.tab
silent
has u.tab table 301:62

$ forget --blocks=300 -o t.tab c.rd b.rd a.rd
silent
$ merge --v1 --out u.tab t.tab
silent
has u.tab table 301:62

$ forget --blocks zeros --output t.tab b.rd a.rd
silent
$ merge --v1 --out u.tab t.tab
silent
has u.tab table 301:62

$ forget --blocks - --out t.tab a.rd b.rd
silent
$ merge --v1 --out u.tab t.tab
silent
has u.tab table 300:61

$ forget a.rd b.rd --out t.tab --blocks more
silent
$ merge --v1 --out u.tab t.tab
silent
has u.tab table 300:61

$ forget --blocks 300 --blocks more --out t.tab a.rd b.rd
silent
$ merge --v1 --out u.tab t.tab
silent
has u.tab table

$ forget --blocks none --out t.tab a.rd b.rd
silent
$ merge --v1 --out u.tab t.tab
silent
has u.tab table 300:61 301:62

$ forget --conflicts --out t.tab a.rd b.rd
silent
$ merge --v1 --out u.tab t.tab
silent
has u.tab table 300:61 301:62

$ forget --conflicts --out t.tab a.rd b.rd c.rd
silent
$ merge --v1 --out u.tab t.tab
silent
has u.tab table 301:62

$ forget --conflicts --blocks more --out t.tab a.rd b.rd c.rd
silent
$ merge --v1 --out u.tab t.tab
silent
has u.tab table

$ forget --blocks 300 --out t.tab a.rd --ddrescue p.img p.map
silent
$ merge --v1 --out u.tab t.tab
silent
has u.tab table 0:64

$ forget --blocks more --out t.tab --ddrescue p.img p.map
silent
$ merge --v1 --out u.tab t.tab
silent
has u.tab table

= the_output_is_kept
# The output is a table file of version 2, of which no crash takes anything, and it may be an input.
* files

$ forget --blocks more --out t.tab a.rd b.rd c.rd
silent
has t.tab text UDFTABL2\0\x08\0\0\x01\0\0\0\t\0\0\0\0\0\0\0\0\x10\0\0
survives t.tab text UDFTABL2\0\x08\0\0\x01\0\0\0\t\0\0\0\0\0\0\0\0\x10\0\0
$ forget --conflicts -o t.tab t.tab
silent
has t.tab text UDFTABL2\0\x08\0\0\0\0\0\0
survives t.tab text UDFTABL2\0\x08\0\0\0\0\0\0

= what_refuses_it, 1
# The output is judged first, then the lists in order, and then the inputs. Nothing is made.
* files
then calls 0

$ forget --blocks word --out t.tab absent.rd
refused udfsalvage: list line 2: not a block number\n

$ forget --blocks 300 --blocks above --out t.tab a.rd
refused udfsalvage: list line 2: not a block number\n

$ forget --conflicts --blocks gap --out t.tab a.rd
refused udfsalvage: list line 2: not a block number\n

$ forget --blocks sign --blocks absent --out t.tab a.rd
refused udfsalvage: list line 1: not a block number\n

$ forget --blocks absent --out t.tab absent.rd
refused udfsalvage: cannot open list\n

$ forget --blocks 300 --out t.tab a.rd absent.rd
refused udfsalvage: cannot open input 2\n

$ forget --conflicts --out t.tab a.rd p.map
refused udfsalvage: input 2: fault 1 Magic at record 0\n

$ forget --blocks word --out b.rd a.rd
refused udfsalvage: cannot write output\n

$ forget --conflicts --force --out p.map a.rd --ddrescue p.img p.map
refused udfsalvage: cannot write output\n

= what_refuses_it, 2
* files

$ forget --conflicts --force --out b.rd a.rd c.rd
silent

= a_dash_is_a_stream
# As an input `-` is standard input, and as an output standard output; `./-` is a path as any other: what is there is no input.
passes
folder /dev
file /dev/stdin text UDFREAD1\0\x08\0\0\0\0\0\0
file - text UDFREAD1\0\x08\0\0\0\0\0\0
file ./- text UDFREAD1\0\x08\0\0\0\0\0\0

$ forget --conflicts --out - -
silent
has /dev/stdout text UDFTABL2\0\x08\0\0\0\0\0\0
has - text UDFREAD1\0\x08\0\0\0\0\0\0

$ forget --conflicts --out ./- -
refused udfsalvage: cannot write output\n
calls 0
has ./- text UDFREAD1\0\x08\0\0\0\0\0\0

$ forget --conflicts --out=- a.rd
silent
has - text UDFREAD1\0\x08\0\0\0\0\0\0

$ forget --conflicts --out a.rd - a.rd
silent

= a_list_whose_device_fails
* files

inputs-fail 2
$ forget --blocks 300 --out t.tab a.rd
refused udfsalvage: cannot read list\n
calls 0

= words_that_do_not_fit
* files
then status 2
then out
then calls 0

$ forget --out t.tab a.rd
error-begins error: the following required arguments were not provided:\n  <--conflicts|--blocks <LIST>>\n

$ forget --conflicts a.rd
error-begins error: the following required arguments were not provided:\n  --out <FILE>\n

$ forget --conflicts --out t.tab
error-begins error: the following required arguments were not provided:\n  <IN>...\n

$ forget --conflicts --last 600 --out t.tab a.rd
error-begins error: unexpected argument '--last' found

$ forget --conflicts --v1 --out t.tab a.rd
error-begins error: unexpected argument '--v1' found

$ merge --conflicts --out t.tab a.rd
error-begins error: unexpected argument '--conflicts' found
";

#[test]
fn what_is_forgotten_and_what_refuses_it(rt: HostRuntime) -> Result<(), Fail> {
    check(&rt, rt.alloc(), SCRIPT)
}
