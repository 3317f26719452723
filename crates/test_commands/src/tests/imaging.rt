//! What `image` writes.

use crate::tests::check;
use std::test::Fail;

static SCRIPT: &str = r"
* files
passes
file d.img text an old image
file d.map text # Mapfile. Created by another\n0x0 + 1\n0 0x800 +\n

= the_image_and_its_mapfile_are_kept, 1
passes
then silent
then has d.img text «616448*\0»«2048*b»«434176*\0»
then has d.map text # Mapfile. Created by udfsalvage 0.1.0\n0x00000000     +               1\n0x00000000  0x00096000  ?\n0x00096000  0x00000800  -\n0x00096800  0x00000800  +\n0x00097000  0x0006A000  ?\n
then survives d.img text «616448*\0»«2048*b»«434176*\0»
then survives d.map text # Mapfile. Created by udfsalvage 0.1.0\n0x00000000     +               1\n0x00000000  0x00096000  ?\n0x00096000  0x00000800  -\n0x00096800  0x00000800  +\n0x00097000  0x0006A000  ?\n
then files 5

$ image --last 513 --out d.img --mapfile d.map a.rd b.rd c.rd

$ image --size 1052672 -o d.img --mapfile d.map a.rd b.rd c.rd

= the_image_and_its_mapfile_are_kept, 2
* files

$ image --force --last 513 --out d.img --mapfile d.map a.rd b.rd c.rd
silent
survives d.img text «616448*\0»«2048*b»«434176*\0»
survives d.map text # Mapfile. Created by udfsalvage 0.1.0\n0x00000000     +               1\n0x00000000  0x00096000  ?\n0x00096000  0x00000800  -\n0x00096800  0x00000800  +\n0x00097000  0x0006A000  ?\n

= the_pair_is_an_input
# The pair reads back as the table: what is known is known again, and nothing else.
passes
$ image --last 513 --out d.img --mapfile d.map a.rd b.rd c.rd
silent

$ merge --v1 --out t.tab --ddrescue d.img d.map
silent
has t.tab table 301:62

= a_call_that_fails_leaves_no_wrong_map, 1
# Each call fails once, or from then on: an old mapfile never stands beside a new image, nor a new one beside an old image.
* files

each 1 11
calls-fail «n» «n»
$ image --force --last 513 --out d.img --mapfile d.map a.rd b.rd c.rd
any status 2 & has d.img text an old image & has d.map text # Mapfile. Created by another\n0x0 + 1\n0 0x800 +\n | status 2 & absent d.map & has d.img text an old image | status 2 & absent d.map & has d.img text «616448*\0»«2048*b»«434176*\0» | has d.img text «616448*\0»«2048*b»«434176*\0» & has d.map text # Mapfile. Created by udfsalvage 0.1.0\n0x00000000     +               1\n0x00000000  0x00096000  ?\n0x00096000  0x00000800  -\n0x00096800  0x00000800  +\n0x00097000  0x0006A000  ?\n

= a_call_that_fails_leaves_no_wrong_map, 2
* files

each 1 11
calls-fail «n» on
$ image --force --last 513 --out d.img --mapfile d.map a.rd b.rd c.rd
status 2
any status 2 & has d.img text an old image & has d.map text # Mapfile. Created by another\n0x0 + 1\n0 0x800 +\n | status 2 & absent d.map & has d.img text an old image | status 2 & absent d.map & has d.img text «616448*\0»«2048*b»«434176*\0» | has d.img text «616448*\0»«2048*b»«434176*\0» & has d.map text # Mapfile. Created by udfsalvage 0.1.0\n0x00000000     +               1\n0x00000000  0x00096000  ?\n0x00096000  0x00000800  -\n0x00096800  0x00000800  +\n0x00097000  0x0006A000  ?\n

= what_refuses_it
* files
file far.rd reading 514:61
file p.img text «2048*c»
file p.map text # GNU ddrescue\n0x0 + 1\n0 0x800 +\n
then calls 0

$ image --last 513 --out d.img --mapfile d.map a.rd b.rd c.rd
refused udfsalvage: cannot write output\n

$ image --last 600 --out d.img --mapfile n.map absent.rd
refused udfsalvage: cannot write output\n

$ image --last 600 --out n.img --mapfile d.map absent.rd
refused udfsalvage: cannot write output\n

$ image --force --last 600 --out a.rd --mapfile d.map a.rd
refused udfsalvage: cannot write output\n

$ image --force --last 600 --out d.img --mapfile a.rd a.rd
refused udfsalvage: cannot write output\n

$ image --force --last 600 --out p.img --mapfile d.map --ddrescue p.img p.map
refused udfsalvage: cannot write output\n

$ image --force --last 600 --out d.img --mapfile p.map --ddrescue p.img p.map
refused udfsalvage: cannot write output\n

$ image --last 600 --out n.img --mapfile n.img a.rd
refused udfsalvage: cannot write output\n

$ image --last 600 --out n --mapfile n.unfinished a.rd
refused udfsalvage: cannot write output\n

$ image --last 600 --out n.unfinished~ --mapfile n a.rd
refused udfsalvage: cannot write output\n

$ image --force --last 600 --out dev/img --mapfile n.map a.rd
refused udfsalvage: cannot write output\n

$ image --last 512 --out n.img --mapfile n.map a.rd
refused udfsalvage: fault 1 LastRange\n

$ image --last 4194304 --out n.img --mapfile n.map a.rd
refused udfsalvage: fault 1 LastRange\n

$ image --last 513 --out n.img --mapfile n.map far.rd
refused udfsalvage: fault 2 PastEnd 514\n

$ image --last 600 --out n.img --mapfile n.map a.rd absent.rd
refused udfsalvage: cannot open input 2\n
";

#[test]
fn images_and_their_mapfiles(rt: HostRuntime) -> Result<(), Fail> {
    check(&rt, rt.alloc(), SCRIPT)
}
