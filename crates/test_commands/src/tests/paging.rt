//! What `page` writes. The discs have 601 blocks, of which each is an arc of the picture. A disc whose file `A` lacks block 278 lacks 2,048 of its 5,000 bytes.

use crate::tests::{Commands, assert_case, check};
use std::test::Fail;
use test_runs::page_wants_memory;

static WHAT_A_PAGE_HAS: &str = r"
= the_page_of_a_torn_disc
# There is one arc of a block that is lacking, and what it means, and 600 of the others, and what they mean.
let MARK <!DOCTYPE html>\n<!-- a page of udfsalvage -->\n<html lang=en>\n
let END <div class=w><bdi>B</bdi><small>2 B</small><small>2001-07-04T09:30:00Z</small></div>\n</details>\n</body>\n</html>\n
but 278
then done 1
then file-begins p.html «MARK»
then file-has p.html <title>TEST</title>
then file-has p.html <div><bdi>TEST</bdi>   UDF 1.50, type 1   601 blocks, 1.2 MB</div>\n
then file-has p.html <div>1 file is complete, 1 damaged;</div>\n<div>1 block is worth reading again</div>\n<div>Files      1 whole (2 B)</div>\n<div>           1 torn (2.0 kB of 5.0 kB lost)</div>\n
then file-has p.html <div>Guarantee  holds: nothing on this disc contradicts the standard</div>\n<div>Disc       600 known   1 not known   0 in conflict</div>\n<div>           1 of these is needed, in 1 place</div>\n
then file-has p.html <title>blocks 278 to 278: needed</title></path>
then file-has p.html <title>blocks 277 to 277: known</title></path>\n
then file-has p.html --group 16 --mapfile want.map disc.tab\nddrescue -d -r3 -b2048 -m want.map /dev/sr0 p600.img p600.map\nudfsalvage merge --out disc.tab disc.tab --ddrescue p600.img p600.map\n</pre>\n
then file-has p.html <tr><td><bdi>/A</bdi><td>41.0 %<td>2.0 kB<td>5.0 kB\n
then file-has p.html <details open class=i><summary><bdi>/</bdi><small>folder</small><small>1 of 2 whole, 1 torn</small></summary>\n<div class=t><bdi>A</bdi><small>5.0 kB, torn: 2.0 kB lost, bytes 2048&ndash;4095</small><small>2001-07-04T09:30:00Z</small></div>\n
then file-has p.html «END»
then file-counts p.html 2 <path class=m\x20
then file-counts p.html 601 <path class=k\x20
then stays p.html
then files 2

$ page --last 600 --out p.html disc.tab

$ page --size 1230848 -o p.html disc.tab
file-has p.html <pre>udfsalvage page --size 1230848 --out p.html disc.tab\n</pre>\n

= the_page_with_a_title
but

$ page --last 600 --title Box12,<disc3> --out p.html disc.tab
silent
file-has p.html <title>Box12,&lt;disc3&gt;: TEST</title>
file-has p.html <h1>Box12,&lt;disc3&gt;: What can be salvaged</h1>\n

= the_page_of_a_whole_disc
but

$ page --last 600 --out p.html disc.tab
silent
file-has p.html <p>All is whole.</p>\n
file-has p.html <div class=w><bdi>A</bdi><small>5.0 kB</small><small>2001-07-04T09:30:00Z</small></div>\n
file-has p.html <div>Folders    1 whole</div>\n
file-lacks p.html <table>

= the_page_of_a_disc_that_does_not_open
but 272

$ page --last 600 --out p.html disc.tab
status 1
file-has p.html <title>a disc that does not open</title>
file-has p.html <div>does not open: block 272 is needed</div>\n<div>Deleted    3 entries</div>\n<div>Guarantee  nothing seen contradicts the standard;</div>\n<div>           1 unknown block could</div>\n
file-has p.html --group 16 --mapfile want.map disc.tab\n
file-lacks p.html udfsalvage extract
file-lacks p.html <h2>All files</h2>

= what_a_page_says_to_do_next
# A volume that the strict rules refuse for its revision is read by the wide ones; blocks in conflict are forgotten first, by the rules that were asked for.

write 32 240 \0\x02
write 48 240 \0\x02
but
$ page --last 600 --out p.html disc.tab
status 1
file-has p.html <div>Guarantee  does not hold: the volume does not open: <bdi>the rules do not accept this UDF revision</bdi></div>\n
file-has p.html <p>UDF 2.00 (a camcorder or recorder disc): add --profile wide.</p>\n<pre>udfsalvage page --last 600 --profile wide --out p.html disc.tab\n</pre>\n
file-lacks p.html udfsalvage extract

write 32 240 \0\x02
write 48 240 \0\x02
but
also 277 07
$ page --last 600 --profile wide --out p.html disc.tab
status 1
file-has p.html 600 known   0 not known   1 in conflict</div>\n<div>           1 of these is needed, in 1 place</div>\n
file-has p.html <pre>udfsalvage forget --conflicts --out clean.tab disc.tab\nudfsalvage reread --last 600 --profile wide --group 16 --mapfile want.map clean.tab\nddrescue -d -r3 -b2048 -m want.map /dev/sr0 p600.img p600.map\nudfsalvage merge --out clean.tab clean.tab --ddrescue p600.img p600.map\n</pre>\n
file-has p.html <pre>udfsalvage page --last 600 --profile wide --out p.html clean.tab\n</pre>\n
file-has p.html <pre>udfsalvage extract --last 600 --profile wide --to files disc.tab\n</pre>\n
";

#[test]
fn what_a_page_has(rt: HostRuntime) -> Result<(), Fail> {
    check(&rt, rt.alloc(), WHAT_A_PAGE_HAS)
}

static WHERE_A_PAGE_GOES: &str = r"
= a_page_on_standard_output
# `-` is standard output, and so is its own path.
let MARK <!DOCTYPE html>\n<!-- a page of udfsalvage -->\n<html lang=en>\n
let END <div class=w><bdi>B</bdi><small>2 B</small><small>2001-07-04T09:30:00Z</small></div>\n</details>\n</body>\n</html>\n
but 278
folder /dev
then status 1
then file-begins /dev/stdout «MARK»
then file-ends /dev/stdout «END»

$ page --last 600 --out - disc.tab

$ page --last 600 --out /dev/stdout disc.tab

= an_old_page_is_replaced
# An old page is replaced, also one that is cut short behind its beginning; and so is nothing.
let MARK <!DOCTYPE html>\n<!-- a page of udfsalvage -->\n<html lang=en>\n
but 278
file p.html text <!DOCTYPE html>\n<!-- a page of udfsalvage -->\nold

$ page --last 600 --out p.html disc.tab
status 1
file-begins p.html «MARK»
file-lacks p.html -->\nold

= what_a_page_is_not_written_over
# No file but a page is written over, and no input; no input is read then.
but 278
file note.html text <!DOCTYPE html>\n<p>a page of another kind\n
file a.html text <!DOCTYPE html>\n<!-- a page of udfsalvage -->\n
file p.map text # Mapfile. Created by GNU ddrescue\n0 + 1\n
file p.img text «2048*\0»
then same-files
then has note.html text <!DOCTYPE html>\n<p>a page of another kind\n
then has p.map text # Mapfile. Created by GNU ddrescue\n0 + 1\n

$ page --last 600 --out disc.tab disc.tab
refused udfsalvage: cannot write output\n

$ page --last 600 --out note.html absent.rd
refused udfsalvage: cannot write output\n

$ page --last 600 --out a.html a.html
refused udfsalvage: cannot write output\n

$ page --last 600 --out p.map disc.tab --ddrescue p.img p.map
refused udfsalvage: cannot write output\n

$ page --last 600 --out p.img disc.tab --ddrescue p.img p.map
refused udfsalvage: cannot write output\n

$ page --last 600 --out new.html absent.rd
refused udfsalvage: cannot open input 1\n

$ page --last 512 --out new.html disc.tab
refused udfsalvage: fault 1 LastRange\n

= a_page_that_cannot_be_written, 1
# A device that fails leaves the old page.
but 278
file p.html text <!DOCTYPE html>\n<!-- a page of udfsalvage -->\nold
then refused udfsalvage: cannot write output\n
then has p.html text <!DOCTYPE html>\n<!-- a page of udfsalvage -->\nold
then survives p.html text <!DOCTYPE html>\n<!-- a page of udfsalvage -->\nold

outputs-fail 0
$ page --last 600 --out p.html disc.tab

outputs-fail 1
$ page --last 600 --out p.html disc.tab

outputs-fail 1000
$ page --last 600 --out p.html disc.tab

outputs-fail 40000
$ page --last 600 --out p.html disc.tab

= a_page_that_cannot_be_written, 2
file empty.rd reading

$ page --last 600 empty.rd
status 2
";

#[test]
fn where_a_page_goes(rt: HostRuntime) -> Result<(), Fail> {
    check(&rt, rt.alloc(), WHERE_A_PAGE_GOES)
}

static A_PAGE_IN_PIECES: &str = r"
= a_page_of_many_nodes
# Of 65,535 directories the page has some megabytes, so it is written in pieces. A device that fails behind some of them leaves the old page.
disc doubling 0
but

$ page --last 600 --out p.html disc.tab
silent
file-counts p.html 65535 <small>folder</small>
file-counts p.html 1 <bdi>/</bdi>
file-ends p.html </details>\n</details>\n</body>\n</html>\n
stays p.html

file p.html text <!DOCTYPE html>\n<!-- a page of udfsalvage -->\nold
outputs-fail 1000000
$ page --last 600 --out p.html disc.tab
refused udfsalvage: cannot write output\n
has p.html text <!DOCTYPE html>\n<!-- a page of udfsalvage -->\nold
survives p.html text <!DOCTYPE html>\n<!-- a page of udfsalvage -->\nold
files 2
";

#[test]
fn a_page_in_pieces(rt: HostRuntime) -> Result<(), Fail> {
    check(&rt, rt.alloc(), A_PAGE_IN_PIECES)
}

/// With ample memory the page is written. Where one allocation fails it is written, or the run fails with the line that memory ran out, and the
/// old page stays, even if a beginning of the new one was written.
#[test]
fn want_of_memory_is_told(rt: HostRuntime) {
    assert_case(
        &rt,
        !matches!(page_wants_memory(rt.alloc(), &Commands), Ok(false)),
        "",
    );
}
