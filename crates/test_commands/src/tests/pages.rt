//! The pages of sample volumes. What is expected is worked out by hand.

use crate::tests::check;
use std::test::Fail;

static SCRIPT: &str = r#"
= each_file_stands_inside_its_folders
# Two directories, at the logical blocks 20 and 22, with a file each, of which the second's is not whole; and a directory in which there is nothing. A folder is open where
# something in it is not whole, and shut where all of it is.
directory 1 p=20 q=22 z=24
directory 20 x=4 s=22
directory 22 y=3
directory 24
let Y <div class=t><bdi>y</bdi><small>5.0 kB, torn: 2.0 kB lost, bytes 2048&ndash;4095</small><small>2001-07-04T09:30:00Z</small></div>\n

but 278
$ page --last 600 --out p.html disc.tab
status 1
file-ends p.html <h2>All files</h2>\n<details open class=i><summary><bdi>/</bdi><small>folder</small><small>1 of 3 whole, 2 torn</small></summary>\n<details open class=i><summary><bdi>p</bdi><small>folder</small><small>1 of 2 whole, 1 torn</small></summary>\n<div class=w><bdi>x</bdi><small>2 B</small><small>2001-07-04T09:30:00Z</small></div>\n<details open class=i><summary><bdi>s</bdi><small>folder</small><small>0 of 1 whole, 1 torn</small></summary>\n«Y»</details>\n</details>\n<details open class=i><summary><bdi>q</bdi><small>folder</small><small>0 of 1 whole, 1 torn</small></summary>\n«Y»</details>\n<div class=w><bdi>z</bdi><small>folder</small><small>2001-07-04T09:30:00Z</small></div>\n</details>\n</body>\n</html>\n

but
$ page --last 600 --out p.html disc.tab
status 0
file-has p.html <details open class=w><summary><bdi>/</bdi><small>folder</small><small>3 of 3 whole</small></summary>\n<details class=w><summary><bdi>p</bdi><small>folder</small><small>2 of 2 whole</small></summary>\n
file-has p.html <p>Read from<bdi> disc.tab</bdi></p>\n

# The folder at 20 is torn itself, and the entry of the file in the one at 22 is not read: how many there are in it is not known.
but 275 293
$ page --last 600 --out p.html disc.tab
status 1
file-has p.html <details open class=i><summary><bdi>/</bdi><small>folder</small><small>0 of 1 whole, 1 not yet known</small></summary>\n<div class=t><bdi>p</bdi><small>folder, torn: 80 B lost, bytes 0&ndash;79</small><small>2001-07-04T09:30:00Z</small></div>\n<details open class=i><summary><bdi>q</bdi><small>folder</small><small>0 of 1 whole, 1 not yet known</small></summary>\n<div class=t><bdi>y</bdi><small>not yet known</small></div>\n</details>\n

= a_tail
# A file of 5,010 bytes with an extent of 5,000, which ends in its third block: the wide rules read it, and mark it. By the strict rules it is a fault.
write 275 56 \x92\x13
but

$ page --last 600 --profile wide --out p.html disc.tab
status 0
file-ends p.html <h2>All files</h2>\n<details open class=w><summary><bdi>/</bdi><small>folder</small><small>2 of 2 whole</small></summary>\n<div class=w><bdi>A</bdi><small>5.0 kB, <abbr title='The last bytes are read behind its last extent, from the rest of the same block. If the disc was removed between two writes, they may be old.'>tail</abbr></small><small>2001-07-04T09:30:00Z</small></div>\n<div class=w><bdi>B</bdi><small>2 B</small><small>2001-07-04T09:30:00Z</small></div>\n</details>\n</body>\n</html>\n

$ page --last 600 --out p.html disc.tab
status 1
file-has p.html <div class=f><bdi>A</bdi><small>5.0 kB, fault 9</small><small>2001-07-04T09:30:00Z</small></div>\n

= no_name_means_anything_to_a_browser
# A name that would begin an element and turn the direction of text, and a label that would end the title.
directory 1 html=3
write 32 84 \x08</title>
write 48 84 \x08</title>
write 32 211 \x09
write 48 211 \x09

but 278
$ page --last 600 --out p.html disc.tab
status 1
file-has p.html <title>&lt;\\u002Ftitle&gt;</title>\n
file-has p.html <div><bdi>&lt;\\u002Ftitle&gt;</bdi>   UDF 1.50, type 1   601 blocks, 1.2 MB</div>\n
file-has p.html <tr><td><bdi>/&lt;b&gt;&amp;&quot;&#39;\\u202E</bdi><td>41.0 %<td>2.0 kB<td>5.0 kB\n
file-has p.html <div class=t><bdi>&lt;b&gt;&amp;&quot;&#39;\\u202E</bdi><small>

= what_is_lost_is_shown
# The folder at 10 has the files A and one of a name that would begin an element, and its parent is the root. All link counts are 1. The root's body is not read,
# then also a block of A, then the folder's body. Last the file set is not read, and the root is a lost folder.
directory 1 D=10
directory 10 E=1 A=3 html=4
write 283 18 \x08\0
write 273 48 \x01
write 282 48 \x01
write 275 48 \x01
write 276 48 \x01
let FRONT <h2>Lost folders and files</h2>\n<p>No name that was read leads to these, so each is called by its block; what is inside a folder keeps its name. Some may be left over from what was deleted, and be old. This writes what is whole of them as well:</p>\n<pre>udfsalvage extract --last 600 --lost lost --to files disc.tab\n</pre>\n<p>The command <code>list --lost</code> also shows names that were found behind an unread block of a folder: evidence, not proof.</p>\n
let ROOT <summary><bdi>lost:10/</bdi><small>folder</small>
let IN <small>in <bdi>/</bdi></small></summary>\n
let A <div class=w><bdi>A</bdi><small>5.0 kB</small><small>2001-07-04T09:30:00Z</small></div>\n
let B <div class=w><bdi>&lt;b&gt;&amp;&quot;&#39;\\u202E</bdi><small>2 B</small><small>2001-07-04T09:30:00Z</small></div>\n
let END </details>\n</body>\n</html>\n

but 274
$ page --last 600 --out p.html disc.tab
status 1
file-ends p.html «FRONT»<details class=w>«ROOT»<small>2 of 2 whole</small>«IN»«A»«B»«END»

but 274 278
$ page --last 600 --out p.html disc.tab
status 1
file-ends p.html «FRONT»<details open class=i>«ROOT»<small>1 of 2 whole, 1 torn</small>«IN»<div class=t><bdi>A</bdi><small>5.0 kB, torn: 2.0 kB lost, bytes 2048&ndash;4095</small><small>2001-07-04T09:30:00Z</small></div>\n«B»«END»

but 274 283
$ page --last 600 --out p.html disc.tab
status 1
file-ends p.html </summary>\n</details>\n<details class=w><summary>Files without a folder</summary>\n<div class=w><bdi>lost:3</bdi><small>5.0 kB</small><small>2001-07-04T09:30:00Z</small></div>\n<div class=w><bdi>lost:4</bdi><small>2 B</small><small>2001-07-04T09:30:00Z</small></div>\n«END»

but 272
$ page --last 600 --out p.html disc.tab
status 1
file-ends p.html «FRONT»<details class=w><summary><bdi>lost:1/</bdi><small>folder</small><small>2 of 2 whole</small></summary>\n<details class=w><summary><bdi>D</bdi><small>folder</small><small>2 of 2 whole</small></summary>\n«A»«B»</details>\n«END»

but
$ page --last 600 --out p.html disc.tab
status 0
file-counts p.html 0 <h2>Lost

= what_is_not_whole_is_told
# Two torn directories, whose bodies are not known, and files that were not read or have a fault.
directory 1 p=20 q=22 r=3 t=1 u=40
directory 20 x=3
directory 22 y=3
fill 312 5a

but 275 293 295
$ page --last 600 --out p.html disc.tab
status 1
file-has p.html <div>Guarantee  does not hold: a folder is inside itself: <bdi>/t</bdi></div>\n
file-has p.html <h2>Not yet looked at</h2>\n<p>Each is a file or a whole folder, of unknown size.</p>\n<ul>\n<li><bdi>/r</bdi>\n</ul>\n
file-has p.html <div>Folders    1 whole   2 torn: names may be missing in <bdi>/p</bdi> and 1 more</div>\n
file-has p.html <div class=t><bdi>r</bdi><small>not yet known</small></div>\n
file-has p.html <div class=f><bdi>t</bdi><small>folder, a loop: it is inside itself</small><small>2001-07-04T09:30:00Z</small></div>\n
file-has p.html <div class=f><bdi>u</bdi><small>not yet known, fault 1</small></div>\n

= no_more_than_twenty_torn_files_in_the_table
directory 1 a=3 b=3 c=3 d=3 e=3 f=3 g=3 h=3 i=3 j=3 k=3 l=3 m=3 n=3 o=3 p=3 q=3 r=3 s=3 t=3 u=3 v=3

but 278
$ page --last 600 --out p.html disc.tab
status 1
file-counts p.html 20 <tr><td>
file-has p.html <bdi>/t</bdi><td>41.0 %<td>2.0 kB<td>5.0 kB\n</table>\n<p>And 2 more, each in the list of all files.</p>\n
file-counts p.html 22 <div class=t>
"#;

#[test]
fn pages_of_sample_volumes(rt: HostRuntime) -> Result<(), Fail> {
    check(&rt, rt.alloc(), SCRIPT)
}
