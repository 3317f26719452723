//! What `merge` reports to a person when it is done.

use crate::tests::check;
use std::test::Fail;

static SCRIPT: &str = r"
= the_closing_line_comes_where_more_is_told_or_something_is_new
passes

$ merge -v --out t.tab a.rd b.rd
silent
remarked 2 inputs: 2 known (1 new), 0 in conflict (0 new)\n

$ merge --out t.tab a.rd b.rd --verbose
silent
remarked 2 inputs: 2 known (1 new), 0 in conflict (0 new)\n

$ merge --v1 --out t.tab -v a.rd b.rd
silent
remarked 2 inputs: 2 known (1 new), 0 in conflict (0 new)\n

$ merge --out t.tab a.rd b.rd
silent
remarked 2 inputs: 2 known (1 new), 0 in conflict (0 new)\n

$ merge --out t.tab a.rd a.rd
silent
remarked

$ merge -q --out t.tab a.rd b.rd
silent
remarked

$ merge -q -v --out t.tab a.rd b.rd
silent
remarked

= inputs_that_agree_have_no_conflict

file first.rd reading 300:61 301:62
file second.rd reading 301:62 302:63 300:61 301:62
$ merge -v --out t.tab first.rd second.rd
silent
remarked 2 inputs: 3 known (1 new), 0 in conflict (0 new)\n

file first.rd reading 300:61 301:62
file second.rd reading 300:61 301:62
$ merge -v --out t.tab first.rd second.rd
silent
remarked 2 inputs: 2 known (0 new), 0 in conflict (0 new)\n

file first.rd reading 300:61 301:62
file second.rd reading
$ merge -v --out t.tab first.rd second.rd
silent
remarked 2 inputs: 2 known (0 new), 0 in conflict (0 new)\n

file first.rd reading
file second.rd reading 300:61 301:62
$ merge -v --out t.tab first.rd second.rd
silent
remarked 2 inputs: 2 known (2 new), 0 in conflict (0 new)\n

= one_input_has_nothing_new
passes
file two.rd reading 300:61 301:62 301:63

$ merge -v --out t.tab two.rd
silent
remarked 1 input: 1 known (0 new), 1 in conflict (0 new)\n

= one_in_a_hundred_is_no_other_disc
# Blocks 0 to 98 agree, and block 99 is disputed: 1 of 100 blocks is not more than one in a hundred. Without block 98 it is 1 of 99.
file first.rd reading 0..100:61

file second.rd reading 99:62 0..98:61
$ merge -v --out t.tab first.rd second.rd
silent
remarked 2 inputs: 99 known (0 new), 1 in conflict (1 new)\ninput 2 disagrees in 1 of 99 blocks: is it the same disc?\n

file second.rd reading 99:62 0..98:61 98:61
$ merge -v --out t.tab first.rd second.rd
silent
remarked 2 inputs: 99 known (0 new), 1 in conflict (1 new)\n

= a_third_input_of_another_disc_is_doubted
# Blocks 0 to 99 are in the first reading and 100 to 199 in the second. The third has all of them: two are others, and then three. With
# two others 198 are known and 99 of them new; with three 197, of which 98 are new.
file first.rd reading 0..100:own
file second.rd reading 100..200:own

file third.rd reading 0..7:own 7:ff 8..107:own 107:ff 108..200:own
$ merge -v --out t.tab first.rd second.rd third.rd
silent
remarked 3 inputs: 198 known (99 new), 2 in conflict (2 new)\n

file third.rd reading 0..7:own 7:ff 8..107:own 107:ff 108..199:own 199:ff
$ merge -v --out t.tab first.rd second.rd third.rd
silent
remarked 3 inputs: 197 known (98 new), 3 in conflict (3 new)\ninput 3 disagrees in 3 of 200 blocks: is it the same disc?\n

= each_doubted_input_is_named
# Each input that is doubted has its line, in the order of the inputs: the second has another block 300, which is in conflict from then
# on, and the fourth another block 301.
passes
file d.rd reading 300:64 301:64

$ merge -v --out t.tab a.rd c.rd b.rd d.rd
silent
remarked 4 inputs: 0 known (0 new), 2 in conflict (2 new)\ninput 2 disagrees in 1 of 1 blocks: is it the same disc?\ninput 4 disagrees in 1 of 1 blocks: is it the same disc?\n

= an_image_that_is_longer_than_its_map
# It may be that of another disc. Nothing is said of one that ends where its map does, nor where no more is told.
passes
file p.img text «4096*d»
file short.map text # Mapfile\n0x0 + 1\n0 0x800 +\n
file p.map text # Mapfile\n0x0 + 1\n0 0x1000 +\n

$ merge -v --out t.tab --ddrescue p.img short.map
silent
remarked 1 input: 1 known (0 new), 0 in conflict (0 new)\nshort.map ends at 2.0 kB, but p.img has 4.1 kB: are they from the same pass?\n

$ merge -v --out t.tab --ddrescue p.img p.map
silent
remarked 1 input: 2 known (0 new), 0 in conflict (0 new)\n

$ merge --out t.tab --ddrescue p.img short.map
silent
remarked

= a_new_file_that_a_killed_run_left_is_named
passes
file t.tab.unfinished text x

$ merge -v --out t.tab a.rd b.rd
silent
remarked 2 inputs: 2 known (1 new), 0 in conflict (0 new)\nt.tab.unfinished was left by a run that was killed: remove it, unless that run goes on\n

= an_input_that_contradicts_itself
# A block of which an input has two contents is not known to it, whichever comes first; one of which it has the same content twice is.
file first.rd reading 5:61 6:62

file second.rd reading 5:61 5:63 6:64 6:65 7:66 7:66
$ merge -v --out t.tab first.rd second.rd
silent
remarked 2 inputs: 1 known (1 new), 2 in conflict (2 new)\n

file second.rd reading 6:64 6:62 6:64 5:61 5:61 5:61
$ merge -v --out t.tab first.rd second.rd
silent
remarked 2 inputs: 1 known (0 new), 1 in conflict (1 new)\n

file second.rd reading 6:64 6:64 5:61 6:64 5:63 5:63
$ merge -v --out t.tab first.rd second.rd
silent
remarked 2 inputs: 0 known (0 new), 2 in conflict (2 new)\ninput 2 disagrees in 1 of 1 blocks: is it the same disc?\n

file second.rd reading 6:64 6:64 5:61 8:61 8:62 5:61
$ merge -v --out t.tab first.rd second.rd
silent
remarked 2 inputs: 1 known (0 new), 2 in conflict (2 new)\ninput 2 disagrees in 1 of 2 blocks: is it the same disc?\n

= a_table_with_conflicts
# What is in conflict in the first input is not new, and a block in conflict on either side is not compared.
passes
file old.tab text UDFTABL1\0\x08\0\0\x02\0\0\0,\x01\0\0\x02-\x01\0\0\x01«2048*b»
file more.rd reading 300:61 301:62 302:63

$ merge -v --out t.tab old.tab more.rd
silent
remarked 2 inputs: 2 known (1 new), 1 in conflict (0 new)\n

$ merge -v --out t.tab more.rd old.tab
silent
remarked 2 inputs: 2 known (0 new), 1 in conflict (1 new)\n

$ merge -v --out old.tab old.tab a.rd
silent
remarked 2 inputs: 1 known (0 new), 1 in conflict (0 new)\n

= a_pair_is_an_input
# The image has blocks 0 and 1 of bytes 61 and 62 hex, of which the map says that both are rescued.
file p.img text «2048*a»«2048*b»
file p.map text 0 + 1\n0 4096 +\n

file a.rd reading 1:62
$ merge -v --out t.tab a.rd --ddrescue p.img p.map
silent
remarked 2 inputs: 2 known (1 new), 0 in conflict (0 new)\n

file a.rd reading 1:63
$ merge -v --out t.tab a.rd --ddrescue p.img p.map
silent
remarked 2 inputs: 1 known (1 new), 1 in conflict (1 new)\ninput 2 disagrees in 1 of 1 blocks: is it the same disc?\n

= figures_have_their_thousands_apart
file some.tab table 4000..5000:61
file all.rd reading 4000..5100:61
file else.tab table 4000..5100:62

$ merge -v --out t.tab some.tab all.rd else.tab
silent
remarked 3 inputs: 0 known (0 new), 1,100 in conflict (1,100 new)\ninput 3 disagrees in 1,100 of 1,100 blocks: is it the same disc?\n

= a_refused_merge_has_no_closing_line, 1
# Where the merge is refused, nothing is told of the join: also where all is in its place, but its folder, the last of four calls, could
# not be synced.
passes
then status 2
then remarked

$ merge -v --out none/t.tab a.rd b.rd

$ merge -v --out t.tab a.rd none.rd

$ merge -v --out c.rd a.rd b.rd

= a_refused_merge_has_no_closing_line, 2
passes

each 2 5
calls-fail «n» «n»
$ merge -v --out t.tab a.rd b.rd
status 2
remarked
";

#[test]
fn what_is_told_of_a_merge(rt: HostRuntime) -> Result<(), Fail> {
    check(&rt, rt.alloc(), SCRIPT)
}
