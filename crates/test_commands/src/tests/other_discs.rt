//! That an image of another disc is refused, and nothing else is.

use crate::tests::check;
use std::test::Fail;

static SCRIPT: &str = r"
* passes over blocks
file a.rd reading 0..16:61
file same.img blocks 0..16:61
file four.img blocks 0..4:62 4..16:61
file all.img blocks 0..16:62
file p.map text 0 + 1\n0 32768 +\n
file first-15.map text 0 + 1\n0 30720 +\n
file first-3.map text 0 + 1\n0 6144 +\n
file first-4.map text 0 + 1\n0 8192 +\n

= a_pass_of_another_disc_is_refused
* passes over blocks
then absent t.tab
then absent new.img
then absent new.map
then absent want.map
then absent new.html
then no-folder out
then refused udfsalvage: input 2: disagrees in 16 of 16 blocks\n

$ merge --out t.tab a.rd --ddrescue all.img p.map

$ forget --conflicts --out t.tab a.rd --ddrescue all.img p.map

$ image --last 600 --out new.img --mapfile new.map a.rd --ddrescue all.img p.map

$ report --last 600 a.rd --ddrescue all.img p.map

$ reread --last 600 a.rd --ddrescue all.img p.map

$ reread --last 600 --mapfile want.map a.rd --ddrescue all.img p.map

$ list --last 600 a.rd --ddrescue all.img p.map

$ summary --last 600 a.rd --ddrescue all.img p.map

$ page --last 600 --out new.html a.rd --ddrescue all.img p.map

$ extract --last 600 --to out a.rd --ddrescue all.img p.map

= three_blocks_of_three_are_a_conflict_and_four_of_four_another_disc
* passes over blocks

$ merge -v --out t.tab a.rd --ddrescue all.img first-3.map
silent
remarked 2 inputs: 13 known (0 new), 3 in conflict (3 new)\ninput 2 disagrees in 3 of 3 blocks: is it the same disc?\nfirst-3.map ends at 6.1 kB, but all.img has 32.8 kB: are they from the same pass?\n

$ merge --out t.tab a.rd --ddrescue all.img first-4.map
refused udfsalvage: input 2: disagrees in 4 of 4 blocks\n
absent t.tab

= four_blocks_of_sixteen_are_a_conflict_and_four_of_fifteen_another_disc
* passes over blocks

$ merge -v --out t.tab a.rd --ddrescue four.img p.map
silent
remarked 2 inputs: 12 known (0 new), 4 in conflict (4 new)\ninput 2 disagrees in 4 of 16 blocks: is it the same disc?\n

$ merge --out t.tab a.rd --ddrescue four.img first-15.map
refused udfsalvage: input 2: disagrees in 4 of 15 blocks\n
absent t.tab

= by_force_it_is_joined
* passes over blocks

$ merge -v --force --out t.tab a.rd --ddrescue all.img first-4.map
silent
remarked 2 inputs: 12 known (0 new), 4 in conflict (4 new)\ninput 2 disagrees in 4 of 4 blocks: is it the same disc?\nfirst-4.map ends at 8.2 kB, but all.img has 32.8 kB: are they from the same pass?\n

$ report --force --last 600 a.rd --ddrescue all.img p.map
status 1
error

= a_pair_is_compared_with_the_pairs_before_it
* passes over blocks

$ merge --out t.tab --ddrescue same.img p.map --ddrescue all.img p.map
refused udfsalvage: input 2: disagrees in 16 of 16 blocks\n
absent t.tab

$ merge --out t.tab --ddrescue all.img p.map --ddrescue all.img p.map --ddrescue same.img p.map
refused udfsalvage: input 3: disagrees in 16 of 16 blocks\n
absent t.tab

= the_first_input_is_compared_with_none
* passes over blocks

$ merge --v1 --out t.tab --ddrescue all.img p.map
silent
has t.tab table 0..16:62

= readings_and_tables_are_joined_all_the_same
* passes over blocks
file b.rd reading 0..16:62
file b.tab table 0..16:62

$ merge -v --out t.tab a.rd b.rd
silent
remarked 2 inputs: 0 known (0 new), 16 in conflict (16 new)\ninput 2 disagrees in 16 of 16 blocks: is it the same disc?\n

$ merge -v --out t.tab a.rd b.tab
silent
remarked 2 inputs: 0 known (0 new), 16 in conflict (16 new)\ninput 2 disagrees in 16 of 16 blocks: is it the same disc?\n

= what_is_in_conflict_or_not_known_before_is_not_compared
* passes over blocks
file b.rd reading 0..13:62
file c.rd reading 16..32:61

$ merge --out t.tab a.rd b.rd --ddrescue all.img p.map
silent

$ merge --out t.tab c.rd --ddrescue all.img p.map
silent

= twelve_blocks_of_four_thousand_are_a_conflict
# A pass of the same disc, of which the drive returned 12 blocks with other bytes: it is joined. The case has 4,000 blocks, so that the test is quick; of a
# whole disc they are a smaller part.
file a.rd reading 0..4000:61
file p.img blocks 0..12:62 12..4000:61
file p.map text 0 + 1\n0 8192000 +\n

$ merge -v --out t.tab a.rd --ddrescue p.img p.map
silent
remarked 2 inputs: 3,988 known (0 new), 12 in conflict (12 new)\n

= a_whole_second_pass_of_the_wrong_disc
# All blocks of the disc are known, and then the disc in the drive is another, of which each block is otherwise. The table file stays as it is.
but
file wrong.img blocks 0..601:64
file wrong.map text 0 + 1\n0 1230848 +\n

$ merge --out disc.tab disc.tab --ddrescue wrong.img wrong.map
refused udfsalvage: input 2: disagrees in 601 of 601 blocks\n
$ report --last 600 disc.tab
status 0

$ summary --last 600 disc.tab --ddrescue wrong.img wrong.map
refused udfsalvage: input 2: disagrees in 601 of 601 blocks\n

$ extract --last 600 --to out disc.tab --ddrescue wrong.img wrong.map
refused udfsalvage: input 2: disagrees in 601 of 601 blocks\n
no-folder out

= a_round_over_the_blocks_to_read_again_with_the_wrong_disc
# The second pass reads what `reread` asks for: block 278, and six known blocks to compare. Where the disc is another, all six disagree; where it is the
# same one, the volume is complete, and of the seven blocks one is new.
but 278
file wrong.img blocks 0..601:64
file round.map text 0 + 1\n0x00000000 0x00010000 ?\n0x00010000 0x00000800 +\n0x00010800 0x0006F800 ?\n0x00080000 0x00000800 +\n0x00080800 0x00007800 ?\n0x00088000 0x00001000 +\n0x00089000 0x00002000 ?\n0x0008B000 0x00000800 +\n0x0008B800 0x00020800 ?\n0x000AC000 0x00000800 +\n0x000AC800 0x0007F800 ?\n0x0012C000 0x00000800 +\n

$ reread --last 600 --mapfile want.map disc.tab
status 1
out 1 block in 1 run, and 6 known ones to compare\n

$ merge --out t.tab disc.tab --ddrescue wrong.img round.map
refused udfsalvage: input 2: disagrees in 6 of 6 blocks\n
absent t.tab

$ extract --last 600 --to out disc.tab --ddrescue wrong.img round.map
refused udfsalvage: input 2: disagrees in 6 of 6 blocks\n
no-folder out

$ merge -v --force --out t.tab disc.tab --ddrescue wrong.img round.map
silent
remarked 2 inputs: 595 known (1 new), 6 in conflict (6 new)\ninput 2 disagrees in 6 of 6 blocks: is it the same disc?\n

file whole.rd sample
$ image --last 600 --out same.img --mapfile same.map whole.rd
silent
$ merge -v --out t.tab disc.tab --ddrescue same.img round.map
silent
remarked 2 inputs: 601 known (1 new), 0 in conflict (0 new)\n

file whole.rd sample
$ image --last 600 --out same.img --mapfile same.map whole.rd
silent
$ report --last 600 disc.tab
status 1
$ report --last 600 disc.tab --ddrescue same.img round.map
status 0

= an_input_that_comes_through_a_pipe_is_compared_too
* passes over blocks
file dev/a.rd reading 0..16:61

$ merge --out t.tab dev/a.rd --ddrescue all.img p.map
refused udfsalvage: input 2: disagrees in 16 of 16 blocks\n
absent t.tab

$ merge -v --out t.tab dev/a.rd --ddrescue all.img first-3.map
silent
remarked 2 inputs: 13 known (0 new), 3 in conflict (3 new)\ninput 2 disagrees in 3 of 3 blocks: is it the same disc?\nfirst-3.map ends at 6.1 kB, but all.img has 32.8 kB: are they from the same pass?\n
";

#[test]
fn an_image_of_another_disc_is_refused(rt: HostRuntime) -> Result<(), Fail> {
    check(&rt, rt.alloc(), SCRIPT)
}
