//! What `merge` writes.

use crate::tests::check;
use std::test::Fail;

static SCRIPT: &str = r"
= order_and_repetition_change_nothing
passes
then silent
then has t.tab table 300:61 301:62
then length t.tab 4122

$ merge --v1 --out t.tab a.rd b.rd

$ merge --v1 --out t.tab b.rd a.rd

$ merge --v1 --out t.tab a.rd b.rd a.rd

$ merge a.rd b.rd --out=t.tab --v1

= the_split_over_files_changes_nothing
passes
file both.rd reading 301:62 300:61 301:62

$ merge --v1 --out t.tab both.rd
silent
has t.tab table 300:61 301:62

= a_dispute_is_an_entry_of_five_bytes
passes
then silent
then has t.tab text UDFTABL1\0\x08\0\0\x01\0\0\0,\x01\0\0\x02

$ merge --v1 --out t.tab a.rd c.rd a.rd

$ merge --v1 --out t.tab c.rd a.rd

$ merge --v1 --out t.tab a.rd a.rd c.rd

= no_record_makes_an_empty_table
file empty.rd text UDFREAD1\0\x08\0\0\0\0\0\0

$ merge --v1 --out t.tab empty.rd
silent
has t.tab text UDFTABL1\0\x08\0\0\0\0\0\0

= the_output_may_be_an_input
passes

$ merge --v1 --out b.rd a.rd b.rd
silent
has b.rd table 300:61 301:62

= nothing_of_an_old_output_is_left
passes
file t.tab text UDFTABL«8993*w»

$ merge --v1 --out t.tab b.rd
silent
has t.tab table 301:62

= a_table_of_many_pieces_is_whole
# More than one piece of the output is filled: 600 blocks are 1,231,816 bytes. The output is there already but for the first case.
file many.rd reading 600:apart
then silent
then has t.tab table 600:apart
then length t.tab 1231816

outputs-move max
$ merge --v1 --out t.tab many.rd

$ merge --v1 --out t.tab many.rd
silent
outputs-move 1000
$ merge --v1 --out t.tab many.rd

$ merge --v1 --out t.tab many.rd
silent
outputs-move 262144
$ merge --v1 --out t.tab many.rd

$ merge --v1 --out t.tab many.rd
silent
outputs-move 262143
$ merge --v1 --out t.tab many.rd

= a_pass_is_merged_into_an_earlier_table
# Block 300 in conflict and block 301 known: the file of a.rd, b.rd and c.rd.
passes
then silent
then has t.tab text UDFTABL1\0\x08\0\0\x02\0\0\0,\x01\0\0\x02-\x01\0\0\x01«2048*b»

$ merge --v1 --out t.tab a.rd b.rd c.rd
silent
$ merge --v1 --out t.tab t.tab

$ merge --v1 --out t.tab a.rd b.rd
silent
$ merge --v1 --out t.tab t.tab c.rd

$ merge --v1 --out t.tab a.rd b.rd
silent
$ merge --v1 --out t.tab c.rd t.tab b.rd

$ merge --v1 --out t.tab c.rd
silent
$ merge --v1 --out t.tab b.rd t.tab a.rd

$ merge --v1 --out t.tab a.rd c.rd
silent
$ merge --v1 --out t.tab t.tab b.rd a.rd t.tab
";

#[test]
fn what_is_merged(rt: HostRuntime) -> Result<(), Fail> {
    check(&rt, rt.alloc(), SCRIPT)
}
