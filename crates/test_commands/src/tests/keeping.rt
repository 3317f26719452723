//! That an old table stays, whole, until the new one is in its place, whole.

use crate::tests::check;
use std::test::Fail;

static SCRIPT: &str = r"
= a_done_merge_survives_a_crash
passes
file t.tab text UDFTABL«93*w»

$ merge --v1 --out t.tab a.rd b.rd
silent
calls 4
has t.tab table 300:61 301:62
survives t.tab table 300:61 301:62
files 4

= a_call_that_fails_once_leaves_the_old_table
# Each call fails once. The first is tried again by another name, so the merge is done then.
let NOT_SYNCED udfsalvage: cannot write output\n  the new file is in its place, whole, but a power cut may bring the old one back\n
passes
file t.tab text UDFTABL«93*w»

each 1 2
calls-fail «n» «n»
$ merge --v1 --out t.tab a.rd b.rd
silent
survives t.tab table 300:61 301:62

each 2 4
calls-fail «n» «n»
$ merge --v1 --out t.tab a.rd b.rd
refused udfsalvage: cannot write output\n
has t.tab text UDFTABL«93*w»
survives t.tab text UDFTABL«93*w»
absent t.tab.unfinished
files 4

each 4 5
calls-fail «n» «n»
$ merge --v1 --out t.tab a.rd b.rd
refused «NOT_SYNCED»
has t.tab table 300:61 301:62
survives t.tab text UDFTABL«93*w»
absent t.tab.unfinished
files 4

= a_call_that_fails_for_good_leaves_the_old_table
# Each call fails, and all after it: so does a process that is killed there leave the files, but for what it was told.
let NOT_SYNCED udfsalvage: cannot write output\n  the new file is in its place, whole, but a power cut may bring the old one back\n
passes
file t.tab text UDFTABL«93*w»
then survives t.tab text UDFTABL«93*w»

each 1 4
calls-fail «n» on
$ merge --v1 --out t.tab a.rd b.rd
refused udfsalvage: cannot write output\n
has t.tab text UDFTABL«93*w»

each 4 5
calls-fail «n» on
$ merge --v1 --out t.tab a.rd b.rd
refused «NOT_SYNCED»
has t.tab table 300:61 301:62

= a_file_that_was_left_behind_stays
# A new file of an earlier run that was ended stays, and another name is taken.
passes
file t.tab text UDFTABL«93*w»

file t.tab.unfinished text torn
$ merge --v1 --out t.tab a.rd b.rd
silent
has t.tab.unfinished text torn
survives t.tab table 300:61 301:62
files 5

= an_input_that_is_the_output_stays_until_the_end, 1
let NOT_SYNCED udfsalvage: cannot write output\n  the new file is in its place, whole, but a power cut may bring the old one back\n
passes
then survives b.rd reading 301:62

each 2 4
calls-fail «n» on
$ merge --v1 --out b.rd a.rd b.rd
refused udfsalvage: cannot write output\n

each 4 5
calls-fail «n» on
$ merge --v1 --out b.rd a.rd b.rd
refused «NOT_SYNCED»

= an_input_that_is_the_output_stays_until_the_end, 2
passes

$ merge --v1 --out b.rd a.rd b.rd
silent
survives b.rd table 300:61 301:62

= a_device_is_written_in_place
# A device is written in place: no other file is made.
passes

$ merge --v1 --out /dev/tab a.rd b.rd
silent
has /dev/tab table 300:61 301:62
calls 2
";

#[test]
fn an_old_table_stays_until_the_new_one_is_whole(rt: HostRuntime) -> Result<(), Fail> {
    check(&rt, rt.alloc(), SCRIPT)
}
