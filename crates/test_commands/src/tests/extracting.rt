//! What `extract` makes.

use crate::tests::{Commands, assert_case, check};
use std::test::Fail;
use test_runs::files_want_memory;

static SCRIPT: &str = r"
= a_whole_volume
then done 0 written /A\nwritten /B\n
then has-folder out
then has out/A text «2048*a»«2048*b»«904*c»
then has out/B text Hi
then files 3

but
$ extract --last 600 --to out disc.tab

but
$ extract --last 600 --to out --fill disc.tab

disc sparable
but
$ extract --last 600 --to out disc.tab

disc sparable
but
$ extract --last 600 --to out --fill disc.tab

disc two-maps
but
$ extract --last 600 --to out disc.tab

disc two-maps
but
$ extract --last 600 --to out --fill disc.tab

= a_volume_that_does_not_open
but 33 49

$ extract --last 600 --to out disc.tab
done 1 volume holes 33 49\n
no-folder out
files 1

= a_torn_file_is_filled_only_where_asked
# Block 278 is not read, and then it is in conflict.

but 278
$ extract --last 600 --to out disc.tab
done 1 skipped /A\nwritten /B\n
files 2

but 278
$ extract --last 600 --to out --fill disc.tab
done 1 written /A\nwritten /B\n
has out/A text «2048*a»«2048*\0»«904*c»

but
also 278 00
$ extract --last 600 --to out disc.tab
done 1 skipped /A\nwritten /B\n
files 2

but
also 278 00
$ extract --last 600 --to out --fill disc.tab
done 1 written /A\nwritten /B\n
has out/A text «2048*a»«2048*\0»«904*c»

= a_standard_output_that_fails_stops_nothing
# A standard output that takes nothing stops no file; each is on the disk.
but
terminal-fails 0

$ extract --last 600 --to out disc.tab
refused udfsalvage: cannot write output\n
survives out/A text «2048*a»«2048*b»«904*c»
survives out/B text Hi

= two_files_of_one_name

write 274 119 A
but
$ extract --last 600 --to out --fill disc.tab
done 1 written /A\nfailed /A\n
has out/A text «2048*a»«2048*b»«904*c»
files 2

= a_name_that_is_a_dot

write 274 79 .
but
$ extract --last 600 --to out --fill disc.tab
done 0 written /\\u002E\nwritten /B\n
has out/\\u002E text «2048*a»«2048*b»«904*c»
has out/B text Hi

= nodes_that_are_passed_over
# A link, an entry of another kind, one that is not read, a loop, and a bad address.
then files 2
then no-folder out/B

write 276 27 \x0c
but
$ extract --last 600 --to out --fill disc.tab
done 0 written /A\nskipped /B\n

write 276 27 \x06
but
$ extract --last 600 --to out --fill disc.tab
done 0 written /A\nskipped /B\n

write 276 27 \x05
but 276
$ extract --last 600 --to out --fill disc.tab
done 1 written /A\nskipped /B\n

write 274 104 \x01
but
$ extract --last 600 --to out --fill disc.tab
done 1 written /A\nskipped /B\n

write 274 108 \x01
but
$ extract --last 600 --to out --fill disc.tab
done 1 written /A\nskipped /B\n

= directories_become_folders
fill 274 00
directory 1 D=20 B=4
directory 20 E=30 A=3
directory 30
but

$ extract --last 600 --to out disc.tab
done 0 written /D/A\nwritten /B\n
has-folder out/D
has-folder out/D/E
has out/D/A text «2048*a»«2048*b»«904*c»

= two_directories_of_one_name
# What is below the second goes to the folder that is there.
fill 274 00
directory 1 D=20 D=30
directory 20 A=3
directory 30 A=4 C=4
but

$ extract --last 600 --to out disc.tab
done 1 written /D/A\nfailed /D\nfailed /D/A\nwritten /D/C\n
has out/D/A text «2048*a»«2048*b»«904*c»
has out/D/C text Hi

= a_directory_of_a_files_name
# A directory that has a file's name is not there, and so is nothing below it.
fill 274 00
directory 1 X=4 X=20
directory 20 A=3
directory 30
but

$ extract --last 600 --to out disc.tab
done 1 written /X\nfailed /X\nfailed /X/A\n
has out/X text Hi

= names_stay_in_the_folder
# Names that would lead out of the folder.
fill 274 00
directory 1 dots=20 root=4
directory 20 up=3
directory 30
but

$ extract --last 600 --to out disc.tab
done 0 written /\\u002E\\u002E/..\\u002Fy\nwritten /\\u002Fetc\\u002Fx\n
has-folder out/\\u002E\\u002E
has out/\\u002E\\u002E/..\\u002Fy text «2048*a»«2048*b»«904*c»
has out/\\u002Fetc\\u002Fx text Hi
files 3

= a_device_that_fails
but
outputs-fail 3000

$ extract --last 600 --to out disc.tab
done 1 failed /A\nwritten /B\n
absent out/A
survives out/B text Hi
remarked

$ extract -v --last 600 --to out disc.tab
done 1 failed /A\nwritten /B\n
remarked /A: the system does not say why\n1 written, 1 failed\n

= names_that_do_not_come_to_the_disk
# The folder of both files is synced once. If that fails, neither is told as written, and both are removed, if they can be.
but

calls-fail 7 7
$ extract --last 600 --to out disc.tab
done 1 failed /A\nfailed /B\n
absent out/A
absent out/B

calls-fail 7 on
$ extract --last 600 --to out disc.tab
done 1 failed /A\nfailed /B\n
files 3

# A file that fails ends its run, and the next one is in another.
calls-fail 4 4
$ extract --last 600 --to out disc.tab
done 1 failed /A\nwritten /B\n
absent out/A
survives out/B text Hi

= why_a_file_is_not_written
# Beside each line that is not `written`, and beside a file with zeros in it, is why; and at the end how many there are of each.

but 278
$ extract -v --last 600 --to out disc.tab
done 1 skipped /A\nwritten /B\n
remarked /A: torn: 2.0 kB missing at 2048\n1 written, 1 torn\n

but 277 279
$ extract -v --last 600 --to out --fill disc.tab
done 1 written /A\nwritten /B\n
remarked /A: torn: 3.0 kB of zeros at 0 and one more place\n1 written, 1 filled\n

but 275
$ extract -v --last 600 --to out disc.tab
done 1 skipped /A\nwritten /B\n
remarked /A: not read: a file, or a folder with all below it\n1 written, 1 unread\n

but 275
$ extract -v --last 600 --to out --only /B disc.tab
done 0 written /B\n
remarked 1 written\n

but 275
$ extract -q --last 600 --to out disc.tab
done 1 skipped /A\nwritten /B\n
remarked

= why_a_faulty_file_is_not_written
# The file is 10 bytes longer than its extents, as the Linux driver leaves it.
write 275 56 \x92\x13

but
$ extract -v --last 600 --to out disc.tab
done 1 skipped /A\nwritten /B\n
remarked /A: fault 9: --profile wide may read it\n1 written, 1 fault\n

= what_refuses_it
but
folder old
then no-folder out
then files 1

$ extract --last 600 --to old disc.tab
refused udfsalvage: cannot make the folder\n

$ extract --last 600 --to absent/out disc.tab
refused udfsalvage: cannot make the folder\n

$ extract --last 600 --to disc.tab disc.tab
refused udfsalvage: cannot make the folder\n

$ extract --last 512 --to out disc.tab
refused udfsalvage: fault 1 LastRange\n

$ extract --last 599 --to out disc.tab
refused udfsalvage: fault 2 PastEnd 600\n

$ extract --last 600 --to out disc.tab absent.tab
refused udfsalvage: cannot open input 2\n
";

#[test]
fn files_and_folders_are_written(rt: HostRuntime) -> Result<(), Fail> {
    check(&rt, rt.alloc(), SCRIPT)
}

/// With ample memory the files are written. Where one allocation fails, each file that is reported as written has its bytes, and
/// an error says that memory ran out or that the folder was not made. Where the files in memory lacked memory, nothing is checked.
#[test]
fn want_of_memory_is_told(rt: HostRuntime) {
    assert_case(
        &rt,
        !matches!(files_want_memory(rt.alloc(), &Commands), Ok(false)),
        "",
    );
}
