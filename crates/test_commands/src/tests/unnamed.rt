//! What `extract --unnamed` writes: the sample volume's directory is block 274; without it the entries at logical blocks 3 and 4 have no name.

use crate::tests::{Commands, assert_case, check};
use std::test::Fail;
use test_runs::unnamed_want_memory;

static SCRIPT: &str = r"
= files_of_a_lost_directory_are_written
but 274

$ extract --last 600 --to out --unnamed lost disc.tab
done 1 written unnamed 3\nwritten unnamed 4\n
has-folder out
has-folder lost
survives lost/3 text «2048*a»«2048*b»«904*c»
survives lost/4 text Hi
files 3

= a_volume_without_lost_files
but

$ extract --last 600 --to out --unnamed lost disc.tab
done 0 written /A\nwritten /B\n
has-folder lost
files 3

= only_whole_files_with_data_are_written
# Block 278 is a part of A. The entry at 4 becomes a link, and then an empty file: its lengths are 0.

but 274 278
$ extract --last 600 --to out --unnamed lost disc.tab
done 1 written unnamed 4\n
files 2

but 274 278
$ extract --last 600 --to out --fill --unnamed lost disc.tab
done 1 written unnamed 4\n
files 2

write 276 27 \x0c
but 274
$ extract --last 600 --to out --unnamed lost disc.tab
done 1 written unnamed 3\n
files 2

write 276 27 \x0c
but 274
$ extract --last 600 --to out --fill --unnamed lost disc.tab
done 1 written unnamed 3\n
files 2

write 276 56 \0
write 276 172 \0
but 274
$ extract --last 600 --to out --unnamed lost disc.tab
done 1 written unnamed 3\n
files 2

write 276 56 \0
write 276 172 \0
but 274
$ extract --last 600 --to out --fill --unnamed lost disc.tab
done 1 written unnamed 3\n
files 2

write 276 27 \x0c
but 274 278
$ extract --last 600 --to out --unnamed lost disc.tab
done 1
files 1

write 276 27 \x0c
but 274 278
$ extract --last 600 --to out --fill --unnamed lost disc.tab
done 1
files 1

= a_volume_of_two_maps
# With two maps the partition reference stands before the block, and here the name B leads nowhere. What `--only` asks for changes nothing of it, and the
# manifest has none of it.
disc two-maps
write 274 108 \x02
but
then survives out/A text «2048*a»«2048*b»«904*c»
then survives lost/1-0 text Hi

$ extract --last 600 --to out --unnamed lost disc.tab
done 1 written /A\nskipped /B\nwritten unnamed 1-0\n
files 3
length m 0

$ extract --last 600 --to out --only /A --unnamed lost disc.tab
done 0 written /A\nwritten unnamed 1-0\n
files 3
length m 0

$ extract --last 600 --to out --manifest m --unnamed lost disc.tab
done 1 written /A\nskipped /B\nwritten unnamed 1-0\n
files 4
length m 68

= a_volume_that_does_not_open
but 33 49

$ extract --last 600 --to out --unnamed lost disc.tab
done 1 volume holes 33 49\n
no-folder out
no-folder lost
files 1

= its_place_is_judged_before_anything_is_made
# The folder may not be there, nor be that of the other files, nor the manifest.
but 274
folder old
then refused udfsalvage: cannot make the folder\n
then no-folder out
then files 1

$ extract --last 600 --to out --unnamed old disc.tab

$ extract --last 600 --to out --unnamed disc.tab disc.tab

$ extract --last 600 --to out --unnamed out disc.tab

$ extract --last 600 --to out --unnamed m --manifest m disc.tab

$ extract --last 600 --to out --unnamed out --manifest m disc.tab

$ extract --last 600 --to out --unnamed absent/lost disc.tab

= a_folder_that_can_not_be_made
# Where it can not be made then, the other files are written: two calls make their folder and its name durable, two write each file, one syncs the names.
but
then status 2
then out written /A\nwritten /B\n
then survives out/A text «2048*a»«2048*b»«904*c»
then files 3

calls-fail 8 8
$ extract --last 600 --to out --unnamed lost disc.tab
error udfsalvage: cannot make the folder\n

calls-fail 8 8
$ extract -v --last 600 --to out --unnamed lost disc.tab
error udfsalvage: cannot make the folder\n  lost: the system does not say why; the files that have names were written\n

= a_device_that_fails
but 274
outputs-fail 3000

$ extract --last 600 --to out --unnamed lost disc.tab
done 1 failed unnamed 3\nwritten unnamed 4\n
absent lost/3
survives lost/4 text Hi

= a_standard_output_that_fails_stops_nothing
# A standard output that takes nothing stops no file.
but 274
terminal-fails 0

$ extract --last 600 --to out --unnamed lost disc.tab
refused udfsalvage: cannot write output\n
survives lost/3 text «2048*a»«2048*b»«904*c»
survives lost/4 text Hi
";

#[test]
fn files_that_have_no_name(rt: HostRuntime) -> Result<(), Fail> {
    check(&rt, rt.alloc(), SCRIPT)
}

/// With ample memory the files are written. Where one allocation fails, each file that is reported as written has its bytes.
#[test]
fn want_of_memory_is_told(rt: HostRuntime) {
    assert_case(
        &rt,
        !matches!(unnamed_want_memory(rt.alloc(), &Commands), Ok(false)),
        "",
    );
}
