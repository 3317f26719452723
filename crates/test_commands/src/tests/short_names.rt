//! What `extract --short-names` writes: a name whose escaped form has more than 255 bytes is cut, and `~` and the number of its block are appended.

use crate::tests::{Commands, assert_case, check};
use std::test::Fail;
use test_runs::short_names_want_memory;

static SCRIPT: &str = r"
= a_file_gets_a_short_name
fill 274 00
directory 1 long=3 B=4
directory 20
directory 30
but

$ extract --last 600 --to out --short-names disc.tab
done 0 written /«127*一» as «84*一»~3\nwritten /B\n
survives out/«84*一»~3 text «2048*a»«2048*b»«904*c»
survives out/B text Hi
files 3

= without_the_option_a_name_stays
# The files in memory take any name, so it is written as it is.
fill 274 00
directory 1 long=20 B=4
directory 20 long=3
directory 30
but

$ extract --last 600 --to out disc.tab
done 0 written /«127*一»/«127*一»\nwritten /B\n
survives out/«127*一»/«127*一» text «2048*a»«2048*b»«904*c»
files 3

= a_folder_gets_a_short_name
# Two folders of one name have two short ones, and what is in each goes there.
fill 274 00
directory 1 long=20 long=30 B=4
directory 20 A=3 long=4
directory 30 A=4
but

$ extract --last 600 --to out --short-names disc.tab
done 0 written /«127*一»/A\nwritten /«127*一»/«127*一» as «84*一»~4\nwritten /«127*一»/A\nwritten /B\n
survives out/«84*一»~20/A text «2048*a»«2048*b»«904*c»
survives out/«84*一»~20/«84*一»~4 text Hi
survives out/«84*一»~30/A text Hi
files 5

= as_much_of_the_beginning_as_fits
# Names of 255 and of 256 bytes, one in which a pair would be parted, and one of escapes.

fill 274 00
directory 1 full=3
directory 20
directory 30
but
$ extract --last 600 --to out --short-names disc.tab
done 0 written /«252*a»aé\n

fill 274 00
directory 1 over=3
directory 20
directory 30
but
$ extract --last 600 --to out --short-names disc.tab
done 0 written /«252*a»éé as «252*a»~3\n

fill 274 00
directory 1 pairs=3
directory 20
directory 30
but
$ extract --last 600 --to out --short-names disc.tab
done 0 written /«83*一»«22*😀» as «83*一»😀~3\n

fill 274 00
directory 1 controls=3
directory 20
directory 30
but
$ extract --last 600 --to out --short-names disc.tab
done 0 written /«42*\\u0001»\\u0001 as «42*\\u0001»~3\n

= no_pair_is_parted
# The number has one digit more, and the pair has no room.
fill 274 00
directory 1 pairs=20
directory 20 A=3
directory 30
but

$ extract --last 600 --to out --short-names disc.tab
done 0 written /«83*一»«22*😀»/A\n
survives out/«83*一»~20/A text «2048*a»«2048*b»«904*c»

= with_two_maps_the_partition_is_told
# One file is in the first partition, or in the second, by the reference in the name's address.

disc two-maps
fill 274 00
directory 1 long=3
write 274 28 \0
but
$ extract --last 600 --to out --short-names disc.tab
done 0 written /«127*一» as «83*一»~0-3\n
survives out/«83*一»~0-3 text «2048*a»«2048*b»«904*c»

disc two-maps
fill 274 00
directory 1 long=0
write 274 28 \x01
but
$ extract --last 600 --to out --short-names disc.tab
done 0 written /«127*一» as «83*一»~1-0\n
survives out/«83*一»~1-0 text Hi

= a_short_name_that_is_taken
# A file of this name is there already, and stays.
fill 274 00
directory 1 taken=4 long=3
directory 20
directory 30
but

$ extract --last 600 --to out --short-names disc.tab
done 1 written /«84*一»~3\nfailed /«127*一»\n
survives out/«84*一»~3 text Hi
files 2

= the_manifest_has_the_short_names
let OF_A 8c7065008f4ae90d8df94d89db6a6d9e099eea564da6e0098c2dc33da864f3b5
let OF_B 3639efcd08abb273b1619e82e78c29a7df02c1051b1820e99fc395dcaa3326b8
fill 274 00
directory 1 long=20 B=4
directory 20 long=3
directory 30
but

$ extract --last 600 --to out --short-names --manifest m disc.tab
status 0
survives m text «OF_A»  «84*一»~20/«84*一»~3\n«OF_B»  B\n

= only_what_is_asked_for
# The path is that of the report. The folder that leads there has its short name too.
fill 274 00
directory 1 long=20 B=4
directory 20 A=3
directory 30
but
then done 0 written /«127*一»/A\n
then survives out/«84*一»~20/A text «2048*a»«2048*b»«904*c»
then files 2

$ extract --last 600 --to out --short-names --only /«127*一» disc.tab

$ extract --last 600 --to out --short-names --only /«127*一»/A disc.tab

= times_are_set_where_the_files_are
# Of the file, of the folder that it is in, and of one that leads to what is asked for.
fill 274 00
directory 1 long=20
directory 20 long=3
directory 30
but
then status 0
then modified out/«84*一»~20/«84*一»~3 994239000000000
then modified out/«84*一»~20 994239000000000
then modified out 994239000000000

$ extract --last 600 --to out --short-names --times  disc.tab

$ extract --last 600 --to out --short-names --times --only /«127*一»/«127*一» disc.tab

= a_device_that_fails
fill 274 00
directory 1 long=3 over=4
directory 20
directory 30
but
outputs-fail 3000

$ extract --last 600 --to out --short-names disc.tab
done 1 failed /«127*一»\nwritten /«252*a»éé as «252*a»~4\n
absent out/«84*一»~3
";

#[test]
fn names_that_are_too_long(rt: HostRuntime) -> Result<(), Fail> {
    check(&rt, rt.alloc(), SCRIPT)
}

/// With ample memory the file is written. Where one allocation fails, a file that is reported as written has its bytes.
#[test]
fn want_of_memory_is_told(rt: HostRuntime) {
    let is_told = short_names_want_memory(rt.alloc(), &Commands);
    assert_case(&rt, !matches!(is_told, Ok(false)), "");
}
