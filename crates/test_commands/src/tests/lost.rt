//! What `extract --lost` writes: the sample volume's root directory is block 274, and the entry at logical block L is block 272 + L, with its link count at byte 48.

use crate::tests::check;
use std::test::Fail;

static SCRIPT: &str = r"
= a_lost_folder_keeps_its_names
# The root's block is not read, so no name leads to the folder at 10.
directory 1 D=10
directory 10 E=1 A=3 B=4
write 282 48 \x01
write 283 18 \x08\0
write 275 48 \x01
write 276 48 \x01

but 274
$ extract --last 600 --to out --lost found disc.tab
done 1 written lost:10/A\nwritten lost:10/B\n
has-folder out
has-folder found/10
survives found/10/A text «2048*a»«2048*b»«904*c»
survives found/10/B text Hi
files 3

but 274 278
$ extract --last 600 --to out --lost found disc.tab
done 1 skipped lost:10/A\nwritten lost:10/B\n
survives found/10/B text Hi
files 2

but 274 278
$ extract --last 600 --to out --fill --lost found disc.tab
done 1 skipped lost:10/A\nwritten lost:10/B\n
files 2

but 274 283
$ extract --last 600 --to out --lost found disc.tab
done 1 written lost:3\nwritten lost:4\n
has-folder found/10
survives found/3 text «2048*a»«2048*b»«904*c»
survives found/4 text Hi
files 3

but 274 278 283
$ extract --last 600 --to out --lost found disc.tab
done 1 written lost:4\n
files 2

but
$ extract --last 600 --to out --lost found disc.tab
done 0 written /D/A\nwritten /D/B\n
has-folder found
no-folder found/10
files 3

but 274
$ extract --last 600 --to out --unnamed lost --lost found disc.tab
done 1 written unnamed 3\nwritten unnamed 4\nwritten lost:10/A\nwritten lost:10/B\n
survives lost/3 text «2048*a»«2048*b»«904*c»
survives found/10/A text «2048*a»«2048*b»«904*c»
files 5

but 274
$ extract --last 600 --to out --only / --manifest m --times --lost found disc.tab
done 1 written lost:10/A\nwritten lost:10/B\n
modified found/10 994239000000000
modified found/10/A 994239000000000
modified found/10/B 994239000000000
length m 0
files 4

but 274
terminal-fails 0
$ extract --last 600 --to out --lost found disc.tab
refused udfsalvage: cannot write output\n
survives found/10/A text «2048*a»«2048*b»«904*c»
survives found/10/B text Hi

but 274
outputs-fail 3000
$ extract --last 600 --to out --lost found disc.tab
done 1 failed lost:10/A\nwritten lost:10/B\n
absent found/10/A
survives found/10/B text Hi

= what_names_lead_to_is_no_root
# The folder at 20 is in the one at 10; those at 12 and 14 name each other, so the first of them is the root of both.
directory 1 D=10
directory 10 F=20
directory 20 A=3
directory 12 C=14
directory 14 E=12 B=4
write 282 48 \x01
write 292 48 \x01
write 284 48 \x01
write 286 48 \x01

but 274
$ extract --last 600 --to out --lost found disc.tab
done 1 written lost:10/F/A\nskipped lost:12/C/E\nwritten lost:12/C/B\n
has-folder found/10/F
has-folder found/12/C
no-folder found/14
survives found/10/F/A text «2048*a»«2048*b»«904*c»
survives found/12/C/B text Hi
files 3

= a_lost_folder_that_names_a_file_of_the_tree
# It is written there once more.
directory 1 A=3
directory 10 X=3 B=4
write 282 48 \x01

but
$ extract --last 600 --to out --lost found disc.tab
done 0 written /A\nwritten lost:10/X\nwritten lost:10/B\n
survives out/A text «2048*a»«2048*b»«904*c»
survives found/10/X text «2048*a»«2048*b»«904*c»
survives found/10/B text Hi
files 4

= what_was_deleted_is_lost_only_where_that_is_asked_for
# The link count of the folder at 10 and of B is 0.
directory 1 D=10
directory 10 A=3
write 275 48 \x01

but 274
$ extract --last 600 --to out --lost found disc.tab
done 1 written lost:3\n
no-folder found/10
files 2

but 274
$ extract --last 600 --to out --lost found --deleted disc.tab
done 1 written lost:10/A\nwritten lost:4\n
survives found/10/A text «2048*a»«2048*b»«904*c»
survives found/4 text Hi
files 3

but 274
$ extract --last 600 --to out --deleted disc.tab
done 1
files 1

= names_that_are_too_long_are_shortened
directory 1 D=10
directory 10 long=3
write 282 48 \x01

but 274
$ extract --last 600 --to out --short-names --lost found disc.tab
done 1 written lost:10/«127*一» as «84*一»~3\n
survives found/10/«84*一»~3 text «2048*a»«2048*b»«904*c»
files 2

= its_place_is_judged_before_anything_is_made
# The folder may not be there, nor be where another output goes.
but 274
folder old
then refused udfsalvage: cannot make the folder\n
then no-folder out
then files 1

$ extract --last 600 --to out --lost old disc.tab

$ extract --last 600 --to out --lost disc.tab disc.tab

$ extract --last 600 --to out --lost out disc.tab

$ extract --last 600 --to out --lost m --manifest m disc.tab

$ extract --last 600 --to out --lost both --unnamed both disc.tab

$ extract --last 600 --to out --lost absent/found disc.tab

= a_folder_that_can_not_be_made
# Where it can not be made then, the other files are written: two calls make their folder and its name durable, two write each file, one syncs the names.
but
then status 2
then out written /A\nwritten /B\n
then files 3

calls-fail 8 8
$ extract --last 600 --to out --lost found disc.tab
error udfsalvage: cannot make the folder\n

calls-fail 8 8
$ extract -v --last 600 --to out --lost found disc.tab
error udfsalvage: cannot make the folder\n  found: the system does not say why; the files that have names were written\n

= the_file_set_is_not_known_or_has_a_fault
# The layout and the places are found, so the root is a lost folder: its link count, at byte 48 of its entry at logical block 1, is 1.
write 273 48 \x01

but 272
$ extract --last 600 --to out --lost found disc.tab
done 1 volume holes 272\nwritten lost:1/A\nwritten lost:1/B\n
no-folder out
has-folder found/1
survives found/1/A text «2048*a»«2048*b»«904*c»
survives found/1/B text Hi
files 3

but 272
$ extract --last 600 --to out disc.tab
done 1 volume holes 272\n
no-folder out
files 1

write 272 0 \x01
but
$ extract --last 600 --to out --lost found disc.tab
done 1 volume fault 16 FileSet\nwritten lost:1/A\nwritten lost:1/B\n
survives found/1/B text Hi
files 3

= what_has_a_name_behind_a_hole_is_written_by_it
# What is below the folder is looked at by its path from `./` on. The first of two blocks of /D is not read. In the second are A, a file, and E, a folder with B in it.
directory 1 D=10
directory 10 A=3
directory 20 B=4
write 282 48 \x01
write 282 56 \x50\x08
write 282 176 \x50\x08
write 292 48 \x01
write 275 48 \x01
write 284 0 \x01\x01\x02\0\x3e\0\0\0\xf1\x25\x18\0\x0c\0\0\0\x01\0\0\x02\0\x08\0\0\x03\0\0\0\0\0\0\0\0\0\0\0\0\0\x08A
write 284 40 \x01\x01\x02\0\x6d\0\0\0\x50\xf5\x18\0\x0c\0\0\0\x01\0\x02\x02\0\x08\0\0\x14\0\0\0\0\0\0\0\0\0\0\0\0\0\x08E

but 283
$ extract --last 600 --to out --times --lost ./found disc.tab
done 1 written found:/D/E/B\nwritten found:/D/A\n
survives found/by-name/D/A text «2048*a»«2048*b»«904*c»
survives found/by-name/D/E/B text Hi
modified ./found/by-name/D/A 994239000000000
modified ./found/by-name/D/E 994239000000000
no-folder found/20
files 3

# Where the root is not read, the torn folder is lost itself.
but 274 283
$ extract --last 600 --to out --lost ./found disc.tab
done 1 written found:lost:10/E/B\nwritten found:lost:10/A\n
has-folder found/10
survives found/by-name/10/A text «2048*a»«2048*b»«904*c»
survives found/by-name/10/E/B text Hi
files 3

# A file that is torn is not written, by its name as by its number.
but 283 278
$ extract --last 600 --to out --lost ./found disc.tab
done 1 written found:/D/E/B\n
files 2

but 283
$ extract --last 600 --to out disc.tab
done 1
files 1

= what_has_its_name_from_two_is_written_by_the_first
# In the second block of /D are A of one file, A of another, and X of the same: each is written once, and neither in the place of the other.
directory 1 D=10
directory 10 A=3
write 282 48 \x01
write 282 56 \x78\x08
write 282 176 \x78\x08
write 275 48 \x01
write 276 48 \x01
write 284 0 \x01\x01\x02\0\x3e\0\0\0\xf1\x25\x18\0\x0c\0\0\0\x01\0\0\x02\0\x08\0\0\x03\0\0\0\0\0\0\0\0\0\0\0\0\0\x08A
write 284 40 \x01\x01\x02\0\xe3\0\0\0\x6e\x4d\x18\0\x0c\0\0\0\x01\0\0\x02\0\x08\0\0\x04\0\0\0\0\0\0\0\0\0\0\0\0\0\x08A
write 284 80 \x01\x01\x02\0\x6c\0\0\0\x76\xce\x18\0\x0c\0\0\0\x01\0\0\x02\0\x08\0\0\x04\0\0\0\0\0\0\0\0\0\0\0\0\0\x08X

but 283
$ extract --last 600 --to out --lost ./found disc.tab
done 1 written found:/D/A\nwritten lost:4\n
survives found/by-name/D/A text «2048*a»«2048*b»«904*c»
survives found/4 text Hi
no-folder found/by-name/D/X
files 3

= a_volume_that_does_not_open
but 33 49

$ extract --last 600 --to out --lost found disc.tab
done 1 volume holes 33 49\n
no-folder out
no-folder found
files 1
";

#[test]
fn lost_folders_with_their_names(rt: HostRuntime) -> Result<(), Fail> {
    check(&rt, rt.alloc(), SCRIPT)
}
