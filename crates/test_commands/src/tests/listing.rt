//! What `list` prints. The columns: standing, kind, bytes lost, size, time, path.

use crate::tests::check;
use std::test::Fail;

static SCRIPT: &str = r#"
= a_line_for_each_node
# A line for each node behind the root, whole and torn, and of which the entry is not read.

but
$ list --last 600 disc.tab
done 0 whole\tfile\t0\t5000\t2001-07-04T09:30:00Z\t/A\nwhole\tfile\t0\t2\t2001-07-04T09:30:00Z\t/B\n

but 278
$ list --last 600 disc.tab
done 1 torn\tfile\t2048\t5000\t2001-07-04T09:30:00Z\t/A\nwhole\tfile\t0\t2\t2001-07-04T09:30:00Z\t/B\n

but 277 279
$ list --torn --size 1230848 disc.tab
done 1 torn\tfile\t2952\t5000\t2001-07-04T09:30:00Z\t/A\n

but 275
$ list --last 600 disc.tab
done 1 torn\tunknown\t-\t-\t-\t/A\nwhole\tfile\t0\t2\t2001-07-04T09:30:00Z\t/B\n

but 278
$ list --torn --null --paths --last 600 disc.tab
done 1 /A\0

but 278
$ list --null --paths --last 600 disc.tab
done 1 /A\0/B\0

but
$ list --torn --last 600 disc.tab
done 0

but 256 344 600
$ list --last 600 disc.tab
done 1

= the_forms_of_a_line
# The columns' names first, paths that end with a zero byte, and objects.

but 278
$ list --torn --header --last 600 disc.tab
done 1 standing\tkind\tlost\tsize\ttime\tpath\ntorn\tfile\t2048\t5000\t2001-07-04T09:30:00Z\t/A\n

but 278
$ list -0 --paths --header --last 600 disc.tab
done 1 path\0/A\0/B\0

but 278
$ list --torn --json --header --last 600 disc.tab
done 1 {"standing":"torn","kind":"file","lost":2048,"size":5000,"time":"2001-07-04T09:30:00.000000Z","path":"/A"}\n

but 275
$ list --torn --json -0 --last 600 disc.tab
done 1 {"standing":"torn","kind":"unread","lost":null,"size":null,"time":null,"path":"/A"}\0

but
$ list --json --paths --last 600 disc.tab
done 0 {"path":"/A"}\n{"path":"/B"}\n

= lost_folders_keep_their_names
# The root's block is not read, so no name leads to the folder at 10, whose parent's identifier names the root.
directory 1 D=10
directory 10 E=1 A=3 B=4
write 282 48 \x01
write 283 18 \x08\0
write 275 48 \x01
write 276 48 \x01

but 274
$ list --lost --last 600 disc.tab
done 1 whole\tdirectory\t0\t120\t2001-07-04T09:30:00Z\tlost:10/\tin /\nwhole\tfile\t0\t5000\t2001-07-04T09:30:00Z\tlost:10/A\nwhole\tfile\t0\t2\t2001-07-04T09:30:00Z\tlost:10/B\n

but 274
$ list --lost --paths --null --last 600 disc.tab
done 1 lost:10/\0lost:10/A\0lost:10/B\0

but 274
$ list --lost --json --header --last 600 disc.tab
done 1 {"standing":"whole","kind":"directory","lost":0,"size":120,"time":"2001-07-04T09:30:00.000000Z","path":"lost:10/","in":"/"}\n{"standing":"whole","kind":"file","lost":0,"size":5000,"time":"2001-07-04T09:30:00.000000Z","path":"lost:10/A"}\n{"standing":"whole","kind":"file","lost":0,"size":2,"time":"2001-07-04T09:30:00.000000Z","path":"lost:10/B"}\n

but 274
$ list --lost --json --paths --torn --last 600 disc.tab
done 1

but 274
$ list --last 600 disc.tab
done 1

but 274 278
$ list --lost --torn --last 600 disc.tab
done 1 torn\tfile\t2048\t5000\t2001-07-04T09:30:00Z\tlost:10/A\n

but 274 283
$ list --lost --last 600 disc.tab
done 1 torn\tdirectory\t120\t120\t2001-07-04T09:30:00Z\tlost:10/\nwhole\tfile\t0\t5000\t2001-07-04T09:30:00Z\tlost:3\nwhole\tfile\t0\t2\t2001-07-04T09:30:00Z\tlost:4\n

but
$ list --lost --last 600 disc.tab
done 0 whole\tdirectory\t0\t120\t2001-07-04T09:30:00Z\t/D\nwhole\tfile\t0\t5000\t2001-07-04T09:30:00Z\t/D/A\nwhole\tfile\t0\t2\t2001-07-04T09:30:00Z\t/D/B\n

= a_lost_folder_in_a_folder
# The folder at 10 is /D, whose block is not read; the one at 20 says that it is in it.
directory 1 D=10
directory 10 E=20
directory 20 D=10 A=3
write 282 48 \x01
write 292 48 \x01
write 293 18 \x08\0
write 275 48 \x01

but 283
$ list --lost --last 600 disc.tab
done 1 torn\tdirectory\t40\t40\t2001-07-04T09:30:00Z\t/D\nwhole\tdirectory\t0\t80\t2001-07-04T09:30:00Z\tlost:20/\tin /D\nwhole\tfile\t0\t5000\t2001-07-04T09:30:00Z\tlost:20/A\n

= names_behind_a_hole_are_found
# The first of two blocks of /D is not read. In the second are A, X, Y and X once more, of which each tag has a CRC that covers the descriptor, and N, whose tag's CRC
# covers nothing. What has a name is listed by it alone, or by each of two.
directory 1 D=10
directory 10 A=3
write 282 48 \x01
write 282 56 \xc8\x08
write 282 176 \xc8\x08
write 275 48 \x01
write 276 48 \x01
write 284 0 \x01\x01\x02\0\x3e\0\0\0\xf1\x25\x18\0\x0c\0\0\0\x01\0\0\x02\0\x08\0\0\x03\0\0\0\0\0\0\0\0\0\0\0\0\0\x08A
write 284 40 \x01\x01\x02\0\x6c\0\0\0\x76\xce\x18\0\x0c\0\0\0\x01\0\0\x02\0\x08\0\0\x04\0\0\0\0\0\0\0\0\0\0\0\0\0\x08X
write 284 80 \x01\x01\x02\0\x5d\0\0\0W\xde\x18\0\x0c\0\0\0\x01\0\0\x02\0\x08\0\0\x04\0\0\0\0\0\0\0\0\0\0\0\0\0\x08Y
write 284 120 \x01\x01\x02\0\x10\0\0\0\0\0\0\0\x0c\0\0\0\x01\0\0\x02\0\x08\0\0\x03\0\0\0\0\0\0\0\0\0\0\0\0\0\x08N
write 284 160 \x01\x01\x02\0\x6c\0\0\0\x76\xce\x18\0\x0c\0\0\0\x01\0\0\x02\0\x08\0\0\x04\0\0\0\0\0\0\0\0\0\0\0\0\0\x08X

but 283
$ list --lost --last 600 disc.tab
done 1 torn\tdirectory\t2048\t2248\t2001-07-04T09:30:00Z\t/D\nwhole\tfile\t0\t5000\t2001-07-04T09:30:00Z\t/D/A\tlost:3\tfound\nwhole\tfile\t0\t2\t2001-07-04T09:30:00Z\t/D/X\tlost:4\tfound\nwhole\tfile\t0\t2\t2001-07-04T09:30:00Z\t/D/Y\tlost:4\tfound\n

but 283
$ list --lost --paths --last 600 disc.tab
done 1 /D\nlost:3\nlost:4\n

but 283 278
$ list --lost --torn --json --last 600 disc.tab
done 1 {"standing":"torn","kind":"directory","lost":2048,"size":2248,"time":"2001-07-04T09:30:00.000000Z","path":"/D"}\n{"standing":"torn","kind":"file","lost":2048,"size":5000,"time":"2001-07-04T09:30:00.000000Z","path":"/D/A","found":"lost:3"}\n

but 283
$ list --last 600 disc.tab
done 1 torn\tdirectory\t2048\t2248\t2001-07-04T09:30:00Z\t/D\n

# Where the root is not read, the folder is lost, and names in it are found all the same.
but 274 283
$ list --lost --last 600 disc.tab
done 1 torn\tdirectory\t2048\t2248\t2001-07-04T09:30:00Z\tlost:10/\nwhole\tfile\t0\t5000\t2001-07-04T09:30:00Z\tlost:10/A\tlost:3\tfound\nwhole\tfile\t0\t2\t2001-07-04T09:30:00Z\tlost:10/X\tlost:4\tfound\nwhole\tfile\t0\t2\t2001-07-04T09:30:00Z\tlost:10/Y\tlost:4\tfound\n

= a_lost_folder_by_a_name_that_is_found
# In the second block of /D is F twice, the folder at 20. What is in that is listed below its block.
directory 1 D=10
directory 10 A=3
directory 20 C=4
write 282 48 \x01
write 282 56 \x50\x08
write 282 176 \x50\x08
write 292 48 \x01
write 275 48 \x01
write 276 48 \x01
write 284 0 \x01\x01\x02\0\xc9\0\0\0\x83\x1e\x18\0\x0c\0\0\0\x01\0\0\x02\0\x08\0\0\x14\0\0\0\0\0\0\0\0\0\0\0\0\0\x08F
write 284 40 \x01\x01\x02\0\xc9\0\0\0\x83\x1e\x18\0\x0c\0\0\0\x01\0\0\x02\0\x08\0\0\x14\0\0\0\0\0\0\0\0\0\0\0\0\0\x08F

but 283
$ list --lost --last 600 disc.tab
done 1 torn\tdirectory\t2048\t2128\t2001-07-04T09:30:00Z\t/D\nwhole\tfile\t0\t2\t2001-07-04T09:30:00Z\tlost:20/C\nwhole\tfile\t0\t5000\t2001-07-04T09:30:00Z\tlost:3\nwhole\tdirectory\t0\t40\t2001-07-04T09:30:00Z\t/D/F\tlost:20\tfound\n

but 283
$ list --lost --paths --last 600 disc.tab
done 1 /D\nlost:20/\nlost:20/C\nlost:3\n

= what_was_deleted
directory 1 D=10
directory 10 A=3
write 275 48 \x01

but 274
$ list --lost --last 600 disc.tab
done 1 whole\tfile\t0\t5000\t2001-07-04T09:30:00Z\tlost:3\n

but 274
$ list --deleted --last 600 disc.tab
done 1 whole\tdirectory\t0\t40\t2001-07-04T09:30:00Z\tlost:10/\nwhole\tfile\t0\t5000\t2001-07-04T09:30:00Z\tlost:10/A\nwhole\tfile\t0\t2\t2001-07-04T09:30:00Z\tlost:4\n

= lost_folders_in_a_ring
directory 1 D=10
directory 10 E=12
directory 12 D=10
write 282 48 \x01
write 284 48 \x01

but 274
$ list --lost --paths --last 600 disc.tab
done 1 lost:10/\nlost:10/E\nlost:10/E/D\n

= the_file_set_is_not_known_or_has_a_fault
# The layout and the places are found, so the root is a lost folder: its link count, at byte 48 of its entry at logical block 1, is 1.
write 273 48 \x01
let A whole\tfile\t0\t5000\t2001-07-04T09:30:00Z\t
let B whole\tfile\t0\t2\t2001-07-04T09:30:00Z\t
let TREE whole\tdirectory\t0\t120\t2001-07-04T09:30:00Z\tlost:1/\n«A»lost:1/A\n«B»lost:1/B\n

but 272
$ list --lost --last 600 disc.tab
done 1 «TREE»

write 272 0 \x01
but
$ list --lost --last 600 disc.tab
done 1 «TREE»

but
also 272 1
$ list --lost --last 600 --profile wide disc.tab
done 1 «TREE»

but 272 278
$ list --lost --torn --header --last 600 disc.tab
done 1 standing\tkind\tlost\tsize\ttime\tpath\ntorn\tfile\t2048\t5000\t2001-07-04T09:30:00Z\tlost:1/A\n

but 272
$ list --lost --json --paths --last 600 disc.tab
done 1 {"path":"lost:1/"}\n{"path":"lost:1/A"}\n{"path":"lost:1/B"}\n

# The files' link counts are 0.
but 272 273
$ list --lost --last 600 disc.tab
done 1

but 272 273
$ list --deleted --last 600 disc.tab
done 1 «A»lost:3\n«B»lost:4\n

but 272
$ list --last 600 disc.tab
done 1

but 33 49 272
$ list --deleted --last 600 disc.tab
done 1

= the_root_is_one_of_several_lost_folders
# No name leads to the folder at 20 either, which says that it is in the root; the one at 10 is in the root.
directory 1 D=10
directory 10 A=3
directory 20 E=1 B=4
write 293 18 \x08\0
write 273 48 \x01
write 282 48 \x01
write 292 48 \x01

but 272
$ list --lost --paths --last 600 disc.tab
done 1 lost:1/\nlost:1/D\nlost:1/D/A\nlost:20/\nlost:20/B\n

= two_partitions_without_a_file_set
# A partition reference stands before the block, and leads to the file in the other partition.
disc two-maps

but 272
$ list --deleted --paths --last 600 disc.tab
done 1 lost:0-1/\nlost:0-1/A\nlost:0-1/B\n

= what_refuses_a_list
file empty.rd reading

$ list --last 512 empty.rd
refused udfsalvage: fault 1 LastRange\n

$ list --last 600 empty.rd absent.rd
refused udfsalvage: cannot open input 2\n
"#;

#[test]
fn what_is_listed(rt: HostRuntime) -> Result<(), Fail> {
    check(&rt, rt.alloc(), SCRIPT)
}
