//! The nodes of sample volumes, in part and changed, as `report` and `list --lost` print them.

use crate::tests::check;
use std::test::Fail;

static NODES: &str = r#"
= nodes_with_blocks_that_are_not_known
# A block for which two readings differ is missing too.
let ROOT node 0 whole directory 120 2001-07-04T09:30:00.000000Z /\n
let B node 2 whole file 2 2001-07-04T09:30:00.000000Z /B\n
then status 1

but 275 277 278 279
$ report --last 600 disc.tab
nodes «ROOT»node 1 torn unread - - /A\nmissing 275\n«B»reread 275 unknown\nend\n

but 278
$ report --last 600 disc.tab
nodes «ROOT»node 1 torn file 5000 2001-07-04T09:30:00.000000Z /A\nmissing 278\nhole 2048 2048\n«B»reread 278 unknown\nend\n

but 279 277
$ report --last 600 disc.tab
nodes «ROOT»node 1 torn file 5000 2001-07-04T09:30:00.000000Z /A\nmissing 277\nmissing 279\nhole 0 2048\nhole 4096 904\n«B»reread 277 unknown\nreread 279 unknown\nend\n

but
also 278 00
$ report --last 600 disc.tab
nodes «ROOT»node 1 torn file 5000 2001-07-04T09:30:00.000000Z /A\nmissing 278\nhole 2048 2048\n«B»reread 278 conflict\nend\n

= nodes_of_changed_volumes
# The name A is hidden; and the name B has a tag that is wrong: the front ends, and its entry has no name.

write 274 58 \x03
but
$ report --json --last 600 disc.tab
out-has {"hidden":true,"holes":[],"kind":"file","missing":[],"modified":"2001-07-04T09:30:00.000000Z","path":"/A","size":5000,"standing":"whole"},{"hidden":false,

write 274 80 \x02
but
$ report --last 600 disc.tab
nodes node 0 fault-10 directory 120 2001-07-04T09:30:00.000000Z /\nnode 1 whole file 5000 2001-07-04T09:30:00.000000Z /A\nunnamed 4 whole file 2 2001-07-04T09:30:00.000000Z\nend\n

= several_routes_to_one_entry
# The names A and B lead to one file, of which the same is missing under both; and of two directories each lists the other: each is a loop on the route that
# leads through it, and on no other.

write 274 104 \x03
but 278
$ report --last 600 disc.tab
nodes node 0 whole directory 120 2001-07-04T09:30:00.000000Z /\nnode 1 torn file 5000 2001-07-04T09:30:00.000000Z /A\nmissing 278\nhole 2048 2048\nnode 2 torn file 5000 2001-07-04T09:30:00.000000Z /B\nmissing 278\nhole 2048 2048\nunnamed 4 whole file 2 2001-07-04T09:30:00.000000Z\nreread 278 unknown\nend\n

write 274 64 \x0a
write 274 104 \x14
directory 10 E=20
directory 20 D=10
but
$ report --last 600 disc.tab
nodes node 0 whole directory 120 2001-07-04T09:30:00.000000Z /\nnode 1 whole directory 40 2001-07-04T09:30:00.000000Z /A\nnode 2 whole directory 40 2001-07-04T09:30:00.000000Z /A/E\nnode 3 loop directory 40 2001-07-04T09:30:00.000000Z /A/E/D\nnode 4 whole directory 40 2001-07-04T09:30:00.000000Z /B\nnode 5 whole directory 40 2001-07-04T09:30:00.000000Z /B/D\nnode 6 loop directory 40 2001-07-04T09:30:00.000000Z /B/D/E\nunnamed 3 whole file 5000 2001-07-04T09:30:00.000000Z\nunnamed 4 whole file 2 2001-07-04T09:30:00.000000Z\nend\n

= deep_on_one_route_alone
# 64 names lead to a directory with a name on one route, and one name on another, which is walked before that route or after it: it is reported as too deep on
# the one, and entered on the other. Without its body it is torn on both.
disc nested 65

directory 1 A=129 D=3
but
$ report --last 600 disc.tab
out-lines 67 node\x20
line node 66 fault-13 directory 40 2001-07-04T09:30:00.000000Z «64*/D»
line node 1 whole directory 40 2001-07-04T09:30:00.000000Z /A
line node 2 whole directory 0 2001-07-04T09:30:00.000000Z /A/D

directory 1 A=129 D=3
but 402
$ report --last 600 disc.tab
out-lines 66 node\x20
line node 65 torn directory 40 2001-07-04T09:30:00.000000Z «64*/D»
line node 1 torn directory 40 2001-07-04T09:30:00.000000Z /A

directory 1 D=3 X=129
but
$ report --last 600 disc.tab
out-lines 67 node\x20
line node 64 fault-13 directory 40 2001-07-04T09:30:00.000000Z «64*/D»
line node 65 whole directory 40 2001-07-04T09:30:00.000000Z /X
line node 66 whole directory 0 2001-07-04T09:30:00.000000Z /X/D

directory 1 D=3 X=129
but 402
$ report --last 600 disc.tab
out-lines 66 node\x20
line node 64 torn directory 40 2001-07-04T09:30:00.000000Z «64*/D»
line node 65 torn directory 40 2001-07-04T09:30:00.000000Z /X
"#;

#[test]
fn nodes_of_sample_volumes(rt: HostRuntime) -> Result<(), Fail> {
    check(&rt, rt.alloc(), NODES)
}

static LOST: &str = r#"
* a root of one folder
# The files have the link count 1, and the root one name, which leads to logical block 10 (ECMA-167 4/14.9.6).
directory 1 D=10
write 273 48 \x01\0
write 275 48 \x01
write 276 48 \x01

= the_root_is_not_read
# Its one folder is lost, and keeps the names of its files. Where the folder's block is not read either, the files are lost too.
* a root of one folder
directory 10 A=3 B=4
write 282 48 \x01\0
let A whole\tfile\t0\t5000\t2001-07-04T09:30:00Z\tlost:
let B whole\tfile\t0\t2\t2001-07-04T09:30:00Z\tlost:
then status 1
then error

but 274
$ list --lost --last 600 disc.tab
out whole\tdirectory\t0\t80\t2001-07-04T09:30:00Z\tlost:10/\n«A»10/A\n«B»10/B\n

but 274 283
$ list --lost --last 600 disc.tab
out torn\tdirectory\t80\t80\t2001-07-04T09:30:00Z\tlost:10/\n«A»3\n«B»4\n

= a_ring_has_one_root
# Of two lost folders that name each other the one in the lesser block is the root, and the name that leads back is a loop.
* a root of one folder
directory 10 E=12
directory 12 D=10
write 282 48 \x01\0
write 284 48 \x01\0

but 274
$ list --lost --last 600 disc.tab
done 1 whole\tdirectory\t0\t40\t2001-07-04T09:30:00Z\tlost:10/\nwhole\tdirectory\t0\t40\t2001-07-04T09:30:00Z\tlost:10/E\nloop\tdirectory\t-\t40\t2001-07-04T09:30:00Z\tlost:10/E/D\nwhole\tfile\t0\t5000\t2001-07-04T09:30:00Z\tlost:3\nwhole\tfile\t0\t2\t2001-07-04T09:30:00Z\tlost:4\n

= a_folder_inside_another
# It is in an earlier block than the other, and no root of its own.
* a root of one folder
directory 10 A=3
directory 20 B=4 D=10
write 282 48 \x01\0
write 292 48 \x01\0

but 274
$ list --lost --last 600 disc.tab
done 1 whole\tdirectory\t0\t80\t2001-07-04T09:30:00Z\tlost:20/\nwhole\tfile\t0\t2\t2001-07-04T09:30:00Z\tlost:20/B\nwhole\tdirectory\t0\t40\t2001-07-04T09:30:00Z\tlost:20/D\nwhole\tfile\t0\t5000\t2001-07-04T09:30:00Z\tlost:20/D/A\n

= deleted_entries
# A folder of link count 0 was deleted: it is a lost folder only where deleted ones are asked for, and so is a file.
* a root of one folder
directory 10 A=3
write 276 48 \0
then status 1
then error

but 274
$ list --lost --last 600 disc.tab
out whole\tfile\t0\t5000\t2001-07-04T09:30:00Z\tlost:3\n

but 274
$ list --deleted --last 600 disc.tab
out whole\tdirectory\t0\t40\t2001-07-04T09:30:00Z\tlost:10/\nwhole\tfile\t0\t5000\t2001-07-04T09:30:00Z\tlost:10/A\nwhole\tfile\t0\t2\t2001-07-04T09:30:00Z\tlost:4\n
"#;

#[test]
fn lost_folders_of_sample_volumes(rt: HostRuntime) -> Result<(), Fail> {
    check(&rt, rt.alloc(), LOST)
}
