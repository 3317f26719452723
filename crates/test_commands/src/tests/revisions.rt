//! Reports by the strict rules and by the wide ones, of volumes whose revision of UDF, last extent or tags are changed.

use crate::tests::check;
use std::test::Fail;

static REVISIONS: &str = r#"
= the_rules_decide_what_opens
# Each revision by the strict rules, and by the wide ones.
let STRICT UDFREPORT1 last 600\nknown 601 conflict 0\nvolume
let WIDE UDFREPORT1 last 600\nprofile wide\nknown 601 conflict 0\nvolume
let OPENS map type1\nlabel name TEST\nnode 0 whole directory\x20
then error

write 32 240 \x02\x01
write 48 240 \x02\x01
but
$ report --last 600 disc.tab
out «STRICT» fault 5 Domain\nend\n

write 32 240 \x02\x01
write 48 240 \x02\x01
but
$ report --last 600 --profile wide disc.tab
out-begins «WIDE» ok revision 1.02 «OPENS»

but
$ report --last 600 disc.tab
out-begins «STRICT» ok revision 1.50 «OPENS»

but
$ report --last 600 --profile wide disc.tab
out-begins «WIDE» ok revision 1.50 «OPENS»

write 32 240 \0\x02
write 48 240 \0\x02
but
$ report --last 600 disc.tab
out «STRICT» fault 5 Domain\nend\n

write 32 240 \0\x02
write 48 240 \0\x02
but
$ report --last 600 --profile wide disc.tab
out-begins «WIDE» ok revision 2.00 «OPENS»

write 32 240 \x01\x02
write 48 240 \x01\x02
but
$ report --last 600 disc.tab
out-begins «STRICT» ok revision 2.01 «OPENS»

write 32 240 \x01\x02
write 48 240 \x01\x02
but
$ report --last 600 --profile wide disc.tab
out-begins «WIDE» ok revision 2.01 «OPENS»

write 32 240 \x50\x02
write 48 240 \x50\x02
but
$ report --last 600 disc.tab
out «STRICT» fault 5 Domain\nend\n

write 32 240 \x50\x02
write 48 240 \x50\x02
but
$ report --last 600 --profile wide disc.tab
out «WIDE» fault 5 Domain\nend\n

write 32 240 \0\x01
write 48 240 \0\x01
but
$ report --last 600 --profile wide disc.tab
out-begins «WIDE» ok revision 1.00 «OPENS»

write 32 240 \x01\x01
write 48 240 \x01\x01
but
$ report --last 600 --profile wide disc.tab
out-begins «WIDE» ok revision 1.01 «OPENS»

= last_blocks_that_no_rules_take
write 32 240 \0\x02
write 48 240 \0\x02
but

$ report --last 512 --profile wide disc.tab
refused udfsalvage: fault 1 LastRange\n

$ report --last 599 --profile wide disc.tab
refused udfsalvage: fault 2 PastEnd 600\n

= a_wide_report_in_json
file empty.rd reading

$ report --json --last 600 --profile wide empty.rd
status 1
out {"conflict":0,"known":0,"label":null,"last":600,"nodes":[],"profile":"wide","reread":[{"block":256,"state":"unknown"},{"block":344,"state":"unknown"},{"block":600,"state":"unknown"}],"unnamed":[],"volume":{"blocks":[256,344,600],"state":"holes"}}\n

write 32 240 \x02\x01
write 48 240 \x02\x01
but
$ report --json --last 600 --profile wide disc.tab
status 0
out-ends "profile":"wide","reread":[],"unnamed":[],"volume":{"map":"type1","revision":"1.02","state":"ok"}}\n
"#;

#[test]
fn revisions(rt: HostRuntime) -> Result<(), Fail> {
    check(&rt, rt.alloc(), REVISIONS)
}

static TAILS_AND_TAGS: &str = r#"
= a_file_that_grew_inside_its_last_block
# A file of 5,010 bytes whose one extent still has the length 5,000: a fault by the strict rules, whole by the wide ones, and torn by these where its last block
# is not known.
write 275 56 \x92\x13

but
$ report --last 600 disc.tab
status 1
out-has \nnode 1 fault-9 file 5010\x20

but
$ report --last 600 --profile wide disc.tab
status 0
out-has \nnode 1 whole file 5010\x20

but 279
$ report --last 600 --profile wide disc.tab
status 1
out-has \x20/A\nmissing 279\nhole 4096 914\n

but
$ extract --last 600 --profile wide --to out disc.tab
status 0
length out/A 5010
has-at out/A 5009 c

but
$ report --json --last 600 --profile wide disc.tab
status 0
out {"conflict":0,"known":601,"label":{"state":"name","text":"TEST"},"last":600,"nodes":[{"hidden":false,"holes":[],"kind":"directory","missing":[],"modified":"2001-07-04T09:30:00.000000Z","path":"/","size":120,"standing":"whole"},{"hidden":false,"holes":[],"kind":"file","missing":[],"modified":"2001-07-04T09:30:00.000000Z","path":"/A","size":5010,"standing":"whole","tail":true},{"hidden":false,"holes":[],"kind":"file","missing":[],"modified":"2001-07-04T09:30:00.000000Z","path":"/B","size":2,"standing":"whole"}],"profile":"wide","reread":[],"unnamed":[],"volume":{"map":"type1","revision":"1.50","state":"ok"}}\n

but
$ report --json --last 600 disc.tab
status 1
out-has "path":"/A","size":5010,"standing":"fault-9"}

= a_tag_of_another_place
# The tag of the name B, in logical block 2, with its checksum, for a place that it names: none, the block of the folder's entry, and the block's number on the
# disc. It is a fault of its folder by the strict rules, and none by the wide ones.

write 274 84 \x04
write 274 92 \0\0
but
$ report --last 600 disc.tab
out-has \nnode 0 fault-10 directory\x20

write 274 84 \x04
write 274 92 \0\0
but
$ report --last 600 --profile wide disc.tab
out-ends \nnode 2 whole file 2 2001-07-04T09:30:00.000000Z /B\nend\n

write 274 84 \x05
write 274 92 \x01\0
but
$ report --last 600 disc.tab
out-has \nnode 0 fault-10 directory\x20

write 274 84 \x05
write 274 92 \x01\0
but
$ report --last 600 --profile wide disc.tab
out-ends \nnode 2 whole file 2 2001-07-04T09:30:00.000000Z /B\nend\n

write 274 84 \x17
write 274 92 \x12\x01
but
$ report --last 600 disc.tab
out-has \nnode 0 fault-10 directory\x20

write 274 84 \x17
write 274 92 \x12\x01
but
$ report --last 600 --profile wide disc.tab
out-ends \nnode 2 whole file 2 2001-07-04T09:30:00.000000Z /B\nend\n

= a_tag_that_is_wrong_elsewhere
# The same tag with a checksum that is wrong, a version that there is not, and another identifier: faults by both rules.
write 274 92 \0
then status 1
then out-has \nnode 0 fault-10 directory\x20

write 274 84 \x05
but
$ report --last 600 disc.tab

write 274 84 \x05
but
$ report --last 600 --profile wide disc.tab

write 274 82 \x04
write 274 84 \x06
but
$ report --last 600 disc.tab

write 274 82 \x04
write 274 84 \x06
but
$ report --last 600 --profile wide disc.tab

write 274 80 \x02
write 274 84 \x05
but
$ report --last 600 disc.tab

write 274 80 \x02
write 274 84 \x05
but
$ report --last 600 --profile wide disc.tab
"#;

#[test]
fn tails_and_tags(rt: HostRuntime) -> Result<(), Fail> {
    check(&rt, rt.alloc(), TAILS_AND_TAGS)
}

static HOLES_AND_ERRORS: &str = r#"
= what_is_missing_of_a_file
# A survey keeps no blocks and holes of its torn nodes, and its text and its JSON have them.

but 278 279
$ report --last 600 disc.tab
status 1
out-has \x20/A\nmissing 278\nmissing 279\nhole 2048 2952\n

but 278 279
$ report --json --last 600 disc.tab
status 1
out-has {"hidden":false,"holes":[[2048,2952]],"kind":"file","missing":[278,279],"modified":"2001-07-04T09:30:00.000000Z","path":"/A","size":5000,"standing":"torn"}

but 278
$ report --json --last 600 disc.tab
status 1
out-has {"hidden":false,"holes":[[2048,2048]],"kind":"file","missing":[278],"modified":"2001-07-04T09:30:00.000000Z","path":"/A","size":5000,"standing":"torn"}

but 279 277
$ reread --last 600 disc.tab
status 1
out 277\n279\n

but
$ reread --last 600 disc.tab
done 0

= a_table_without_a_report
file t.rd reading 900:00 700:00 699:00

$ report --last 0 t.rd
refused udfsalvage: fault 1 LastRange\n

$ report --last 512 t.rd
refused udfsalvage: fault 1 LastRange\n

$ report --last 4194304 t.rd
refused udfsalvage: fault 1 LastRange\n

$ report --last 513 t.rd
refused udfsalvage: fault 2 PastEnd 699\n

$ report --last 699 t.rd
refused udfsalvage: fault 2 PastEnd 700\n

$ report --last 899 t.rd
refused udfsalvage: fault 2 PastEnd 900\n

$ report --last 900 t.rd
status 1
error

$ report --last 4194303 t.rd
status 1
error

= a_volume_that_does_not_open
but 256 344 600

$ reread --last 600 disc.tab
done 1 256\n344\n600\n

$ extract --last 600 --to out disc.tab
done 1 volume holes 256 344 600\n
no-folder out

$ reread --last 512 disc.tab
refused udfsalvage: fault 1 LastRange\n

but
$ reread --last 599 disc.tab
refused udfsalvage: fault 2 PastEnd 600\n
"#;

#[test]
fn holes_and_errors(rt: HostRuntime) -> Result<(), Fail> {
    check(&rt, rt.alloc(), HOLES_AND_ERRORS)
}
