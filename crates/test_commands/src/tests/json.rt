//! What `report --json` prints.

use crate::tests::check;
use std::test::Fail;

static SCRIPT: &str = r#"
= an_empty_table
file empty.rd reading

$ report --json --last 600 empty.rd
status 1
out {"conflict":0,"known":0,"label":null,"last":600,"nodes":[],"reread":[{"block":256,"state":"unknown"},{"block":344,"state":"unknown"},{"block":600,"state":"unknown"}],"unnamed":[],"volume":{"blocks":[256,344,600],"state":"holes"}}\n

= all_of_the_sample_volume
let ROOT {"hidden":false,"holes":[],"kind":"directory","missing":[],"modified":"2001-07-04T09:30:00.000000Z","path":"/","size":120,"standing":"whole"}
let B {"hidden":false,"holes":[],"kind":"file","missing":[],"modified":"2001-07-04T09:30:00.000000Z","path":"/B","size":2,"standing":"whole"}
let VOLUME {"map":"type1","revision":"1.50","state":"ok"}
let LABEL {"state":"name","text":"TEST"}
but

$ report --last 600 --json disc.tab
status 0
out {"conflict":0,"known":601,"label":«LABEL»,"last":600,"nodes":[«ROOT»,{"hidden":false,"holes":[],"kind":"file","missing":[],"modified":"2001-07-04T09:30:00.000000Z","path":"/A","size":5000,"standing":"whole"},«B»],"reread":[],"unnamed":[],"volume":«VOLUME»}\n

= an_entry_that_is_not_read
let ROOT {"hidden":false,"holes":[],"kind":"directory","missing":[],"modified":"2001-07-04T09:30:00.000000Z","path":"/","size":120,"standing":"whole"}
let B {"hidden":false,"holes":[],"kind":"file","missing":[],"modified":"2001-07-04T09:30:00.000000Z","path":"/B","size":2,"standing":"whole"}
let VOLUME {"map":"type1","revision":"1.50","state":"ok"}
let LABEL {"state":"name","text":"TEST"}
at 256 32 33 34 272 273 274 276

$ report --last 600 --json disc.tab
status 1
out {"conflict":0,"known":8,"label":«LABEL»,"last":600,"nodes":[«ROOT»,{"hidden":false,"holes":[],"kind":"unread","missing":[275],"modified":null,"path":"/A","size":null,"standing":"torn"},«B»],"reread":[{"block":275,"state":"unknown"}],"unnamed":[],"volume":«VOLUME»}\n

= what_a_torn_directory_named
let VOLUME {"map":"type1","revision":"1.50","state":"ok"}
let LABEL {"state":"name","text":"TEST"}
but 274

$ report --last 600 --json disc.tab
status 1
out {"conflict":0,"known":600,"label":«LABEL»,"last":600,"nodes":[{"hidden":false,"holes":[[0,120]],"kind":"directory","missing":[274],"modified":"2001-07-04T09:30:00.000000Z","path":"/","size":120,"standing":"torn"}],"reread":[{"block":274,"state":"unknown"}],"unnamed":[{"block":3,"holes":[],"kind":"file","missing":[],"modified":"2001-07-04T09:30:00.000000Z","size":5000,"standing":"whole"},{"block":4,"holes":[],"kind":"file","missing":[],"modified":"2001-07-04T09:30:00.000000Z","size":2,"standing":"whole"}],"volume":«VOLUME»}\n

= volumes_of_each_kind
let VOLUME {"map":"type1","revision":"1.50","state":"ok"}

but
$ report --last 600 --json disc.tab
status 0
out-ends "reread":[],"unnamed":[],"volume":«VOLUME»}\n

disc sparable
but
$ report --last 600 --json disc.tab
status 0
out-ends "reread":[],"unnamed":[],"volume":{"map":"sparable","packet":32,"revision":"1.50","state":"ok"}}\n

disc two-maps
but
$ report --last 600 --json disc.tab
status 0
out-ends "reread":[],"unnamed":[],"volume":{"maps":["type1","sparable"],"packet":32,"revision":"1.50","state":"ok"}}\n

= volumes_with_changes

write 32 0 \x07
but
$ report --last 600 --json disc.tab
out-has "volume":{"fault":4,"name":"NoLogicalVolume","state":"fault"}}

write 32 211 \0
but
$ report --last 600 --json disc.tab
out-has "label":{"state":"empty"},

write 32 211 \x80
but
$ report --last 600 --json disc.tab
out-has "label":{"state":"invalid"},

write 32 85 "\\
but
$ report --last 600 --json disc.tab
out-has "label":{"state":"name","text":"\\"\\\\u005CST"},

write 274 58 \x01
but
$ report --last 600 --json disc.tab
out-has {"hidden":true,

write 274 64 \x01
but
$ report --last 600 --json disc.tab
out-has "path":"/A","size":120,"standing":"loop"}

write 274 68 \x01
but
$ report --last 600 --json disc.tab
out-has "kind":"unread","missing":[],"modified":null,"path":"/A","size":null,"standing":"fault-5"}

write 276 27 \x06
but
$ report --last 600 --json disc.tab
out-has "kind":"other-6",

disc two-maps
write 274 108 \x02
but
$ report --last 600 --json disc.tab
out-has "unnamed":[{"block":0,"holes":[],"kind":"file","missing":[],"modified":"2001-07-04T09:30:00.000000Z","reference":1,"size":2,"standing":"whole"}]

= a_block_in_conflict
but
also 278 00

$ report --last 600 --json disc.tab
status 1
out-has {"conflict":1,"known":600,
out-has "holes":[[2048,2048]],"kind":"file","missing":[278],
out-has "reread":[{"block":278,"state":"conflict"}]
"#;

#[test]
fn reports_in_json(rt: HostRuntime) -> Result<(), Fail> {
    check(&rt, rt.alloc(), SCRIPT)
}
