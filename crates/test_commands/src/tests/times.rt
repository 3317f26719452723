//! What `extract --times` sets. The sample volumes have one stamp, 2001-07-04T10:30 at an hour before UTC, which is 994239000 seconds after 1970 (`date -u -d 2001-07-04T09:30 +%s`).
//! The entries of the root, of A and of B are blocks 273, 275 and 276, and the stamp of the last change is at byte 84 of each, that of the last access 12 before it (ECMA-167 4/14.9).

use crate::tests::{Commands, assert_case, check};
use std::test::Fail;
use test_runs::times_want_memory;

static SCRIPT: &str = r#"
= files_and_the_folder_get_their_times
but
zone CET-1CEST,M3.5.0,M10.5.0/3

$ extract --last 600 --to out --times disc.tab
done 0 written /A\nwritten /B\n
modified out 994239000000000
modified out/A 994239000000000
modified out/B 994239000000000
survives out/A text «2048*a»«2048*b»«904*c»
survives out/B text Hi

= none_is_set_without_the_word
but
timeless out/A

$ extract -v --last 600 --to out disc.tab
done 0 written /A\nwritten /B\n
modified out none
modified out/A none
modified out/B none
remarked 2 written\n

= it_is_the_time_of_the_last_change
# The time of the last change is set, and neither that of the last access, 12 bytes before it, nor that of the attributes, 12 behind.
write 275 72 \x01\x18\xd4\x07\x07\x01\x0c\x1e-\x0c"8
write 275 96 \x01\x18\xd4\x07\x01\x0f\x0c\x1e-\x0c"8
but

$ extract --last 600 --to out --times disc.tab
modified out/A 994239000000000

= local_times_by_the_zone_of_the_clock
# `TZ=CET-1CEST,M3.5.0,M10.5.0/3 date -d '2004-07-01 12:30:45' +%s` is 1088677845, and of 2004-01-15 1074166245; at UTC they are 7200 and 3600 more. At 2:30 on 28 March the clock has no
# such time, and what it would have shown an hour before is taken: 1080437400.
write 273 84 \x01\x18\xd4\x07\x03\x1c\x02\x1e\0\0\0\0
write 275 84 \x01\x18\xd4\x07\x07\x01\x0c\x1e-\x0c"8
write 276 84 \x01\x18\xd4\x07\x01\x0f\x0c\x1e-\x0c"8
but

zone CET-1CEST,M3.5.0,M10.5.0/3
$ extract --last 600 --to out --times disc.tab
modified out/A 1088677845123456
modified out/B 1074166245123456
modified out 1080437400000000

zone UTC
$ extract --last 600 --to out --times disc.tab
modified out/A 1088685045123456
modified out/B 1074169845123456

= stamps_that_leave_the_time
# Month 13, type 2, and a microsecond before 1970 leave the time, and nothing is lacking; the first second of 1970 is set.
then done 0 written /A\nwritten /B\n
then modified out/B 994239000000000

write 275 84 \0\x10\xd1\x07\r\x04\n\x1e\0\0\0\0
but
$ extract --last 600 --to out --times disc.tab
modified out/A none

write 275 84 \0 \xd1\x07\x07\x04\n\x1e\0\0\0\0
but
$ extract --last 600 --to out --times disc.tab
modified out/A none

write 275 84 \0\x10\xb1\x07\x0c\x1f\x17;;ccc
but
$ extract --last 600 --to out --times disc.tab
modified out/A none

write 275 84 \x01\x18\xb1\x07\x0c\x1f\x17;;ccc
but
$ extract --last 600 --to out --times disc.tab
modified out/A none

write 275 84 \0\x10\xb2\x07\x01\x01\0\0\0\0\0\0
but
$ extract --last 600 --to out --times disc.tab
modified out/A 0

= folders_keep_their_times
# The root has a folder D with a folder E and A, and behind them B: what is put into a folder changes its time, which is therefore set at the end. With `--only` the folders that lead to
# what is asked for get theirs too.
fill 274 00
directory 1 D=20 B=4
directory 20 E=30 A=3
directory 30 F=3
write 302 84 \x01\x18\xd4\x07\x07\x01\x0c\x1e-\x0c"8
but
then status 0
then modified out 994239000000000
then modified out/D 994239000000000
then modified out/D/E/F 994239000000000
then modified out/D/E 1088685045123456

$ extract --last 600 --to out --times disc.tab
timed out/B

$ extract --last 600 --to out --times --only /D/E/F disc.tab
modified out/B none

$ extract --last 600 --to out --times --manifest m disc.tab
timed out/B

= lost_files_get_theirs
# Files of `--unnamed` have stamps too. Their folder has none.
but 274
then done 1 written unnamed 3\nwritten unnamed 4\n
then modified lost/3 994239000000000
then modified lost/4 994239000000000
then modified lost none

$ extract --last 600 --to out --times --unnamed lost disc.tab

$ extract --last 600 --to out --times --unnamed lost --manifest m disc.tab

= a_time_that_can_not_be_set
# A time that can not be set is lacking, and changes nothing that is printed.

but 600
timeless out/A
$ extract -v --last 600 --to out --times disc.tab
done 1 written /A\nwritten /B\n
remarked time of /A: the system does not say why\n2 written\n
modified out/A none

but 600
timeless out
$ extract -v --last 600 --to out --times --manifest m disc.tab
done 1 written /A\nwritten /B\n
remarked time of /: the system does not say why\n2 written\n
modified out none

but 274
timeless lost/3
$ extract -v --last 600 --to out --times --unnamed lost disc.tab
done 1 written unnamed 3\nwritten unnamed 4\n
remarked 0 written\ntime of unnamed 3: the system does not say why\n
modified lost/3 none

= what_is_not_made_has_none
# A file that could not be written has no time, and a volume that does not open none at all.

but
outputs-fail 3000
$ extract --last 600 --to out --times disc.tab
done 1 failed /A\nwritten /B\n
modified out/A none
modified out/B 994239000000000

but 33 49
$ extract --last 600 --to out --times disc.tab
done 1 volume holes 33 49\n
modified out none
"#;

#[test]
fn times_of_files_and_folders(rt: HostRuntime) -> Result<(), Fail> {
    check(&rt, rt.alloc(), SCRIPT)
}

/// With ample memory all times are set. Where one allocation fails, that is reported, or a time is missing, or all is as with ample memory.
#[test]
fn want_of_memory_is_told(rt: HostRuntime) {
    assert_case(
        &rt,
        !matches!(
            times_want_memory(rt.alloc(), &Commands, Some(994_239_000_000_000)),
            Ok(false)
        ),
        "",
    );
}
