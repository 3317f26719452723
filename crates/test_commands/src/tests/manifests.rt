//! What `extract --manifest` writes. The digests are what `sha256sum` prints of the sample's files.

use crate::tests::check;
use std::test::Fail;

static WHAT_A_MANIFEST_HAS: &str = r"
= each_file_has_its_line
let OF_A 8c7065008f4ae90d8df94d89db6a6d9e099eea564da6e0098c2dc33da864f3b5
let OF_B 3639efcd08abb273b1619e82e78c29a7df02c1051b1820e99fc395dcaa3326b8
but

$ extract --last 600 --to out --manifest m disc.tab
done 0 written /A\nwritten /B\n
survives m text «OF_A»  A\n«OF_B»  B\n
survives out/A text «2048*a»«2048*b»«904*c»
files 4

= only_what_is_written_has_a_line
# What is written of a torn file is what has the digest; what is not written has no line, and neither has what is not asked for.
let OF_B 3639efcd08abb273b1619e82e78c29a7df02c1051b1820e99fc395dcaa3326b8
but 278

$ extract --last 600 --to out  --manifest m disc.tab
done 1 skipped /A\nwritten /B\n
has m text «OF_B»  B\n

$ extract --last 600 --to out --fill --manifest m disc.tab
done 1 written /A\nwritten /B\n
has m text 87d0df1d4f2ceb1954855f9c212480103ae30d4f4f5a0f4cb00dabdc01e154ae  A\n«OF_B»  B\n

$ extract --last 600 --to out --fill --only /A --manifest m disc.tab
done 1 written /A\n
has m text 87d0df1d4f2ceb1954855f9c212480103ae30d4f4f5a0f4cb00dabdc01e154ae  A\n

$ extract --last 600 --to out --only /B --manifest m disc.tab
done 0 written /B\n
has m text «OF_B»  B\n

= a_file_that_fails_has_none
# Of two files of one name the second fails.
let OF_A 8c7065008f4ae90d8df94d89db6a6d9e099eea564da6e0098c2dc33da864f3b5
let OF_B 3639efcd08abb273b1619e82e78c29a7df02c1051b1820e99fc395dcaa3326b8
fill 274 00
directory 1 D=20 B=3 B=4
directory 20 A=4
directory 30
but

$ extract --last 600 --to out --manifest m disc.tab
done 1 written /D/A\nwritten /B\nfailed /B\n
has m text «OF_B»  D/A\n«OF_A»  B\n

= paths_are_escaped
# A backslash in a path is written as two, and one stands before the line.
let OF_A 8c7065008f4ae90d8df94d89db6a6d9e099eea564da6e0098c2dc33da864f3b5
let OF_B 3639efcd08abb273b1619e82e78c29a7df02c1051b1820e99fc395dcaa3326b8
fill 274 00
directory 1 dot=3 spaced=4
directory 20
directory 30
but

$ extract --last 600 --to out --manifest m disc.tab
done 0 written /\\u002E\nwritten /a b\n
has m text \\«OF_A»  \\\\u002E\n«OF_B»  a b\n
";

#[test]
fn what_a_manifest_has(rt: HostRuntime) -> Result<(), Fail> {
    check(&rt, rt.alloc(), WHAT_A_MANIFEST_HAS)
}

static WHERE_A_MANIFEST_GOES: &str = r"
= an_old_manifest_is_replaced
# An old manifest is replaced, also one that is empty or cut short behind its beginning. Where nothing is written the new one is empty.
let OF_A 8c7065008f4ae90d8df94d89db6a6d9e099eea564da6e0098c2dc33da864f3b5
let OF_B 3639efcd08abb273b1619e82e78c29a7df02c1051b1820e99fc395dcaa3326b8

but
file m text
$ extract --last 600 --to out --manifest m disc.tab
done 0 written /A\nwritten /B\n
survives m text «OF_A»  A\n«OF_B»  B\n

but
file m text «OF_B» \x20
$ extract --last 600 --to out --manifest m disc.tab
done 0 written /A\nwritten /B\n
survives m text «OF_A»  A\n«OF_B»  B\n

but
file m text \\«OF_B»  a\\nb\n
$ extract --last 600 --to out --manifest m disc.tab
done 0 written /A\nwritten /B\n
survives m text «OF_A»  A\n«OF_B»  B\n

fill 274 00
directory 1 D=20
directory 20
directory 30
but
file m text «OF_A»  A\n«OF_B»  B\n
$ extract --last 600 --to out --manifest m disc.tab
done 0
has m text

= what_a_manifest_is_not_written_over
# No file but a manifest is written over, no input, and nothing in the new folder; no input is read then, and nothing is made.
let OF_A 8c7065008f4ae90d8df94d89db6a6d9e099eea564da6e0098c2dc33da864f3b5
let OF_B 3639efcd08abb273b1619e82e78c29a7df02c1051b1820e99fc395dcaa3326b8
but
file note text a note
file short text «OF_A»
file upper text 3639EFCD08ABB273B1619E82E78C29A7DF02C1051B1820E99FC395DCAA3326B8  B\n
file one-space text «OF_B» *B\n
file p.img text
file p.map text
then refused udfsalvage: cannot write output\n
then same-files
then no-folder out
then has note text a note

$ extract --last 600 --to out --manifest disc.tab disc.tab absent.tab --ddrescue p.img p.map

$ extract --last 600 --to out --manifest note disc.tab absent.tab --ddrescue p.img p.map

$ extract --last 600 --to out --manifest short disc.tab absent.tab --ddrescue p.img p.map

$ extract --last 600 --to out --manifest upper disc.tab absent.tab --ddrescue p.img p.map

$ extract --last 600 --to out --manifest one-space disc.tab absent.tab --ddrescue p.img p.map

$ extract --last 600 --to out --manifest out disc.tab absent.tab --ddrescue p.img p.map

$ extract --last 600 --to out --manifest out/m disc.tab

$ extract --last 600 --to out/ --manifest out disc.tab absent.tab --ddrescue p.img p.map

$ extract --last 600 --to m.unfinished --manifest m disc.tab absent.tab --ddrescue p.img p.map

$ extract --last 600 --to out --manifest p.img disc.tab absent.tab --ddrescue p.img p.map

$ extract --last 600 --to out --manifest p.map disc.tab absent.tab --ddrescue p.img p.map

= a_manifest_beside_the_folder
# A name that begins as the folder's is beside it, but not one whose new file might be the folder.
let OF_A 8c7065008f4ae90d8df94d89db6a6d9e099eea564da6e0098c2dc33da864f3b5
let OF_B 3639efcd08abb273b1619e82e78c29a7df02c1051b1820e99fc395dcaa3326b8
but

$ extract --last 600 --to out --manifest out.sha256 disc.tab
done 0 written /A\nwritten /B\n
has out.sha256 text «OF_A»  A\n«OF_B»  B\n

$ extract --last 600 --to m.unfinished --manifest m disc.tab
refused udfsalvage: cannot write output\n

= an_old_manifest_stays, 1
# Of a volume that does not open, after a refusal, and where standard output fails there is no new manifest.
let OF_B 3639efcd08abb273b1619e82e78c29a7df02c1051b1820e99fc395dcaa3326b8
file m text «OF_B»  old\n
folder there
then survives m text «OF_B»  old\n
then files 2

but 33 49
$ extract --last 600 --to out --manifest m disc.tab
status 1

but
$ extract --last 600 --to out --manifest m --only /E disc.tab
status 2

but
$ extract --last 600 --to there --manifest m disc.tab
status 2

but
$ extract --last 512 --to out --manifest m disc.tab
status 2

= an_old_manifest_stays, 2
let OF_B 3639efcd08abb273b1619e82e78c29a7df02c1051b1820e99fc395dcaa3326b8
but
file m text «OF_B»  old\n
terminal-fails 0

$ extract --last 600 --to out --manifest m disc.tab
refused udfsalvage: cannot write output\n
survives m text «OF_B»  old\n
survives out/B text Hi

= a_manifest_that_cannot_be_written
# Each call that puts the manifest fails, the first of them by each name: the old one stays, whole, or the new one is there, and all files are.
let OF_A 8c7065008f4ae90d8df94d89db6a6d9e099eea564da6e0098c2dc33da864f3b5
let OF_B 3639efcd08abb273b1619e82e78c29a7df02c1051b1820e99fc395dcaa3326b8
but
file m text «OF_B»  old\n
then status 2
then out written /A\nwritten /B\n
then survives m text «OF_B»  old\n
then survives out/A text «2048*a»«2048*b»«904*c»
then survives out/B text Hi

calls-fail 8 23
$ extract --last 600 --to out --manifest m disc.tab
error udfsalvage: cannot write output\n
has m text «OF_B»  old\n

calls-fail 9 9
$ extract --last 600 --to out --manifest m disc.tab
error udfsalvage: cannot write output\n
has m text «OF_B»  old\n

calls-fail 10 10
$ extract --last 600 --to out --manifest m disc.tab
error udfsalvage: cannot write output\n
has m text «OF_B»  old\n

calls-fail 11 11
$ extract --last 600 --to out --manifest m disc.tab
error udfsalvage: cannot write output\n  the new file is in its place, whole, but a power cut may bring the old one back\n
has m text «OF_A»  A\n«OF_B»  B\n
";

#[test]
fn where_a_manifest_goes(rt: HostRuntime) -> Result<(), Fail> {
    check(&rt, rt.alloc(), WHERE_A_MANIFEST_GOES)
}
