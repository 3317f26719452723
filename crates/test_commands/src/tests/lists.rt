//! The lists of sample volumes, their forms, and names that would forge one. The columns: standing, kind, bytes lost, size, time, path.

use crate::tests::check;
use std::test::Fail;

static SCRIPT: &str = r#"
= volumes_with_blocks_that_are_not_known
# Two holes, of 2,048 and 904 bytes; and a root that is torn, which is not listed.
let B whole\tfile\t0\t2\t2001-07-04T09:30:00Z\t/B\n

but 277 279
$ list --last 600 disc.tab
done 1 torn\tfile\t2952\t5000\t2001-07-04T09:30:00Z\t/A\n«B»

but 278 279
$ list --last 600 disc.tab
done 1 torn\tfile\t2952\t5000\t2001-07-04T09:30:00Z\t/A\n«B»

but 274
$ list --last 600 disc.tab
done 1

= a_tail
# A file of 5,010 bytes with an extent of 5,000, which ends in its third block: the wide rules read it, and mark it. By the strict rules it is a fault.
write 275 56 \x92\x13
let B whole\tfile\t0\t2\t2001-07-04T09:30:00Z\t/B\n

but
$ list --last 600 --profile wide disc.tab
done 0 whole\tfile\t0\t5010\t2001-07-04T09:30:00Z\t/A\ttail\n«B»

but
$ list --last 600 disc.tab
done 1 fault 9\tfile\t-\t5010\t2001-07-04T09:30:00Z\t/A\n«B»

= a_loop_and_a_fault
let B whole\tfile\t0\t2\t2001-07-04T09:30:00Z\t/B\n
then status 1
then error

write 274 64 \x01
but
$ list --last 600 disc.tab
out loop\tdirectory\t-\t120\t2001-07-04T09:30:00Z\t/A\n«B»

disc two-maps
write 274 108 \x02
but
$ list --last 600 disc.tab
out whole\tfile\t0\t5000\t2001-07-04T09:30:00Z\t/A\nfault 5\tunknown\t-\t-\t-\t/B\n

= forms_of_lines
# The columns' names stand on the first line, which ends as the others do; they are there for a list without lines too. An object is in place of a line, and
# has no header.
but 278
then status 1
then error

$ list --torn --last 600 disc.tab
out torn\tfile\t2048\t5000\t2001-07-04T09:30:00Z\t/A\n

$ list --paths --last 600 disc.tab
out /A\n/B\n

$ list --torn --null --paths --header --last 600 disc.tab
out path\0/A\0

but 256 344 600
$ list --torn --null --paths --header --last 600 disc.tab
out path\0

$ list --json --header --last 600 disc.tab
out {"standing":"torn","kind":"file","lost":2048,"size":5000,"time":"2001-07-04T09:30:00.000000Z","path":"/A"}\n{"standing":"whole","kind":"file","lost":0,"size":2,"time":"2001-07-04T09:30:00.000000Z","path":"/B"}\n

$ list --json --header --paths --last 600 disc.tab
out {"path":"/A"}\n{"path":"/B"}\n

but 275
$ list --json --header --torn --last 600 disc.tab
out {"standing":"torn","kind":"unread","lost":null,"size":null,"time":null,"path":"/A"}\n

= names
# A backslash of an escape and a quote, in an object, and a mark that turns the direction of text.

directory 1 quoted=3
but
$ list --json --paths --last 600 disc.tab
done 0 {"path":"/a\\"\\\\u0009b"}\n

directory 1 turned=3
but
$ list --last 600 disc.tab
done 0 whole\tfile\t0\t5000\t2001-07-04T09:30:00Z\t/\\u202Ea\n

= a_list_that_cannot_be_printed
# Each number of bytes below that of the text, which is 83, is tried.
but 278
then status 2
then error udfsalvage: cannot write output\n

each 0 83
terminal-fails «n»
$ list --last 600 disc.tab
out-front torn\tfile\t2048\t5000\t2001-07-04T09:30:00Z\t/A\nwhole\tfile\t0\t2\t2001-07-04T09:30:00Z\t/B\n
"#;

#[test]
fn lists_of_sample_volumes(rt: HostRuntime) -> Result<(), Fail> {
    check(&rt, rt.alloc(), SCRIPT)
}
