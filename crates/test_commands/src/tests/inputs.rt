//! Readings and table files that come through a device, in pieces: joined, cut, and with each fault. What is read is told by the table file that is written.

use crate::tests::check;
use std::test::Fail;

static JOINED: &str = r"
* a pair of passes
file dev/a.rd reading 300:61
file dev/b.rd reading 301:62
let DISPUTED UDFTABL1\0\x08\0\0\x01\0\0\0,\x01\0\0\x02
let DISPUTED2 UDFTABL2\0\x08\0\0\x01\0\0\0\t\0\0\0\0\0\0\0\0\x10\0\0
let PAIR2 UDFTABL2\0\x08\0\0\x01\0\0\0\t\0\0\0\0\x30\0\0\0\0\0\0«2048*a»«2048*b»

= a_reading_in_any_pieces
file dev/two.rd reading 300:61 301:62
then silent
then has t.tab table 300:61 301:62

inputs-move 1
$ merge --v1 --out t.tab dev/two.rd

inputs-move 3
$ merge --v1 --out t.tab dev/two.rd

inputs-move 4000
$ merge --v1 --out t.tab dev/two.rd

inputs-move 5000
$ merge --v1 --out t.tab dev/two.rd

= packets_in_any_pieces
* a pair of passes
file dev/t.tab text «PAIR2»
then silent
then has t.tab table 300:61 301:62

inputs-move 1
$ merge --v1 --out t.tab dev/t.tab

inputs-move 7
$ merge --v1 --out t.tab dev/t.tab

inputs-move 4000
$ merge --v1 --out t.tab dev/t.tab

inputs-move 9000
$ merge --v1 --out t.tab dev/t.tab

= a_pair_in_any_order_and_split
* a pair of passes
file dev/both.rd reading 301:62 300:61 301:62
file dev/pair.tab table 300:61 301:62
file dev/one.tab table 300:61
then silent
then has t.tab table 300:61 301:62
then length t.tab 4122

$ merge --v1 --out t.tab dev/a.rd dev/b.rd

$ merge --v1 --out t.tab dev/b.rd dev/a.rd

$ merge --v1 --out t.tab dev/a.rd dev/b.rd dev/a.rd

$ merge --v1 --out t.tab dev/both.rd

$ merge --v1 --out t.tab dev/pair.tab

$ merge --v1 --out t.tab dev/b.rd dev/one.tab

= a_pair_as_a_packet
# Known blocks stand in the order of their bits.
* a pair of passes
file dev/both.rd reading 301:62 300:61
then silent
then has t.tab text «PAIR2»

$ merge --out t.tab dev/both.rd

= no_record
file dev/empty.rd reading
file dev/empty.tab text UDFTABL2\0\x08\0\0\0\0\0\0
then silent

$ merge --v1 --out t.tab dev/empty.rd
has t.tab text UDFTABL1\0\x08\0\0\0\0\0\0

$ merge --out t.tab dev/empty.rd
has t.tab text UDFTABL2\0\x08\0\0\0\0\0\0

$ merge --out t.tab dev/empty.tab
has t.tab text UDFTABL2\0\x08\0\0\0\0\0\0

= a_dispute_stays
* a pair of passes
file dev/c.rd reading 300:62
file dev/d.tab text «DISPUTED»
file dev/d2.tab text «DISPUTED2»
then silent

$ merge --v1 --out t.tab dev/a.rd dev/c.rd dev/a.rd
has t.tab text «DISPUTED»

$ merge --v1 --out t.tab dev/d.tab dev/a.rd
has t.tab text «DISPUTED»

$ merge --v1 --out t.tab dev/a.rd dev/d.tab
has t.tab text «DISPUTED»

$ merge --out t.tab dev/a.rd dev/c.rd dev/a.rd
has t.tab text «DISPUTED2»

$ merge --v1 --out t.tab dev/d2.tab
has t.tab text «DISPUTED»

= the_first_and_the_last_block_have_their_bits
# Both in conflict: bit 0 of the first packet and bit 31 of the last.
file dev/two.tab text UDFTABL2\0\x08\0\0\x02\0\0\0\0\0\0\0\0\0\0\0\x01\0\0\0\xff\xff\x01\0\0\0\0\0\0\0\0\x80
then silent

$ merge --out t.tab dev/two.tab
has t.tab text UDFTABL2\0\x08\0\0\x02\0\0\0\0\0\0\0\0\0\0\0\x01\0\0\0\xff\xff\x01\0\0\0\0\0\0\0\0\x80

$ merge --v1 --out t.tab dev/two.tab
has t.tab text UDFTABL1\0\x08\0\0\x02\0\0\0\0\0\0\0\x02\xff\xff?\0\x02

= three_kinds_of_input_are_joined
* a pair of passes
file dev/d.tab text «DISPUTED»
file dev/d2.tab text «DISPUTED2»
file dev/pair.tab text «PAIR2»
file dev/c.rd reading 301:63
then silent

$ merge --v1 --out t.tab dev/b.rd dev/d.tab dev/pair.tab
has t.tab text UDFTABL1\0\x08\0\0\x02\0\0\0,\x01\0\0\x02-\x01\0\0\x01«2048*b»

$ merge --v1 --out t.tab dev/pair.tab dev/d.tab dev/b.rd
has t.tab text UDFTABL1\0\x08\0\0\x02\0\0\0,\x01\0\0\x02-\x01\0\0\x01«2048*b»

$ merge --v1 --out t.tab dev/d.tab dev/pair.tab dev/d2.tab
has t.tab text UDFTABL1\0\x08\0\0\x02\0\0\0,\x01\0\0\x02-\x01\0\0\x01«2048*b»

$ merge --v1 --out t.tab dev/d2.tab dev/b.rd dev/pair.tab
has t.tab text UDFTABL1\0\x08\0\0\x02\0\0\0,\x01\0\0\x02-\x01\0\0\x01«2048*b»

$ merge --v1 --out t.tab dev/pair.tab dev/c.rd dev/d2.tab
has t.tab text UDFTABL1\0\x08\0\0\x02\0\0\0,\x01\0\0\x02-\x01\0\0\x02
";

#[test]
fn inputs_of_devices_are_joined(rt: HostRuntime) -> Result<(), Fail> {
    check(&rt, rt.alloc(), JOINED)
}

static FAULTS: &str = r"
= faults_of_a_reading

file dev/x longer 300:61 301:62
$ merge --out t.tab dev/x
refused udfsalvage: input 1: fault 5 Trailing at record 2\n

file dev/x reading 4194304:00
$ merge --out t.tab dev/x
refused udfsalvage: input 1: fault 3 BlockNumber at record 1\n

file dev/x reading 4194303:07
$ merge --v1 --out t.tab dev/x
silent
has t.tab table 4194303:07

file dev/a.rd reading 300:61
file dev/cut.rd front 17 300:61
file dev/x text UDFTABLX
$ merge --out t.tab dev/a.rd dev/cut.rd dev/x
refused udfsalvage: input 2: fault 4 Truncated at record 1\n

= faults_of_a_header
then refused udfsalvage: input 1: fault 2 BlockSize at record 0\n

file dev/x text UDFREAD1\0\x04\0\0\0\0\0\0
$ merge --out t.tab dev/x

file dev/x text UDFREAD1\0\x04\0\0
$ merge --out t.tab dev/x

file dev/x text UDFTABL1\0\x04\0\0
$ merge --out t.tab dev/x

file dev/x text UDFTABL2\0\x04\0\0
$ merge --out t.tab dev/x

= faults_of_a_second_entry
# The first is block 5 in conflict.
let FIRST UDFTABL1\0\x08\0\0\x02\0\0\0\x05\0\0\0\x02

file dev/x text «FIRST»\x05\0\0\0\x02
$ merge --out t.tab dev/x
refused udfsalvage: input 1: fault 6 Order at record 2\n

file dev/x text «FIRST»\x04\0\0\0\x02
$ merge --out t.tab dev/x
refused udfsalvage: input 1: fault 6 Order at record 2\n

file dev/x text «FIRST»\0\0\x40\0\x02
$ merge --out t.tab dev/x
refused udfsalvage: input 1: fault 3 BlockNumber at record 2\n

file dev/x text «FIRST»\x06\0\0\0\x03
$ merge --out t.tab dev/x
refused udfsalvage: input 1: fault 7 State at record 2\n

file dev/x text «FIRST»\x06\0\0\0\0
$ merge --out t.tab dev/x
refused udfsalvage: input 1: fault 7 State at record 2\n

= faults_of_a_table_file

file dev/x text UDFTABL1\0\x08\0\0\x01\0\0\0\x05\0\0\0\x03
$ merge --out t.tab dev/x
refused udfsalvage: input 1: fault 7 State at record 1\n

file dev/x text UDFTABL1\0\x08\0\0\x01\0\0\0\x05\0\0\0\x02\x02
$ merge --out t.tab dev/x
refused udfsalvage: input 1: fault 5 Trailing at record 1\n

file dev/x text UDFTABLX
$ merge --out t.tab dev/x
refused udfsalvage: input 1: fault 1 Magic at record 0\n

each 0 16
file dev/x cut «n» UDFTABL1\0\x08\0\0\x01\0\0\0,\x01\0\0\x02
$ merge --out t.tab dev/x
refused udfsalvage: input 1: fault 4 Truncated at record 0\n

each 16 21
file dev/x cut «n» UDFTABL1\0\x08\0\0\x01\0\0\0,\x01\0\0\x02
$ merge --out t.tab dev/x
refused udfsalvage: input 1: fault 4 Truncated at record 1\n

= faults_of_packets
# A number that is too great, blocks that are known and in conflict, and none that is either.
let ONE UDFTABL2\0\x08\0\0\x01\0\0\0

file dev/x text «ONE»\0\0\x02\0\0\0\0\0\x01\0\0\0«2048*\0»
$ merge --out t.tab dev/x
refused udfsalvage: input 1: fault 3 BlockNumber at record 1\n

file dev/x text «ONE»\0\0\0\0\x01\0\0\0\x01\0\0\0«2048*\0»
$ merge --out t.tab dev/x
refused udfsalvage: input 1: fault 7 State at record 1\n

file dev/x text «ONE»\0\0\0\0\0\0\0\0\0\0\0\0«2048*\0»
$ merge --out t.tab dev/x
refused udfsalvage: input 1: fault 7 State at record 1\n

file dev/x text «ONE»\x09\0\0\0\0\0\0\x80\0\0\0\xc0«2048*\0»
$ merge --out t.tab dev/x
refused udfsalvage: input 1: fault 7 State at record 1\n

file dev/x text «ONE»\xff\xff\x01\0\0\0\0\0\x01\0\0\0\0
$ merge --out t.tab dev/x
refused udfsalvage: input 1: fault 5 Trailing at record 1\n

= faults_of_a_second_packet
# The first is packet 9.
let FIRST UDFTABL2\0\x08\0\0\x02\0\0\0\x09\0\0\0\0\0\0\0\0\x10\0\0
let TWO UDFTABL2\0\x08\0\0\x02\0\0\0\0\0\0\0\0\0\0\0\x01\0\0\0\xff\xff\x01\0\0\0\0\0\0\0\0\x80

file dev/x text «FIRST»\0\0\0\0
$ merge --out t.tab dev/x
refused udfsalvage: input 1: fault 6 Order at record 2\n

file dev/x text «FIRST»\x09\0\0\0
$ merge --out t.tab dev/x
refused udfsalvage: input 1: fault 6 Order at record 2\n

file dev/x text «FIRST»\0\0\x02\0
$ merge --out t.tab dev/x
refused udfsalvage: input 1: fault 3 BlockNumber at record 2\n

each 0 16
file dev/x cut «n» «TWO»
$ merge --out t.tab dev/x
refused udfsalvage: input 1: fault 4 Truncated at record 0\n

each 16 28
file dev/x cut «n» «TWO»
$ merge --out t.tab dev/x
refused udfsalvage: input 1: fault 4 Truncated at record 1\n

each 28 40
file dev/x cut «n» «TWO»
$ merge --out t.tab dev/x
refused udfsalvage: input 1: fault 4 Truncated at record 2\n
";

#[test]
fn faults_of_inputs_of_devices(rt: HostRuntime) -> Result<(), Fail> {
    check(&rt, rt.alloc(), FAULTS)
}
