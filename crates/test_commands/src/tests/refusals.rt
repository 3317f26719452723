//! Why `merge` fails, which of several faults it reports, and what it leaves.

use crate::tests::check;
use std::test::Fail;

static WHAT_REFUSES_A_MERGE: &str = r"
* files
passes
file old.tab text UDFTABL1old
file cut.rd front 4119 300:61 301:62
file long.rd longer 300:61 301:62
file high.rd reading 4194304:61
file other.rd text UDFREADX\0\x08\0\0\0\0\0\0
file small.rd text UDFREAD1\0\x02\0\0\0\0\0\0

= a_fault_is_told_and_leaves_the_old_output
* files
then has old.tab text UDFTABL1old

$ merge --out old.tab cut.rd
refused udfsalvage: input 1: fault 4 Truncated at record 2\n

$ merge --out old.tab a.rd long.rd
refused udfsalvage: input 2: fault 5 Trailing at record 2\n

$ merge --out old.tab a.rd b.rd high.rd
refused udfsalvage: input 3: fault 3 BlockNumber at record 1\n

$ merge --out old.tab other.rd
refused udfsalvage: input 1: fault 1 Magic at record 0\n

$ merge --out old.tab small.rd
refused udfsalvage: input 1: fault 2 BlockSize at record 0\n

= a_refused_output_that_is_an_input_stays
* files

$ merge --out a.rd a.rd cut.rd
refused udfsalvage: input 2: fault 4 Truncated at record 2\n
has a.rd reading 300:61

= the_first_refusal_in_order_is_told
# All inputs are opened before one is judged, and the output is made last.
* files
then has old.tab text UDFTABL1old

$ merge --out old.tab cut.rd absent.rd
refused udfsalvage: cannot open input 2\n

$ merge --out old.tab absent.rd cut.rd
refused udfsalvage: cannot open input 1\n

$ merge --out old.tab a.rd absent.rd missing.rd
refused udfsalvage: cannot open input 2\n

$ merge --out old.tab a.rd high.rd cut.rd
refused udfsalvage: input 2: fault 3 BlockNumber at record 1\n

$ merge --out none/t.tab a.rd cut.rd
refused udfsalvage: input 2: fault 4 Truncated at record 2\n

$ merge --out none/t.tab absent.rd
refused udfsalvage: cannot open input 1\n

$ merge --out none/t.tab a.rd b.rd
refused udfsalvage: cannot write output\n

= a_faulty_table_file_is_refused
passes
file old.tab text UDFTABL1old
then has old.tab text UDFTABL1old

file t.tab text UDFTABL1\0\x08\0\0\x02\0\0\0\x05\0\0\0\x02\x05\0\0\0\x02
$ merge --out old.tab a.rd t.tab
refused udfsalvage: input 2: fault 6 Order at record 2\n

file t.tab text UDFTABL1\0\x08\0\0\x02\0\0\0\x05\0\0\0\x02\x04\0\0\0\x02
$ merge --out old.tab a.rd t.tab
refused udfsalvage: input 2: fault 6 Order at record 2\n

file t.tab text UDFTABL1\0\x08\0\0\x02\0\0\0\x05\0\0\0\x02\0\0@\0\x02
$ merge --out old.tab a.rd t.tab
refused udfsalvage: input 2: fault 3 BlockNumber at record 2\n

file t.tab text UDFTABL1\0\x08\0\0\x02\0\0\0\x05\0\0\0\x02\x06\0\0\0\x03
$ merge --out old.tab a.rd t.tab
refused udfsalvage: input 2: fault 7 State at record 2\n

file t.tab text UDFTABL1\0\x08\0\0\x02\0\0\0\x05\0\0\0\x02\x06\0\0\0\x01
$ merge --out old.tab a.rd t.tab
refused udfsalvage: input 2: fault 4 Truncated at record 2\n

file x.tab text UDFTABLX
$ merge --out old.tab x.tab
refused udfsalvage: input 1: fault 1 Magic at record 0\n

file s.tab text UDFTABL1\0\x08\0\0\x01\0\0\0\x05\0\0\0\x03
$ merge --out old.tab s.tab
refused udfsalvage: input 1: fault 7 State at record 1\n
";

#[test]
fn what_refuses_a_merge(rt: HostRuntime) -> Result<(), Fail> {
    check(&rt, rt.alloc(), WHAT_REFUSES_A_MERGE)
}

static A_CUT_AT_EACH_LENGTH_NAMES_ITS_RECORD: &str = r"
= a_cut_at_each_length_names_its_record, 1
# The two-record reading, cut at each length of its 4,120 bytes.
file whole.rd reading 300:61 301:62

$ merge --out t.tab whole.rd
length whole.rd 4120
silent

= a_cut_at_each_length_names_its_record, 2

each 0 16
file cut.rd front «n» 300:61 301:62
$ merge --out t.tab cut.rd
refused udfsalvage: input 1: fault 4 Truncated at record 0\n

each 16 2068
file cut.rd front «n» 300:61 301:62
$ merge --out t.tab cut.rd
refused udfsalvage: input 1: fault 4 Truncated at record 1\n

each 2068 4120
file cut.rd front «n» 300:61 301:62
$ merge --out t.tab cut.rd
refused udfsalvage: input 1: fault 4 Truncated at record 2\n
";

#[test]
fn a_cut_at_each_length_names_its_record(rt: HostRuntime) -> Result<(), Fail> {
    check(&rt, rt.alloc(), A_CUT_AT_EACH_LENGTH_NAMES_ITS_RECORD)
}
