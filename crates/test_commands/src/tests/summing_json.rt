//! What `summary --json` prints. The file A has 5,000 bytes in the blocks 277 to 279, and B two.

use crate::tests::check;
use std::test::Fail;

static SCRIPT: &str = r#"
= a_summary_as_an_object
# Of a volume that is whole, one of which a file is torn, one that does not open, and one that the strict rules refuse.

but
$ summary --last 600 --json disc.tab
done 0 {"all_whole":true,"at_least":false,"disc":{"blocks":601,"conflicts":0,"known":601,"needed":0,"not_known":0,"places":0},"files":{"disputed":0,"left_out":0,"lost_bytes":0,"torn":0,"torn_bytes":0,"whole":2,"whole_bytes":5002},"folders":{"torn":0,"whole":1},"guarantee":{"not_known":0,"state":"holds","text":"The guarantee holds: nothing on this disc contradicts the standard"},"label":"TEST","lost":{"deleted":0,"files_without_folder":0,"folders":0,"too_many":false,"torn":0,"whole":0,"whole_bytes":0},"others":{"faulty":0,"links_and_devices":0,"loops":0,"unread":0},"profile":"strict","remarks":{"moved_folders":0,"spares_disagree":false,"with_streams":0},"revision":"1.50","state":"ok","unnamed":{"empty":0,"with_data":0}}\n

but 277 279
$ summary --size 1230848 --json disc.tab
done 1 {"all_whole":false,"at_least":false,"disc":{"blocks":601,"conflicts":0,"known":599,"needed":2,"not_known":2,"places":2},"files":{"disputed":0,"left_out":0,"lost_bytes":2952,"torn":1,"torn_bytes":5000,"whole":1,"whole_bytes":2},"folders":{"torn":0,"whole":1},"guarantee":{"not_known":0,"state":"holds","text":"The guarantee holds: nothing on this disc contradicts the standard"},"label":"TEST","lost":{"deleted":0,"files_without_folder":0,"folders":0,"too_many":false,"torn":0,"whole":0,"whole_bytes":0},"others":{"faulty":0,"links_and_devices":0,"loops":0,"unread":0},"profile":"strict","remarks":{"moved_folders":0,"spares_disagree":false,"with_streams":0},"revision":"1.50","state":"ok","unnamed":{"empty":0,"with_data":0}}\n

but 256 344 600
$ summary --last 600 --json disc.tab
done 1 {"disc":{"blocks":601,"conflicts":0,"known":598,"needed":3,"not_known":3,"places":3},"guarantee":{"not_known":3,"state":"open","text":"Nothing seen contradicts the standard; 3 unknown blocks could"},"lost":{"deleted":0,"files_without_folder":0,"folders":0,"too_many":false,"torn":0,"whole":0,"whole_bytes":0},"profile":"strict","state":"holes"}\n

write 32 240 \0\x02
write 48 240 \0\x02
but
$ summary --last 600 --json disc.tab
done 1 {"disc":{"blocks":601,"conflicts":0,"known":601,"needed":0,"not_known":0,"places":0},"fault":"Domain","guarantee":{"not_known":0,"state":"fails","text":"The guarantee does not hold: the volume does not open: the rules do not accept this UDF revision"},"lost":{"deleted":0,"files_without_folder":0,"folders":0,"too_many":false,"torn":0,"whole":0,"whole_bytes":0},"profile":"strict","state":"fault"}\n

= what_is_lost_in_an_object
# The root's body is not read. The folder at 10, of link count 1, has A, of link count 1; B is deleted.
directory 1 D=10
directory 10 A=3
write 282 48 \x01
write 275 48 \x01

but 274
$ summary --last 600 --json disc.tab
out-has "label":"TEST","lost":{"deleted":1,"files_without_folder":0,"folders":1,"too_many":false,"torn":0,"whole":1,"whole_bytes":5000},"others":
"#;

#[test]
fn summaries_as_objects(rt: HostRuntime) -> Result<(), Fail> {
    check(&rt, rt.alloc(), SCRIPT)
}
