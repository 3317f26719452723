//! Lines of the summary, of figures that no sample volume has.

use crate::tests::assert_same;
use std::test::Fail;
use udfs_overview::{
    DiscTally, LostTally, Tally, push_disc, push_files, push_left_out, push_lost, push_others,
    push_spares, push_streams,
};

/// The line of files that are left out, and none where there are none.
#[test]
fn the_line_of_what_is_left_out(rt: HostRuntime) -> Result<(), Fail> {
    let alloc = rt.alloc();
    let mut text = String::new(alloc);
    push_left_out(alloc, &mut text, &[])?;
    assert_same(&rt, text.as_str(), "");
    push_left_out(alloc, &mut text, &[249])?;
    push_left_out(alloc, &mut text, &[249, 0, 249])?;
    push_left_out(alloc, &mut text, &[6, 9, 10])?;
    assert_same(
        &rt,
        text.as_str(),
        "Other      1 file of a type that is not written (249, real-time): --profile wide writes it\nOther      3 files of types that are not written (0, not specified; 249, real-time): --profile wide writes them\nOther      3 files of types that are not written (6, block device; 9, FIFO; 10, socket)\n",
    );
    Ok(())
}

#[test]
fn lines(rt: HostRuntime) -> Result<(), Fail> {
    let tally = Tally {
        whole_files: 287,
        whole_bytes: 888_800,
        torn_files: 15,
        torn_bytes: 1_700_000,
        lost_bytes: 149_700,
        disputed: 0,
        unread: 30,
        whole_folders: 51,
        torn_folders: 1,
        others: 7,
        left_out: 0,
        faulty: 2,
        loops: 0,
    };
    let disc = DiscTally {
        known: 4639,
        not_known: 481,
        conflicts: 0,
        needed: 108,
        needed_in_conflict: 0,
        runs: 43,
    };
    let lost = LostTally {
        too_many: false,
        folders: 51,
        whole_files: 414,
        whole_bytes: 89_100_000,
        torn_files: 3,
        files: 12,
        with_data: 10,
        deleted: 1301,
    };
    let mut text = String::new(rt.alloc());
    push_files(&mut text, &tally)?;
    push_others(&mut text, &tally)?;
    push_lost(&mut text, &lost)?;
    push_disc(&mut text, &disc)?;
    assert_same(
        &rt,
        text.as_str(),
        "Files      287 whole (888.8 kB)\n           15 torn (at least 149.7 kB of 1.7 MB lost)\n           30 not yet known: files or whole folders\nOther      7 links and devices\nFaults     2 with faults\nLost       51 folders with 414 files whole (89.1 MB), 3 torn\n           12 files without a folder\n           what is whole of these: extract --lost lost\nDeleted    1,301 entries\nDisc       4,639 known   481 not known   0 in conflict\n           108 of these are needed, in 43 places\n",
    );
    Ok(())
}

/// A line whose figures are all 0 is left out, but for those of the files and of the blocks.
#[test]
fn lines_of_nothing(rt: HostRuntime) -> Result<(), Fail> {
    let tally = Tally {
        whole_files: 0,
        whole_bytes: 0,
        torn_files: 0,
        torn_bytes: 0,
        lost_bytes: 0,
        disputed: 0,
        unread: 0,
        whole_folders: 0,
        torn_folders: 0,
        others: 0,
        left_out: 0,
        faulty: 0,
        loops: 0,
    };
    let disc = DiscTally {
        known: 0,
        not_known: 5120,
        conflicts: 0,
        needed: 0,
        needed_in_conflict: 0,
        runs: 0,
    };
    let lost = LostTally {
        too_many: false,
        folders: 0,
        whole_files: 0,
        whole_bytes: 0,
        torn_files: 0,
        files: 0,
        with_data: 0,
        deleted: 0,
    };
    let mut text = String::new(rt.alloc());
    push_files(&mut text, &tally)?;
    push_others(&mut text, &tally)?;
    push_lost(&mut text, &lost)?;
    push_disc(&mut text, &disc)?;
    assert_same(
        &rt,
        text.as_str(),
        "Files      0 whole (0 B)\nDisc       0 known   5,120 not known   0 in conflict\n",
    );
    Ok(())
}

/// No command is named that would write no file, and where there is too much to follow nothing is counted.
#[test]
fn lines_of_what_is_lost(rt: HostRuntime) -> Result<(), Fail> {
    let none = LostTally {
        too_many: false,
        folders: 0,
        whole_files: 0,
        whole_bytes: 0,
        torn_files: 0,
        files: 0,
        with_data: 0,
        deleted: 0,
    };
    let cases = [
        (
            LostTally {
                folders: 1,
                deleted: 1,
                ..none
            },
            "Lost       1 folder with 0 files whole (0 B)\nDeleted    1 entry\n",
        ),
        (
            LostTally {
                folders: 2,
                whole_files: 1,
                whole_bytes: 999,
                ..none
            },
            "Lost       2 folders with 1 file whole (999 B)\n           what is whole of these: extract --lost lost\n",
        ),
        (
            LostTally {
                files: 1,
                with_data: 1,
                ..none
            },
            "Lost       1 file without a folder\n           what is whole of these: extract --lost lost\n",
        ),
        (
            LostTally { files: 2, ..none },
            "Lost       2 files without a folder\n",
        ),
        (
            LostTally {
                too_many: true,
                deleted: 2,
                ..none
            },
            "Lost       too many folders and files to follow\nDeleted    2 entries\n",
        ),
    ];
    for (tally, expected) in cases {
        let mut text = String::new(rt.alloc());
        push_lost(&mut text, &tally)?;
        assert_same(&rt, text.as_str(), expected);
    }
    Ok(())
}

#[test]
fn lines_of_streams_and_of_sparing_copies(rt: HostRuntime) -> Result<(), Fail> {
    let mut text = String::new(rt.alloc());
    push_streams(&mut text, 0)?;
    push_spares(&mut text, false)?;
    assert_same(&rt, text.as_str(), "");
    push_streams(&mut text, 1234)?;
    push_spares(&mut text, true)?;
    assert_same(
        &rt,
        text.as_str(),
        "Streams    1,234 files with named streams, which are ignored\nSpares     sparing copies disagree: the volume is not lawful, and files in spared packets may be old\n",
    );
    Ok(())
}
