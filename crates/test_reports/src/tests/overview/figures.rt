//! Numbers, sizes and percentages.

use crate::tests::assert_same;
use std::test::Fail;
use udfs_overview::{push_grouped, push_percent, push_size};

#[test]
fn numbers(rt: HostRuntime) -> Result<(), Fail> {
    static CASES: [(u128, &str); 9] = [
        (0, "0"),
        (7, "7"),
        (999, "999"),
        (1_000, "1,000"),
        (5_120, "5,120"),
        (100_020, "100,020"),
        (1_000_000, "1,000,000"),
        (1_234_567, "1,234,567"),
        (
            u128::MAX,
            "340,282,366,920,938,463,463,374,607,431,768,211,455",
        ),
    ];
    for &(number, expected) in &CASES {
        let mut text = String::new(rt.alloc());
        push_grouped(number, &mut text)?;
        assert_same(&rt, text.as_str(), expected);
    }
    Ok(())
}

#[test]
fn sizes(rt: HostRuntime) -> Result<(), Fail> {
    static CASES: [(u128, &str); 18] = [
        (0, "0 B"),
        (1, "1 B"),
        (999, "999 B"),
        (1_000, "1.0 kB"),
        // 1.049 and 1.05
        (1_049, "1.0 kB"),
        (1_050, "1.1 kB"),
        (888_800, "888.8 kB"),
        // 999.949 kB, and 999.95 kB, which would be 1000.0 kB
        (999_949, "999.9 kB"),
        (999_950, "1.0 MB"),
        (1_250_000, "1.3 MB"),
        // 5,120 blocks of 2,048 bytes
        (10_485_760, "10.5 MB"),
        (4_700_372_992, "4.7 GB"),
        (18_446_744_073_709_551_615, "18.4 EB"),
        (2_000_000_000_000, "2.0 TB"),
        (3_000_000_000_000_000, "3.0 PB"),
        (999_949_999_999_999_999_999_999, "999.9 ZB"),
        // 65,536 sizes of 2^64 - 1
        (65_536 * 18_446_744_073_709_551_615, "1.2 YB"),
        (u128::MAX, "340282366920938.5 YB"),
    ];
    for &(size, expected) in &CASES {
        let mut text = String::new(rt.alloc());
        push_size(size, &mut text)?;
        assert_same(&rt, text.as_str(), expected);
    }
    Ok(())
}

#[test]
fn percentages(rt: HostRuntime) -> Result<(), Fail> {
    static CASES: [(u128, u128, &str); 16] = [
        (41_000, 774_500, "5.3 %"),
        (8_200, 180_000, "4.6 %"),
        (0, 5, "0.0 %"),
        (5, 5, "100.0 %"),
        (1, 3, "33.3 %"),
        (2, 3, "66.7 %"),
        (1, 8, "12.5 %"),
        // 6.25, 0.05 and 0.0499
        (1, 16, "6.3 %"),
        (1, 2_000, "0.1 %"),
        (499, 1_000_000, "0.0 %"),
        // 99.945 and 99.95
        (19_989, 20_000, "99.9 %"),
        (1_999, 2_000, "100.0 %"),
        (7, 2, "350.0 %"),
        (1, u128::MAX, "0.0 %"),
        (u128::MAX - 1, u128::MAX, "100.0 %"),
        (
            u128::MAX,
            1,
            "34028236692093846346337460743176821145500.0 %",
        ),
    ];
    for &(part, whole, expected) in &CASES {
        let mut text = String::new(rt.alloc());
        push_percent(part, whole, &mut text)?;
        assert_same(&rt, text.as_str(), expected);
    }
    Ok(())
}
