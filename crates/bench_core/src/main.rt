// SPDX-License-Identifier: MIT OR Apache-2.0
//! What the benchmarks of the core measure: `bench_core crc [MEBIBYTES]`, `bench_core table [WORK [BLOCKS]]` or `bench_core places [MILLIONS]`; a
//! little of each if nothing is asked for.
#![tactic(auto)]

mod crc;
mod places;
mod table;

use std::env;

fn main(rt: HostRuntime) -> anyhow::Result<()> {
    let words = env::args(&rt)?;
    let mut words = words.skip(1);
    match words.next().as_deref() {
        Some("crc") => crc::measure(&rt, words.next()),
        Some("table") => {
            let work = words.next();
            table::measure(&rt, work, words.next())
        }
        Some("places") => places::measure(&rt, words.next()),
        _ => {
            crc::measure(&rt, None)?;
            table::measure(&rt, None, None)?;
            places::measure(&rt, None)
        }
    }
}
