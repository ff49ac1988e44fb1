//! Scenarios that a seed gives.

use super::*;

/// A seed and the line of its drill.
const DRILLS: [(&str, &str); 5] = [
    (
        "1",
        "drill 1 events 1791 polls 24 agreed 24 replaced 5 alarms 0\n",
    ),
    (
        "2",
        "drill 2 events 1788 polls 24 agreed 24 replaced 4 alarms 0\n",
    ),
    (
        "3",
        "drill 3 events 1785 polls 24 agreed 24 replaced 3 alarms 0\n",
    ),
    (
        "5",
        "drill 5 events 1782 polls 24 agreed 24 replaced 2 alarms 0\n",
    ),
    (
        "1",
        "drill 1 events 1791 polls 24 agreed 24 replaced 5 alarms 0\n",
    ),
];

/// The source of a drill fails at the first read.
#[test]
fn drills(rt: HostRuntime) -> Result<(), Fail> {
    for &(seed, line) in DRILLS.iter() {
        let found = replayed(rt.alloc(), &rt, &["drill", seed], &[], &[1], &[])?;
        expect(&rt, &found, Done, line.as_bytes(), &seed);
    }
    Ok(())
}
