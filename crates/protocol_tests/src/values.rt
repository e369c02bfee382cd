//! Counts.

use wire_io::plain_values::raised;

/// A count, and the next one.
static COUNTS: [(u64, u64); 4] = [
    (0, 1),
    (41, 42),
    (u64::MAX - 1, u64::MAX),
    (u64::MAX, u64::MAX),
];

/// The next count. It promises nothing, so that the proof of the test goes by what the test asks.
fn next(count: u64) -> u64 {
    raised(count)
}

#[test]
fn a_count_rises_by_one_and_stays_at_its_last_value(rt: HostRuntime) {
    for (count, want) in &COUNTS {
        assert_eq!(rt; next(*count), *want, "at {count}");
    }
}
