// TAI, offsets and coarse clocks.
use crate::answers::{LAST_COUNT, NO_COUNT, read_fault, rung_answers, show_fault};
use clocks::rung::Rung;
use refusals::fault::{Cause, Fault};
use rungs::coarse::Coarse;
use rungs::offset::Offset;
use rungs::tai::Tai;

const TAI: [(u64, Result<u64, Fault>); 3] = [
    (0, Ok(0)),
    (1_483_228_837_000_000_000, Ok(1_483_228_837_000_000_000)),
    (LAST_COUNT, Ok(LAST_COUNT)),
];

// What is no count is refused 9 before all else. No multiple of 1,000 is among these.
fn no_counts_read() -> [(u64, Result<u64, Fault>); 2] {
    [
        (
            8_000_000_000_000_000_001,
            Err(read_fault(Cause::NoCount, 0, 8_000_000_000_000_000_001)),
        ),
        (u64::MAX, Err(read_fault(Cause::NoCount, 0, u64::MAX))),
    ]
}

fn no_counts_shown() -> [(u64, Result<u64, Fault>); 2] {
    [
        (NO_COUNT, Err(show_fault(Cause::NoCount, 0, NO_COUNT))),
        (u64::MAX, Err(show_fault(Cause::NoCount, 0, u64::MAX))),
    ]
}

#[test]
fn what_is_no_count_is_refused_by_all(rt: HostRuntime) {
    rung_answers(&rt, &Tai, &TAI, &TAI);
    rung_answers(&rt, &Tai, &no_counts_read(), &no_counts_shown());
    rung_answers(&rt, &Offset::new(37), &no_counts_read(), &no_counts_shown());
    rung_answers(
        &rt,
        &Coarse::new(1_000),
        &no_counts_read(),
        &no_counts_shown(),
    );
}

const AFTER_37: u64 = 7_999_999_999_999_999_963;

fn read_37() -> [(u64, Result<u64, Fault>); 4] {
    [
        (0, Ok(37)),
        (63, Ok(100)),
        (7_999_999_999_999_999_962, Ok(LAST_COUNT)),
        (AFTER_37, Err(read_fault(Cause::NoCount, 0, AFTER_37))),
    ]
}

fn shown_37() -> [(u64, Result<u64, Fault>); 4] {
    [
        (37, Ok(0)),
        (100, Ok(63)),
        (LAST_COUNT, Ok(7_999_999_999_999_999_962)),
        (36, Err(show_fault(Cause::NoCount, 0, 36))),
    ]
}

// With the largest offset only one count is read, and only one is shown.
fn read_largest() -> [(u64, Result<u64, Fault>); 2] {
    [
        (0, Ok(LAST_COUNT)),
        (1, Err(read_fault(Cause::NoCount, 0, 1))),
    ]
}

fn shown_largest() -> [(u64, Result<u64, Fault>); 2] {
    [
        (LAST_COUNT, Ok(0)),
        (AFTER_37, Err(show_fault(Cause::NoCount, 0, AFTER_37))),
    ]
}

#[test]
fn an_offset_is_added_and_taken_off(rt: HostRuntime) {
    rung_answers(&rt, &Offset::new(37), &read_37(), &shown_37());
    for by in [LAST_COUNT, NO_COUNT, u64::MAX] {
        rung_answers(&rt, &Offset::new(by), &read_largest(), &shown_largest());
    }
}

fn read_1000() -> [(u64, Result<u64, Fault>); 4] {
    [
        (0, Ok(0)),
        (1_000, Ok(1_000)),
        (999, Err(read_fault(Cause::NotMultiple, 0, 999))),
        (
            LAST_COUNT,
            Err(read_fault(Cause::NotMultiple, 0, LAST_COUNT)),
        ),
    ]
}

const SHOWN_1000: [(u64, Result<u64, Fault>); 4] = [
    (999, Ok(0)),
    (1_000, Ok(1_000)),
    (2_999, Ok(2_000)),
    (LAST_COUNT, Ok(7_999_999_999_999_999_000)),
];

fn read_longest() -> [(u64, Result<u64, Fault>); 2] {
    [
        (10_000_000_000_000, Ok(10_000_000_000_000)),
        (
            1_000_000_000_000,
            Err(read_fault(Cause::NotMultiple, 0, 1_000_000_000_000)),
        ),
    ]
}

const SHOWN_LONGEST: [(u64, Result<u64, Fault>); 1] = [(
    19_999_999_999_999,
    Ok(10_000_000_000_000),
)];

// A step of 0 becomes 1, which loses nothing, and one above 10^13 becomes that.
#[test]
fn a_coarse_clock_reads_multiples_and_shows_the_last(rt: HostRuntime) {
    rung_answers(&rt, &Coarse::new(1_000), &read_1000(), &SHOWN_1000);
    rung_answers(&rt, &Coarse::new(0), &TAI, &TAI);
    for step in [10_000_000_000_000, 100_000_000_000_000, u64::MAX] {
        rung_answers(&rt, &Coarse::new(step), &read_longest(), &SHOWN_LONGEST);
    }
}

// Up to 10^12.
#[test]
fn losses_and_spreads_are_told_up_to_their_limit(rt: HostRuntime) {
    for (step, loss) in [
        (0, 0),
        (1, 0),
        (1_000, 999),
        (1_000_000_000_000, 999_999_999_999),
        (1_000_000_000_002, 1_000_000_000_000),
        (u64::MAX, 1_000_000_000_000),
    ] {
        assert_eq!(rt; Coarse::new(step).loss(), loss);
    }
    for (length, spread) in [
        (0, 0),
        (999_999_999_999, 999_999_999_999),
        (1_000_000_000_001, 1_000_000_000_000),
        (u64::MAX, 1_000_000_000_000),
    ] {
        assert_eq!(rt; Tai.spread(length), spread);
    }
}
