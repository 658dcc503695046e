// NTP stamps. Seconds are counted from 1900-01-01, 2,208,988,800 before 1970, and a stamp has their last 32 bits.
use crate::answers::{LAST_COUNT, NO_COUNT, form_answers, form_ties, read_fault, show_fault};
use forms::ntp::Ntp;
use refusals::fault::{Cause, Fault};

// 2000-01-01 in seconds since 1900-01-01: 36,524 days.
const PIVOT: u64 = 3_155_673_600;

const KNOWN: [((u64, u64), u64); 7] = [
    // 2000-01-01, the first second of the pivot's era
    ((3_155_673_600, 0), 946_684_800_000_000_000),
    // 2017-01-01
    ((3_692_217_600, 0), 1_483_228_800_000_000_000),
    // half a second later
    ((3_692_217_600, 2_147_483_648), 1_483_228_800_500_000_000),
    // a nanosecond is 4.29 fractions
    ((3_692_217_600, 4), 1_483_228_800_000_000_001),
    // 2^32 - 5 fractions, the last that do not carry
    ((3_692_217_600, 4_294_967_291), 1_483_228_800_999_999_999),
    // 2036-02-07 06:28:16, when the seconds begin with 0 again
    ((0, 0), 2_085_978_496_000_000_000),
    // the last second of the era
    ((3_155_673_599, 0), 5_241_652_095_000_000_000),
];

// A fraction is read as the next whole nanosecond, which may be that of the next second.
fn reads() -> [((u64, u64), Result<u64, Fault>); 7] {
    [
        ((3_692_217_600, 1), Ok(1_483_228_800_000_000_001)),
        ((3_692_217_600, 5), Ok(1_483_228_800_000_000_002)),
        (
            (3_692_217_600, 4_294_967_292),
            Ok(1_483_228_801_000_000_000),
        ),
        (
            (3_692_217_600, 4_294_967_295),
            Ok(1_483_228_801_000_000_000),
        ),
        // the last fraction of the era carries out of its window
        (
            (3_155_673_599, 4_294_967_295),
            Ok(5_241_652_096_000_000_000),
        ),
        ((4_294_967_296, 0), Err(read_fault(Cause::Field, 0, 0))),
        ((0, 4_294_967_296), Err(read_fault(Cause::Field, 0, 0))),
    ]
}

fn shows() -> [(u64, Result<(u64, u64), Fault>); 5] {
    [
        (0, Err(show_fault(Cause::Window, 0, 0))),
        (
            946_684_799_999_999_999,
            Err(show_fault(Cause::Window, 0, 946_684_799_999_999_999)),
        ),
        (
            5_241_652_096_000_000_000,
            Err(show_fault(Cause::Window, 0, 5_241_652_096_000_000_000)),
        ),
        (LAST_COUNT, Err(show_fault(Cause::Window, 0, LAST_COUNT))),
        (NO_COUNT, Err(show_fault(Cause::NoCount, 0, NO_COUNT))),
    ]
}

#[test]
fn seconds_and_fractions_are_read_and_shown(rt: HostRuntime) {
    let ntp = Ntp::new(PIVOT);
    form_ties(&rt, &ntp, &KNOWN);
    form_answers(&rt, &ntp, &reads(), &shows());
}

// With the first and the last pivot, the first and the last second.
const FIRST: [((u64, u64), u64); 2] = [
    ((2_208_988_800, 0), 0),
    ((2_208_988_799, 0), 4_294_967_295_000_000_000),
];

const FINAL: [((u64, u64), u64); 2] = [
    ((1_605_032_704, 0), 3_691_011_200_000_000_000),
    ((1_605_032_703, 0), 7_985_978_495_000_000_000),
];

#[test]
fn a_pivot_outside_its_limits_becomes_the_nearest(rt: HostRuntime) {
    for pivot in [0, 2_208_988_799, 2_208_988_800] {
        form_ties(&rt, &Ntp::new(pivot), &FIRST);
    }
    for pivot in [5_900_000_000, 5_900_000_001, u64::MAX] {
        form_ties(&rt, &Ntp::new(pivot), &FINAL);
    }
}
