// POSIX stamps: seconds and nanoseconds.
use crate::answers::{LAST_COUNT, NO_COUNT, form_answers, form_ties, read_fault, show_fault};
use forms::posix::Posix;
use refusals::fault::{Cause, Fault};

const KNOWN: [((u64, u64), u64); 5] = [
    ((0, 0), 0),
    ((0, 999_999_999), 999_999_999),
    ((1, 0), 1_000_000_000),
    ((1_483_228_800, 5), 1_483_228_800_000_000_005),
    ((7_999_999_999, 999_999_999), LAST_COUNT),
];

fn reads() -> [((u64, u64), Result<u64, Fault>); 3] {
    [
        ((8_000_000_000, 0), Err(read_fault(Cause::Field, 0, 0))),
        ((0, 1_000_000_000), Err(read_fault(Cause::Field, 0, 0))),
        ((u64::MAX, u64::MAX), Err(read_fault(Cause::Field, 0, 0))),
    ]
}

fn shows() -> [(u64, Result<(u64, u64), Fault>); 2] {
    [
        (NO_COUNT, Err(show_fault(Cause::NoCount, 0, NO_COUNT))),
        (u64::MAX, Err(show_fault(Cause::NoCount, 0, u64::MAX))),
    ]
}

#[test]
fn seconds_and_nanoseconds_are_read_and_shown(rt: HostRuntime) {
    form_ties(&rt, &Posix, &KNOWN);
    form_answers(&rt, &Posix, &reads(), &shows());
}
