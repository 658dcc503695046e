// GPS stamps. Weeks are counted from 1980-01-06, and a stamp has the week's last ten bits.
use crate::answers::{LAST_COUNT, NO_COUNT, form_answers, form_ties, read_fault, show_fault};
use clocks::form::Form;
use forms::gps::Gps;
use refusals::fault::{Cause, Fault};

// Full weeks 1,800 to 2,823.
const PIVOT: u64 = 1_800;

// A week is 604,800 seconds.
const KNOWN: [((u64, u64), u64); 6] = [
    // full week 1,800 = 1,024 + 776
    ((776, 0), 1_088_640_000_000_000_000),
    // 2017-01-01, full week 1,930 = 1,024 + 906
    ((906, 0), 1_167_264_000_000_000_000),
    // its last millisecond
    ((906, 604_799_999), 1_167_868_799_999_000_000),
    // 2019-03-31, full week 2,047
    ((1_023, 0), 1_238_025_600_000_000_000),
    // the rollover of 2019-04-07, full week 2,048
    ((0, 0), 1_238_630_400_000_000_000),
    // full week 2,823 = 2,048 + 775
    ((775, 0), 1_707_350_400_000_000_000),
];

fn reads() -> [((u64, u64), Result<u64, Fault>); 2] {
    [
        ((1_024, 0), Err(read_fault(Cause::Field, 0, 0))),
        ((0, 604_800_000), Err(read_fault(Cause::Field, 0, 0))),
    ]
}

fn shows() -> [(u64, Result<(u64, u64), Fault>); 6] {
    [
        // what is below a millisecond is lost
        (1_167_264_000_000_999_999, Ok((906, 0))),
        (1_167_264_000_001_999_999, Ok((906, 1))),
        // the last tick of week 1,799, and the first of week 2,824
        (
            1_088_639_999_999_999_999,
            Err(show_fault(Cause::Window, 0, 1_088_639_999_999_999_999)),
        ),
        (
            1_707_955_200_000_000_000,
            Err(show_fault(Cause::Window, 0, 1_707_955_200_000_000_000)),
        ),
        (LAST_COUNT, Err(show_fault(Cause::Window, 0, LAST_COUNT))),
        (NO_COUNT, Err(show_fault(Cause::NoCount, 0, NO_COUNT))),
    ]
}

#[test]
fn weeks_and_milliseconds_are_read_and_shown(rt: HostRuntime) {
    let gps = Gps::new(PIVOT);
    form_ties(&rt, &gps, &KNOWN);
    form_answers(&rt, &gps, &reads(), &shows());
    assert_eq!(rt; gps.loss(), 999_999);
}

// With the last pivot, 10,000 = 9 * 1,024 + 784, the first and the last week.
const FINAL: [((u64, u64), u64); 2] = [
    ((784, 0), 6_048_000_000_000_000_000),
    ((783, 0), 6_666_710_400_000_000_000),
];

#[test]
fn a_pivot_too_large_becomes_the_largest(rt: HostRuntime) {
    for pivot in [10_000, 10_001, u64::MAX] {
        form_ties(&rt, &Gps::new(pivot), &FINAL);
    }
}
