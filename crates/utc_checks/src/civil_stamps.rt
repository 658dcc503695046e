// Civil stamps. A label is the day, counted from 1970-01-01, times 86,401 seconds, and the ticks since the day's start.
use civil_form::form::Civil;
use clocks::form::Form;
use leap::table::LeapTable;
use refusals::fault::{Cause, Fault, Way};

// A second in ticks.
const SECOND: u64 = 1_000_000_000;

// Stamps, and the labels that they are read as and shown from.
const KNOWN: [((u64, u64), u64); 13] = [
    // the first label of all, and the next
    ((1970_01_01, 0), 0),
    ((1970_01_01, 1), 1),
    // 23:59:60.5 of the day 17,166: 17,166 * 86,401 = 1,483,159,566 seconds, and 86,400.5
    ((2016_12_31, 235_960_500_000_000), 1_483_245_966_500_000_000),
    // the tick before that second, its last tick, and the tick after
    ((2016_12_31, 235_959_999_999_999), 1_483_245_965_999_999_999),
    ((2016_12_31, 235_960_999_999_999), 1_483_245_966_999_999_999),
    ((2017_01_01, 0), 1_483_245_967_000_000_000),
    // the leap days of the days 11,016 and 19,782: 11,016 * 86,401 = 951,793,416 and 19,782 * 86,401 = 1,709,184,582
    ((2000_02_29, 235_959_999_999_999), 951_879_815_999_999_999),
    // 12:34:56 is second 45,296
    ((2024_02_29, 123_456_123_456_789), 1_709_229_878_123_456_789),
    // every day has a label for 23:59:60, also one that has no such second
    ((2024_02_29, 235_960_000_000_000), 1_709_270_982_000_000_000),
    // no leap day in 2100: the days 47,540 and 47,541
    ((2100_02_28, 0), 4_107_503_540_000_000_000),
    ((2100_03_01, 0), 4_107_589_941_000_000_000),
    // the last day, 84,005, from its first label to its last
    ((2199_12_31, 0), 7_258_116_005_000_000_000),
    ((2199_12_31, 235_960_999_999_999), 7_258_202_405_999_999_999),
];

// hi that is no date: 1969 and 2200, months 0 and 13, days that the month does not have, and numbers too large for a year
const NO_DATES: [u64; 14] = [
    0,
    1969_12_31,
    2200_01_01,
    2024_00_01,
    2024_13_01,
    2024_01_00,
    2024_01_32,
    2024_04_31,
    2023_02_29,
    2024_02_30,
    2100_02_29,
    // the year 65,536 + 2,024, and the year 2^32 + 2,024
    67_560_01_01,
    4_294_969_320_01_01,
    u64::MAX,
];

// hhmmss that is no time: hour 24, minute 60, second 60 before the last minute, and second 61
const NO_TIMES: [u64; 9] = [
    24_00_00, 12_60_00, 23_60_00, 00_00_60, 22_59_60, 23_58_60, 23_59_61, 23_59_99, 100_00_00,
];

fn wrong_field() -> Fault {
    Fault {
        cause: Cause::Field,
        rung: 0,
        way: Way::Reading,
        count: 0,
    }
}

fn not_shown(cause: Cause, count: u64) -> Fault {
    Fault {
        cause,
        rung: 0,
        way: Way::Showing,
        count,
    }
}

#[test]
fn dates_and_times_are_read_and_shown(rt: HostRuntime) {
    let table = LeapTable::starting();
    for (stamp, label) in KNOWN {
        assert_eq!(rt; Civil.read(&table, stamp), Ok(label));
        assert_eq!(rt; Civil.show(&table, label), Ok(stamp));
    }
    assert_eq!(rt; Civil.loss(), 0);
}

#[test]
fn what_is_no_date_is_refused(rt: HostRuntime) {
    let table = LeapTable::starting();
    for date in NO_DATES {
        assert_eq!(rt; Civil.read(&table, (date, 0)), Err(wrong_field()));
    }
}

#[test]
fn what_is_no_time_is_refused(rt: HostRuntime) {
    let table = LeapTable::starting();
    for time in NO_TIMES {
        assert_eq!(rt;
            Civil.read(&table, (2016_12_31, time * SECOND)),
            Err(wrong_field())
        );
    }
    assert_eq!(rt;
        Civil.read(&table, (2016_12_31, u64::MAX)),
        Err(wrong_field())
    );
}

#[test]
fn labels_after_the_last_day_are_not_shown(rt: HostRuntime) {
    let table = LeapTable::starting();
    let late = [
        // the first label of the day 84,006, and the last count
        (7_258_202_406_000_000_000, Cause::Window),
        (7_999_999_999_999_999_999, Cause::Window),
        (8_000_000_000_000_000_000, Cause::NoCount),
        (u64::MAX, Cause::NoCount),
    ];
    for (count, cause) in late {
        assert_eq!(rt; Civil.show(&table, count), Err(not_shown(cause, count)));
    }
}
