// Days without the second that a stamp names, a deleted second, and the end of what the table knows.
use crate::answers::{
    CIVIL, DELETED, POSIX, SMEARED, at, is_not_read, is_not_shown, read_refusal, show_refusal,
    ticks, ties,
};
use leap::bulletin::Bulletin;
use leap::table::LeapTable;
use refusals::fault::Cause;
use std::test::Fail;

// Days that had no inserted second, and their numbers, counted from 1970-01-01.
const PLAIN_DAYS: [(u64, u64); 7] = [
    (1972_01_01, 730),
    (1972_06_29, 910),
    (2000_02_29, 11_016),
    (2015_12_31, 16_800),
    (2016_12_30, 17_165),
    (2017_01_01, 17_167),
    (2024_02_29, 19_782),
];

#[test]
fn days_without_an_inserted_second_refuse_it(rt: HostRuntime) {
    let table = LeapTable::starting();
    for (date, day) in PLAIN_DAYS {
        // the label of the second 86,400 of the day
        let label = ticks(day.saturating_mul(86_401).saturating_add(86_400));
        let refusal = read_refusal(Cause::NoSuchSecond, 1, label);
        is_not_read(&rt, &table, CIVIL, (date, at(23_59_60)), refusal);
    }
}

// The day 20,088 is 2024-12-31, and 20,089 * 86,400 = 1,735,689,600. TAI is 37 seconds ahead before its end, and 36 after.
#[test]
fn a_deleted_second_is_left_out(rt: HostRuntime) -> Result<(), Fail> {
    let mut table = LeapTable::starting();
    table.renew(DELETED)?;
    // 23:59:58, and one second later 00:00:00: 1,735,689,598 + 37 and 1,735,689,600 + 36
    let (last, first) = (ticks(1_735_689_635), ticks(1_735_689_636));
    ties(&rt, &table, CIVIL, (2024_12_31, at(23_59_58)), last);
    ties(&rt, &table, CIVIL, (2025_01_01, 0), first);
    ties(&rt, &table, POSIX, (1_735_689_598, 0), last);
    ties(&rt, &table, POSIX, (1_735_689_600, 0), first);
    // the label of 23:59:59: 20,088 * 86,401 = 1,735,623,288 seconds, and 86,399
    let label = ticks(1_735_709_687);
    let civil = read_refusal(Cause::NoSuchSecond, 1, label);
    is_not_read(&rt, &table, CIVIL, (2024_12_31, at(23_59_59)), civil);
    let posix = read_refusal(Cause::NoSuchSecond, 2, label);
    is_not_read(&rt, &table, POSIX, (1_735_689_599, 0), posix);
    // 23:59:60 is missing too
    let next = read_refusal(Cause::NoSuchSecond, 1, ticks(1_735_709_688));
    is_not_read(&rt, &table, CIVIL, (2024_12_31, at(23_59_60)), next);
    Ok(())
}

// The starting table expires with the day 20,000, which is 2024-10-04: 20,000 * 86,400 = 1,728,000,000.
#[test]
fn the_last_nanosecond_before_the_expiry_is_read(rt: HostRuntime) {
    let table = LeapTable::starting();
    let last = 1_728_000_036_999_999_999;
    let civil = (2024_10_03, 235_959_999_999_999);
    ties(&rt, &table, CIVIL, civil, last);
    ties(&rt, &table, POSIX, (1_727_999_999, 999_999_999), last);
    // smeared time has steps of a thousand ticks
    let step = (1_727_999_999, 999_999_000);
    ties(&rt, &table, SMEARED, step, 1_728_000_036_999_999_000);
}

#[test]
fn the_first_nanosecond_from_the_expiry_on_is_refused(rt: HostRuntime) {
    let table = LeapTable::starting();
    // the label of the day's start: 20,000 * 86,401
    let label = ticks(1_728_020_000);
    let civil = read_refusal(Cause::Expired, 1, label);
    is_not_read(&rt, &table, CIVIL, (2024_10_04, 0), civil);
    let posix = read_refusal(Cause::Expired, 2, label);
    is_not_read(&rt, &table, POSIX, (1_728_000_000, 0), posix);
    let smeared = read_refusal(Cause::Expired, 2, ticks(1_728_000_000));
    is_not_read(&rt, &table, SMEARED, (1_728_000_000, 0), smeared);
    // 37 seconds more by TAI
    let tick = ticks(1_728_000_037);
    for (feed, rung) in [(CIVIL, 1), (POSIX, 2), (SMEARED, 2)] {
        is_not_shown(
            &rt,
            &table,
            feed,
            tick,
            show_refusal(Cause::Expired, rung, tick),
        );
    }
}

// The table begins with the day 730, which is 1972-01-01: 730 * 86,400 = 63,072,000, and TAI is 10 seconds ahead.
#[test]
fn the_last_nanosecond_before_the_table_is_refused(rt: HostRuntime) {
    let table = LeapTable::starting();
    ties(&rt, &table, CIVIL, (1972_01_01, 0), ticks(63_072_010));
    // 23:59:59.999999999 on the day 729: 729 * 86,401 = 62,986,329 seconds, and nearly 86,400
    let label = 63_072_728_999_999_999;
    let early = (1971_12_31, 235_959_999_999_999);
    let civil = read_refusal(Cause::BeforeTable, 1, label);
    is_not_read(&rt, &table, CIVIL, early, civil);
    let posix = read_refusal(Cause::BeforeTable, 2, label);
    is_not_read(&rt, &table, POSIX, (63_071_999, 999_999_999), posix);
    let tick = 63_072_009_999_999_999;
    for (feed, rung) in [(CIVIL, 1), (POSIX, 2), (SMEARED, 2)] {
        let refusal = show_refusal(Cause::BeforeTable, rung, tick);
        is_not_shown(&rt, &table, feed, tick, refusal);
    }
}

// Once a bulletin has told more, what was refused is read: no second is inserted or deleted up to the day 20,270.
#[test]
fn a_bulletin_makes_later_stamps_known(rt: HostRuntime) -> Result<(), Fail> {
    let mut table = LeapTable::starting();
    table.renew(Bulletin {
        change: 0,
        day: 0,
        expiry: 20_270,
    })?;
    ties(&rt, &table, CIVIL, (2024_10_04, 0), ticks(1_728_000_037));
    ties(&rt, &table, POSIX, (1_728_000_000, 0), ticks(1_728_000_037));
    Ok(())
}
