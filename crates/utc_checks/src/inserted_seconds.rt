// Every second that was inserted, from the list of leap seconds that systems carry (tzdata 2025b, leap-seconds.list).
use crate::answers::{CIVIL, POSIX, TAI, at, is_not_shown, show_refusal, ticks, ties};
use leap::table::LeapTable;
use refusals::fault::Cause;
use std::process::Abort;

// The day that ends with it and the day that follows, the NTP seconds of the midnight between them, that is seconds since 1900-01-01, and TAI minus UTC from then on.
const INSERTED: [(u64, u64, u64, u64); 27] = [
    (1972_06_30, 1972_07_01, 2_287_785_600, 11),
    (1972_12_31, 1973_01_01, 2_303_683_200, 12),
    (1973_12_31, 1974_01_01, 2_335_219_200, 13),
    (1974_12_31, 1975_01_01, 2_366_755_200, 14),
    (1975_12_31, 1976_01_01, 2_398_291_200, 15),
    (1976_12_31, 1977_01_01, 2_429_913_600, 16),
    (1977_12_31, 1978_01_01, 2_461_449_600, 17),
    (1978_12_31, 1979_01_01, 2_492_985_600, 18),
    (1979_12_31, 1980_01_01, 2_524_521_600, 19),
    (1981_06_30, 1981_07_01, 2_571_782_400, 20),
    (1982_06_30, 1982_07_01, 2_603_318_400, 21),
    (1983_06_30, 1983_07_01, 2_634_854_400, 22),
    (1985_06_30, 1985_07_01, 2_698_012_800, 23),
    (1987_12_31, 1988_01_01, 2_776_982_400, 24),
    (1989_12_31, 1990_01_01, 2_840_140_800, 25),
    (1990_12_31, 1991_01_01, 2_871_676_800, 26),
    (1992_06_30, 1992_07_01, 2_918_937_600, 27),
    (1993_06_30, 1993_07_01, 2_950_473_600, 28),
    (1994_06_30, 1994_07_01, 2_982_009_600, 29),
    (1995_12_31, 1996_01_01, 3_029_443_200, 30),
    (1997_06_30, 1997_07_01, 3_076_704_000, 31),
    (1998_12_31, 1999_01_01, 3_124_137_600, 32),
    (2005_12_31, 2006_01_01, 3_345_062_400, 33),
    (2008_12_31, 2009_01_01, 3_439_756_800, 34),
    (2012_06_30, 2012_07_01, 3_550_089_600, 35),
    (2015_06_30, 2015_07_01, 3_644_697_600, 36),
    (2016_12_31, 2017_01_01, 3_692_217_600, 37),
];

// The seconds from 1900-01-01 to 1970-01-01.
const NTP_1970: u64 = 2_208_988_800;

// The label of 23:59:60.5 of the day that ends at a midnight, told in POSIX seconds: day * 86,401 seconds, and 86,400.5.
fn label_of_half(midnight: u64) -> u64 {
    let day = (midnight / 86_400).saturating_sub(1);
    ticks(day.saturating_mul(86_401).saturating_add(86_400)).saturating_add(500_000_000)
}

// The seconds 23:59:59, 23:59:60 and 00:00:00 are consecutive, and POSIX has no number for the middle one.
fn is_inserted(rt: &impl Abort, last: u64, next: u64, midnight: u64, offset: u64) {
    let table = LeapTable::starting();
    let first = midnight.saturating_add(offset);
    let inserted = first.saturating_sub(1);
    let before = first.saturating_sub(2);
    ties(rt, &table, CIVIL, (last, at(23_59_59)), ticks(before));
    ties(rt, &table, CIVIL, (last, at(23_59_60)), ticks(inserted));
    ties(rt, &table, CIVIL, (next, 0), ticks(first));
    let posix = midnight.saturating_sub(1);
    ties(rt, &table, POSIX, (posix, 0), ticks(before));
    ties(rt, &table, POSIX, (midnight, 0), ticks(first));
    ties(rt, &table, TAI, (inserted, 0), ticks(inserted));
    let half = ticks(inserted).saturating_add(500_000_000);
    ties(rt, &table, CIVIL, (last, 235_960_500_000_000), half);
    let refusal = show_refusal(Cause::InsertedSecond, 1, label_of_half(midnight));
    is_not_shown(rt, &table, POSIX, half, refusal);
}

#[test]
fn inserted_seconds_have_civil_stamps_and_no_posix_counts(rt: HostRuntime) {
    for (last, next, ntp_seconds, offset) in INSERTED {
        let midnight = ntp_seconds.saturating_sub(NTP_1970);
        is_inserted(&rt, last, next, midnight, offset);
    }
}
