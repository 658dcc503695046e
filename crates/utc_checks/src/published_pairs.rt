// Moments of UTC and their TAI, by the list of leap seconds that systems carry (tzdata 2025b, leap-seconds.list).
use crate::answers::{CIVIL, GPS, NTP, POSIX, TAI, at, ticks, ties};
use leap::table::LeapTable;

// The date and the time, the seconds that POSIX counts up to then, and TAI minus UTC.
const PAIRS: [(u64, u64, u64, u64); 33] = [
    (1972_01_01, 00_00_00, 63_072_000, 10),
    (1973_06_21, 06_00_00, 109_490_400, 12),
    (1976_07_04, 12_00_00, 205_329_600, 15),
    (1977_08_20, 14_29_00, 240_935_340, 16),
    // GPS time begins
    (1980_01_06, 00_00_00, 315_964_800, 19),
    (1981_04_12, 12_00_03, 355_924_803, 19),
    (1983_03_01, 00_00_00, 415_324_800, 21),
    (1986_01_28, 16_39_13, 507_314_353, 23),
    (1988_02_29, 23_59_59, 573_177_599, 24),
    (1989_11_09, 22_45_00, 626_654_700, 24),
    (1990_04_24, 12_33_51, 640_960_431, 25),
    (1991_08_06, 14_56_20, 681_490_580, 26),
    (1992_07_31, 00_00_01, 712_540_801, 27),
    (1994_07_16, 20_13_00, 774_389_580, 29),
    (1995_12_31, 23_59_59, 820_454_399, 29),
    (1996_02_29, 12_00_00, 825_595_200, 30),
    (1998_11_20, 06_40_00, 911_544_000, 31),
    // the weeks of GPS begin with 0 again, which they did at 00:00:00 of its own time
    (1999_08_21, 23_59_47, 935_279_987, 32),
    (2000_01_01, 00_00_00, 946_684_800, 32),
    (2000_02_29, 23_59_59, 951_868_799, 32),
    // a billion seconds of POSIX
    (2001_09_09, 01_46_40, 1_000_000_000, 32),
    (2004_02_29, 00_00_00, 1_078_012_800, 32),
    (2005_12_31, 23_59_59, 1_136_073_599, 32),
    (2008_07_01, 00_00_00, 1_214_870_400, 33),
    // the seconds 1234567890
    (2009_02_13, 23_31_30, 1_234_567_890, 34),
    (2012_08_06, 05_17_57, 1_344_230_277, 35),
    (2014_07_06, 00_00_00, 1_404_604_800, 35),
    (2015_06_30, 23_59_59, 1_435_708_799, 35),
    (2016_12_31, 23_59_59, 1_483_228_799, 36),
    (2017_01_01, 00_00_00, 1_483_228_800, 37),
    (2019_04_06, 23_59_42, 1_554_595_182, 37),
    (2020_02_29, 12_34_56, 1_582_979_696, 37),
    // the last second before the starting table expires
    (2024_10_03, 23_59_59, 1_727_999_999, 37),
];

// NTP's seconds and fractions, and the TAI seconds: 2,208,988,800 NTP seconds lie before 1970. Stamps are of the era from 2000-01-01 on, whose seconds begin again with 0 at 2036-02-07 06:28:16.
const NTP_PAIRS: [(u64, u64); 4] = [
    // 2000-01-01, 2009-02-13 23:31:30, 2017-01-01 and 2024-10-03 23:59:59
    (3_155_673_600, 946_684_832),
    (3_443_556_690, 1_234_567_924),
    (3_692_217_600, 1_483_228_837),
    (3_936_988_799, 1_728_000_036),
];

// GPS's week, of which the turn of 1,024 is that of the week 1,800, its milliseconds, and the TAI seconds: GPS is 19 seconds behind TAI.
const GPS_PAIRS: [(u64, u64, u64); 5] = [
    // 2014-07-06 in UTC, when GPS was 16 seconds ahead, and as the week 1,800 began
    (776, 16_000, 1_404_604_835),
    (776, 0, 1_404_604_819),
    // 2015-06-30 23:59:59
    (827, 259_215_000, 1_435_708_834),
    // 2017-01-01, when GPS was 18 seconds ahead
    (906, 18_000, 1_483_228_837),
    // 2019-04-06 23:59:42, when the weeks began with 0 again
    (0, 0, 1_554_595_219),
];

#[test]
fn civil_stamps_and_posix_counts_are_those_of_tai(rt: HostRuntime) {
    let table = LeapTable::starting();
    for (date, time, posix, offset) in PAIRS {
        let tai = posix.saturating_add(offset);
        ties(&rt, &table, TAI, (tai, 0), ticks(tai));
        ties(&rt, &table, CIVIL, (date, at(time)), ticks(tai));
        ties(&rt, &table, POSIX, (posix, 0), ticks(tai));
    }
}

#[test]
fn ntp_and_gps_stamps_are_those_of_tai(rt: HostRuntime) {
    let table = LeapTable::starting();
    for (seconds, tai) in NTP_PAIRS {
        ties(&rt, &table, NTP, (seconds, 0), ticks(tai));
    }
    for (week, millis, tai) in GPS_PAIRS {
        ties(&rt, &table, GPS, (week, millis), ticks(tai));
    }
}
