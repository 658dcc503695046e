// The starting table against the list of leap seconds that systems carry (tzdata 2025b, leap-seconds.list), and bulletins.
use leap::bulletin::Bulletin;
use leap::entry::Entry;
use leap::table::LeapTable;
use refusals::refusal::Refusal;
use std::test::Fail;

// NTP seconds, that is seconds since 1900-01-01, and TAI minus UTC from then on.
const PUBLISHED: [(u64, u16); 28] = [
    (2272060800, 10),
    (2287785600, 11),
    (2303683200, 12),
    (2335219200, 13),
    (2366755200, 14),
    (2398291200, 15),
    (2429913600, 16),
    (2461449600, 17),
    (2492985600, 18),
    (2524521600, 19),
    (2571782400, 20),
    (2603318400, 21),
    (2634854400, 22),
    (2698012800, 23),
    (2776982400, 24),
    (2840140800, 25),
    (2871676800, 26),
    (2918937600, 27),
    (2950473600, 28),
    (2982009600, 29),
    (3029443200, 30),
    (3076704000, 31),
    (3124137600, 32),
    (3345062400, 33),
    (3439756800, 34),
    (3550089600, 35),
    (3644697600, 36),
    (3692217600, 37),
];

// The days from 1900-01-01 to 1970-01-01.
const DAYS_TO_1970: u64 = 25_567;

fn day_of(ntp_seconds: u64) -> u32 {
    let days = (ntp_seconds / 86_400).saturating_sub(DAYS_TO_1970);
    (days & 0xffff_ffff) as u32
}

#[test]
fn the_starting_table_is_the_published_one(rt: HostRuntime) -> Result<(), Fail> {
    let table = LeapTable::starting();
    assert_eq!(rt; table.entry_count(), 28);
    assert_eq!(rt; table.expiry(), 20_000);
    for (place, (seconds, offset)) in PUBLISHED.iter().enumerate() {
        let entry = table.entry(place).ok_or("no entry")?;
        assert_eq!(rt; entry.day, day_of(*seconds));
        assert_eq!(rt; entry.offset, *offset);
    }
    assert!(rt; table.entry(28).is_none());
    Ok(())
}

#[test]
fn each_step_is_an_inserted_second(rt: HostRuntime) {
    let table = LeapTable::starting();
    for (seconds, offset) in PUBLISHED.iter().skip(1) {
        let day = day_of(*seconds);
        assert_eq!(rt; table.offset_on(day), *offset);
        assert_eq!(rt;
            table.offset_on(day.saturating_sub(1)),
            offset.saturating_sub(1)
        );
        assert_eq!(rt; table.day_length(day.saturating_sub(1)), 86_401);
        assert_eq!(rt; table.day_length(day), 86_400);
    }
    assert_eq!(rt; table.offset_on(0), 10);
    assert_eq!(rt; table.offset_on(u32::MAX), 37);
    assert_eq!(rt; table.day_length(u32::MAX), 86_400);
}

fn bulletin(change: u8, day: u32, expiry: u32) -> Bulletin {
    Bulletin {
        change,
        day,
        expiry,
    }
}

// Seconds inserted at the end of 2024 and deleted at the end of 2025.
#[test]
fn bulletins_renew_the_table(rt: HostRuntime) -> Result<(), Fail> {
    let mut table = LeapTable::starting();
    table.renew(bulletin(1, 20_089, 20_270))?;
    table.renew(bulletin(2, 20_454, 20_635))?;
    assert_eq!(rt; table.entry_count(), 30);
    assert_eq!(rt; table.expiry(), 20_635);
    assert_eq!(rt; table.day_length(20_088), 86_401);
    assert_eq!(rt; table.day_length(20_453), 86_399);
    assert_eq!(rt; table.offset_on(20_089), 38);
    assert_eq!(rt; table.offset_on(20_454), 37);
    Ok(())
}

// The first check that fails gives the number, and nothing is altered.
#[test]
fn refused_bulletins_alter_nothing(rt: HostRuntime) {
    let mut table = LeapTable::starting();
    let refused = [
        (bulletin(3, 20_001, 0), Refusal::BadChange),
        (bulletin(0, 1, 0), Refusal::BadChange),
        (bulletin(0, 0, 19_999), Refusal::BadExpiry),
        (bulletin(1, 1, 84_007), Refusal::BadExpiry),
        (bulletin(1, 20_000, 20_270), Refusal::BadDay),
        (bulletin(1, 20_090, 20_270), Refusal::BadDay),
        (bulletin(2, 20_089, 20_089), Refusal::BadDay),
    ];
    for (news, cause) in refused {
        assert_eq!(rt; table.renew(news), Err(cause));
        assert_eq!(rt; table.entry_count(), 28);
        assert_eq!(rt; table.expiry(), 20_000);
    }
}

fn entry(day: u32, offset: u16) -> Entry {
    Entry { day, offset }
}

// Offsets at the ends of their range, which the starting table is far from: ten deletions in a row.
#[test]
fn an_offset_cannot_fall_below_zero(rt: HostRuntime) -> Result<(), Fail> {
    let entries = [
        entry(730, 10),
        entry(761, 9),
        entry(790, 8),
        entry(821, 7),
        entry(851, 6),
        entry(882, 5),
        entry(912, 4),
        entry(943, 3),
        entry(974, 2),
        entry(1004, 1),
        entry(1035, 0),
    ];
    let mut table = LeapTable::from_parts(&entries, 1040).ok_or("not sound")?;
    assert_eq!(rt;
        table.renew(bulletin(2, 1096, 1100)),
        Err(Refusal::TableLimit)
    );
    table.renew(bulletin(1, 1096, 1100))?;
    assert_eq!(rt; table.offset_on(1096), 1);
    Ok(())
}

#[test]
fn a_table_without_its_properties_is_not_made(rt: HostRuntime) {
    assert!(rt; LeapTable::from_parts(&[entry(730, 10)], 731).is_some());
    assert!(rt; LeapTable::from_parts(&[], 731).is_none());
    assert!(rt; LeapTable::from_parts(&[entry(730, 10)], 730).is_none());
    assert!(rt; LeapTable::from_parts(&[entry(730, 10)], 84_007).is_none());
    assert!(rt; LeapTable::from_parts(&[entry(730, 11)], 800).is_none());
    for second in [entry(761, 12), entry(762, 11), entry(730, 11)] {
        assert!(rt; LeapTable::from_parts(&[entry(730, 10), second], 800).is_none());
    }
}
