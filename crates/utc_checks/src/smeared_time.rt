// Smeared time in a window with an inserted second and in one with a deleted second. In a window that opens at W, what stands e ticks after it by
// smeared time stands e * A / 86,400 after it by TAI, rounded up, with A the window's seconds in TAI.
use crate::answers::{DELETED, SMEARED, is_not_read, read_refusal, ticks, ties};
use clocks::rung::Rung;
use leap::table::LeapTable;
use refusals::fault::Cause;
use std::process::Abort;
use std::test::Fail;
use utc_rungs::smear_rung::Smear;

// Smeared counts and the ticks that they are read as.
// The second inserted before 2017: W is 2016-12-31 12:00:00, 1,483,185,600 seconds, A is 86,401, and TAI is 36 seconds ahead before it and 37 after.
const INSERTED: [(u64, u64); 8] = [
    // the last count before the window: 36 seconds
    (1_483_185_599_999_999_999, 1_483_185_635_999_999_999),
    // its opening
    (1_483_185_600_000_000_000, 1_483_185_636_000_000_000),
    // a tick on: 86,401 / 86,400 is rounded up to 2
    (1_483_185_600_000_000_001, 1_483_185_636_000_000_002),
    // a second on: 1,000,011,574.07.. ticks
    (1_483_185_601_000_000_000, 1_483_185_637_000_011_575),
    // midnight: 43,200 seconds by smeared time are 43,200.5 by TAI
    (1_483_228_800_000_000_000, 1_483_228_836_500_000_000),
    // the window's last tick: 1.00001.. before its end by TAI, rounded up to 1 before it
    (1_483_271_999_999_999_999, 1_483_272_036_999_999_999),
    // its end: 86,401 seconds after 1,483,185,636
    (1_483_272_000_000_000_000, 1_483_272_037_000_000_000),
    // a tick after it: 37 seconds
    (1_483_272_000_000_000_001, 1_483_272_037_000_000_001),
];

// Ticks of TAI and the smeared counts that they are shown as, where that is not the other way round of the above.
const INSERTED_SHOWN: [(u64, u64); 3] = [
    // a tick after the opening: 86,400 / 86,401 is rounded down to 0
    (1_483_185_636_000_000_001, 1_483_185_600_000_000_000),
    // half of the window's 86,401 seconds after it, and the tick before
    (1_483_228_836_500_000_000, 1_483_228_800_000_000_000),
    (1_483_228_836_499_999_999, 1_483_228_799_999_999_999),
];

// The second deleted before the day 20,089: W is 2024-12-31 12:00:00, 1,735,646,400 seconds, A is 86,399, and TAI is 37 seconds ahead before it and 36 after.
const WITHOUT: [(u64, u64); 8] = [
    (1_735_646_399_999_999_999, 1_735_646_436_999_999_999),
    (1_735_646_400_000_000_000, 1_735_646_437_000_000_000),
    // a tick on: 86,399 / 86,400 is rounded up to 1
    (1_735_646_400_000_000_001, 1_735_646_437_000_000_001),
    // a second on: 999,988,425.92.. ticks
    (1_735_646_401_000_000_000, 1_735_646_437_999_988_426),
    // midnight: 43,200 seconds by smeared time are 43,199.5 by TAI
    (1_735_689_600_000_000_000, 1_735_689_636_500_000_000),
    // the window's last tick: 0.99999 before its end by TAI, rounded up to the end
    (1_735_732_799_999_999_999, 1_735_732_836_000_000_000),
    // its end: 86,399 seconds after 1,735,646,437
    (1_735_732_800_000_000_000, 1_735_732_836_000_000_000),
    (1_735_732_800_000_000_001, 1_735_732_836_000_000_001),
];

const WITHOUT_SHOWN: [(u64, u64); 4] = [
    // a tick after the opening: 86,400 / 86,399 is rounded down to 1
    (1_735_646_437_000_000_001, 1_735_646_400_000_000_001),
    (1_735_689_636_500_000_000, 1_735_689_600_000_000_000),
    // a tick before the end by TAI is 1.00001.. before it by smeared time, rounded down to 2 before it
    (1_735_732_835_999_999_999, 1_735_732_799_999_999_998),
    // two counts are read as the end, which is shown as the later
    (1_735_732_836_000_000_000, 1_735_732_800_000_000_000),
];

fn smears(rt: &impl Abort, table: &LeapTable, reads: &[(u64, u64)], shows: &[(u64, u64)]) {
    for (count, tick) in reads {
        assert_eq!(rt; Smear.read(table, *count), Ok(*tick));
    }
    for (tick, count) in shows {
        assert_eq!(rt; Smear.show(table, *tick), Ok(*count));
    }
}

#[test]
fn an_inserted_second_is_smeared(rt: HostRuntime) {
    let table = LeapTable::starting();
    smears(&rt, &table, &INSERTED, &INSERTED_SHOWN);
}

#[test]
fn a_deleted_second_is_smeared(rt: HostRuntime) -> Result<(), Fail> {
    let mut table = LeapTable::starting();
    table.renew(DELETED)?;
    smears(&rt, &table, &WITHOUT, &WITHOUT_SHOWN);
    Ok(())
}

// The standard feed of smeared time goes in steps of a thousand ticks.
#[test]
fn the_smeared_feed_goes_in_steps(rt: HostRuntime) {
    let table = LeapTable::starting();
    ties(
        &rt,
        &table,
        SMEARED,
        (1_483_185_600, 0),
        ticks(1_483_185_636),
    );
    // midnight
    let half = 1_483_228_836_500_000_000;
    ties(&rt, &table, SMEARED, (1_483_228_800, 0), half);
    ties(
        &rt,
        &table,
        SMEARED,
        (1_483_272_000, 0),
        ticks(1_483_272_037),
    );
    let between = read_refusal(Cause::NotMultiple, 1, 1_483_228_800_000_000_001);
    is_not_read(&rt, &table, SMEARED, (1_483_228_800, 1), between);
}
