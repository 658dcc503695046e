// The standard feeds held against what they must answer.
use leap::bulletin::Bulletin;
use leap::table::LeapTable;
use refusals::fault::{Cause, Fault, Way};
use refusals::refusal::Refusal;
use standard::bank::{read_standard, show_standard};
use std::process::Abort;

// The feeds of the standard bank that these tests ask.
pub(crate) const TAI: u8 = 0;

pub(crate) const CIVIL: u8 = 1;

pub(crate) const POSIX: u8 = 2;

pub(crate) const SMEARED: u8 = 3;

pub(crate) const NTP: u8 = 4;

pub(crate) const GPS: u8 = 5;

// A second is deleted at the end of 2024, before the day 20,089.
pub(crate) const DELETED: Bulletin = Bulletin {
    change: 2,
    day: 20_089,
    expiry: 20_270,
};

// Seconds in ticks.
pub(crate) fn ticks(seconds: u64) -> u64 {
    seconds.saturating_mul(1_000_000_000)
}

// A time of day hhmmss as the lo of a civil stamp.
pub(crate) fn at(time: u64) -> u64 {
    ticks(time)
}

pub(crate) fn read_refusal(cause: Cause, rung: u8, count: u64) -> Refusal {
    Refusal::Clock(Fault {
        cause,
        rung,
        way: Way::Reading,
        count,
    })
}

pub(crate) fn show_refusal(cause: Cause, rung: u8, count: u64) -> Refusal {
    Refusal::Clock(Fault {
        cause,
        rung,
        way: Way::Showing,
        count,
    })
}

// A stamp that is read as a tick and shown from it.
pub(crate) fn ties(rt: &impl Abort, table: &LeapTable, feed: u8, stamp: (u64, u64), tick: u64) {
    assert_eq!(rt; read_standard(table, feed, stamp), Ok(tick));
    assert_eq!(rt; show_standard(table, feed, tick), Ok(stamp));
}

pub(crate) fn is_not_read(
    rt: &impl Abort,
    table: &LeapTable,
    feed: u8,
    stamp: (u64, u64),
    refusal: Refusal,
) {
    assert_eq!(rt; read_standard(table, feed, stamp), Err(refusal));
}

pub(crate) fn is_not_shown(
    rt: &impl Abort,
    table: &LeapTable,
    feed: u8,
    tick: u64,
    refusal: Refusal,
) {
    assert_eq!(rt; show_standard(table, feed, tick), Err(refusal));
}
