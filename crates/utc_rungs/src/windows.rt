// The windows of smeared time, told by the day on which they open.
ghost use Rattle.std.specs.Prelude.{◌≡◌, ◌+◌, ◌*◌, ◌/◌, ◌≤◌};
ghost use Rattle.leap.specs.Table.{Sound, largest_step};
ghost use Rattle.clocks.specs.Counts.{Count, count_end, second};
ghost use Rattle.clocks.specs.Stamps.{up};
ghost use Rattle.utc.specs.Labels.{day_ticks};
ghost use Rattle.utc.specs.Smear.{window_seconds, window_lead, opening_second, opens, opens_at, wide, window_at};

use crate::days::start;
use clocks::limits::SECOND;
use leap::limits::DAY_SECONDS;
use leap::table::LeapTable;
use utc::limits::{DAY, WINDOW_LEAD, WINDOW_SECONDS};

// When a window opens, in ticks of its day.
pub(crate) const OPENING: u64 = (DAY_SECONDS as u64 - WINDOW_LEAD) * SECOND;

// The tick at which the window of a day opens.
pub(crate) fn opens_at(table: &LeapTable, day: u32) -> u64
    requires { day * day_ticks ≤ count_end }
    ensures is { result ≡ opens_at table.now (opening_second window_lead) day }
    ensures near { result ≤ count_end + day_ticks }
    ensures sound { Sound table.now }
{
    start(table, day) + OPENING
}

// The seconds of that window in TAI: it is longer by as much as the day is.
pub(crate) fn wide(table: &LeapTable, day: u32) -> u64
    ensures is { result ≡ wide table.now window_seconds day }
    ensures least { window_seconds ≤ result + largest_step }
    ensures most { result ≤ window_seconds + largest_step }
{
    WINDOW_SECONDS + table.day_length(day) as u64 - DAY_SECONDS as u64
}

// What stands so many ticks after an opening by smeared time stands so many after it by TAI, rounded up.
pub(crate) fn stretched(since: u64, wide: u64) -> u64
    requires short { since ≤ day_ticks }
    requires most { wide ≤ window_seconds + largest_step }
    ensures is { result ≡ up (since * wide) window_seconds }
    ensures short { result ≤ 2 * day_ticks }
{
    (since as u128 * wide as u128).div_ceil(WINDOW_SECONDS as u128) as u64
}

// And back, rounded down.
pub(crate) fn shrunk(since: u64, wide: u64) -> u64
    requires least { window_seconds ≤ wide + largest_step }
    requires short { since ≤ 2 * day_ticks }
    ensures is { result ≡ since * window_seconds / wide }
    ensures short { result ≤ 4 * day_ticks }
{
    (since as u128 * WINDOW_SECONDS as u128 / wide as u128) as u64
}

// The day of the last window opened by a tick: of the two that it can be, the later if its window has opened.
#[tactic(auto, using(leap::proofs::Offsets::off_low))]
pub(crate) fn window_at(table: &LeapTable, tick: u64) -> u32
    requires begun { 2 * day_ticks ≤ tick }
    requires count { Count tick }
    ensures is { result ≡ window_at table.now (opening_second window_lead) tick }
    ensures opened { opens_at table.now (opening_second window_lead) result ≤ tick }
    ensures short { result * day_ticks ≤ count_end }
{
    let day = ((tick - OPENING) / DAY) as u32;
    if opens_at(table, day) <= tick {
        day
    } else {
        day - 1
    }
}
