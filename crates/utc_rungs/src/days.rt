// The days of a table, in ticks.
ghost use Rattle.std.specs.Prelude.{◌≡◌, ◌+◌, ◌*◌, ◌≤◌, ◌<◌, Ok};
ghost use Rattle.leap.specs.Table.{Sound, top_offset};
ghost use Rattle.clocks.specs.Counts.{Count, count_end, second};
ghost use Rattle.utc.specs.Labels.{day_ticks};
ghost use Rattle.utc.specs.Leap.{start, within_table, day_at};

use clocks::fault::own_fault;
use clocks::limits::SECOND;
use leap::limits::{DAY_SECONDS, FIRST_ENTRY};
use leap::table::LeapTable;
use refusals::fault::{Cause, Fault, Way};
use utc::limits::DAY;

// The tick at which a day begins.
pub(crate) fn start(table: &LeapTable, day: u32) -> u64
    requires { day * day_ticks ≤ count_end }
    ensures is { result ≡ start table.now day }
    ensures near { result ≤ count_end + top_offset * second }
    ensures sound { Sound table.now }
{
    (day as u64 * DAY_SECONDS as u64 + table.offset_on(day) as u64) * SECOND
}

// The tick that is to be shown, if the table has an answer to it.
pub(crate) fn within_table(table: &LeapTable, tick: u64) -> Result<u64, Fault>
    ensures { result ≡ within_table table.now tick (Ok tick) }
{
    if tick < start(table, FIRST_ENTRY.day) {
        return Err(own_fault(Cause::BeforeTable, Way::Showing, tick));
    }
    if tick >= start(table, table.expiry()) {
        return Err(own_fault(Cause::Expired, Way::Showing, tick));
    }
    Ok(tick)
}

// The day that holds a tick: the day that the TAI clock has, or the day before if that day has not begun in UTC.
#[tactic(auto, using(leap::proofs::Offsets::off_low))]
pub(crate) fn day_at(table: &LeapTable, tick: u64) -> u32
    requires begun { day_ticks ≤ tick }
    requires count { Count tick }
    ensures is { result ≡ day_at table.now tick }
    ensures begun { start table.now result ≤ tick }
    ensures lasts { tick < start table.now (result + 1) }
    ensures short { result * day_ticks ≤ count_end }
{
    let day = (tick / DAY) as u32;
    if start(table, day) <= tick {
        day
    } else {
        day - 1
    }
}
