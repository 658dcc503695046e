// The leap rung: UTC labels over TAI.
ghost use Rattle.utc.specs.Leap.{leap};
ghost use Rattle.utc.proofs.Leaps.{leap_lawful};
ghost use Rattle.std.specs.Prelude.{◌≡◌, ◌*◌, ◌≤◌};
ghost use Rattle.clocks.specs.Counts.{count_end};
ghost use Rattle.utc.specs.Labels.{label_day};
ghost use Rattle.utc.specs.Leap.{leap_label};

use crate::answer::answered;
use crate::days::{day_at, start, within_table};
use clocks::fault::{counted, own_fault};
use clocks::limits::{SECOND, TOLD_LIMIT};
use clocks::rung::Rung;
use leap::limits::FIRST_ENTRY;
use leap::table::LeapTable;
use refusals::fault::{Cause, Fault, Way};
use utc::labels::{LABEL_DAY, parts};

#[derive(Clone, Copy)]
pub struct Leap;

// A label, which is so many ticks into a day, as a tick.
fn label_tick(table: &LeapTable, label: u64, day: u32, ticks: u64) -> Result<u64, Fault>
    requires short { day * label_day ≤ count_end }
    requires fits { ticks ≤ label_day }
    ensures { result ≡ leap_label table.now label day ticks }
{
    if day < FIRST_ENTRY.day {
        return Err(own_fault(Cause::BeforeTable, Way::Reading, label));
    }
    if day >= table.expiry() {
        return Err(own_fault(Cause::Expired, Way::Reading, label));
    }
    if ticks >= table.day_length(day) as u64 * SECOND {
        return Err(own_fault(Cause::NoSuchSecond, Way::Reading, label));
    }
    answered(Way::Reading, label, start(table, day) + ticks)
}

impl Rung for Leap {
    ghost meaning = { λ _. leap };

    ghost lawful = { λ _. leap_lawful };

    fn read(&self, table: &LeapTable, count: u64) -> Result<u64, Fault> {
        counted(Way::Reading, count)?;
        let (day, ticks) = parts(count);
        label_tick(table, count, day, ticks)
    }

    fn show(&self, table: &LeapTable, count: u64) -> Result<u64, Fault> {
        counted(Way::Showing, count)?;
        within_table(table, count)?;
        let day = day_at(table, count);
        let label = day as u64 * LABEL_DAY + (count - start(table, day));
        answered(Way::Showing, count, label)
    }

    fn loss(&self) -> u64 {
        0
    }

    fn spread(&self, length: u64) -> u64 {
        length.min(TOLD_LIMIT)
    }

    fn rungs(&self) -> u8 {
        1
    }
}
