// The smear rung: smeared POSIX counts over TAI.
ghost use Rattle.std.specs.Prelude.{◌≡◌, ◌*◌, ◌≤◌};
ghost use Rattle.leap.specs.Table.{first_entry_day};
ghost use Rattle.clocks.specs.Counts.{Count};
ghost use Rattle.utc.specs.Labels.{day_ticks};
ghost use Rattle.utc.specs.Leap.{start};
ghost use Rattle.utc.specs.Smear.{window_seconds, window_lead, opening_second, smear, smear_reading, smear_showing};
ghost use Rattle.utc.specs.Windows.{ByWindows};
ghost use Rattle.utc.proofs.Smears.{smear_lawful};

use crate::answer::answered;
use crate::days::within_table;
use crate::windows::{OPENING, opens_at, shrunk, stretched, wide, window_at};
use clocks::fault::{counted, own_fault};
use clocks::limits::{SECOND, TOLD_LIMIT};
use clocks::rung::Rung;
use leap::limits::{FIRST_ENTRY, LARGEST_STEP};
use leap::table::LeapTable;
use refusals::fault::{Cause, Fault, Way};
use utc::limits::{DAY, WINDOW_SECONDS};

#[derive(Clone, Copy)]
pub struct Smear;

// The tick that a count is read as.
#[tactic(auto, using(utc::proofs::Telling::windows_told))]
fn reading(table: &LeapTable, count: u64) -> u64
    requires begun { first_entry_day * day_ticks ≤ count }
    requires count { Count count }
    ensures is { result ≡ smear_reading table.now window_seconds (opening_second window_lead) count }
    ensures windows { ByWindows table.now window_seconds window_lead }
{
    let day = ((count - OPENING) / DAY) as u32;
    let since = (count - OPENING) % DAY;
    // A window may be shorter than the day from one opening to the next.
    if since < WINDOW_SECONDS * SECOND {
        opens_at(table, day) + stretched(since, wide(table, day))
    } else {
        count + table.offset_on(day + 1) as u64 * SECOND
    }
}

// The count that a tick is shown as.
#[tactic(auto, using(utc::proofs::Telling::windows_told))]
fn showing(table: &LeapTable, tick: u64) -> u64
    requires begun { start table.now first_entry_day ≤ tick }
    requires count { Count tick }
    ensures is { result ≡ smear_showing table.now window_seconds (opening_second window_lead) tick }
    ensures windows { ByWindows table.now window_seconds window_lead }
{
    let day = window_at(table, tick);
    let since = tick - opens_at(table, day);
    let wide = wide(table, day);
    if since < wide * SECOND {
        day as u64 * DAY + OPENING + shrunk(since, wide)
    } else {
        tick - table.offset_on(day + 1) as u64 * SECOND
    }
}

impl Rung for Smear {
    ghost meaning = { λ _. smear window_seconds window_lead };

    ghost use Rattle.std.proofs.Common.{arith};

    ghost lawful = { λ _. smear_lawful window_seconds window_lead (omega arith) (omega arith) };

    fn read(&self, table: &LeapTable, count: u64) -> Result<u64, Fault> {
        counted(Way::Reading, count)?;
        if count < FIRST_ENTRY.day as u64 * DAY {
            return Err(own_fault(Cause::BeforeTable, Way::Reading, count));
        }
        if count >= table.expiry() as u64 * DAY {
            return Err(own_fault(Cause::Expired, Way::Reading, count));
        }
        answered(Way::Reading, count, reading(table, count))
    }

    fn show(&self, table: &LeapTable, count: u64) -> Result<u64, Fault> {
        counted(Way::Showing, count)?;
        within_table(table, count)?;
        answered(Way::Showing, count, showing(table, count))
    }

    fn loss(&self) -> u64 {
        1
    }

    fn spread(&self, length: u64) -> u64 {
        // Each window that is begun may be longer by the largest step.
        let steps = length as u128 * LARGEST_STEP as u128;
        let apart = length as u128 + steps.div_ceil(WINDOW_SECONDS as u128);
        apart.min(TOLD_LIMIT as u128) as u64
    }

    fn rungs(&self) -> u8 {
        1
    }
}
