// Civil stamps: hi is yyyymmdd, and lo is hhmmss and nine digits of nanoseconds. They are read as labels, and labels are shown as them.
ghost use Rattle.std.specs.Prelude.{◌≡◌, min};
ghost use Rattle.clocks.specs.Counts.{told_limit};
ghost use Rattle.civil.specs.Civil.{civil, civil_reads, Lossless, ReadsAs};
ghost use Rattle.civil.proofs.Lawful.{civil_lawful};

use crate::date::{read_day, show_day};
use crate::time::{read_time, show_time};
use clocks::fault::{counted, own_fault};
use clocks::form::Form;
use clocks::limits::SECOND;
use leap::table::LeapTable;
use refusals::fault::{Cause, Fault, Way};
use utc::labels::{LABEL_DAY, parts};

#[derive(Clone, Copy)]
pub struct Civil;

impl Form for Civil {
    ghost meaning = { λ _. civil };

    ghost lawful = { λ _. civil_lawful };

    #[tactic(auto, using(civil::proofs::Telling::reads_as))]
    fn read(&self, _table: &LeapTable, stamp: (u64, u64)) -> Result<u64, Fault>
        ensures is { result ≡ civil_reads stamp }
        ensures tells { ReadsAs stamp result }
    {
        let (hi, lo) = stamp;
        let day = read_day(hi)?;
        let second = read_time(lo / SECOND)?;
        Ok(day as u64 * LABEL_DAY + (second * SECOND + lo % SECOND))
    }

    fn show(&self, _table: &LeapTable, count: u64) -> Result<(u64, u64), Fault> {
        counted(Way::Showing, count)?;
        let (day, ticks) = parts(count);
        let date = show_day(day).ok_or(own_fault(Cause::Window, Way::Showing, count))?;
        Ok((date, show_time(ticks / SECOND) * SECOND + ticks % SECOND))
    }

    // Reading and showing undo each other.
    #[tactic(auto, using(civil::proofs::Lawful::civil_lossless))]
    fn loss(&self) -> u64
        ensures told { result ≡ min told_limit civil.loss }
        ensures lossless { Lossless }
    {
        0
    }
}
