// The fold rung: POSIX counts over UTC labels.
ghost use Rattle.utc.specs.Fold.{fold};
ghost use Rattle.utc.proofs.Folds.{fold_lawful};

use crate::answer::answered;
use clocks::fault::{counted, own_fault};
use clocks::limits::TOLD_LIMIT;
use clocks::rung::Rung;
use leap::table::LeapTable;
use refusals::fault::{Cause, Fault, Way};
use utc::labels::{LABEL_DAY, parts};
use utc::limits::{DAY, STEP};

#[derive(Clone, Copy)]
pub struct Fold;

impl Rung for Fold {
    ghost meaning = { λ _. fold };

    ghost lawful = { λ _. fold_lawful };

    fn read(&self, _table: &LeapTable, count: u64) -> Result<u64, Fault> {
        counted(Way::Reading, count)?;
        answered(Way::Reading, count, count / DAY * LABEL_DAY + count % DAY)
    }

    fn show(&self, _table: &LeapTable, count: u64) -> Result<u64, Fault> {
        counted(Way::Showing, count)?;
        let (day, ticks) = parts(count);
        if ticks >= DAY {
            return Err(own_fault(Cause::InsertedSecond, Way::Showing, count));
        }
        Ok(day as u64 * DAY + ticks)
    }

    fn loss(&self) -> u64 {
        0
    }

    fn spread(&self, length: u64) -> u64 {
        // each day that is begun may bring an inserted second
        let inserted = length.div_ceil(DAY) * STEP;
        length.saturating_add(inserted).min(TOLD_LIMIT)
    }

    fn rungs(&self) -> u8 {
        1
    }
}
