// A clock that is behind by a fixed offset.
ghost use Rattle.std.specs.Prelude.{◌≡◌, ◌≤◌, min};
ghost use Rattle.clocks.specs.Simple.{offset, offset_limit};
ghost use Rattle.clocks.proofs.Simples.{offset_lawful};

use clocks::fault::{counted, own_fault};
use clocks::limits::{COUNT_END, TOLD_LIMIT};
use clocks::rung::Rung;
use leap::table::LeapTable;
use refusals::fault::{Cause, Fault, Way};

/// The clock of one offset.
// A ghost field and no model: with a model that gives its field back (tried), a pile or a scale over an offset can't be copied.
#[derive(Clone, Copy)]
pub struct Offset {
    by: u64,
    ghost within: { by ≤ offset_limit },
}

impl Offset {
    /// An offset outside its limits becomes the nearest limit.
    pub fn new(by: u64) -> Offset
        ensures { result.by ≡ min offset_limit by }
    {
        Offset {
            by: by.min(COUNT_END - 1),
        }
    }
}

impl Rung for Offset {
    ghost meaning = { λ s. offset s.by };

    ghost lawful = { λ s. offset_lawful s.by };

    fn read(&self, _table: &LeapTable, count: u64) -> Result<u64, Fault> {
        let below = counted(Way::Reading, count)? + self.by;
        if below >= COUNT_END {
            return Err(own_fault(Cause::NoCount, Way::Reading, count));
        }
        Ok(below)
    }

    fn show(&self, _table: &LeapTable, count: u64) -> Result<u64, Fault> {
        counted(Way::Showing, count)?;
        if count < self.by {
            return Err(own_fault(Cause::NoCount, Way::Showing, count));
        }
        Ok(count - self.by)
    }

    fn loss(&self) -> u64 {
        0
    }

    fn spread(&self, length: u64) -> u64 {
        length.min(TOLD_LIMIT)
    }

    fn rungs(&self) -> u8 {
        1
    }
}
