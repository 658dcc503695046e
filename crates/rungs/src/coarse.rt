// A clock that only goes in steps.
ghost use Rattle.std.specs.Prelude.{◌≡◌, ◌≤◌, min, max};
ghost use Rattle.clocks.specs.Simple.{coarse, coarse_limit};
ghost use Rattle.clocks.proofs.Simples.{coarse_lawful};

use clocks::fault::{counted, own_fault};
use clocks::limits::TOLD_LIMIT;
use clocks::rung::Rung;
use leap::table::LeapTable;
use refusals::fault::{Cause, Fault, Way};

const LARGEST_STEP: u64 = 10_000_000_000_000;

/// The clock of one step.
// Ghost fields and no model: the laws hold from a step of 1 on, and a model's value could be any number.
#[derive(Clone, Copy)]
pub struct Coarse {
    step: u64,
    ghost some: { 1 ≤ step },
    ghost within: { step ≤ coarse_limit },
}

impl Coarse {
    /// A step outside its limits becomes the nearest limit.
    pub fn new(step: u64) -> Coarse
        ensures { result.step ≡ min coarse_limit (max 1 step) }
    {
        Coarse {
            step: step.clamp(1, LARGEST_STEP),
        }
    }
}

impl Rung for Coarse {
    ghost meaning = { λ s. coarse s.step };

    ghost lawful = { λ s. coarse_lawful s.step s.some };

    fn read(&self, _table: &LeapTable, count: u64) -> Result<u64, Fault> {
        counted(Way::Reading, count)?;
        if count % self.step > 0 {
            return Err(own_fault(Cause::NotMultiple, Way::Reading, count));
        }
        Ok(count)
    }

    fn show(&self, _table: &LeapTable, count: u64) -> Result<u64, Fault> {
        counted(Way::Showing, count)?;
        Ok(count - count % self.step)
    }

    fn loss(&self) -> u64 {
        (self.step - 1).min(TOLD_LIMIT)
    }

    fn spread(&self, length: u64) -> u64 {
        length.min(TOLD_LIMIT)
    }

    fn rungs(&self) -> u8 {
        1
    }
}
