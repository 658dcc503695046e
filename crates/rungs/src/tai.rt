// TAI, at the bottom of every pile: its counts are the ticks themselves.
ghost use Rattle.clocks.specs.Simple.{tai};
ghost use Rattle.clocks.proofs.Simples.{tai_lawful};

use clocks::fault::counted;
use clocks::limits::TOLD_LIMIT;
use clocks::rung::Rung;
use leap::table::LeapTable;
use refusals::fault::{Fault, Way};

/// TAI itself.
#[derive(Clone, Copy)]
pub struct Tai;

impl Rung for Tai {
    ghost meaning = { λ _. tai };

    ghost lawful = { λ _. tai_lawful };

    fn read(&self, _table: &LeapTable, count: u64) -> Result<u64, Fault> {
        counted(Way::Reading, count)
    }

    fn show(&self, _table: &LeapTable, count: u64) -> Result<u64, Fault> {
        counted(Way::Showing, count)
    }

    fn loss(&self) -> u64 {
        0
    }

    fn spread(&self, length: u64) -> u64 {
        length.min(TOLD_LIMIT)
    }

    fn rungs(&self) -> u8 {
        1
    }
}
