// POSIX stamps: hi seconds, lo nanoseconds.
ghost use Rattle.clocks.specs.Stamps.{posix};
ghost use Rattle.clocks.proofs.Stamping.{posix_lawful};

use crate::fields::checked;
use clocks::fault::counted;
use clocks::form::Form;
use clocks::limits::SECOND;
use leap::table::LeapTable;
use refusals::fault::{Fault, Way};

// The seconds that have counts.
const SECONDS_END: u64 = 8_000_000_000;

/// POSIX stamps.
#[derive(Clone, Copy)]
pub struct Posix;

impl Form for Posix {
    ghost meaning = { λ _. posix };

    ghost lawful = { λ _. posix_lawful };

    fn read(&self, _table: &LeapTable, stamp: (u64, u64)) -> Result<u64, Fault> {
        let (seconds, nanos) = checked(stamp, (SECONDS_END, SECOND))?;
        Ok(seconds * SECOND + nanos)
    }

    fn show(&self, _table: &LeapTable, count: u64) -> Result<(u64, u64), Fault> {
        counted(Way::Showing, count)?;
        Ok((count / SECOND, count % SECOND))
    }

    fn loss(&self) -> u64 {
        0
    }
}
