// Faults as a clock makes them, and as what stands above it tells them.
ghost use Rattle.std.specs.Prelude.{◌≡◌};
ghost use Rattle.clocks.specs.Piles.{lowered};
ghost use Rattle.clocks.specs.Rungs.{counted, own_fault};

use crate::limits::COUNT_END;
use refusals::fault::{Cause, Fault, Way};

/// A clock's own fault, for the count that it was handed.
pub fn own_fault(cause: Cause, way: Way, count: u64) -> Fault
    ensures { result ≡ own_fault cause way count }
{
    Fault {
        cause,
        rung: 0,
        way,
        count,
    }
}

/// The count that a clock was handed, if it is one.
pub fn counted(way: Way, count: u64) -> Result<u64, Fault>
    ensures { result ≡ counted way count (Ok count) }
{
    if count >= COUNT_END {
        return Err(own_fault(Cause::NoCount, way, count));
    }
    Ok(count)
}

/// An answer of a rung that has so many above it: its faults count them in, up to 255.
pub fn lower_by(above: u8, answer: Result<u64, Fault>) -> Result<u64, Fault>
    ensures { result ≡ lowered above answer }
{
    answer.map_err(|fault| Fault {
        rung: above.saturating_add(fault.rung),
        ..fault
    })
}
