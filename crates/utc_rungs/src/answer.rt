// Answers that are counts.
ghost use Rattle.std.specs.Prelude.{◌≡◌};
ghost use Rattle.clocks.specs.Rungs.{answered};

use clocks::fault::own_fault;
use clocks::limits::COUNT_END;
use refusals::fault::{Cause, Fault, Way};

// The answer to a count, if it is a count.
pub(crate) fn answered(way: Way, count: u64, answer: u64) -> Result<u64, Fault>
    ensures { result ≡ answered way count answer }
{
    if answer >= COUNT_END {
        return Err(own_fault(Cause::NoCount, way, count));
    }
    Ok(answer)
}
