// The window of a pivot: the numbers from the pivot on, as many as a turn has. Each leaves another remainder on division by the turn.
ghost use Rattle.std.specs.Prelude.{◌≡◌, ◌+◌, ◌*◌, ◌%◌, ◌<◌, ◌≤◌, ◌||◌, ◌^◌, nat_le, nat_lt};
ghost use Rattle.clocks.specs.Rungs.{refused_if};
ghost use Rattle.clocks.specs.Stamps.{full};

use clocks::fault::own_fault;
use refusals::fault::{Cause, Fault, Way};

#[derive(Clone, Copy)]
pub(crate) struct Window<const TURN: u64> {
    pub(crate) pivot: u64,
    ghost some: { 0 < TURN },
    ghost room: { pivot + 2 * TURN < 2 ^ 64 },
}

impl<const TURN: u64> Window<TURN> {
    // The number of the window that leaves this remainder.
    pub(crate) fn full(&self, remainder: u64) -> u64
        requires { remainder < TURN }
        ensures { result ≡ full TURN self.now.pivot remainder }
    {
        self.pivot + (remainder + (TURN - self.pivot % TURN)) % TURN
    }

    // The remainder of a number of the window. A count that would be shown as a number outside of it is refused.
    pub(crate) fn remainder(&self, full: u64, count: u64) -> Result<u64, Fault>
        ensures { result ≡ refused_if (nat_lt full self.now.pivot || nat_le (self.now.pivot + TURN) full) Cause.Window Way.Showing count (Ok (full % TURN)) }
    {
        if full < self.pivot || full >= self.pivot + TURN {
            return Err(own_fault(Cause::Window, Way::Showing, count));
        }
        Ok(full % TURN)
    }
}
