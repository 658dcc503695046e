// Close: no more records of a feed.
ghost use Rattle.std.specs.Prelude.{◌≡◌};
ghost use Rattle.refusals.specs.Said.{told};
ghost use Rattle.order.specs.Desk.{done, close_plan, closed_as};
ghost use Rattle.joiner.specs.Joiner.{state_of};

use crate::joiner::Joiner;
use crate::moves::{Move, change};
use clocks::bank::Bank;
use refusals::refusal::Refusal;

impl<B: Bank> Joiner<B> {
    /// An idle feed is closed; one whose record waits is closing, and closed once that is taken.
    pub fn close(&mut self, feed: u8) -> Result<(), Refusal>
        ensures answer { told result ≡ done (close_plan (state_of self.old) feed) }
        ensures state { state_of self.new ≡ closed_as (state_of self.old) feed (close_plan (state_of self.old) feed) }
        ensures kept { self.new.bank ≡ self.old.bank }
    {
        let mut state = self.feeds.state(feed).ok_or(Refusal::NoFeed)?;
        change(&mut state, Move::Close)?;
        self.feeds.store(feed, state);
        Ok(())
    }
}
