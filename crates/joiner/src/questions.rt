// What a service asks of its joiner. Nothing is changed by asking.
ghost use Rattle.std.specs.Prelude.{◌≡◌, ◌≤◌, length};
ghost use Rattle.std.specs.List.{slice_get};
ghost use Rattle.leap.specs.Table.{Sound};
ghost use Rattle.clocks.specs.Counts.{most_feeds};
ghost use Rattle.clocks.specs.Banks.{bank_shows};
ghost use Rattle.joiner.specs.Joiner.{state_of};

use crate::joiner::Joiner;
use clocks::bank::Bank;
use order::state::FeedState;
use refusals::refusal::Refusal;

impl<B: Bank> Joiner<B> {
    /// The number of feeds.
    pub fn feeds(&self) -> usize
        ensures is { result ≡ length (state_of self.now).feeds }
        ensures few { result ≤ most_feeds }
    {
        self.feeds.len()
    }

    /// A feed's state, if there is such a feed.
    pub fn feed_state(&self, feed: u8) -> Option<FeedState>
        ensures { result ≡ slice_get (state_of self.now).feeds feed }
    {
        self.feeds.state(feed)
    }

    /// The day from which on the leap table says nothing.
    pub fn expiry(&self) -> u32
        ensures is { result ≡ (state_of self.now).table.expiry }
        ensures sound { Sound (state_of self.now).table }
    {
        self.table.expiry()
    }

    /// The last accepted tick, whichever its feed; 0 before the first.
    pub fn last_tick(&self) -> u64
        ensures { result ≡ (state_of self.now).last }
    {
        self.last
    }

    /// What a tick shows on a feed of the bank.
    pub fn show(&self, feed: u8, tick: u64) -> Result<(u64, u64), Refusal>
        ensures { result ≡ bank_shows (B.Bank.meaning self.now.bank) (state_of self.now).table feed tick }
    {
        self.bank.show(&self.table, feed, tick)
    }
}
