// Put: a record comes.
ghost use Rattle.std.specs.Prelude.{◌≡◌, length};
ghost use Rattle.refusals.specs.Said.{told};
ghost use Rattle.order.specs.declared.state.FeedState.TheVariants.{Idle};
ghost use Rattle.order.specs.Desk.{put_at, put_answer, after_put};
ghost use Rattle.joiner.specs.Joiner.{state_of, desk_of};

use crate::joiner::Joiner;
use crate::moves::{Move, change};
use crate::shelf::Shelf;
use clocks::bank::Bank;
use clocks::limits::TOLD_LIMIT;
use refusals::refusal::Refusal;

impl<B: Bank> Joiner<B> {
    // The tick of a stamp, for a feed that may be put to.
    fn tick_of(&self, feed: u8, stamp: (u64, u64)) -> Result<u64, Refusal>
        ensures { told result ≡ put_at (B.Bank.meaning self.now.bank) (state_of self.now) feed stamp Idle }
    {
        if self.bank.loss(feed)? >= TOLD_LIMIT {
            return Err(Refusal::LossTooLarge);
        }
        let tick = self.bank.read(&self.table, feed, stamp)?;
        if tick < self.last {
            return Err(Refusal::Behind);
        }
        Ok(tick)
    }

    /// Accepts a record of a feed, its stamp and body, and answers its tick.
    pub fn put<T: Copy>(
        &mut self,
        shelf: &mut Shelf<'_, T>,
        feed: u8,
        stamp: (u64, u64),
        body: T,
    ) -> Result<u64, Refusal>
        ensures answer { told result ≡ put_answer (B.Bank.meaning self.old.bank) (state_of self.old) (length shelf.old.slots.now) feed stamp }
        ensures desk { desk_of self.new shelf.new.slots.now ≡ after_put (desk_of self.old shelf.old.slots.now) feed body (told result) }
        ensures kept { self.new.bank ≡ self.old.bank }
        ensures lent { shelf.new.slots.ghost_name ≡ shelf.old.slots.ghost_name }
    {
        if shelf.slots.len() < self.feeds.len() {
            return Err(Refusal::ShortShelf);
        }
        let mut state = self.feeds.state(feed).ok_or(Refusal::NoFeed)?;
        let reading = self.tick_of(feed, stamp);
        change(&mut state, Move::Put(reading))?;
        let tick = reading?;
        self.feeds.store(feed, state);
        self.queue.push(feed);
        self.last = tick;
        shelf.slots[usize::from(feed)] = body;
        Ok(tick)
    }
}
