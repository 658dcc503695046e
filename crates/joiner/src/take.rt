// Take: the record that has waited longest leaves.
ghost use Rattle.std.specs.Prelude.{◌≡◌, Err};
ghost use Rattle.refusals.specs.Said.{told, said};
ghost use Rattle.order.specs.Desk.{idle_count, waits_none, TakeAnswer, after_take};
ghost use Rattle.joiner.specs.Joiner.{state_of};

use crate::joiner::Joiner;
use crate::moves::{Move, change};
use crate::shelf::Shelf;
use calls::call::Handed;
use clocks::bank::Bank;
use refusals::refusal::Refusal;

impl<B: Bank> Joiner<B> {
    // Why there is no record to take.
    fn none_waits<T: Copy>(&self) -> Refusal
        ensures { waits_none {T = T} (state_of self.now) (idle_count (state_of self.now)) (Err (said result)) }
    {
        match self.feeds.one_idle() {
            Some(feed) => Refusal::NoneWaits {
                idle: self.feeds.idle_count(),
                feed,
            },
            None => Refusal::AllClosed,
        }
    }

    /// Hands out the feed, tick and body of the record that has waited longest. The shelf is lent for writing and left as it is.
    pub fn take<T: Copy>(&mut self, shelf: &mut Shelf<'_, T>) -> Result<Handed<T>, Refusal>
        ensures answer { TakeAnswer (state_of self.old) shelf.old.slots.now (told result) }
        ensures state { state_of self.new ≡ after_take (state_of self.old) (told result) }
        ensures slots { shelf.new.slots.now ≡ shelf.old.slots.now }
        ensures kept { self.new.bank ≡ self.old.bank }
        ensures lent { shelf.new.slots.ghost_name ≡ shelf.old.slots.ghost_name }
    {
        if shelf.slots.len() < self.feeds.len() {
            return Err(Refusal::ShortShelf);
        }
        // The look at the head is taken apart here, as was asked for (docs/DECISIONS.md).
        let Some(feed) = self.queue.first() else {
            return Err(self.none_waits::<T>());
        };
        let mut state = self.feeds.state(feed).ok_or(Refusal::NoFeed)?;
        let tick = state.waiting_tick().ok_or(Refusal::NoFeed)?;
        change(&mut state, Move::Take)?;
        self.feeds.store(feed, state);
        self.queue.pop();
        let body = shelf.slots[usize::from(feed)];
        Ok(Handed { feed, tick, body })
    }
}
