// Making a joiner.
ghost use Rattle.std.specs.Prelude.{◌≡◌, length};
ghost use Rattle.refusals.specs.Said.{told};
ghost use Rattle.leap.specs.Starting.{starting};
ghost use Rattle.order.specs.Desk.{size_answer, made};
ghost use Rattle.order.specs.Promise.{KeepsOrder};
ghost use Rattle.joiner.specs.Joiner.{state_of};

use crate::feeds::Feeds;
use crate::joiner::Joiner;
use crate::queue::Queue;
use crate::shelf::Shelf;
use clocks::bank::Bank;
use clocks::limits::MOST_FEEDS;
use leap::table::LeapTable;
use refusals::refusal::Refusal;

// The size check of a bank that tells so many feeds, on so many slots.
fn judge_size(feeds: u8, slots: usize) -> Result<(), Refusal>
    ensures { told result ≡ size_answer feeds slots }
{
    if !(1..=MOST_FEEDS).contains(&feeds) {
        return Err(Refusal::FeedCount);
    }
    if slots < usize::from(feeds) {
        return Err(Refusal::ShortShelf);
    }
    Ok(())
}

impl<B: Bank> Joiner<B> {
    /// Whether a joiner over this bank and on this shelf would have feeds.
    pub fn check_size<T: Copy>(bank: &B, shelf: &Shelf<'_, T>) -> Result<(), Refusal>
        ensures { told result ≡ size_answer (B.Bank.meaning bank.now).feeds (length shelf.now.slots.now) }
    {
        judge_size(bank.feeds(), shelf.len())
    }

    /// A joiner with the starting table and every feed idle. Where the size check refuses it has no feeds, else all the bank's.
    /// What becomes of its order, whatever is called, is promised here.
    pub fn new<T: Copy>(bank: B, shelf: &Shelf<'_, T>) -> Joiner<B>
        ensures fresh { state_of result ≡ (made (B.Bank.meaning bank) starting shelf.now.slots.now).joiner }
        ensures kept { result.bank ≡ bank }
        ensures promise { KeepsOrder (B.Bank.meaning bank) starting shelf.now.slots.now }
    {
        let feeds = bank.feeds();
        let count = judge_size(feeds, shelf.len()).map_or(0, |()| usize::from(feeds));
        Joiner {
            bank,
            table: LeapTable::starting(),
            feeds: Feeds::all_idle(count),
            queue: Queue::new(),
            last: 0,
        }
    }
}
