// One entry for a call that comes as a value.
ghost use Rattle.std.specs.Prelude.{◌≡◌};
ghost use Rattle.order.specs.Called.{Called};
ghost use Rattle.joiner.specs.Joiner.{desk_of};

use crate::joiner::Joiner;
use crate::shelf::Shelf;
use calls::call::{Call, Reply};
use clocks::bank::Bank;

impl<B: Bank> Joiner<B> {
    /// Makes a call, and answers what it is replied.
    pub fn call<T: Copy>(&mut self, shelf: &mut Shelf<'_, T>, call: Call<T>) -> Reply<T>
        ensures called { Called (B.Bank.meaning self.old.bank) (desk_of self.old shelf.old.slots.now) call result (desk_of self.new shelf.new.slots.now) }
        ensures kept { self.new.bank ≡ self.old.bank }
        ensures lent { shelf.new.slots.ghost_name ≡ shelf.old.slots.ghost_name }
    {
        match call {
            Call::Put { feed, stamp, body } => Reply::Put(self.put(shelf, feed, stamp, body)),
            Call::Close { feed } => Reply::Close(self.close(feed)),
            Call::Take => Reply::Take(self.take(shelf)),
            Call::Renew(bulletin) => Reply::Renew(self.bulletin(bulletin)),
        }
    }
}
