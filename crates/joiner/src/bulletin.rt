// Bulletin: news of the leap table.
ghost use Rattle.std.specs.Prelude.{◌≡◌};
ghost use Rattle.refusals.specs.Said.{told};
ghost use Rattle.leap.specs.Bulletin.{judged};
ghost use Rattle.order.specs.Desk.{renewed_by};
ghost use Rattle.joiner.specs.Joiner.{state_of};

use crate::joiner::Joiner;
use clocks::bank::Bank;
use leap::bulletin::Bulletin;
use refusals::refusal::Refusal;

impl<B: Bank> Joiner<B> {
    /// Renews the leap table, or refuses the bulletin and alters nothing.
    pub fn bulletin(&mut self, bulletin: Bulletin) -> Result<(), Refusal>
        ensures answer { told result ≡ judged (state_of self.old).table bulletin }
        ensures state { state_of self.new ≡ renewed_by (state_of self.old) bulletin }
        ensures kept { self.new.bank ≡ self.old.bank }
    {
        self.table.renew(bulletin)
    }
}
