// A bank: feeds, numbered from 0, each with its scale.
ghost use Rattle.std.specs.Prelude.{◌≡◌, min};
ghost use Rattle.clocks.specs.Counts.{feeds_limit};
ghost use Rattle.clocks.specs.Banks.{BankMeaning, LawfulBank, bank_reads, bank_shows, bank_loss};

use leap::table::LeapTable;
use refusals::refusal::Refusal;

// Table, feed and stamp come one by one: the table is lent for one question, and stamps stay plain pairs, as they come off the wire.
pub trait Bank {
    // what it means, and the proof that each feed's scale keeps the laws
    ghost meaning: { Self → BankMeaning };

    ghost lawful: { (s : Self) → LawfulBank (meaning s) };

    /// The number of feeds, told up to 65.
    fn feeds(&self) -> u8
        ensures { result ≡ min feeds_limit (meaning self.now).feeds };

    /// A feed's loss, told up to 10^12.
    fn loss(&self, feed: u8) -> Result<u64, Refusal>
        ensures { result ≡ bank_loss (meaning self.now) feed };

    /// A feed's stamp (hi, lo) as a tick.
    fn read(&self, table: &LeapTable, feed: u8, stamp: (u64, u64)) -> Result<u64, Refusal>
        ensures { result ≡ bank_reads (meaning self.now) table.now feed stamp };

    /// A tick as a feed's stamp.
    fn show(&self, table: &LeapTable, feed: u8, tick: u64) -> Result<(u64, u64), Refusal>
        ensures { result ≡ bank_shows (meaning self.now) table.now feed tick };
}
