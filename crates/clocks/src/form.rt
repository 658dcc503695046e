// A form: it ties stamps, pairs of plain numbers, to counts.
ghost use Rattle.std.specs.Prelude.{◌≡◌, min};
ghost use Rattle.clocks.specs.Counts.{told_limit};
ghost use Rattle.clocks.specs.Forms.{FormMeaning, LawfulForm};

use leap::table::LeapTable;
use refusals::fault::Fault;

// Table, stamp and count come one by one: the table is lent for one question, and stamps stay plain pairs.
pub trait Form {
    // what it means, and the proof that this keeps the laws
    ghost meaning: { Self → FormMeaning };

    ghost lawful: { (s : Self) → LawfulForm (meaning s) };

    /// A stamp (hi, lo) as a count.
    fn read(&self, table: &LeapTable, stamp: (u64, u64)) -> Result<u64, Fault>
        ensures { result ≡ (meaning self.now).reads table.now stamp };

    /// A count as a stamp.
    fn show(&self, table: &LeapTable, count: u64) -> Result<(u64, u64), Fault>
        ensures { result ≡ (meaning self.now).shows table.now count };

    /// The loss, told up to 10^12.
    fn loss(&self) -> u64
        ensures { result ≡ min told_limit (meaning self.now).loss };
}
