// A rung: one step between two kinds of counts.
ghost use Rattle.std.specs.Prelude.{◌≡◌, min};
ghost use Rattle.clocks.specs.Counts.{told_limit, rungs_limit};
ghost use Rattle.clocks.specs.Rungs.{RungMeaning, LawfulRung};

use leap::table::LeapTable;
use refusals::fault::Fault;

// Three rungs write the same `spread` and `rungs`: a body here would be proved for every meaning, and so could not say the own one. Table and count come one by one, as the table is lent for one question.
pub trait Rung {
    // what it means, and the proof that this keeps the laws
    ghost meaning: { Self → RungMeaning };

    ghost lawful: { (s : Self) → LawfulRung (meaning s) };

    /// An own count as a count below.
    fn read(&self, table: &LeapTable, count: u64) -> Result<u64, Fault>
        ensures { result ≡ (meaning self.now).reads table.now count };

    /// A count below as an own count.
    fn show(&self, table: &LeapTable, count: u64) -> Result<u64, Fault>
        ensures { result ≡ (meaning self.now).shows table.now count };

    /// The loss, told up to 10^12.
    fn loss(&self) -> u64
        ensures { result ≡ min told_limit (meaning self.now).loss };

    /// The spread of a length, told up to 10^12.
    fn spread(&self, length: u64) -> u64
        ensures { result ≡ min told_limit ((meaning self.now).spread length) };

    /// The number of rungs, told up to 255.
    fn rungs(&self) -> u8
        ensures { result ≡ min rungs_limit (meaning self.now).rungs };
}
