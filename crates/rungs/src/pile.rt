// A pile of two rungs, each of which may be a pile: a rung again.
ghost use Rattle.clocks.specs.Piles.{pile};
ghost use Rattle.clocks.proofs.Piles.{pile_lawful};

use clocks::fault::lower_by;
use clocks::limits::TOLD_LIMIT;
use clocks::rung::Rung;
use leap::table::LeapTable;
use refusals::fault::Fault;

/// One rung over another.
#[derive(Clone, Copy)]
pub struct Pile<U, V> {
    pub upper: U,
    pub lower: V,
}

impl<U: Rung, V: Rung> Rung for Pile<U, V> {
    ghost meaning = { λ s. pile (U.Rung.meaning s.upper) (V.Rung.meaning s.lower) };

    ghost lawful = { λ s. pile_lawful _ _ (U.Rung.lawful s.upper) (V.Rung.lawful s.lower) };

    fn read(&self, table: &LeapTable, count: u64) -> Result<u64, Fault> {
        let middle = self.upper.read(table, count)?;
        lower_by(self.upper.rungs(), self.lower.read(table, middle))
    }

    fn show(&self, table: &LeapTable, count: u64) -> Result<u64, Fault> {
        let above = self.upper.rungs();
        let middle = lower_by(above, self.lower.show(table, count))?;
        let own = self.upper.show(table, middle)?;
        let back = self.upper.read(table, own)?;
        lower_by(above, self.lower.read(table, back))?;
        Ok(own)
    }

    fn loss(&self) -> u64 {
        (self.lower.loss() + self.lower.spread(self.upper.loss())).min(TOLD_LIMIT)
    }

    fn spread(&self, length: u64) -> u64 {
        self.lower.spread(self.upper.spread(length))
    }

    fn rungs(&self) -> u8 {
        self.upper.rungs().saturating_add(self.lower.rungs())
    }
}
