// A scale: a form over a rung. It is a bank of one feed too.
ghost use Rattle.std.specs.Prelude.{◌≡◌, cond, min, nat_lt};
ghost use Rattle.clocks.specs.Counts.{told_limit};
ghost use Rattle.clocks.specs.Banks.{one_scale};
ghost use Rattle.clocks.specs.Scales.{scale};
ghost use Rattle.clocks.proofs.Besides.{one_lawful};
ghost use Rattle.clocks.proofs.Scales.{scale_lawful};

use clocks::bank::Bank;
use clocks::fault::lower_by;
use clocks::form::Form;
use clocks::limits::TOLD_LIMIT;
use clocks::rung::Rung;
use leap::table::LeapTable;
use refusals::fault::Fault;
use refusals::refusal::Refusal;

/// A form over a rung.
#[derive(Clone, Copy)]
pub struct Scale<F, R> {
    pub form: F,
    pub rung: R,
}

impl<F: Form, R: Rung> Scale<F, R> {
    /// A stamp (hi, lo) as a tick.
    pub fn read_stamp(&self, table: &LeapTable, stamp: (u64, u64)) -> Result<u64, Fault>
        ensures { result ≡ (scale (F.Form.meaning self.now.form) (R.Rung.meaning self.now.rung)).reads table.now stamp }
    {
        let count = self.form.read(table, stamp)?;
        lower_by(1, self.rung.read(table, count))
    }

    /// A tick as a stamp. What is shown must be read again.
    // These are the steps of a pile: one function for both would take four closures.
    pub fn show_tick(&self, table: &LeapTable, tick: u64) -> Result<(u64, u64), Fault>
        ensures { result ≡ (scale (F.Form.meaning self.now.form) (R.Rung.meaning self.now.rung)).shows table.now tick }
    {
        let count = lower_by(1, self.rung.show(table, tick))?;
        let stamp = self.form.show(table, count)?;
        let back = self.form.read(table, stamp)?;
        lower_by(1, self.rung.read(table, back))?;
        Ok(stamp)
    }

    /// The loss, told up to 10^12.
    pub fn told_loss(&self) -> u64
        ensures { result ≡ min told_limit (scale (F.Form.meaning self.now.form) (R.Rung.meaning self.now.rung)).loss }
    {
        (self.rung.loss() + self.rung.spread(self.form.loss())).min(TOLD_LIMIT)
    }
}

// The only feed is 0.
fn check_feed(feed: u8) -> Result<(), Refusal>
    ensures { result ≡ cond (nat_lt 0 feed) (Err Refusal.NoFeed) (Ok tt) }
{
    if feed > 0 {
        return Err(Refusal::NoFeed);
    }
    Ok(())
}

impl<F: Form, R: Rung> Bank for Scale<F, R> {
    ghost meaning = { λ s. one_scale (scale (F.Form.meaning s.form) (R.Rung.meaning s.rung)) };

    ghost lawful = { λ s. one_lawful _ (scale_lawful _ _ (F.Form.lawful s.form) (R.Rung.lawful s.rung)) };

    fn feeds(&self) -> u8 {
        1
    }

    fn loss(&self, feed: u8) -> Result<u64, Refusal> {
        check_feed(feed)?;
        Ok(self.told_loss())
    }

    fn read(&self, table: &LeapTable, feed: u8, stamp: (u64, u64)) -> Result<u64, Refusal> {
        check_feed(feed)?;
        Ok(self.read_stamp(table, stamp)?)
    }

    fn show(&self, table: &LeapTable, feed: u8, tick: u64) -> Result<(u64, u64), Refusal> {
        check_feed(feed)?;
        Ok(self.show_tick(table, tick)?)
    }
}
