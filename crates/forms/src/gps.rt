// GPS stamps: hi the week of a turn of 1,024, lo milliseconds of the week. The pivot week says which turn is meant.
ghost use Rattle.std.specs.Prelude.{◌≡◌, ℕ, ◌≤◌, ◌<◌, min};
ghost use Rattle.clocks.specs.Stamps.{gps, gps_turn, last_gps_pivot, full, TheOne};
ghost use Rattle.clocks.proofs.Stamping.{gps_lawful};

use crate::fields::checked;
use crate::window::Window;
use clocks::fault::counted;
use clocks::form::Form;
use leap::table::LeapTable;
use refusals::fault::{Fault, Way};

// The weeks of a turn.
const TURN: u64 = 1_024;

const WEEK_MILLIS: u64 = 604_800_000;

// A week and a millisecond in ticks.
const WEEK: u64 = 604_800_000_000_000;

const MILLISECOND: u64 = 1_000_000;

const LAST_PIVOT: u64 = 10_000;

/// GPS stamps, of the turn that begins with the pivot week.
// A ghost field and no model: the laws hold for a pivot up to its limit, and a model's value could be any number.
#[derive(Clone, Copy)]
pub struct Gps {
    window: Window<TURN>,
    ghost high: { window.pivot ≤ last_gps_pivot },
}

impl Gps {
    /// A pivot outside its limits becomes the nearest limit. Stamps are of the turn that begins with the pivot: each hi has its one full week there.
    pub fn new(pivot: u64) -> Gps
        ensures pivot { result.window.pivot ≡ min last_gps_pivot pivot }
        ensures full { (hi : ℕ) → hi < gps_turn → TheOne gps_turn result.window.pivot hi (full gps_turn result.window.pivot hi) }
    {
        let pivot = pivot.min(LAST_PIVOT);
        Gps {
            window: Window { pivot },
        }
    }
}

impl Form for Gps {
    ghost meaning = { λ s. gps s.window.pivot };

    ghost lawful = { λ s. gps_lawful s.window.pivot s.high };

    fn read(&self, _table: &LeapTable, stamp: (u64, u64)) -> Result<u64, Fault> {
        let (hi, millis) = checked(stamp, (TURN, WEEK_MILLIS))?;
        Ok(self.window.full(hi) * WEEK + millis * MILLISECOND)
    }

    fn show(&self, _table: &LeapTable, count: u64) -> Result<(u64, u64), Fault> {
        counted(Way::Showing, count)?;
        let hi = self.window.remainder(count / WEEK, count)?;
        Ok((hi, count % WEEK / MILLISECOND))
    }

    fn loss(&self) -> u64 {
        999_999
    }
}
