// NTP stamps: hi seconds of an era, lo fractions of a second. The pivot says which era is meant.
ghost use Rattle.std.specs.Prelude.{◌≡◌, ℕ, ◌≤◌, ◌<◌, min, max};
ghost use Rattle.clocks.specs.Stamps.{ntp, era, ntp_1970, last_ntp_pivot, full, TheOne};
ghost use Rattle.clocks.proofs.Stamping.{ntp_lawful};

use crate::fields::checked;
use crate::window::Window;
use clocks::fault::counted;
use clocks::form::Form;
use clocks::limits::SECOND;
use leap::table::LeapTable;
use refusals::fault::{Fault, Way};

// Two to the 32nd: the seconds of an era, and the fractions of a second.
const ERA: u64 = 4_294_967_296;

// 1970-01-01 in seconds since 1900-01-01.
const NTP_1970: u64 = 2_208_988_800;

const LAST_PIVOT: u64 = 5_900_000_000;

/// NTP stamps, of the era that begins with the pivot.
// Ghost fields and no model: the laws hold for a pivot within its limits, and a model's value could be any number.
#[derive(Clone, Copy)]
pub struct Ntp {
    window: Window<ERA>,
    ghost low: { ntp_1970 ≤ window.pivot },
    ghost high: { window.pivot ≤ last_ntp_pivot },
}

impl Ntp {
    /// A pivot outside its limits becomes the nearest limit. Stamps are of the era that begins with the pivot: each hi has its one full second there.
    pub fn new(pivot: u64) -> Ntp
        ensures pivot { result.window.pivot ≡ min last_ntp_pivot (max ntp_1970 pivot) }
        ensures full { (hi : ℕ) → hi < era → TheOne era result.window.pivot hi (full era result.window.pivot hi) }
    {
        let pivot = pivot.clamp(NTP_1970, LAST_PIVOT);
        Ntp {
            window: Window { pivot },
        }
    }
}

impl Form for Ntp {
    ghost meaning = { λ s. ntp s.window.pivot };

    ghost lawful = { λ s. ntp_lawful s.window.pivot s.low s.high };

    fn read(&self, _table: &LeapTable, stamp: (u64, u64)) -> Result<u64, Fault> {
        let (hi, lo) = checked(stamp, (ERA, ERA))?;
        let seconds = self.window.full(hi) - NTP_1970;
        // rounded up: the fraction may carry into the next second
        let nanos = (lo * SECOND).div_ceil(ERA);
        Ok(seconds * SECOND + nanos)
    }

    fn show(&self, _table: &LeapTable, count: u64) -> Result<(u64, u64), Fault> {
        counted(Way::Showing, count)?;
        let hi = self.window.remainder(count / SECOND + NTP_1970, count)?;
        Ok((hi, count % SECOND * ERA / SECOND))
    }

    fn loss(&self) -> u64 {
        0
    }
}
