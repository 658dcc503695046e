// Labels: counts with a number for each second of UTC, an inserted one too.
ghost use Rattle.std.specs.Prelude.{◌≡◌};
ghost use Rattle.utc.specs.Labels.{day_of, ticks_of};

use clocks::limits::SECOND;
use leap::limits::{DAY_SECONDS, LARGEST_STEP};

/// So many seconds at most are inserted at the end of a day.
pub const MOST_INSERTED: u64 = LARGEST_STEP as u64;

/// The seconds that a day has at most.
pub const LABEL_SECONDS: u64 = DAY_SECONDS as u64 + MOST_INSERTED;

/// From the first label of a day to the first of the next.
pub const LABEL_DAY: u64 = LABEL_SECONDS * SECOND;

/// The day of a label, and the ticks since that day's start.
pub fn parts(label: u64) -> (u32, u64)
    ensures day { result.0 ≡ day_of label }
    ensures ticks { result.1 ≡ ticks_of label }
{
    ((label / LABEL_DAY) as u32, label % LABEL_DAY)
}
