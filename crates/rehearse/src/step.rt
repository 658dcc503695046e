// A step of UTC, and the moments around it.
ghost use Rattle.std.specs.Prelude.{◌*◌, ◌≤◌};
ghost use Rattle.clocks.specs.Counts.{Count};
ghost use Rattle.calendar.specs.Calendar.{last_day};
ghost use Rattle.leap.specs.Table.{day_seconds};

use calendar::date::Date;
use clocks::limits::SECOND;
use leap::limits::DAY_SECONDS;
use std::fmt;
use utc::limits::{WINDOW_LEAD, WINDOW_SECONDS};

/// What happens to the last second of a day. The numbers are those of a bulletin's changes.
#[derive(Clone, Copy, PartialEq, Eq, Debug)]
pub enum StepKind {
    Inserted = 1,
    Deleted = 2,
}

/// A step right before a date: TAI minus UTC is so many seconds before it, and so many after.
#[derive(Clone, Copy)]
pub struct Step {
    pub kind: StepKind,
    pub date: Date,
    pub before: u16,
    pub after: u16,
}

/// A tick, and what it is called.
#[derive(Clone, Copy)]
pub struct Moment {
    pub name: &'static str,
    pub tick: u64,
}

impl fmt::Display for StepKind {
    fn fmt<W: fmt::Write>(&self, f: &mut fmt::Formatter<W>) -> fmt::Result {
        f.pad(match self {
            StepKind::Inserted => "inserted",
            StepKind::Deleted => "deleted",
        })
    }
}

impl Step {
    // Midnight, where each day had 86,400 seconds.
    fn midnight(&self) -> u64
        ensures { result ≤ last_day * day_seconds }
    {
        u64::from(self.date.day_number()) * u64::from(DAY_SECONDS)
    }

    /// The tick at which an inserted second begins, or a deleted one would.
    pub fn tick(&self) -> u64
        ensures { Count result }
    {
        (self.midnight() + u64::from(self.before.min(self.after))) * SECOND
    }

    // The tick at which the window of smeared time opens.
    fn opens(&self) -> u64
        ensures { Count result }
    {
        // No step comes so early that its window would open before tick 0.
        (self.midnight() + u64::from(self.before)).saturating_sub(WINDOW_LEAD) * SECOND
    }

    /// The length of that window in TAI: it is longer than its smeared length by as much as the offset grows.
    pub fn window_seconds(&self) -> u64
        ensures { result ≤ 2 * day_seconds }
    {
        // Offsets are far smaller.
        (WINDOW_SECONDS + u64::from(self.after)).saturating_sub(u64::from(self.before))
    }

    /// In the order of time.
    pub fn moments(&self) -> [Moment; 9] {
        let step = self.tick();
        let opens = self.opens();
        let window = self.window_seconds() * SECOND;
        let moment = |name, tick| Moment { name, tick };
        [
            moment("opens", opens),
            moment("-3 s", step.saturating_sub(3 * SECOND)),
            moment("-2 s", step.saturating_sub(2 * SECOND)),
            moment("-1 s", step.saturating_sub(SECOND)),
            moment("step", step),
            moment("middle", opens + window / 2),
            moment("+1 s", step + SECOND),
            moment("+2 s", step + 2 * SECOND),
            moment("closes", opens + window),
        ]
    }
}

#[cfg(test)]
mod tests {
    use super::*;
    use std::test::Fail;

    // 2025-07-01 is the day 20,270: 20,270 * 86,400 = 1,751,328,000.
    #[test]
    fn moments_around_a_deleted_second(rt: HostRuntime) -> Result<(), Fail> {
        let step = Step {
            kind: StepKind::Deleted,
            date: Date::new(2025, 7, 1)?,
            before: 37,
            after: 36,
        };
        let ticks = step.moments().map(|moment| moment.tick);
        assert_eq!(rt;
            ticks,
            [
                1_751_284_837_000_000_000,
                1_751_328_033_000_000_000,
                1_751_328_034_000_000_000,
                1_751_328_035_000_000_000,
                1_751_328_036_000_000_000,
                1_751_328_036_500_000_000,
                1_751_328_037_000_000_000,
                1_751_328_038_000_000_000,
                1_751_371_236_000_000_000,
            ]
        );
        Ok(())
    }
}
