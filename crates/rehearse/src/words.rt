// Days, and the ticks around a step, as a person reads them.
use calendar::date::Date;
use clocks::limits::SECOND;
use readable::stamp::Nanos;
use std::fmt;

/// A day, counted from 1970-01-01.
#[derive(Clone, Copy)]
pub struct Day(pub u32);

/// How long before or after a step a tick lies.
#[derive(Clone, Copy)]
pub struct Apart {
    pub step: u64,
    pub tick: u64,
}

impl fmt::Display for Day {
    fn fmt<W: fmt::Write>(&self, f: &mut fmt::Formatter<W>) -> fmt::Result {
        let number = self.0;
        match Date::of_day(number) {
            Some(date) => {
                let (year, month, day) = (date.year(), date.month(), date.day());
                write!(f, "{year:04}-{month:02}-{day:02} (day {number})")
            }
            None => write!(f, "day {number}"),
        }
    }
}

impl fmt::Display for Apart {
    fn fmt<W: fmt::Write>(&self, f: &mut fmt::Formatter<W>) -> fmt::Result {
        let length = self.tick.abs_diff(self.step);
        let seconds = length / SECOND;
        let nanos = Nanos(length % SECOND);
        if self.tick < self.step {
            write!(f, "{seconds}{nanos} s before the step")
        } else {
            write!(f, "{seconds}{nanos} s after the step")
        }
    }
}
