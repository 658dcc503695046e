// The six clocks side by side.
use crate::grid::Row;
use leap::table::LeapTable;
use readable::clock::Clock;
use readable::met::Met;
use readable::stamp::Stamp;
use std::alloc::{AllocError, Global};

#[derive(Drop)]
pub(crate) struct Wall {
    alloc: Global,
    table: LeapTable,
    met: Met,
}

impl Wall {
    pub(crate) fn new(alloc: Global, table: LeapTable) -> Wall {
        Wall {
            alloc,
            table,
            met: Met::new(alloc),
        }
    }

    pub(crate) fn head(&self) -> Result<Row, AllocError> {
        let mut row = vec![in self.alloc; String::from_str(self.alloc, "tick")?]?;
        for clock in Clock::ALL {
            row.push(clock.to_string(self.alloc)?)?;
        }
        Ok(row)
    }

    // A tick, and what each clock shows at it.
    pub(crate) fn row(&mut self, tick: u64) -> Result<Row, AllocError> {
        let mut row = vec![in self.alloc; tick.to_string(self.alloc)?]?;
        for clock in Clock::ALL {
            row.push(self.cell(clock, tick)?)?;
        }
        Ok(row)
    }

    fn cell(&mut self, clock: Clock, tick: u64) -> Result<String, AllocError> {
        match Stamp::of(clock, &self.table, tick) {
            Ok(stamp) => stamp.to_string(self.alloc),
            Err(refusal) => {
                self.met.note(refusal)?;
                format!(in self.alloc; "refused {}", refusal.number())
            }
        }
    }

    // What the columns hold, and why a clock refused.
    pub(crate) fn print_legend(&self, rt: &impl Print) -> anyhow::Result<()> {
        println!(rt; "  tick        TAI ticks: nanoseconds since 1970-01-01 00:00:00")?;
        for clock in Clock::ALL {
            println!(rt; "  {clock:<10}  {}", meaning(clock))?;
        }
        for refusal in &self.met.refusals {
            println!(rt; "  refused {:<2}  {refusal}", refusal.number())?;
        }
        Ok(())
    }
}

// What a clock's stamps are.
fn meaning(clock: Clock) -> &'static str {
    match clock {
        Clock::Tai => "seconds of atomic time since 1970-01-01 00:00:00",
        Clock::Utc => "date and time of day, with the inserted second",
        Clock::Posix => "seconds since 1970-01-01 00:00:00, at 86,400 seconds a day",
        Clock::Smear => "the same, with an inserted second spread from noon to noon",
        Clock::Ntp => "seconds since 1900-01-01 00:00:00, at 86,400 seconds a day",
        Clock::Gps => "week of a turn of 1,024, and milliseconds of the week",
    }
}
