// The walk: what each clock shows at the moments around the step.
use crate::rehearsal::Rehearsal;
use crate::step::{Moment, Step, StepKind};
use readable::clock::Clock;
use readable::met::Met;
use readable::stamp::Stamp;

const LEGEND: [&str; 5] = [
    "tai, posix: seconds since 1970-01-01, as that clock counts them",
    "utc: date and time of day",
    "smear: as posix, in steps of a microsecond",
    "ntp: posix seconds, but since 1900-01-01, and the last 32 bits of them",
    "gps: weeks since 1980-01-06, the last ten bits of them, and milliseconds of the week",
];

// How wide a clock's column is.
fn width(clock: Clock) -> usize {
    match clock {
        Clock::Tai | Clock::Posix => 16,
        Clock::Utc => 25,
        Clock::Smear => 19,
        Clock::Ntp => 30,
        Clock::Gps => 0,
    }
}

impl Rehearsal<'_, '_> {
    pub fn walk(&self, step: &Step) -> anyhow::Result<()> {
        self.print_heading(step)?;
        let mut met = Met::new(self.rt.alloc());
        for moment in step.moments() {
            self.print_row(moment, &mut met)?;
        }
        println!(self.rt)?;
        for refusal in met.refusals.iter() {
            println!(self.rt; "refused {}: {refusal}", refusal.number())?;
        }
        self.print_legend(step)
    }

    fn print_heading(&self, step: &Step) -> anyhow::Result<()> {
        let Step { before, after, .. } = *step;
        println!(self.rt)?;
        print!(self.rt; "TAI minus UTC goes from {before} to {after} seconds. ")?;
        match step.kind {
            StepKind::Inserted => println!(self.rt; "The step is where 23:59:60 begins.")?,
            StepKind::Deleted => println!(self.rt;
                "The step is where 00:00:00 begins, right after 23:59:58: there is no 23:59:59."
            )?,
        }
        println!(self.rt)?;
        print!(self.rt; "{:<8}", "")?;
        for clock in Clock::ALL {
            let width = width(clock);
            print!(self.rt; "{clock:<width$}")?;
        }
        println!(self.rt)?;
        Ok(())
    }

    // What the clocks show at a tick. What they refuse is noted.
    fn print_row(&self, moment: Moment, met: &mut Met) -> anyhow::Result<()> {
        let Moment { name, tick } = moment;
        print!(self.rt; "{name:<8}")?;
        for clock in Clock::ALL {
            let cell = match self.joiner.show(clock.feed(), tick) {
                Ok(fields) => Stamp { clock, fields }.to_string(self.rt.alloc())?,
                Err(refusal) => {
                    met.note(refusal)?;
                    format!(in self.rt.alloc(); "refused {}", refusal.number())?
                }
            };
            let width = width(clock);
            print!(self.rt; "{cell:<width$}")?;
        }
        println!(self.rt)?;
        Ok(())
    }

    fn print_legend(&self, step: &Step) -> anyhow::Result<()> {
        let window = step.window_seconds();
        for line in LEGEND {
            println!(self.rt; "{line}")?;
        }
        println!(self.rt;
            "opens, middle, closes: the window of smeared time, {window} s of TAI for 86400 s of its own"
        )?;
        Ok(())
    }
}
