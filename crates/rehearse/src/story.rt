// The story: what becomes of a seat, written by several clocks, goes through the step.
use crate::rehearsal::Rehearsal;
use crate::step::{Step, StepKind};
use crate::words::Apart;
use calls::call::Handed;
use calls::event::{Action, LicenceEvent};
use clocks::limits::SECOND;
use readable::clock::Clock;
use readable::stamp::Stamp;

const MILLISECOND: i64 = 1_000_000;

// An event that a clock's feed writes so many ticks after the step.
#[derive(Clone, Copy)]
struct Written {
    clock: Clock,
    since: i64,
    action: Action,
}

const IN_TIME: [Written; 5] = [
    Written {
        clock: Clock::Tai,
        since: -500 * MILLISECOND,
        action: Action::Taken,
    },
    Written {
        clock: Clock::Utc,
        since: 250 * MILLISECOND,
        action: Action::GivenBack,
    },
    Written {
        clock: Clock::Smear,
        since: 500 * MILLISECOND,
        action: Action::Taken,
    },
    Written {
        clock: Clock::Gps,
        since: 750 * MILLISECOND,
        action: Action::Denied,
    },
    Written {
        clock: Clock::Ntp,
        since: 1_000 * MILLISECOND,
        action: Action::GivenBack,
    },
];

const LATE: Written = Written {
    clock: Clock::Posix,
    since: -250 * MILLISECOND,
    action: Action::Denied,
};

/// What becomes of seat 42.
pub fn event(action: Action) -> LicenceEvent {
    LicenceEvent {
        action,
        seat: 42,
        tool: 7,
    }
}

impl Rehearsal<'_, '_> {
    pub fn play(&mut self, step: &Step) -> anyhow::Result<()> {
        println!(self.rt)?;
        println!(self.rt;
            "What becomes of seat 42, as the feeds write it and the joiner answers:"
        )?;
        if step.kind == StepKind::Deleted {
            self.put_missing(step)?;
        }
        for written in IN_TIME {
            self.put_at(step, written)?;
        }
        println!(self.rt; "and one of before the step that comes late:")?;
        self.put_at(step, LATE)?;
        println!(self.rt)?;
        println!(self.rt; "The order in which the joiner hands it out:")?;
        self.take_all(step)
    }

    // An event, with the stamp that its feed shows at its tick.
    fn put_at(&mut self, step: &Step, written: Written) -> anyhow::Result<()> {
        let Written {
            clock,
            since,
            action,
        } = written;
        let tick = step.tick().saturating_add_signed(since);
        match self.joiner.show(clock.feed(), tick) {
            Ok(fields) => self.put(Stamp { clock, fields }, action),
            Err(refusal) => {
                println!(self.rt;
                    "  {clock:<9}has no stamp at that moment: refused {}: {refusal}",
                    refusal.number()
                )?;
                Ok(())
            }
        }
    }

    // An event that a civil clock dates into the second that is left out.
    fn put_missing(&mut self, step: &Step) -> anyhow::Result<()> {
        let clock = Clock::Utc;
        if let Ok((hi, lo)) = self
            .joiner
            .show(clock.feed(), step.tick().saturating_sub(SECOND / 2))
        {
            self.put(
                Stamp {
                    clock,
                    fields: (hi, lo.saturating_add(SECOND)),
                },
                Action::Denied,
            )?;
        }
        Ok(())
    }

    fn put(&mut self, stamp: Stamp, action: Action) -> anyhow::Result<()> {
        let Stamp { clock, fields } = stamp;
        let text = format!(in self.rt.alloc(); "{stamp}")?;
        print!(self.rt; "  {clock:<9}{text:<25}{action:<11}")?;
        match self
            .joiner
            .put(&mut self.shelf, clock.feed(), fields, event(action))
        {
            Ok(tick) => println!(self.rt; "accepted, TAI tick {tick}")?,
            Err(refusal) => println!(self.rt; "refused {}: {refusal}", refusal.number())?,
        }
        Ok(())
    }

    // Takes until none waits: each feed holds one record at most.
    fn take_all(&mut self, step: &Step) -> anyhow::Result<()> {
        for place in 1..=Clock::ALL.len() {
            match self.joiner.take(&mut self.shelf) {
                Ok(handed) => self.print_handed(step, place, handed)?,
                Err(refusal) => {
                    println!(self.rt; "Then refused {}: {refusal}.", refusal.number())?;
                    break;
                }
            }
        }
        Ok(())
    }

    fn print_handed(
        &self,
        step: &Step,
        place: usize,
        handed: Handed<LicenceEvent>,
    ) -> anyhow::Result<()> {
        let Handed { feed, tick, body } = handed;
        let LicenceEvent { action, seat, tool } = body;
        let apart = Apart {
            step: step.tick(),
            tick,
        };
        print!(self.rt; "  {place}. {apart}: seat {seat} of tool {tool} was {action}")?;
        match Clock::ALL.get(usize::from(feed)) {
            Some(clock) => println!(self.rt; ", by the {clock} clock")?,
            None => println!(self.rt)?,
        }
        Ok(())
    }
}
