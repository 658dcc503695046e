// The rehearsal: a joiner over the standard bank, and the bulletin that announces the step.
use crate::arguments::Plan;
use crate::step::{Step, StepKind};
use crate::words::Day;
use calls::event::LicenceEvent;
use joiner::joiner::Joiner;
use joiner::shelf::Shelf;
use leap::bulletin::Bulletin;
use leap::table::LeapTable;
use standard::bank::StandardBank;

// So many days after the step its bulletin lets the table expire: 26 weeks.
const HALF_YEAR: u32 = 182;

#[derive(Drop)]
pub struct Rehearsal<'r, 's> {
    pub rt: &'r HostRuntime,
    pub joiner: Joiner<StandardBank>,
    pub shelf: Shelf<'s, LicenceEvent>,
}

impl Rehearsal<'_, '_> {
    /// Issues the bulletin of a step, and gives the step where it was accepted.
    pub fn announce(&mut self, plan: Plan) -> anyhow::Result<Option<Step>> {
        let Plan { date, kind } = plan;
        let day = date.day_number();
        let old = self.joiner.expiry();
        // Never earlier than now: no bulletin takes back what is known.
        let bulletin = Bulletin {
            change: kind as u8,
            day,
            expiry: old.max(day + HALF_YEAR),
        };
        println!(self.rt; "The leap table expires on {}.", Day(old))?;
        println!(self.rt;
            "A bulletin: a second is {kind} right before {}, and the table is to expire on {}.",
            Day(day),
            Day(bulletin.expiry)
        )?;
        if let Err(refusal) = self.joiner.bulletin(bulletin) {
            println!(self.rt; "Refused {}: {refusal}.", refusal.number())?;
            println!(self.rt; "The table is as it was, so there is no step to rehearse.")?;
            return Ok(None);
        }
        println!(self.rt; "Accepted.")?;
        Ok(Some(step_of(bulletin, plan)))
    }
}

// The offsets around the step, from a table of our own: the joiner keeps its table to itself.
fn step_of(bulletin: Bulletin, plan: Plan) -> Step {
    let Plan { date, kind } = plan;
    let mut table = LeapTable::starting();
    let before = table.offset_on(bulletin.day);
    let _ = table.renew(bulletin);
    Step {
        kind,
        date,
        before,
        after: table.offset_on(bulletin.day),
    }
}
