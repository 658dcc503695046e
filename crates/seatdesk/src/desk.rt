// The seat desk: a joiner on its shelf, which tells each call and its answer.
use crate::Clocks;
use calls::call::Handed;
use calls::event::{Action, LicenceEvent};
use joiner::joiner::Joiner;
use joiner::shelf::Shelf;
use leap::bulletin::Bulletin;
use refusals::refusal::Refusal;

/// 2017-01-01 09:00:00 on the TAI clock.
pub const NINE: u64 = 1_483_261_200;

#[derive(Drop)]
pub struct Desk<'a> {
    pub rt: &'a HostRuntime,
    pub joiner: Joiner<Clocks>,
    pub shelf: Shelf<'a, LicenceEvent>,
}

/// What becomes of seat 42.
pub fn event(action: Action) -> LicenceEvent {
    LicenceEvent {
        action,
        seat: 42,
        tool: 7,
    }
}

impl Desk<'_> {
    pub fn put(&mut self, feed: u8, seconds: u64, action: Action) -> anyhow::Result<()> {
        let since = seconds.saturating_sub(NINE);
        print!(self.rt; "put   feed {feed}, {since:3} s after nine, seat 42 {action}: ")?;
        match self
            .joiner
            .put(&mut self.shelf, feed, (seconds, 0), event(action))
        {
            Ok(tick) => println!(self.rt; "accepted at tick {tick}")?,
            Err(refusal) => self.refused(refusal)?,
        }
        Ok(())
    }

    pub fn take(&mut self) -> anyhow::Result<()> {
        print!(self.rt; "take  ")?;
        match self.joiner.take(&mut self.shelf) {
            Ok(handed) => self.given(handed)?,
            Err(refusal) => self.refused(refusal)?,
        }
        Ok(())
    }

    pub fn close(&mut self, feed: u8) -> anyhow::Result<()> {
        print!(self.rt; "close feed {feed}: ")?;
        match self.joiner.close(feed) {
            Ok(()) => println!(self.rt; "done")?,
            Err(refusal) => self.refused(refusal)?,
        }
        Ok(())
    }

    pub fn renew(&mut self, bulletin: Bulletin) -> anyhow::Result<()> {
        print!(self.rt; "bulletin, a second inserted before day {}: ", bulletin.day)?;
        match self.joiner.bulletin(bulletin) {
            Ok(()) => println!(self.rt;
                "accepted, the table now expires on day {}",
                self.joiner.expiry()
            )?,
            Err(refusal) => self.refused(refusal)?,
        }
        Ok(())
    }

    fn given(&self, handed: Handed<LicenceEvent>) -> anyhow::Result<()> {
        let Handed { feed, tick, body } = handed;
        let LicenceEvent { action, seat, tool } = body;
        println!(self.rt; "feed {feed}, tick {tick}: seat {seat} of tool {tool} was {action}")?;
        Ok(())
    }

    fn refused(&self, refusal: Refusal) -> anyhow::Result<()> {
        println!(self.rt; "refused {}, {refusal}", refusal.number())?;
        Ok(())
    }
}
