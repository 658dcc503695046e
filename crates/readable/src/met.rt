// The refusals that were met, each number once: what a legend below a table explains.
ghost use Rattle.std.specs.Prelude.{◌≡◌, [], OnErr, OnOk};
ghost use Rattle.readable.specs.Met.{has_number, noted};

use refusals::refusal::Refusal;
use std::alloc::{AllocError, Global};

/// One refusal of each number that was met, in the order of meeting.
#[derive(Drop)]
pub struct Met {
    pub refusals: Vec<Refusal>,
}

impl Met {
    /// None was met yet.
    pub fn new(alloc: Global) -> Met
        ensures { result.refusals.items ≡ [] }
    {
        Met {
            refusals: Vec::new(alloc),
        }
    }

    /// Notes a refusal, if none of its number was noted before. Without memory nothing is noted.
    pub fn note(&mut self, refusal: Refusal) -> Result<(), AllocError>
        ensures ok { OnOk result (self.new.refusals.items ≡ noted self.old.refusals.items refusal) }
        ensures err { OnErr result (self.new.refusals.items ≡ self.old.refusals.items) }
    {
        if !self.has(refusal.number()) {
            self.refusals.push(refusal)?;
        }
        Ok(())
    }

    // Whether one of this number was noted.
    fn has(&self, number: u8) -> bool
        ensures { result ≡ has_number self.now.refusals.items number }
    {
        self.refusals.iter().any(|met| met.number() == number)
    }
}
