// The numbers that refusals go by.
ghost use Rattle.std.specs.Prelude.{◌≡◌};
ghost use Rattle.refusals.specs.Said.{said, cause_number, way_number};

use crate::fault::{Cause, Way};
use crate::refusal::Refusal;

// Methods and no `From`: `refusal.number()` says what the number is, and `u8::from(refusal)` does not.
impl Cause {
    pub fn number(self) -> u8
        ensures { result ≡ cause_number self }
    {
        match self {
            Cause::Field => 7,
            Cause::Window => 8,
            Cause::NoCount => 9,
            Cause::BeforeTable => 10,
            Cause::Expired => 11,
            Cause::NoSuchSecond => 12,
            Cause::InsertedSecond => 13,
            Cause::NotMultiple => 14,
        }
    }
}

impl Way {
    pub fn number(self) -> u8
        ensures { result ≡ way_number self }
    {
        match self {
            Way::Reading => 0,
            Way::Showing => 1,
        }
    }
}

impl Refusal {
    pub fn number(self) -> u8
        ensures { result ≡ (said self).number }
    {
        match self {
            Refusal::Malformed => 1,
            Refusal::FeedCount => 2,
            Refusal::ShortShelf => 3,
            Refusal::NoFeed => 4,
            Refusal::FeedClosed => 5,
            Refusal::FeedHolding => 6,
            Refusal::Clock(fault) => fault.cause.number(),
            Refusal::Behind => 15,
            Refusal::LossTooLarge => 16,
            Refusal::NoneWaits { .. } => 17,
            Refusal::AllClosed => 18,
            Refusal::BadChange => 19,
            Refusal::BadExpiry => 20,
            Refusal::BadDay => 21,
            Refusal::TableLimit => 22,
        }
    }
}
