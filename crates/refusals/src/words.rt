// Refusals and faults in words, for people. Programs go by the numbers.
ghost use Rattle.std.specs.Prelude.{◌≡◌, Some};
ghost use Rattle.refusals.specs.Words.{cause_words, way_words, refusal_words, fault_words};

use crate::fault::{Cause, Fault, Way};
use crate::refusal::Refusal;
use std::error::Error;
use std::fmt;

impl Cause {
    fn words(self) -> &'static str
        ensures { result.now ≡ cause_words self }
    {
        match self {
            Cause::Field => "a field of the stamp is wrong",
            Cause::Window => "outside the window of a pivot, or the years 1970 to 2199",
            Cause::NoCount => "no count: not below 8*10^18",
            Cause::BeforeTable => "before the leap table's first entry",
            Cause::Expired => "from the leap table's expiry on",
            Cause::NoSuchSecond => "a second that its day does not have",
            Cause::InsertedSecond => "an inserted second, which POSIX has no number for",
            Cause::NotMultiple => "not a multiple of the clock's step",
        }
    }
}

impl Way {
    fn words(self) -> &'static str
        ensures { result.now ≡ way_words self }
    {
        match self {
            Way::Reading => "reading",
            Way::Showing => "showing",
        }
    }
}

impl Refusal {
    fn words(self) -> &'static str
        ensures { result.now ≡ refusal_words self }
    {
        match self {
            Refusal::Malformed => "the line is no frame",
            Refusal::FeedCount => "the bank has not 1 to 64 feeds",
            Refusal::ShortShelf => "the shelf has fewer slots than there are feeds",
            Refusal::NoFeed => "no feed has this number",
            Refusal::FeedClosed => "the feed is closing or closed",
            Refusal::FeedHolding => "the feed holds a record that was not taken yet",
            Refusal::Clock(fault) => fault.cause.words(),
            Refusal::Behind => "the tick lies before the last accepted one, whichever its feed",
            Refusal::LossTooLarge => "the feed's loss, as told, is 10^12",
            Refusal::NoneWaits { .. } => "no record waits, and a feed is idle",
            Refusal::AllClosed => "no record waits, and all feeds are closed or there are none",
            Refusal::BadChange => "a bulletin's change is above 2, or is 0 with a day other than 0",
            Refusal::BadExpiry =>
                "a bulletin's expiry lies before the present one, or after 84,006",
            Refusal::BadDay =>
                "a bulletin's day does not lie strictly between the two expiries, or is no first of a month",
            Refusal::TableLimit =>
                "the leap table has 64 entries, or the offset would leave 0 to 99",
        }
    }
}

impl fmt::Display for Cause {
    ghost output = { λ c. Some (cause_words c) };

    fn fmt<W: fmt::Write>(&self, f: &mut fmt::Formatter<W>) -> fmt::Result {
        f.pad(self.words())
    }
}

impl fmt::Display for Way {
    ghost output = { λ w. Some (way_words w) };

    fn fmt<W: fmt::Write>(&self, f: &mut fmt::Formatter<W>) -> fmt::Result {
        f.pad(self.words())
    }
}

impl fmt::Display for Refusal {
    ghost output = { λ r. Some (refusal_words r) };

    fn fmt<W: fmt::Write>(&self, f: &mut fmt::Formatter<W>) -> fmt::Result {
        f.pad(self.words())
    }
}

// The number first, then the rung, the way and the count, and why.
impl fmt::Display for Fault {
    ghost output = { λ f. Some (fault_words f) };

    fn fmt<W: fmt::Write>(&self, f: &mut fmt::Formatter<W>) -> fmt::Result {
        let Fault {
            cause,
            rung,
            way,
            count,
        } = *self;
        let number = cause.number();
        write!(f, "{number} by rung {rung}, {way} {count}: {cause}")
    }
}

impl Error for Fault {}

impl Error for Refusal {}
