// The refusals of the calls.
ghost use Rattle.std.specs.Prelude.{◌≡◌};
ghost use Rattle.refusals.specs.Said.{clock_refusal};

use crate::fault::Fault;

/// Everything that a call may answer in place of a result, with the values that come with it.
#[derive(Clone, Copy, PartialEq, Eq, Debug)]
pub enum Refusal {
    /// 1: the line is no frame
    Malformed,
    /// 2: a bank that has not 1 to 64 feeds
    FeedCount,
    /// 3: fewer slots than feeds
    ShortShelf,
    /// 4: no feed has this number
    NoFeed,
    /// 5: the feed is closing or closed
    FeedClosed,
    /// 6: the feed holds a record that was not taken yet
    FeedHolding,
    /// 7 to 14: the feed's clock has no answer
    Clock(Fault),
    /// 15: the tick lies before the last accepted one
    Behind,
    /// 16: the feed's loss is 10^12 or more
    LossTooLarge,
    /// 17: no record waits and so many feeds are idle, this one among them
    NoneWaits { idle: u8, feed: u8 },
    /// 18: no record waits and all feeds are closed, or there are none
    AllClosed,
    /// 19: a bulletin's change is none of 0, 1 and 2, or is 0 with a day
    BadChange,
    /// 20: a bulletin's expiry lies before the present one, or after the last day
    BadExpiry,
    /// 21: a bulletin's day does not lie strictly between the expiries, or is no first of a month
    BadDay,
    /// 22: the leap table is full, or the offset would leave its range
    TableLimit,
}

// What a clock has no answer to is refused with its fault.
impl From<Fault> for Refusal {
    ghost from_gives = { λ fault refusal. refusal ≡ clock_refusal fault };

    fn from(fault: Fault) -> Refusal {
        Refusal::Clock(fault)
    }
}
