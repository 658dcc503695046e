// The four calls of a joiner, and their replies, for records with bodies of any type.
use leap::bulletin::Bulletin;
use refusals::refusal::Refusal;

/// One call.
#[derive(Clone, Copy, PartialEq, Eq, Debug)]
pub enum Call<T> {
    /// a record of this feed: its stamp, as the feed's clock writes it, and its body
    Put {
        feed: u8,
        stamp: (u64, u64),
        body: T,
    },
    /// no more records of this feed
    Close {
        feed: u8,
    },
    /// the record that has waited longest
    Take,
    /// news of the leap table
    Renew(Bulletin),
}

/// A record that take hands out.
#[derive(Clone, Copy, PartialEq, Eq, Debug)]
pub struct Handed<T> {
    pub feed: u8,
    pub tick: u64,
    pub body: T,
}

/// What a call answered.
#[derive(Clone, Copy, PartialEq, Eq, Debug)]
pub enum Reply<T> {
    /// the record's tick
    Put(Result<u64, Refusal>),
    Close(Result<(), Refusal>),
    Take(Result<Handed<T>, Refusal>),
    Renew(Result<(), Refusal>),
}
