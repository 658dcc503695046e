// A joiner over a bank.
ghost use Rattle.std.specs.Prelude.{◌≤◌, length};
ghost use Rattle.leap.specs.Table.{Sound};
ghost use Rattle.clocks.specs.Counts.{most_feeds};
ghost use Rattle.order.specs.Queue.{Queued, Counted};

use crate::feeds::{Feeds, PLACES};
use crate::queue::Queue;
use leap::table::LeapTable;

/// A joiner: its bank, its leap table, the feeds' states, the queue of feeds whose records wait, and the last accepted tick.
// No model: of its fields contracts name one, the bank, and `state_of` sums up the others. A model with the bank in its value would name both in each clause.
// `kept` stands in the contract of each call: it is short, and an inner struct without the bank would have each contract twice.
#[derive(Drop)]
pub struct Joiner<B> {
    pub(crate) bank: B,
    pub(crate) table: LeapTable,
    pub(crate) feeds: Feeds,
    pub(crate) queue: Queue<PLACES>,
    // the last accepted tick, whichever its feed; 0 before the first, and no Option: no tick is less, so the test for one that falls has no other case
    pub(crate) last: u64,
    // the first two are said here too, since callers see no invariant of the models of the table and the feeds: joiner_sound and joiner_few of proofs/Always tell them of every joiner
    ghost sound: { ∥ Sound table ∥₁ },
    ghost few: { length feeds ≤ most_feeds },
    ghost counted: { Counted feeds (length queue) },
    ghost queued: { Queued feeds queue },
}
