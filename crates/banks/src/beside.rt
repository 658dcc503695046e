// Two banks side by side: the feeds of the left come first.
ghost use Rattle.std.specs.Prelude.{◌≡◌};
ghost use Rattle.banks.specs.Sides.{side_of};
ghost use Rattle.clocks.specs.Banks.{beside};
ghost use Rattle.clocks.proofs.Besides.{beside_lawful};

use clocks::bank::Bank;
use clocks::limits::MOST_FEEDS;
use leap::table::LeapTable;
use refusals::refusal::Refusal;

/// Two banks side by side.
#[derive(Clone, Copy)]
pub struct Beside<A, B> {
    pub left: A,
    pub right: B,
}

// The bank of a feed, and the feed's number there. (A closure for each bank would be no plainer than the match: the banks have two types.)
enum Side {
    Left(u8),
    Right(u8),
}

impl<A: Bank, B: Bank> Beside<A, B> {
    fn side(&self, feed: u8) -> Result<Side, Refusal>
        ensures { result ≡ side_of (A.Bank.meaning self.now.left).feeds feed }
    {
        if feed >= MOST_FEEDS {
            return Err(Refusal::NoFeed);
        }
        let lefts = self.left.feeds();
        if feed < lefts {
            Ok(Side::Left(feed))
        } else {
            Ok(Side::Right(feed - lefts))
        }
    }
}

impl<A: Bank, B: Bank> Bank for Beside<A, B> {
    ghost meaning = { λ s. beside (A.Bank.meaning s.left) (B.Bank.meaning s.right) };

    ghost lawful = { λ s. beside_lawful _ _ (A.Bank.lawful s.left) (B.Bank.lawful s.right) };

    fn feeds(&self) -> u8 {
        (self.left.feeds() + self.right.feeds()).min(MOST_FEEDS + 1)
    }

    fn loss(&self, feed: u8) -> Result<u64, Refusal> {
        match self.side(feed)? {
            Side::Left(feed) => self.left.loss(feed),
            Side::Right(feed) => self.right.loss(feed),
        }
    }

    fn read(&self, table: &LeapTable, feed: u8, stamp: (u64, u64)) -> Result<u64, Refusal> {
        match self.side(feed)? {
            Side::Left(feed) => self.left.read(table, feed, stamp),
            Side::Right(feed) => self.right.read(table, feed, stamp),
        }
    }

    fn show(&self, table: &LeapTable, feed: u8, tick: u64) -> Result<(u64, u64), Refusal> {
        match self.side(feed)? {
            Side::Left(feed) => self.left.show(table, feed, tick),
            Side::Right(feed) => self.right.show(table, feed, tick),
        }
    }
}
