// Licence events.
use banks::beside::Beside;
use banks::scale::Scale;
use calls::call::Handed;
use calls::event::{Action, LicenceEvent};
use clocks::bank::Bank;
use forms::posix::Posix;
use joiner::joiner::Joiner;
use joiner::shelf::Shelf;
use leap::bulletin::Bulletin;
use order::state::FeedState;
use refusals::refusal::Refusal;
use rungs::coarse::Coarse;
use rungs::pile::Pile;
use rungs::tai::Tai;

type Clock = Scale<Posix, Tai>;

type Clocks = Beside<Clock, Clock>;

const CLOCK: Clock = Scale {
    form: Posix,
    rung: Tai,
};

const CLOCKS: Clocks = Beside {
    left: CLOCK,
    right: CLOCK,
};

const SECOND: u64 = 1_000_000_000;

// A joiner, and its shelf.
#[derive(Drop)]
struct Desk<'a, B> {
    joiner: Joiner<B>,
    shelf: Shelf<'a, LicenceEvent>,
}

impl<'a, B: Bank> Desk<'a, B> {
    fn new(bank: B, slots: &'a mut [LicenceEvent]) -> Desk<'a, B> {
        let shelf = Shelf::new(slots);
        Desk {
            joiner: Joiner::new(bank, &shelf),
            shelf,
        }
    }

    fn put(&mut self, feed: u8, stamp: (u64, u64), seat: u32) -> Result<u64, Refusal> {
        self.joiner.put(&mut self.shelf, feed, stamp, event(seat))
    }

    fn take(&mut self) -> Result<Handed<LicenceEvent>, Refusal> {
        self.joiner.take(&mut self.shelf)
    }
}

fn event(seat: u32) -> LicenceEvent {
    LicenceEvent {
        action: Action::Taken,
        seat,
        tool: 7,
    }
}

// A record as take gives it.
fn handed(feed: u8, tick: u64, seat: u32) -> Handed<LicenceEvent> {
    Handed {
        feed,
        tick,
        body: event(seat),
    }
}

#[test]
fn the_size_check_gives_2_before_3(rt: HostRuntime) {
    let mut one = [event(0); 1];
    let shelf = Shelf::new(&mut one);
    assert_eq!(rt;
        Joiner::check_size(&CLOCKS, &shelf),
        Err(Refusal::ShortShelf)
    );
    assert_eq!(rt; Joiner::check_size(&CLOCK, &shelf), Ok(()));
    let joiner = Joiner::new(CLOCKS, &shelf);
    assert_eq!(rt; joiner.feeds(), 0);
}

// A joiner without feeds never answers 3.
#[test]
fn a_joiner_without_feeds_has_4_and_18(rt: HostRuntime) {
    let mut none: [LicenceEvent; 0] = [];
    let mut desk = Desk::new(CLOCKS, &mut none);
    assert_eq!(rt; desk.put(0, (1, 0), 1), Err(Refusal::NoFeed));
    assert_eq!(rt; desk.joiner.close(0), Err(Refusal::NoFeed));
    assert_eq!(rt; desk.take(), Err(Refusal::AllClosed));
}

#[test]
fn records_leave_in_the_order_of_their_puts(rt: HostRuntime) {
    let mut slots = [event(0); 2];
    let mut desk = Desk::new(CLOCKS, &mut slots);
    assert_eq!(rt; desk.put(1, (5, 0), 1), Ok(5 * SECOND));
    assert_eq!(rt; desk.put(0, (5, 0), 2), Ok(5 * SECOND));
    assert_eq!(rt; desk.take(), Ok(handed(1, 5 * SECOND, 1)));
    assert_eq!(rt; desk.put(1, (4, 999_999_999), 3), Err(Refusal::Behind));
    assert_eq!(rt; desk.put(1, (6, 0), 4), Ok(6 * SECOND));
    assert_eq!(rt; desk.joiner.last_tick(), 6 * SECOND);
    assert_eq!(rt; desk.take(), Ok(handed(0, 5 * SECOND, 2)));
    assert_eq!(rt; desk.take(), Ok(handed(1, 6 * SECOND, 4)));
}

#[test]
fn feeds_go_through_their_states(rt: HostRuntime) {
    let mut slots = [event(0); 2];
    let mut desk = Desk::new(CLOCKS, &mut slots);
    assert_eq!(rt; desk.joiner.feed_state(0), Some(FeedState::Idle));
    assert_eq!(rt; desk.put(0, (5, 0), 1), Ok(5 * SECOND));
    assert_eq!(rt;
        desk.joiner.feed_state(0),
        Some(FeedState::Holding(5 * SECOND))
    );
    assert_eq!(rt; desk.put(0, (5, 0), 1), Err(Refusal::FeedHolding));
    assert_eq!(rt; desk.joiner.close(0), Ok(()));
    assert_eq!(rt;
        desk.joiner.feed_state(0),
        Some(FeedState::Closing(5 * SECOND))
    );
    assert_eq!(rt; desk.put(0, (5, 0), 1), Err(Refusal::FeedClosed));
    assert_eq!(rt; desk.joiner.close(0), Err(Refusal::FeedClosed));
    assert_eq!(rt; desk.take(), Ok(handed(0, 5 * SECOND, 1)));
    assert_eq!(rt; desk.joiner.feed_state(0), Some(FeedState::Closed));
    assert_eq!(rt; desk.joiner.feed_state(2), None);
}

#[test]
fn idle_feeds_are_counted(rt: HostRuntime) {
    let mut slots = [event(0); 2];
    let mut desk = Desk::new(CLOCKS, &mut slots);
    assert_eq!(rt; desk.joiner.close(0), Ok(()));
    assert_eq!(rt; desk.take(), Err(Refusal::NoneWaits { idle: 1, feed: 1 }));
    assert_eq!(rt; desk.joiner.close(1), Ok(()));
    assert_eq!(rt; desk.take(), Err(Refusal::AllClosed));
}

// Other slots that are too few are refused, and nothing is lost.
#[test]
fn a_short_shelf_is_refused(rt: HostRuntime) {
    let mut slots = [event(0); 2];
    let mut desk = Desk::new(CLOCKS, &mut slots);
    let mut few = [event(0); 1];
    let mut short = Shelf::new(&mut few);
    assert_eq!(rt; desk.put(0, (5, 0), 1), Ok(5 * SECOND));
    assert_eq!(rt;
        desk.joiner.put(&mut short, 9, (5, 0), event(1)),
        Err(Refusal::ShortShelf)
    );
    assert_eq!(rt; desk.joiner.take(&mut short), Err(Refusal::ShortShelf));
    assert_eq!(rt; desk.take(), Ok(handed(0, 5 * SECOND, 1)));
}

// A clock of steps of 10^13 ticks loses too much to be put to.
#[test]
fn a_loss_of_10_to_the_12th_is_refused(rt: HostRuntime) {
    let mut slots = [event(0); 1];
    let bank = Scale {
        form: Posix,
        rung: Pile {
            upper: Coarse::new(10_000_000_000_000),
            lower: Tai,
        },
    };
    let mut desk = Desk::new(bank, &mut slots);
    assert_eq!(rt; desk.put(0, (0, 0), 1), Err(Refusal::LossTooLarge));
    assert_eq!(rt; desk.joiner.last_tick(), 0);
}

#[test]
fn bulletins_renew_the_table_under_it(rt: HostRuntime) {
    let mut slots = [event(0); 2];
    let mut desk = Desk::new(CLOCKS, &mut slots);
    let news = Bulletin {
        change: 1,
        day: 20_089,
        expiry: 20_270,
    };
    assert_eq!(rt; desk.joiner.bulletin(news), Ok(()));
    assert_eq!(rt; desk.joiner.expiry(), 20_270);
    assert_eq!(rt; desk.joiner.bulletin(news), Err(Refusal::BadDay));
    assert_eq!(rt; desk.joiner.expiry(), 20_270);
    assert_eq!(rt; desk.joiner.show(1, 5 * SECOND + 7), Ok((5, 7)));
    assert_eq!(rt; desk.joiner.show(2, 5), Err(Refusal::NoFeed));
}
