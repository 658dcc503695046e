// Banks: feeds side by side.
use crate::answers::{read_fault, show_fault};
use banks::beside::Beside;
use banks::scale::Scale;
use clocks::bank::Bank;
use clocks::form::Form;
use clocks::rung::Rung;
use forms::gps::Gps;
use forms::ntp::Ntp;
use forms::posix::Posix;
use leap::table::LeapTable;
use refusals::fault::Cause;
use refusals::refusal::Refusal;
use rungs::coarse::Coarse;
use rungs::offset::Offset;
use rungs::tai::Tai;
use std::process::Abort;

const POSIX: Scale<Posix, Tai> = Scale {
    form: Posix,
    rung: Tai,
};

// Feed, stamp, tick and loss.
const KNOWN: [(u8, (u64, u64), u64, u64); 3] = [
    (0, (1_483_228_837, 5), 1_483_228_837_000_000_005, 0),
    (1, (906, 18_000), 1_483_228_837_000_000_000, 999_999),
    (
        2,
        (3_692_217_600, 2_147_483_648),
        1_483_228_800_500_000_000,
        999,
    ),
];

// The first number that has no feed, and others.
const NO_FEEDS: [u8; 5] = [3, 63, 64, 65, 255];

// POSIX is feed 0, GPS feed 1 and NTP feed 2, however they are put together.
fn answers_as_three<B: Bank>(rt: &impl Abort, bank: &B) {
    let table = LeapTable::starting();
    assert_eq!(rt; bank.feeds(), 3);
    for (feed, stamp, tick, loss) in KNOWN {
        assert_eq!(rt; bank.read(&table, feed, stamp), Ok(tick));
        assert_eq!(rt; bank.show(&table, feed, tick), Ok(stamp));
        assert_eq!(rt; bank.loss(feed), Ok(loss));
    }
    let not_multiple = read_fault(Cause::NotMultiple, 1, 1_483_228_800_000_000_001);
    assert_eq!(rt;
        bank.read(&table, 2, (3_692_217_600, 4)),
        Err(Refusal::Clock(not_multiple))
    );
    let no_count = show_fault(Cause::NoCount, 1, 0);
    assert_eq!(rt; bank.show(&table, 1, 0), Err(Refusal::Clock(no_count)));
    for feed in NO_FEEDS {
        has_no_feed(rt, bank, feed);
    }
}

// By its number alone: the stamp is wrong too.
fn has_no_feed<B: Bank>(rt: &impl Abort, bank: &B, feed: u8) {
    let table = LeapTable::starting();
    assert_eq!(rt;
        bank.read(&table, feed, (u64::MAX, u64::MAX)),
        Err(Refusal::NoFeed)
    );
    assert_eq!(rt; bank.show(&table, feed, u64::MAX), Err(Refusal::NoFeed));
    assert_eq!(rt; bank.loss(feed), Err(Refusal::NoFeed));
}

#[test]
fn three_feeds_are_numbered_from_the_left(rt: HostRuntime) {
    let gps = Scale {
        form: Gps::new(1_800),
        rung: Offset::new(315_964_819_000_000_000),
    };
    let ntp = Scale {
        form: Ntp::new(3_155_673_600),
        rung: Coarse::new(1_000),
    };
    answers_as_three(
        &rt,
        &Beside {
            left: POSIX,
            right: Beside {
                left: gps,
                right: ntp,
            },
        },
    );
    answers_as_three(
        &rt,
        &Beside {
            left: Beside {
                left: POSIX,
                right: gps,
            },
            right: ntp,
        },
    );
}

// A bank twice and one feed more: of 63 feeds after five times, if it had one.
fn grown<B: Bank + Copy>(bank: B) -> Beside<Beside<B, B>, Scale<Posix, Tai>> {
    Beside {
        left: Beside {
            left: bank,
            right: bank,
        },
        right: POSIX,
    }
}

// Feed 63 is 7 ticks behind, and no other is.
fn beside_sixty_three<B: Bank + Copy>(rt: &impl Abort, many: B) {
    let table = LeapTable::starting();
    let behind = Scale {
        form: Posix,
        rung: Offset::new(7),
    };
    assert_eq!(rt; many.feeds(), 63);
    assert_eq!(rt;
        Beside {
            left: many,
            right: behind,
        }
        .feeds(),
        64
    );
    let bank = Beside {
        left: many,
        right: Beside {
            left: behind,
            right: many,
        },
    };
    assert_eq!(rt; bank.feeds(), 65);
    assert_eq!(rt; bank.read(&table, 62, (0, 1)), Ok(1));
    assert_eq!(rt; bank.read(&table, 63, (0, 1)), Ok(8));
    assert_eq!(rt; bank.show(&table, 63, 8), Ok((0, 1)));
    for feed in [64, 65, 126, 255] {
        has_no_feed(rt, &bank, feed);
    }
}

// From 7 feeds to 63, in a function of its own: the borrow checker covers no function that uses all these types.
fn beside_sixty_three_from_seven<B: Bank + Copy>(rt: &impl Abort, seven: B) {
    beside_sixty_three(rt, grown(grown(grown(seven))));
}

// 127 feeds in a deep nest.
#[test]
fn the_last_feed_of_use_is_63(rt: HostRuntime) {
    beside_sixty_three_from_seven(&rt, grown(grown(POSIX)));
}
