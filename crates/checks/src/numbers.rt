// The numbers that refusals, faults and actions go by.
use calls::event::{Action, UnknownAction};
use refusals::fault::{Cause, Fault, Way};
use refusals::refusal::Refusal;

const CAUSES: [(Cause, u8); 8] = [
    (Cause::Field, 7),
    (Cause::Window, 8),
    (Cause::NoCount, 9),
    (Cause::BeforeTable, 10),
    (Cause::Expired, 11),
    (Cause::NoSuchSecond, 12),
    (Cause::InsertedSecond, 13),
    (Cause::NotMultiple, 14),
];

#[test]
fn faults_have_the_numbers_from_7_to_14(rt: HostRuntime) {
    for (cause, number) in CAUSES {
        let fault = Fault {
            cause,
            rung: 0,
            way: Way::Reading,
            count: 0,
        };
        assert_eq!(rt; Refusal::Clock(fault).number(), number);
    }
    assert_eq!(rt; Way::Reading.number(), 0);
    assert_eq!(rt; Way::Showing.number(), 1);
}

#[test]
fn refusals_have_their_numbers(rt: HostRuntime) {
    let idle = Refusal::NoneWaits { idle: 6, feed: 0 };
    let all = [
        (Refusal::Malformed, 1),
        (Refusal::FeedCount, 2),
        (Refusal::ShortShelf, 3),
        (Refusal::NoFeed, 4),
        (Refusal::FeedClosed, 5),
        (Refusal::FeedHolding, 6),
        (Refusal::Behind, 15),
        (Refusal::LossTooLarge, 16),
        (idle, 17),
        (Refusal::AllClosed, 18),
        (Refusal::BadChange, 19),
        (Refusal::BadExpiry, 20),
        (Refusal::BadDay, 21),
        (Refusal::TableLimit, 22),
    ];
    for (refusal, number) in all {
        assert_eq!(rt; refusal.number(), number);
    }
}

#[test]
fn actions_have_the_codes_1_to_3(rt: HostRuntime) {
    let actions = [
        (Action::Taken, 1),
        (Action::GivenBack, 2),
        (Action::Denied, 3),
    ];
    for (action, code) in actions {
        assert_eq!(rt; u8::from(action), code);
        assert_eq!(rt; Action::try_from(code), Ok(action));
    }
    assert_eq!(rt; Action::try_from(0u8), Err(UnknownAction(0)));
    assert_eq!(rt; Action::try_from(4u8), Err(UnknownAction(4)));
}
