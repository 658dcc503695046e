// Piles of three rungs: a coarse clock of step 5 over an offset of 5 over a coarse clock of step 2.
use crate::answers::{NO_COUNT, read_fault, rung_answers, show_fault};
use clocks::rung::Rung;
use refusals::fault::{Cause, Fault};
use rungs::coarse::Coarse;
use rungs::offset::Offset;
use rungs::pile::Pile;
use rungs::tai::Tai;

// Faults from the top, the middle and the bottom: rung 0, 1 and 2, with the count that the rung was handed.
fn reads() -> [(u64, Result<u64, Fault>); 7] {
    [
        (5, Ok(10)),
        (15, Ok(20)),
        (NO_COUNT, Err(read_fault(Cause::NoCount, 0, NO_COUNT))),
        (4, Err(read_fault(Cause::NotMultiple, 0, 4))),
        (
            7_999_999_999_999_999_995,
            Err(read_fault(Cause::NoCount, 1, 7_999_999_999_999_999_995)),
        ),
        (0, Err(read_fault(Cause::NotMultiple, 2, 5))),
        (10, Err(read_fault(Cause::NotMultiple, 2, 15))),
    ]
}

fn shows() -> [(u64, Result<u64, Fault>); 7] {
    [
        (10, Ok(5)),
        (12, Ok(5)),
        (21, Ok(15)),
        (NO_COUNT, Err(show_fault(Cause::NoCount, 2, NO_COUNT))),
        (4, Err(show_fault(Cause::NoCount, 1, 4))),
        (5, Err(show_fault(Cause::NoCount, 1, 4))),
        // 8 is 8 below, 3 in the middle and 0 above, which is read as 5: the bottom does not read that
        (8, Err(read_fault(Cause::NotMultiple, 2, 5))),
    ]
}

// However the three are put together, they answer so.
#[test]
fn three_rungs_tell_faults_from_each_of_them(rt: HostRuntime) {
    let pile = Pile {
        upper: Coarse::new(5),
        lower: Pile {
            upper: Offset::new(5),
            lower: Coarse::new(2),
        },
    };
    rung_answers(&rt, &pile, &reads(), &shows());
    let pile = Pile {
        upper: Pile {
            upper: Coarse::new(5),
            lower: Offset::new(5),
        },
        lower: Coarse::new(2),
    };
    rung_answers(&rt, &pile, &reads(), &shows());
    assert_eq!(rt; pile.loss(), 5);
    assert_eq!(rt; pile.spread(12), 12);
    assert_eq!(rt; pile.rungs(), 3);
}

#[test]
fn losses_add_up_to_the_limit(rt: HostRuntime) {
    for (step, loss) in [
        (1, 999),
        (7, 1_005),
        (999_999_999_001, 999_999_999_999),
        (999_999_999_003, 1_000_000_000_000),
        (u64::MAX, 1_000_000_000_000),
    ] {
        let pile = Pile {
            upper: Coarse::new(1_000),
            lower: Pile {
                upper: Coarse::new(step),
                lower: Tai,
            },
        };
        assert_eq!(rt; pile.loss(), loss);
        assert_eq!(rt; pile.spread(u64::MAX), 1_000_000_000_000);
    }
}
