// Places of lines in a storage log.
use banks::scale::Scale;
use calls::call::{Call, Handed, Reply};
use calls::place::LinePlace;
use forms::posix::Posix;
use joiner::joiner::Joiner;
use joiner::shelf::Shelf;
use refusals::refusal::Refusal;
use rungs::tai::Tai;

#[test]
fn places_of_log_lines_are_kept_in_order(rt: HostRuntime) {
    let first = LinePlace {
        start: 0,
        length: 80,
    };
    let second = LinePlace {
        start: 80,
        length: 41,
    };
    let mut slots = [LinePlace {
        start: 0,
        length: 0,
    }; 3];
    let mut shelf = Shelf::new(&mut slots);
    assert_eq!(rt; shelf.len(), 3);
    let mut joiner = Joiner::new(
        Scale {
            form: Posix,
            rung: Tai,
        },
        &shelf,
    );
    assert_eq!(rt;
        joiner.put(&mut shelf, 0, (10, 1), first),
        Ok(10_000_000_001)
    );
    assert_eq!(rt;
        joiner.take(&mut shelf),
        Ok(Handed {
            feed: 0,
            tick: 10_000_000_001,
            body: first,
        })
    );
    assert_eq!(rt;
        joiner.put(&mut shelf, 0, (10, 0), second),
        Err(Refusal::Behind)
    );
    assert_eq!(rt;
        joiner.put(&mut shelf, 0, (10, 1), second),
        Ok(10_000_000_001)
    );
    assert_eq!(rt;
        joiner.call(&mut shelf, Call::Take),
        Reply::Take(Ok(Handed {
            feed: 0,
            tick: 10_000_000_001,
            body: second,
        }))
    );
}
