// Frames and answer lines as text.
use answers::answer::write_answer;
use answers::encode::write_call;
use calls::call::{Call, Handed, Reply};
use calls::event::{Action, LicenceEvent};
use frames::decode::decode;
use frames::lines::FrameReader;
use leap::bulletin::Bulletin;
use refusals::fault::{Cause, Fault, Way};
use refusals::refusal::Refusal;
use std::test::Fail;
use wire::kind::{Kind, UnknownKind};

const EVENT: LicenceEvent = LicenceEvent {
    action: Action::Taken,
    seat: 42,
    tool: 7,
};

// 2017-01-01 00:00:00 UTC, put to feed 2 as POSIX seconds: seat 42 of tool 7 is taken.
#[test]
fn a_put_is_read_and_written(rt: HostRuntime) -> Result<(), Fail> {
    let line = b"010200000000586846800000000000000000010000002a0007";
    assert_eq!(rt;
        decode(line)?,
        Call::Put {
            feed: 2,
            stamp: (1_483_228_800, 0),
            body: EVENT,
        }
    );
    Ok(())
}

#[test]
fn calls_are_written_as_frames(rt: HostRuntime) -> Result<(), Fail> {
    let calls = [
        Call::Put {
            feed: 2,
            stamp: (1_483_228_800, 0),
            body: EVENT,
        },
        Call::Close { feed: 255 },
        Call::Take,
        Call::Renew(Bulletin {
            change: 1,
            day: 20_089,
            expiry: 20_270,
        }),
    ];
    let mut text = Vec::new(rt.alloc());
    for call in calls {
        write_call(&mut text, call)?;
    }
    assert_eq!(rt;
        text.as_slice(),
        b"010200000000586846800000000000000000010000002a0007\n02ff\n03\n040100004e7900004f2e\n".as_slice()
    );
    Ok(())
}

#[test]
fn other_lines_are_no_frames(rt: HostRuntime) {
    let lines = [
        b"".as_slice(),
        b"3".as_slice(),
        b"03\r".as_slice(),
        b"02FF".as_slice(),
        b"0\0".as_slice(),
        b"040100004e7900004f2e00".as_slice(),
        b"010200000000586846800000000000000000040000002a0007".as_slice(),
    ];
    for line in lines {
        assert_eq!(rt; decode(line), Err(Refusal::Malformed));
    }
}

#[test]
fn answers_are_written_as_lines(rt: HostRuntime) -> Result<(), Fail> {
    let fault = Fault {
        cause: Cause::Expired,
        rung: 2,
        way: Way::Showing,
        count: 1,
    };
    let handed = Handed {
        feed: 2,
        tick: 1_483_228_837_000_000_000,
        body: EVENT,
    };
    let answers = [
        Err(Refusal::Malformed),
        Ok(Reply::Put(Ok(1_483_228_837_000_000_000))),
        Ok(Reply::Put(Err(Refusal::Clock(fault)))),
        Ok(Reply::Take(Ok(handed))),
        Ok(Reply::Take(Err(Refusal::NoneWaits { idle: 6, feed: 3 }))),
        Ok(Reply::Close(Ok(()))),
        Ok(Reply::Renew(Err(Refusal::TableLimit))),
    ];
    let mut text = Vec::new(rt.alloc());
    for answer in answers {
        write_answer(&mut text, answer)?;
    }
    assert_eq!(rt;
        text.as_slice(),
        b"0001\n010014957cc4ce003200\n010b02010000000000000001\n03000214957cc4ce003200010000002a0007\n031106\n0200\n0416\n".as_slice()
    );
    Ok(())
}

#[test]
fn lines_end_at_line_feeds_or_the_end(rt: HostRuntime) {
    let mut reader = FrameReader::new(b"03\n\n02\r\n01");
    assert_eq!(rt; reader.next(), Some(b"03".as_slice()));
    assert_eq!(rt; reader.next(), Some(b"".as_slice()));
    assert_eq!(rt; reader.next(), Some(b"02\r".as_slice()));
    assert_eq!(rt; reader.next(), Some(b"01".as_slice()));
    assert_eq!(rt; reader.next(), None);
    assert_eq!(rt; FrameReader::new(b"").next(), None);
}

#[test]
fn frames_begin_with_the_bytes_1_to_4(rt: HostRuntime) {
    let kinds = [
        (Kind::Put, 1),
        (Kind::Close, 2),
        (Kind::Take, 3),
        (Kind::Renew, 4),
    ];
    for (kind, byte) in kinds {
        assert_eq!(rt; u8::from(kind), byte);
        assert_eq!(rt; Kind::try_from(byte), Ok(kind));
    }
    assert_eq!(rt; Kind::try_from(0u8), Err(UnknownKind(0)));
    assert_eq!(rt; Kind::try_from(5u8), Err(UnknownKind(5)));
}
