// Scales: forms over rungs.
use crate::answers::{read_fault, scale_answers, show_fault};
use banks::scale::Scale;
use forms::gps::Gps;
use forms::posix::Posix;
use refusals::fault::{Cause, Fault};
use rungs::coarse::Coarse;
use rungs::offset::Offset;
use rungs::pile::Pile;
use rungs::tai::Tai;

// GPS time is 19 seconds behind TAI, and its first week began 3,657 days after 1970-01-01.
const GPS_BEHIND: u64 = 315_964_819_000_000_000;

// 2017-01-01 00:00:00 UTC was GPS week 1,930 and 18 seconds; TAI was then 37 seconds ahead of UTC.
fn gps_reads() -> [((u64, u64), Result<u64, Fault>); 2] {
    [
        ((906, 18_000), Ok(1_483_228_837_000_000_000)),
        ((906, 604_800_000), Err(read_fault(Cause::Field, 0, 0))),
    ]
}

fn gps_shows() -> [(u64, Result<(u64, u64), Fault>); 3] {
    [
        (1_483_228_837_000_999_999, Ok((906, 18_000))),
        (19, Err(show_fault(Cause::NoCount, 1, 19))),
        (GPS_BEHIND, Err(show_fault(Cause::Window, 0, 0))),
    ]
}

#[test]
fn gps_over_an_offset_is_tai(rt: HostRuntime) {
    let scale = Scale {
        form: Gps::new(1_800),
        rung: Pile {
            upper: Offset::new(GPS_BEHIND),
            lower: Tai,
        },
    };
    scale_answers(&rt, &scale, &gps_reads(), &gps_shows());
    assert_eq!(rt; scale.told_loss(), 999_999);
}

fn reads() -> [((u64, u64), Result<u64, Fault>); 4] {
    [
        ((0, 1_000), Ok(1_005)),
        ((0, 1_000_000_000), Err(read_fault(Cause::Field, 0, 0))),
        ((0, 1), Err(read_fault(Cause::NotMultiple, 1, 1))),
        ((0, 2_000), Err(read_fault(Cause::NotMultiple, 3, 2_005))),
    ]
}

fn shows() -> [(u64, Result<(u64, u64), Fault>); 4] {
    [
        // 1,008 below, then 1,003 and 1,000, which is read as 1,005, a multiple of 3
        (1_010, Ok((0, 1_000))),
        // 2,007 below, then 2,002 and 2,000, which is read as 2,005
        (2_008, Err(read_fault(Cause::NotMultiple, 3, 2_005))),
        (2, Err(show_fault(Cause::NoCount, 2, 0))),
        (u64::MAX, Err(show_fault(Cause::NoCount, 3, u64::MAX))),
    ]
}

// POSIX over steps of 1,000, an offset of 5 and steps of 3.
#[test]
fn the_form_is_rung_0(rt: HostRuntime) {
    let rung = Pile {
        upper: Coarse::new(1_000),
        lower: Pile {
            upper: Offset::new(5),
            lower: Coarse::new(3),
        },
    };
    let scale = Scale { form: Posix, rung };
    scale_answers(&rt, &scale, &reads(), &shows());
    assert_eq!(rt; scale.told_loss(), 1_001);
}
