// Whole runs, from bytes to bytes.
use session::run::{INPUT_LIMIT, answer_lines};
use standard::bank::standard_bank;
use std::test::Fail;

#[test]
fn an_empty_input_has_no_answers(rt: HostRuntime) -> Result<(), Fail> {
    assert_eq!(rt;
        answer_lines(rt.alloc(), standard_bank(), b"")?.as_slice(),
        b"".as_slice()
    );
    Ok(())
}

#[test]
fn a_line_feed_closes_an_empty_line(rt: HostRuntime) -> Result<(), Fail> {
    assert_eq!(rt;
        answer_lines(rt.alloc(), standard_bank(), b"\n03\n")?.as_slice(),
        b"0001\n031106\n".as_slice()
    );
    Ok(())
}

// The last of 65,536 bytes is the first of "03": what is left of that line is no frame, and what follows does not count.
#[test]
fn a_line_is_cut_at_the_limit(rt: HostRuntime) -> Result<(), Fail> {
    let mut input = vec![in rt.alloc(); b'\n'; INPUT_LIMIT - 1]?;
    input.extend_from_slice(b"03\n03\n")?;
    let answers = answer_lines(rt.alloc(), standard_bank(), input.as_slice())?;
    assert_eq!(rt; answers.len(), 5 * INPUT_LIMIT);
    assert!(rt; answers.as_slice().ends_with(b"0001\n"));
    Ok(())
}

// Feed 2 reads POSIX counts of UTC: 0x58684680 is 1,483,228,800, the midnight that began 2017, after which TAI was 37 seconds ahead. So the tick is 1,483,228,837 seconds.
#[test]
fn a_posix_stamp_of_utc_is_put_and_taken(rt: HostRuntime) -> Result<(), Fail> {
    let input = b"010200000000586846800000000000000000010000002a0007\n03\n03\n0201\nzz\n";
    let answers = answer_lines(rt.alloc(), standard_bank(), input)?;
    assert_eq!(rt;
        answers.as_slice(),
        b"010014957cc4ce003200\n03000214957cc4ce003200010000002a0007\n031106\n0200\n0001\n".as_slice()
    );
    Ok(())
}
