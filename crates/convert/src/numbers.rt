// Numbers as lines write them: in digits alone, with no sign.
use crate::bad_line::BadStamp;
use std::str::FromStr;

// The places of a fraction of a second.
const PLACES: usize = 9;

fn is_digits(text: &str) -> bool {
    !text.is_empty() && text.bytes().all(|byte| byte.is_ascii_digit())
}

pub(crate) fn whole<N: FromStr>(text: &str) -> Result<N, BadStamp<'_>>
where
    N::Err: Drop,
{
    if !is_digits(text) {
        return Err(BadStamp::NotDigits(text));
    }
    text.parse().map_err(|_| BadStamp::TooLarge(text))
}

// Seconds, and the nanoseconds that may follow a point.
pub(crate) fn seconds(text: &str) -> Result<(u64, u64), BadStamp<'_>> {
    let (seconds, nanos) = with_nanos(text)?;
    Ok((whole(seconds)?, nanos as u64))
}

// What comes before a point, and the nanoseconds after it; none where there is no point.
pub(crate) fn with_nanos(text: &str) -> Result<(&str, u32), BadStamp<'_>> {
    match text.split_once('.') {
        Some((before, fraction)) => Ok((before, nanos(fraction)?)),
        None => Ok((text, 0)),
    }
}

fn nanos(fraction: &str) -> Result<u32, BadStamp<'_>> {
    if fraction.len() > PLACES {
        return Err(BadStamp::LongFraction(fraction));
    }
    let digits: u32 = whole(fraction)?;
    // nine places at most, so nothing is cut
    Ok((fraction.len()..PLACES).fold(digits, |nanos, _| nanos.saturating_mul(10)))
}
