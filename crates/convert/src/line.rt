// The stamp that a line writes: the clock's word first, and then what the clock needs.
ghost use Rattle.std.specs.Prelude.{◌<◌, ◌^◌};

use crate::bad_line::{BadLine, BadStamp};
use crate::numbers::{seconds, whole, with_nanos};
use calendar::date::Date;
use clocks::limits::SECOND;
use readable::clock::Clock;
use readable::stamp::Stamp;
use std::str::{FromStr, SplitWhitespace};

pub(crate) fn stamp_of(line: &str) -> Result<Stamp, BadLine<'_>> {
    let (word, rest) = line.split_once(char::is_whitespace).unwrap_or((line, ""));
    let clock = Clock::try_from(word)?;
    let words = Words(rest.split_whitespace());
    let fields = words
        .fields(clock)
        .map_err(|bad| BadLine::Stamp(clock, bad))?;
    Ok(Stamp { clock, fields })
}

// What comes after the clock's word.
#[derive(Drop)]
struct Words<'a>(SplitWhitespace<'a>);

impl<'a> Words<'a> {
    // The two fields of a clock's stamp, with nothing after them.
    fn fields(mut self, clock: Clock) -> Result<(u64, u64), BadStamp<'a>> {
        let fields = match clock {
            Clock::Tai => split_ticks(whole(self.next()?)?),
            Clock::Utc => civil(self.next()?)?,
            Clock::Posix | Clock::Smear => seconds(self.next()?)?,
            Clock::Ntp => (whole(self.next()?)?, self.0.next().map_or(Ok(0), whole)?),
            Clock::Gps => (whole(self.next()?)?, whole(self.next()?)?),
        };
        match self.0.next() {
            Some(extra) => Err(BadStamp::Trailing(extra)),
            None => Ok(fields),
        }
    }

    fn next(&mut self) -> Result<&'a str, BadStamp<'a>> {
        self.0.next().ok_or(BadStamp::Missing)
    }
}

fn split_ticks(ticks: u64) -> (u64, u64) {
    (ticks / SECOND, ticks % SECOND)
}

// A date and a time of day as the civil form has them: yyyymmdd, and hhmmss with nine digits of nanoseconds.
fn civil(text: &str) -> Result<(u64, u64), BadStamp<'_>> {
    let (moment, nanos) = with_nanos(text)?;
    let (date, time) = moment.split_once('T').ok_or(BadStamp::NotCivil(text))?;
    let date = Triple::cut(date, '-', 4).ok_or(BadStamp::NotCivil(text))?;
    let time = Triple::cut(time, ':', 2).ok_or(BadStamp::NotCivil(text))?;
    date.check_date()?;
    time.check_time()?;
    Ok((date.joined(), time.joined() * SECOND + nanos as u64))
}

// Three numbers between which a sign stands.
#[derive(Clone, Copy)]
struct Triple {
    first: u16,
    middle: u8,
    last: u8,
}

impl Triple {
    // The first has so many digits, the others have two.
    fn cut(text: &str, sign: char, digits: usize) -> Option<Triple> {
        let (first, rest) = text.split_once(sign)?;
        let (middle, last) = rest.split_once(sign)?;
        Some(Triple {
            first: of_digits(first, digits)?,
            middle: of_digits(middle, 2)?,
            last: of_digits(last, 2)?,
        })
    }

    fn check_date(&self) -> Result<(), BadStamp<'static>> {
        Date::new(self.first, self.middle, self.last)?;
        Ok(())
    }

    // A second may be inserted after the last of the day.
    fn check_time(&self) -> Result<(), BadStamp<'static>> {
        let Triple {
            first,
            middle,
            last,
        } = *self;
        if first > 23 || middle > 59 || last > 60 || (last == 60 && (first, middle) != (23, 59)) {
            return Err(BadStamp::Time);
        }
        Ok(())
    }

    // As one number, with two digits for each of the last two.
    fn joined(&self) -> u64
        ensures { result < 10 ^ 9 }
    {
        (self.first as u64 * 100 + self.middle as u64) * 100 + self.last as u64
    }
}

fn of_digits<N: FromStr>(text: &str, digits: usize) -> Option<N>
where
    N::Err: Drop,
{
    if text.len() != digits {
        return None;
    }
    whole(text).ok()
}
