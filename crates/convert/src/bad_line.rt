// What is wrong with a line that no stamp can be read from.
use calendar::field::DateField;
use readable::clock::{Clock, UnknownClock};
use std::error::Error;
use std::fmt;

#[derive(Clone, Copy, Debug)]
pub(crate) enum BadLine<'a> {
    NotText,
    Clock(UnknownClock<'a>),
    // what comes after the clock's word
    Stamp(Clock, BadStamp<'a>),
}

#[derive(Clone, Copy, Debug)]
pub(crate) enum BadStamp<'a> {
    Missing,
    Trailing(&'a str),
    NotDigits(&'a str),
    TooLarge(&'a str),
    LongFraction(&'a str),
    NotCivil(&'a str),
    Date(DateField),
    Time,
}

impl<'a> From<UnknownClock<'a>> for BadLine<'a> {
    fn from(unknown: UnknownClock<'a>) -> BadLine<'a> {
        BadLine::Clock(unknown)
    }
}

impl From<DateField> for BadStamp<'_> {
    fn from(field: DateField) -> Self {
        BadStamp::Date(field)
    }
}

impl fmt::Display for BadLine<'_> {
    fn fmt<W: fmt::Write>(&self, f: &mut fmt::Formatter<W>) -> fmt::Result {
        match *self {
            BadLine::NotText => write!(f, "the line is no text in UTF-8"),
            BadLine::Clock(unknown) => write!(f, "{unknown}"),
            BadLine::Stamp(clock, bad) => write!(f, "{bad}: expected {clock} {}", form(clock)),
        }
    }
}

impl fmt::Display for BadStamp<'_> {
    fn fmt<W: fmt::Write>(&self, f: &mut fmt::Formatter<W>) -> fmt::Result {
        match *self {
            BadStamp::Missing => write!(f, "the line ends too early"),
            BadStamp::Trailing(text) => write!(f, "unexpected {text:?}"),
            BadStamp::NotDigits(text) => write!(f, "{text:?} is no number in plain digits"),
            BadStamp::TooLarge(text) => write!(f, "{text} is too large a number"),
            BadStamp::LongFraction(text) => write!(f, "{text} are more than nine digits"),
            BadStamp::NotCivil(text) => write!(f, "{text} is no date and time"),
            BadStamp::Date(field) => write!(f, "{field}"),
            BadStamp::Time => write!(
                f,
                "the day has no such time (a second 60 comes only at 23:59)"
            ),
        }
    }
}

// How a clock's stamps are written.
fn form(clock: Clock) -> &'static str {
    match clock {
        Clock::Tai => "TICKS",
        Clock::Utc => "yyyy-mm-ddThh:mm:ss[.FRACTION]",
        Clock::Posix | Clock::Smear => "SECONDS[.FRACTION]",
        Clock::Ntp => "SECONDS [FRACTION]",
        Clock::Gps => "WEEK MILLISECONDS",
    }
}

impl Error for BadLine<'_> {}

impl Error for BadStamp<'_> {}
