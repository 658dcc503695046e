// What is to be rehearsed, as the arguments say it.
ghost use Rattle.std.specs.Prelude.{◌<◌, IfSome};

use crate::step::StepKind;
use calendar::date::Date;
use calendar::field::DateField;
use std::error::Error;
use std::fmt;

/// A second that is inserted or deleted right before a date.
#[derive(Clone, Copy, PartialEq, Eq, Debug)]
pub struct Plan {
    pub date: Date,
    pub kind: StepKind,
}

/// Why arguments say no plan.
#[derive(Clone, Copy, PartialEq, Eq, Debug)]
pub enum BadArguments<'a> {
    NoDate(&'a str),
    WrongDate(&'a str, DateField),
    NoKind(&'a str),
    TooMany,
    NoDefault,
}

impl Plan {
    /// The plan of the program's arguments. Where they name no date, the table's expiry says which comes next.
    pub fn of_words(words: &[String], expiry: u32) -> Result<Plan, BadArguments<'_>> {
        match words {
            [] => Ok(Plan {
                date: next_after(expiry).ok_or(BadArguments::NoDefault)?,
                kind: StepKind::Inserted,
            }),
            [date] => Ok(Plan {
                date: date_of(date.as_str())?,
                kind: StepKind::Inserted,
            }),
            [date, kind] => Ok(Plan {
                date: date_of(date.as_str())?,
                kind: kind_of(kind.as_str())?,
            }),
            _ => Err(BadArguments::TooMany),
        }
    }
}

// The next 1 January or 1 July after a day: seconds are inserted before these first.
fn next_after(day: u32) -> Option<Date> {
    let date = Date::of_day(day)?;
    if date.month() < 7 {
        Date::new(date.year(), 7, 1).ok()
    } else {
        Date::new(date.year() + 1, 1, 1).ok()
    }
}

// The date that a word writes as yyyy-mm-dd.
fn date_of(word: &str) -> Result<Date, BadArguments<'_>> {
    let [y1, y2, y3, y4, b'-', m1, m2, b'-', d1, d2] = word.as_bytes() else {
        return Err(BadArguments::NoDate(word));
    };
    let century = two_digits(*y1, *y2).ok_or(BadArguments::NoDate(word))?;
    let year = two_digits(*y3, *y4).ok_or(BadArguments::NoDate(word))?;
    let month = two_digits(*m1, *m2).ok_or(BadArguments::NoDate(word))?;
    let day = two_digits(*d1, *d2).ok_or(BadArguments::NoDate(word))?;
    let year = u16::from(century) * 100 + u16::from(year);
    Date::new(year, month, day).map_err(|field| BadArguments::WrongDate(word, field))
}

// The number that two digits write.
fn two_digits(tens: u8, ones: u8) -> Option<u8>
    ensures { IfSome result (λ n. n < 100) }
{
    if tens.is_ascii_digit() && ones.is_ascii_digit() {
        Some((tens - b'0') * 10 + (ones - b'0'))
    } else {
        None
    }
}

fn kind_of(word: &str) -> Result<StepKind, BadArguments<'_>> {
    match word {
        "insert" => Ok(StepKind::Inserted),
        "delete" => Ok(StepKind::Deleted),
        _ => Err(BadArguments::NoKind(word)),
    }
}

impl fmt::Display for BadArguments<'_> {
    fn fmt<W: fmt::Write>(&self, f: &mut fmt::Formatter<W>) -> fmt::Result {
        match self {
            BadArguments::NoDate(word) => {
                write!(f, "{word:?} is no date: expected yyyy-mm-dd, as 2025-01-01")
            }
            BadArguments::WrongDate(word, field) => write!(f, "{word:?} is no date: {field}"),
            BadArguments::NoKind(word) => write!(f, "{word:?} is neither insert nor delete"),
            BadArguments::TooMany => write!(f, "too many arguments"),
            BadArguments::NoDefault => write!(f, "no date comes next: the calendar ends"),
        }
    }
}

impl Error for BadArguments<'_> {}

#[cfg(test)]
mod tests {
    use super::*;
    use std::test::Fail;

    // The plan of these arguments, where the table expires on 2024-10-04.
    fn plan_of(rt: &HostRuntime, words: &[&str]) -> Result<Option<(u32, StepKind)>, Fail> {
        let mut owned = Vec::new(rt.alloc());
        for word in words {
            owned.push(String::from_str(rt.alloc(), word)?)?;
        }
        let plan = Plan::of_words(owned.as_slice(), 20_000).ok();
        Ok(plan.map(|plan| (plan.date.day_number(), plan.kind)))
    }

    #[test]
    fn arguments_say_a_plan(rt: HostRuntime) -> Result<(), Fail> {
        let inserted = Some((20_089, StepKind::Inserted));
        assert_eq!(rt; plan_of(&rt, &[])?, inserted);
        assert_eq!(rt; plan_of(&rt, &["2025-01-01"])?, inserted);
        assert_eq!(rt; plan_of(&rt, &["2025-01-01", "insert"])?, inserted);
        let deleted = Some((20_270, StepKind::Deleted));
        assert_eq!(rt; plan_of(&rt, &["2025-07-01", "delete"])?, deleted);
        Ok(())
    }

    #[test]
    fn other_arguments_say_none(rt: HostRuntime) -> Result<(), Fail> {
        for words in [
            ["soon", "insert"],
            ["2025-1-01", "insert"],
            ["2025/01/01", "insert"],
            ["+025-01-01", "insert"],
            ["2025-13-01", "insert"],
            ["2023-02-29", "insert"],
            ["1969-07-01", "insert"],
            ["2025-01-01", "Insert"],
            ["2025-01-01", ""],
        ] {
            assert_eq!(rt; plan_of(&rt, &words)?, None, "{words:?}");
        }
        assert_eq!(rt; plan_of(&rt, &["2025-01-01", "insert", "insert"])?, None);
        Ok(())
    }

    #[test]
    fn seconds_are_inserted_at_half_years(rt: HostRuntime) {
        // 2025-01-01 is the day 20,089, 2025-07-01 the day 20,270, 2026-01-01 the day 20,454, and 84,005 is the last
        for (day, next) in [
            (20_000, Some(20_089)),
            (20_088, Some(20_089)),
            (20_089, Some(20_270)),
            (20_269, Some(20_270)),
            (20_270, Some(20_454)),
            (84_005, None),
            (84_006, None),
        ] {
            let date = next_after(day).map(|date| date.day_number());
            assert_eq!(rt; date, next, "after {day}");
        }
    }
}
