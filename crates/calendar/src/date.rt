// A date of the years 1970 to 2199.
ghost use Rattle.std.specs.Prelude.{◌≡◌, ◌<◌, ◌≤◌, ◌↔◌, IsTrue, IfSome, Some, None, MatchOption, MatchResult};
ghost use Rattle.calendar.specs.Calendar.{last_day, day_number, ValidDate, FirstOfMonth, month_first};
ghost use Rattle.calendar.specs.Dates.{wrong_field, Apart, StandsAlone};

use crate::days::{
    FIRST_YEAR, LAST_DAY, LAST_YEAR, days_in_month, month_of, month_start, year_of, year_start,
};
use crate::field::DateField;

/// A date of the calendar: no other can be made.
#[derive(Clone, Copy, PartialEq, Eq, PartialOrd, Ord, Debug)]
pub struct Date {
    year: u16,
    month: u8,
    day: u8,
    ghost valid: { ValidDate year month day },
}

impl Date {
    /// The date of these fields, or the first of them that is wrong.
    pub fn new(year: u16, month: u8, day: u8) -> Result<Date, DateField>
        ensures { MatchResult result (λ d. (wrong_field year month day ≡ None) × (d.year ≡ year) × (d.month ≡ month) × (d.day ≡ day)) (λ f. wrong_field year month day ≡ Some f) }
    {
        if !(FIRST_YEAR..=LAST_YEAR).contains(&year) {
            return Err(DateField::Year);
        }
        if !(1..=12).contains(&month) {
            return Err(DateField::Month);
        }
        if !(1..=days_in_month(year, month)).contains(&day) {
            return Err(DateField::Day);
        }
        Ok(Date { year, month, day })
    }

    /// The date of a day number; none after the last day, 84,005.
    pub fn of_day(day: u32) -> Option<Date>
        ensures numbered { MatchOption result (last_day < day) (λ d. day_number d.year d.month d.day ≡ day) }
        ensures alone { IfSome result (λ d. StandsAlone d.year d.month d.day day) }
    {
        if day > LAST_DAY {
            return None;
        }
        let (year, days) = year_of(day);
        let (month, day) = month_of(year, days);
        Some(Date { year, month, day })
    }

    pub fn year(&self) -> u16
        ensures { result ≡ self.now.year }
    {
        self.year
    }

    pub fn month(&self) -> u8
        ensures { result ≡ self.now.month }
    {
        self.month
    }

    pub fn day(&self) -> u8
        ensures { result ≡ self.now.day }
    {
        self.day
    }

    /// The days from 1970-01-01 to this date.
    pub fn day_number(&self) -> u32
        ensures is { result ≡ day_number self.now.year self.now.month self.now.day }
        ensures last { result ≤ last_day }
        ensures alone { StandsAlone self.now.year self.now.month self.now.day result }
    {
        let Date { year, month, day } = *self;
        year_start(year) + month_start(year, month) as u32 + (day - 1) as u32
    }
}

/// Whether a day is the first of a month.
pub fn is_month_first(day: u32) -> bool
    ensures says { IsTrue result ↔ FirstOfMonth day }
    ensures test { result ≡ month_first day }
    ensures apart { FirstOfMonth day → Apart day }
{
    Date::of_day(day).is_some_and(|date| date.day == 1)
}
