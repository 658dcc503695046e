// Years and months as days, and days as years and months.
ghost use Rattle.std.specs.Prelude.{◌≡◌, ◌+◌, ◌-◌, ◌*◌, ◌<◌, ◌≤◌};
ghost use Rattle.calendar.specs.Calendar.{leap, month_days, year_days, months_days, before_year, InYear, InMonth};

pub(crate) const FIRST_YEAR: u16 = 1970;

pub(crate) const LAST_YEAR: u16 = 2199;

pub(crate) const LAST_DAY: u32 = 84_005;

// The days of a common year before each month, and at the end those of the whole year.
const DAYS_BEFORE: [u16; 13] = [0, 31, 59, 90, 120, 151, 181, 212, 243, 273, 304, 334, 365];

pub(crate) fn is_leap(year: u16) -> bool
    ensures { result ≡ leap year }
{
    year % 4 == 0 && (year % 100 != 0 || year % 400 == 0)
}

pub(crate) fn days_in_month(year: u16, month: u8) -> u8
    ensures { result ≡ month_days year month }
{
    match month {
        2 => { if is_leap(year) { 29 } else { 28 } }
        4 | 6 | 9 | 11 => 30,
        _ => 31,
    }
}

// The days of the years before `year`. A plain number: a type for years from 1970 on would be taken apart again in each function here.
pub(crate) fn year_start(year: u16) -> u32
    requires from { 1970 ≤ year }
    requires to { year ≤ 2200 }
    ensures { result ≡ before_year year }
{
    let last = year as u32 - 1;
    365 * (year as u32 - 1970) + last / 4 - last / 100 + last / 400 - 477
}

// The days of `year` before its month `month`.
pub(crate) fn month_start(year: u16, month: u8) -> u16
    requires year_from { 1970 ≤ year }
    requires month_from { 1 ≤ month }
    requires month_to { month ≤ 13 }
    ensures { months_days (12 * (year - 1970) + (month - 1)) ≡ before_year year + result }
{
    let days = DAYS_BEFORE[month as usize - 1];
    if month > 2 && is_leap(year) {
        days + 1
    } else {
        days
    }
}

// The year of a day, and the days of that year before it.
pub(crate) fn year_of(day: u32) -> (u16, u16)
    requires { day ≤ 84005 }
    ensures { InYear day result.0 result.1 }
{
    // So many years are over, or one more.
    let year = FIRST_YEAR + (day / 366) as u16;
    let next = year_start(year + 1);
    if next <= day {
        (year + 1, (day - next) as u16)
    } else {
        (year, (day - year_start(year)) as u16)
    }
}

// The month and the day of the month that come after `days` days of a year.
pub(crate) fn month_of(year: u16, days: u16) -> (u8, u8)
    requires from { 1970 ≤ year }
    requires within { days < year_days year }
    ensures { InMonth year days result.0 result.1 }
{
    // So many months are over, or one more.
    let month = (days / 31) as u8 + 1;
    let next = month_start(year, month + 1);
    if next <= days {
        (month + 1, (days - next) as u8 + 1)
    } else {
        (month, (days - month_start(year, month)) as u8 + 1)
    }
}
