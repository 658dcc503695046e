// Dates as yyyymmdd.
ghost use Rattle.std.specs.Prelude.{◌≡◌, ◌≤◌, cond, IfOk, Ok, Some, None, nat_lt};
ghost use Rattle.calendar.specs.Calendar.{last_day};
ghost use Rattle.clocks.specs.Stamps.{fields_if};
ghost use Rattle.civil.specs.Civil.{no_date, day_read, date_shown};

use crate::fields::{apart, join, wrong_field};
use calendar::date::Date;
use refusals::fault::Fault;

// The day of a date.
pub(crate) fn read_day(date: u64) -> Result<u32, Fault>
    ensures is { result ≡ fields_if (no_date date) (Ok (day_read date)) }
    ensures last { IfOk result (λ day. day ≤ last_day) }
{
    let (year, month, day) = apart(date);
    let year = u16::try_from(year).map_err(|_| wrong_field())?;
    let date = Date::new(year, month as u8, day as u8).map_err(|_| wrong_field())?;
    Ok(date.day_number())
}

// The date of a day; none after the calendar's last.
pub(crate) fn show_day(day: u32) -> Option<u64>
    ensures { result ≡ cond (nat_lt last_day day) None (Some (date_shown day)) }
{
    let date = Date::of_day(day)?;
    Some(join(date.year() as u64, date.month() as u64, date.day() as u64))
}
