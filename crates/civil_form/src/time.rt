// Times of day as hhmmss.
ghost use Rattle.std.specs.Prelude.{◌≡◌, ◌<◌, IfOk, Ok};
ghost use Rattle.clocks.specs.Stamps.{fields_if};
ghost use Rattle.utc.specs.Labels.{label_seconds};
ghost use Rattle.civil.specs.Civil.{minute_seconds, no_time, seconds_read, time_shown};

use crate::fields::{apart, join, wrong_field};
use refusals::fault::Fault;
use utc::labels::MOST_INSERTED;

// The last minute of a day, 23:59.
const LAST_MINUTE: u64 = 23 * 60 + 59;

// The seconds that a minute may have: seconds are inserted in the day's last alone.
fn minute_seconds(hour: u64, minute: u64) -> u64
    ensures { result ≡ minute_seconds hour minute }
{
    if hour == 23 && minute == 59 {
        60 + MOST_INSERTED
    } else {
        60
    }
}

// The seconds since the day's start at a time.
pub(crate) fn read_time(time: u64) -> Result<u64, Fault>
    ensures is { result ≡ fields_if (no_time time) (Ok (seconds_read time)) }
    ensures within { IfOk result (λ second. second < label_seconds) }
{
    let (hour, minute, second) = apart(time);
    if hour >= 24 || minute >= 60 || second >= minute_seconds(hour, minute) {
        return Err(wrong_field());
    }
    Ok((hour * 60 + minute) * 60 + second)
}

// The time of a second of a day.
pub(crate) fn show_time(second: u64) -> u64
    requires { second < label_seconds }
    ensures { result ≡ time_shown second }
{
    // The last minute takes all that is left of the day.
    let minute = (second / 60).min(LAST_MINUTE);
    join(minute / 60, minute % 60, second - minute * 60)
}
