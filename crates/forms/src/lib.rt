// The forms that need no calendar: POSIX seconds, NTP and GPS weeks.
#![tactic(auto)]

mod fields;
pub mod gps;
pub mod ntp;
pub mod posix;
mod window;
