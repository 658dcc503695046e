// The Gregorian calendar of the years 1970 to 2199: dates, and the days that they are counted by from 1970-01-01.
#![tactic(auto)]

pub mod date;
mod days;
pub mod field;
