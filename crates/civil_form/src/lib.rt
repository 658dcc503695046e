// The civil form: stamps of a date and a time of day.
#![tactic(auto)]

mod date;
mod fields;
pub mod form;
mod time;
