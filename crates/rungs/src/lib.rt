// The rungs that need no leap table, and piles of rungs.
#![tactic(auto)]

pub mod coarse;
pub mod offset;
pub mod pile;
pub mod tai;
