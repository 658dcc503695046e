// Tests of clocks, with expected values from outside: published dates and week numbers, and arithmetic by hand.
#![tactic(auto)]

#[cfg(test)]
mod answers;
#[cfg(test)]
mod banks_of_feeds;
#[cfg(test)]
mod gps_weeks;
#[cfg(test)]
mod ntp_stamps;
#[cfg(test)]
mod piles;
#[cfg(test)]
mod posix_stamps;
#[cfg(test)]
mod scales;
#[cfg(test)]
mod simple_rungs;
