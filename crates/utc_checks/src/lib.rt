// Tests of the clocks that tell UTC, with expected values from outside: the system's list of leap seconds, published dates and arithmetic by hand.
#![tactic(auto)]

#[cfg(test)]
mod answers;
#[cfg(test)]
mod civil_stamps;
#[cfg(test)]
mod days_and_expiry;
#[cfg(test)]
mod inserted_seconds;
#[cfg(test)]
mod published_pairs;
#[cfg(test)]
mod smeared_time;
