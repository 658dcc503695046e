// Tests of the crates below, with expected values from outside: the system's own lists, published dates, arithmetic by hand.
#![tactic(auto)]

#[cfg(test)]
mod dates;
#[cfg(test)]
mod frames_text;
#[cfg(test)]
mod leap_seconds;
#[cfg(test)]
mod numbers;
#[cfg(test)]
mod runs;
