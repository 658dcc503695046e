// Tests of the joiner, with both bodies that our records carry.
#![tactic(auto)]

#[cfg(test)]
mod events;
#[cfg(test)]
mod places;
